ghost use Rattle.std.specs.Prelude.{◌≡◌, ◌||◌, not, ℕ, List, IfOk, OnOk};
ghost use Rattle.std.specs.Str.{bytes_eq};
ghost use Rattle.cx_plan.specs.Spelled.{spelled};
ghost use Rattle.cx_plan.specs.Subjects.{subject, has_text};

use crate::plan::Directive;
use cx_outside::NoMemory;
use std::collections::BTreeSet;

/// The words of a line that tell what it is on: `unit NAME` or `at NAME ASSERTION`.
pub fn subject<'a>(line: &'a [u8], says: &Directive) -> &'a [u8]
    requires { line.now ≡ spelled says.now }
    ensures { result.now ≡ subject says.now }
{
    match says {
        Directive::Unit(name, _) => &line[..5 + name.bytes().len()],
        Directive::At(name, assertion, _) => {
            &line[..4 + name.bytes().len() + assertion.bytes().len()]
        }
    }
}

/// Adds a subject, and tells whether it is a new one.
pub fn add_subject<'a>(
    subjects: &mut BTreeSet<&'a [u8]>,
    subject: &'a [u8],
) -> Result<bool, NoMemory>
    ensures is_new { IfOk result (λ is_new. is_new ≡ not (has_text subjects.old.keys subject.now)) }
    ensures keys { OnOk result ((text : List ℕ) → has_text subjects.new.keys text ≡ (bytes_eq text subject.now || has_text subjects.old.keys text)) }
{
    Ok(subjects.insert(subject)?)
}
