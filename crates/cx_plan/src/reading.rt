ghost use Rattle.std.specs.Prelude.{◌≡◌, ◌+◌, ◌<◌, ◌≤◌, ◌^◌, not, ◌==◌, length, drop, OnOk};
ghost use Rattle.std.specs.List.{prefix_len};
ghost use Rattle.cx_plan.specs.Line.{line_of};
ghost use Rattle.cx_plan.specs.Reading.{with_line, read_lines, Reads, Adds};
ghost use Rattle.cx_plan.specs.Subjects.{AreSubjects};

use crate::fault::PlanFault;
use crate::line::{Line, line_of};
use crate::plan::{Plan, PlanLine};
use crate::subject::{add_subject, subject};
use cx_code::Semantic;
use cx_outside::Items;
use std::alloc::Global;
use std::collections::BTreeSet;

/// The plan that a text is, or its first bad line.
///
/// Arguments: the allocator; the text, which has fewer than 2^32 bytes; the semantic of units that the text doesn't
/// name.
///
/// - `OutOfMemory`: there was no memory.
/// - `BadPlanLine`: the number of the first line that isn't in the grammar, or that says something of a unit, or of an
///   assertion of a unit, of which an earlier line has said something.
///
/// No other fault is answered. The format is this project's own.
#[tactic(auto, using(crate::proofs::Lines::line_taken), unfolding(crate::specs::Reading::lines_of, crate::specs::Reading::lines_from))]
pub fn read_plan(alloc: Global, text: &[u8], semantic: Semantic) -> Result<Plan, PlanFault>
    requires { length text.now < 2 ^ 32 }
    ensures { Reads semantic result (read_lines text.now) }
{
    let mut lines = Items::new(alloc);
    let mut subjects = BTreeSet::new(alloc);
    let mut number: u32 = 0;
    let mut rest = text;
    while !rest.is_empty() {
        number += 1;
        let end = line_length(rest);
        add_line(alloc, &mut lines, &mut subjects, number, &rest[..end])?;
        rest = behind(rest, end);
    }
    Ok(Plan { semantic, lines })
}

/// Adds what a line says, and what it is on to the subjects of the lines so far.
fn add_line<'a>(
    alloc: Global,
    lines: &mut Items<PlanLine>,
    subjects: &mut BTreeSet<&'a [u8]>,
    number: u32,
    line: &'a [u8],
) -> Result<(), PlanFault>
    requires { AreSubjects subjects.old.keys lines.old }
    ensures read { Adds lines.new result (with_line number lines.old (line_of line.now)) }
    ensures subjects { OnOk result (AreSubjects subjects.new.keys lines.new) }
{
    match line_of(alloc, line)? {
        Line::Silent => Ok(()),
        Line::Says(says) => {
            if !add_subject(subjects, subject(line, &says))? {
                return Err(PlanFault::BadPlanLine(number));
            }
            lines.push(PlanLine { number, says })?;
            Ok(())
        }
        Line::Bad => Err(PlanFault::BadPlanLine(number)),
    }
}

/// How many bytes stand before the first newline.
fn line_length(rest: &[u8]) -> usize
    ensures within { result ≤ length rest.now }
    ensures length { result ≡ prefix_len (λ byte. not (byte == 10)) rest.now }
{
    rest.iter().take_while(|byte| **byte != b'\n').count()
}

/// The bytes behind a place, none where it is the last one or behind it.
fn behind(rest: &[u8], place: usize) -> &[u8]
    ensures { result.now ≡ drop (place + 1) rest.now }
{
    if place < rest.len() {
        &rest[place + 1..]
    } else {
        &[]
    }
}
