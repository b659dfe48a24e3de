ghost use Rattle.std.specs.Prelude.{◌≡◌, ◌++◌, OnOk, OnErr};
ghost use Rattle.std.specs.Fmt.{decimal};
ghost use Rattle.cx_code.specs.Violation.{kind_name, mode_name, semantic_name};

use cx_code::{AssertionKind, DetectionMode, Semantic};
use cx_outside::{NoMemory, Text};
use itoa::Buffer;

/// Adds a number in decimal digits.
pub fn put_decimal(out: &mut Text, n: u32) -> Result<(), NoMemory>
    ensures ok { OnOk result (out.new ≡ out.old ++ decimal n) }
    ensures err { OnErr result (out.new ≡ out.old) }
{
    let mut buffer = Buffer::new();
    out.append(buffer.format(n).as_bytes())
}

pub fn kind_name(kind: AssertionKind) -> &'static str
    ensures { result.now ≡ kind_name kind }
{
    match kind {
        AssertionKind::Pre => "pre",
        AssertionKind::Post => "post",
        AssertionKind::Assert => "assert",
    }
}

pub fn mode_name(mode: DetectionMode) -> &'static str
    ensures { result.now ≡ mode_name mode }
{
    match mode {
        DetectionMode::PredicateFalse => "predicate_false",
        DetectionMode::EvaluationException => "evaluation_exception",
    }
}

pub fn semantic_name(semantic: Semantic) -> &'static str
    ensures { result.now ≡ semantic_name semantic }
{
    match semantic {
        Semantic::Ignore => "ignore",
        Semantic::Observe => "observe",
        Semantic::Enforce => "enforce",
        Semantic::QuickEnforce => "quick_enforce",
    }
}
