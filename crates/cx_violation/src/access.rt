ghost use Rattle.std.specs.Prelude.{◌≡◌};
ghost use Rattle.cx_code.specs.Spelling.{kind_code};
ghost use Rattle.cx_code.specs.Act.{mode_code};

use cx_code::{AssertionKind, DetectionMode, Semantic, Violation};

/// What sort of assertion was violated: 1 for a precondition, 2 for a postcondition, 3 for an assertion statement.
/// Takes no memory. Source: [support.contract.enum], `assertion_kind`.
pub fn kind(violation: &Violation) -> u8
    ensures { result ≡ kind_code violation.now.kind }
{
    match violation.kind {
        AssertionKind::Pre => 1,
        AssertionKind::Post => 2,
        AssertionKind::Assert => 3,
    }
}

/// The semantic of the evaluation. Takes no memory. Source: [support.contract.enum], `evaluation_semantic`.
pub fn semantic(violation: &Violation) -> Semantic
    ensures { result ≡ violation.now.semantic }
{
    violation.semantic
}

/// How the violation was detected: 1 where the predicate gave false, 2 where its evaluation exited by an exception.
/// Takes no memory. Source: [support.contract.enum], `detection_mode`.
pub fn mode(violation: &Violation) -> u8
    ensures { result ≡ mode_code violation.now.mode }
{
    match violation.mode {
        DetectionMode::PredicateFalse => 1,
        DetectionMode::EvaluationException => 2,
    }
}

/// The line and the column of the assertion's word, both from 1. Takes no memory. Source: [support.contract.violation],
/// `location`.
pub fn place(violation: &Violation) -> (u32, u32)
    ensures line { result.0 ≡ violation.now.line }
    ensures column { result.1 ≡ violation.now.column }
{
    (violation.line, violation.column)
}

/// The predicate's tokens with one blank between two. Takes no memory. Source: [support.contract.violation], `comment`,
/// whose form is this project's own.
pub fn comment(violation: &Violation) -> &[u8]
    ensures { result.now ≡ violation.now.comment }
{
    violation.comment.bytes()
}
