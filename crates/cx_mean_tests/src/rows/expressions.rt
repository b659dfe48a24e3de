use crate::programs::Worked;
use crate::rows::{PLAIN, Row};

/// Input, arithmetic, globals, and points at which a run is undefined.
pub const ROWS: &[Row] = &[
    Row {
        of: Worked::CountingBytes,
        input: b"abc",
        told: "in 97\n\
               in 98\n\
               in 99\n\
               in end\n\
               returned 3\n",
        ..PLAIN
    },
    Row {
        of: Worked::CountingBytes,
        told: "in end\n\
               returned 0\n",
        ..PLAIN
    },
    Row {
        of: Worked::Wrapping,
        told: "returned 1\n",
        ..PLAIN
    },
    Row {
        of: Worked::ShiftingTooFar,
        told: "undefined: shift\n",
        ..PLAIN
    },
    Row {
        of: Worked::SteppingAGlobal,
        told: "returned 14\n",
        ..PLAIN
    },
    Row {
        of: Worked::FlowingOffTheEnd,
        told: "undefined: flow\n",
        ..PLAIN
    },
    Row {
        of: Worked::PointingToTheDead,
        told: "undefined: dead\n",
        ..PLAIN
    },
    Row {
        of: Worked::EmptyMain,
        told: "returned 0\n",
        ..PLAIN
    },
    // 115 + 4 + 3 + 28 + 18 + 736 + 0, six comparisons, three of which hold, 5 + 18 + 23, -5 + 0 - 6
    Row {
        of: Worked::Operating,
        told: "returned 942\n",
        ..PLAIN
    },
    Row {
        of: Worked::Skipping,
        told: "returned 4\n",
        ..PLAIN
    },
    Row {
        of: Worked::DividingByZero,
        told: "undefined: division\n",
        ..PLAIN
    },
    // 0 + 1 + 3 + 4
    Row {
        of: Worked::BreakingAndContinuing,
        told: "returned 8\n",
        ..PLAIN
    },
    Row {
        of: Worked::IncrementingAfter,
        told: "returned 5\n",
        ..PLAIN
    },
    Row {
        of: Worked::UsingNull,
        told: "undefined: null\n",
        ..PLAIN
    },
    Row {
        of: Worked::InitialisedByItself,
        told: "undefined: unset\n",
        ..PLAIN
    },
    Row {
        of: Worked::ReferringToItself,
        told: "undefined: null\n",
        ..PLAIN
    },
    Row {
        of: Worked::Referring,
        told: "begin f#post1 definer enforce\n\
               verdict holds\n\
               returned 6\n",
        ..PLAIN
    },
    Row {
        of: Worked::ReturningNothing,
        told: "returned 4\n",
        ..PLAIN
    },
];
