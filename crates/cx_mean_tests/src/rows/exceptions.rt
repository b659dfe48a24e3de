use crate::programs::Worked;
use crate::rows::{PLAIN, Row};

/// Exceptions: what they destroy on their way, what holds them, and the edges that they can't pass.
pub const ROWS: &[Row] = &[
    // `w` is object 1, the parameters of its fields' constructors 2 to 4, the exception object 5
    Row {
        of: Worked::ThrowingThirdField,
        told: "throw E\n\
               out 98\n\
               destroyed M 1 1\n\
               out 97\n\
               destroyed M 1 0\n\
               catch E\n\
               destroyed E 5 0\n\
               returned 9\n",
        ..PLAIN
    },
    Row {
        of: Worked::ThrowingCopy,
        told: "throw E\n\
               catch E\n\
               throw int\n\
               terminated\n",
        ..PLAIN
    },
    Row {
        of: Worked::RethrowingNothing,
        told: "terminated\n",
        ..PLAIN
    },
    Row {
        of: Worked::ThrowingWithinNoexcept,
        told: "throw int\n\
               out 117\n\
               destroyed U 1 0\n\
               terminated\n",
        ..PLAIN
    },
    Row {
        of: Worked::Rethrowing,
        told: "throw int\n\
               catch int\n\
               throw int\n\
               catch int\n\
               returned 2\n",
        ..PLAIN
    },
    Row {
        of: Worked::ThrowingArgument,
        told: "throw int\n\
               out 112\n\
               destroyed P 1 0\n\
               catch int\n\
               returned 3\n",
        ..PLAIN
    },
    Row {
        of: Worked::ThrowingConstructor,
        told: "throw int\n\
               out 112\n\
               destroyed P 1 0\n\
               catch int\n\
               returned 3\n",
        ..PLAIN
    },
    // `w` is object 1, `x` 2, the exception object 3: the field that is copied ends before `w`
    Row {
        of: Worked::ThrowingCopyOfAField,
        told: "throw int\n\
               out 97\n\
               destroyed A 2 0\n\
               out 98\n\
               destroyed B 1 1\n\
               out 97\n\
               destroyed A 1 0\n\
               destroyed W 1 0\n\
               catch int\n\
               returned 3\n",
        ..PLAIN
    },
    Row {
        of: Worked::ThrowingDestructor,
        told: "throw int\n\
               terminated\n",
        ..PLAIN
    },
    Row {
        of: Worked::ThrowingAChar,
        told: "throw char\n\
               catch char\n\
               returned 2\n",
        ..PLAIN
    },
    Row {
        of: Worked::CatchingNothing,
        told: "throw int\n\
               terminated\n",
        ..PLAIN
    },
];
