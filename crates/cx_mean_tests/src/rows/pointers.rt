use crate::programs::{By, Worked};
use crate::rows::{PLAIN, Row};

/// Calls through pointers to functions.
pub const ROWS: &[Row] = &[
    // the Definer checks alone, twice each
    Row {
        of: Worked::CheckedCall(By::Pointer),
        told: "begin f#pre1 definer enforce\n\
               verdict holds\n\
               begin f#pre1 definer enforce\n\
               verdict holds\n\
               begin f#post1 definer enforce\n\
               verdict holds\n\
               begin f#post1 definer enforce\n\
               verdict holds\n\
               returned 5\n",
        ..PLAIN
    },
    // by the name both parties check
    Row {
        of: Worked::CheckedCall(By::Name),
        told: "begin f#pre1 caller enforce\n\
               verdict holds\n\
               begin f#pre1 caller enforce\n\
               verdict holds\n\
               begin f#pre1 definer enforce\n\
               verdict holds\n\
               begin f#pre1 definer enforce\n\
               verdict holds\n\
               begin f#post1 definer enforce\n\
               verdict holds\n\
               begin f#post1 definer enforce\n\
               verdict holds\n\
               begin f#post1 caller enforce\n\
               verdict holds\n\
               begin f#post1 caller enforce\n\
               verdict holds\n\
               returned 5\n",
        ..PLAIN
    },
    // a check of the Caller is none of the block
    Row {
        of: Worked::CheckedCall(By::Pointer),
        begins: Some("begin f#pre1 caller enforce\n"),
        told: "not a run\n",
        ..PLAIN
    },
    Row {
        of: Worked::CheckedCall(By::Pointer),
        begins: Some(
            "begin f#pre1 definer enforce\n\
             begin f#pre1 definer enforce\n\
             begin f#post1 definer enforce\n\
             begin f#post1 caller enforce\n",
        ),
        told: "begin f#pre1 definer enforce\n\
               verdict holds\n\
               begin f#pre1 definer enforce\n\
               verdict holds\n\
               begin f#post1 definer enforce\n\
               verdict holds\n\
               not a run\n",
        ..PLAIN
    },
    // the Definer ignores: nothing is checked of the call with 0, which breaks the precondition
    Row {
        of: Worked::CalledBothWays,
        told: "begin f#pre1 caller enforce\n\
               verdict holds\n\
               begin f#post1 caller enforce\n\
               verdict holds\n\
               returned 2\n",
        ..PLAIN
    },
    Row {
        of: Worked::CallingNull,
        told: "undefined: null\n",
        ..PLAIN
    },
    // the arguments are evaluated before
    Row {
        of: Worked::CallingNullLast,
        told: "out 97\n\
               undefined: null\n",
        ..PLAIN
    },
    // also where the call has a class result; nothing is destroyed
    Row {
        of: Worked::CallingNullWithAnObject,
        told: "out 80\n\
               undefined: null\n",
        ..PLAIN
    },
    Row {
        of: Worked::ComparingPointers,
        told: "returned 3\n",
        ..PLAIN
    },
    Row {
        of: Worked::Calling(By::Pointer),
        told: "returned 4\n",
        ..PLAIN
    },
    // the pointers are objects 1 to 3, the result of `p(1)` 4 and its parameter 5, `a` 6, the parameter of `q(1)` 7,
    // `b` 8, `k` 9, `c` 10, the parameter of `f(1)` 11, `d` 12
    Row {
        of: Worked::NumberingResults,
        told: "destroyed S 12 0\n\
               destroyed S 10 0\n\
               destroyed S 8 0\n\
               destroyed S 6 0\n\
               returned 5\n",
        ..PLAIN
    },
    // `p` is object 1, `c` 2, `v` 5, the temporary 6, the parameter of `take` 9; 3, 4, 7, 8, 10 and 11 are parameters
    // of what makes them
    Row {
        of: Worked::MakingThroughAPointer,
        told: "out 98\n\
               destroyed C 6 0\n\
               out 99\n\
               destroyed C 9 0\n\
               out 97\n\
               destroyed C 2 0\n\
               returned 99\n",
        ..PLAIN
    },
    // the parameter of `f` is object 1, the temporary 2, the parameter of `make` 3
    Row {
        of: Worked::MakingATemporaryBehindThePointer,
        told: "out 98\n\
               destroyed C 2 0\n\
               returned 98\n",
        ..PLAIN
    },
    // the pointer is evaluated before the result is made: the fourth unit is the byte's
    Row {
        of: Worked::ChoosingWhatIsCalled,
        budget: 5,
        told: "out 97\n\
               going\n",
        ..PLAIN
    },
    // `q` is object 1, the result 2, the parameter 3
    Row {
        of: Worked::ThrowingThroughAPointer,
        told: "throw int\n\
               out 112\n\
               destroyed P 3 0\n\
               catch int\n\
               returned 3\n",
        ..PLAIN
    },
];
