use crate::programs::Worked;
use crate::rows::{PLAIN, Row};
use cx_code::Semantic;

/// A `contract_assert` under each semantic, and budgets.
pub const ROWS: &[Row] = &[
    // it holds
    Row {
        of: Worked::Holding,
        told: "begin main#assert1 definer enforce\n\
               verdict holds\n\
               returned 7\n",
        ..PLAIN
    },
    // six units: the call of `main`, the evaluation, two literals, the operator, the literal that is returned
    Row {
        of: Worked::Holding,
        budget: 6,
        told: "begin main#assert1 definer enforce\n\
               verdict holds\n\
               going\n",
        ..PLAIN
    },
    // one more
    Row {
        of: Worked::Holding,
        budget: 7,
        told: "begin main#assert1 definer enforce\n\
               verdict holds\n\
               returned 7\n",
        ..PLAIN
    },
    // none
    Row {
        of: Worked::Holding,
        budget: 0,
        told: "going\n",
        ..PLAIN
    },
    // an evaluation that isn't told
    Row {
        of: Worked::Holding,
        begins: Some(""),
        told: "waiting\n",
        ..PLAIN
    },
    // one that is told under another semantic
    Row {
        of: Worked::Holding,
        begins: Some("begin main#assert1 definer observe\n"),
        told: "not a run\n",
        ..PLAIN
    },
    // ignored
    Row {
        of: Worked::Failing(Semantic::Ignore, 0),
        told: "returned 3\n",
        ..PLAIN
    },
    // observed
    Row {
        of: Worked::Failing(Semantic::Observe, 1),
        told: "begin main#assert1 definer observe\n\
               verdict false\n\
               handler assert predicate_false observe a.cpp:1:13 main#assert1: false\n\
               returned 3\n",
        ..PLAIN
    },
    // enforced
    Row {
        of: Worked::Failing(Semantic::Enforce, 1),
        told: "begin main#assert1 definer enforce\n\
               verdict false\n\
               handler assert predicate_false enforce a.cpp:1:13 main#assert1: false\n\
               contract-terminated\n",
        ..PLAIN
    },
    // quickly enforced
    Row {
        of: Worked::Failing(Semantic::QuickEnforce, 1),
        told: "begin main#assert1 definer quick_enforce\n\
               verdict false\n\
               contract-terminated\n",
        ..PLAIN
    },
    // enforced with one repetition, which the end forestalls
    Row {
        of: Worked::Failing(Semantic::Enforce, 2),
        told: "begin main#assert1 definer enforce\n\
               verdict false\n\
               handler assert predicate_false enforce a.cpp:1:13 main#assert1: false\n\
               contract-terminated\n",
        ..PLAIN
    },
    // the bytes before an overflow are written
    Row {
        of: Worked::Overflowing,
        told: "out 97\n\
               out 98\n\
               out 99\n\
               undefined: overflow\n",
        ..PLAIN
    },
    // a loop without an end, under the budget of 1,000 steps and a small one
    Row {
        of: Worked::Spinning,
        budget: 64 * 1001,
        told: "going\n",
        ..PLAIN
    },
    Row {
        of: Worked::Spinning,
        budget: 14,
        told: "going\n",
        ..PLAIN
    },
];
