use crate::programs::{Takes, Worked};
use crate::rows::{PLAIN, Row};

/// Blocks of checks: both parties, repetitions, orders that are permitted and orders that aren't.
pub const ROWS: &[Row] = &[
    // three evaluations
    Row {
        of: Worked::Stepping,
        told: "begin f#pre1 definer enforce\n\
               verdict holds\n\
               begin f#pre1 definer enforce\n\
               verdict holds\n\
               begin f#pre1 definer enforce\n\
               verdict holds\n\
               returned 3\n",
        ..PLAIN
    },
    // too few are told
    Row {
        of: Worked::Stepping,
        begins: Some(
            "begin f#pre1 definer enforce\n\
             begin f#pre1 definer enforce\n",
        ),
        told: "begin f#pre1 definer enforce\n\
               verdict holds\n\
               begin f#pre1 definer enforce\n\
               verdict holds\n\
               waiting\n",
        ..PLAIN
    },
    // the Caller observes, the Definer enforces
    Row {
        of: Worked::CheckedByBoth,
        told: "begin f#pre1 caller observe\n\
               verdict false\n\
               handler pre predicate_false observe h.h:1:14 f#pre1: x > 0\n\
               begin f#pre1 definer enforce\n\
               verdict false\n\
               handler pre predicate_false enforce h.h:1:14 f#pre1: x > 0\n\
               contract-terminated\n",
        ..PLAIN
    },
    // the Caller's evaluations precede the Definer's
    Row {
        of: Worked::CalledWithTwo(Takes::CallerPasses),
        told: "begin f#pre2 caller enforce\n\
               verdict holds\n\
               begin f#pre1 definer enforce\n\
               verdict holds\n\
               begin f#pre2 definer enforce\n\
               verdict holds\n\
               returned 5\n",
        ..PLAIN
    },
    Row {
        of: Worked::CalledWithTwo(Takes::BothEvaluate),
        told: "begin f#pre1 caller observe\n\
               verdict holds\n\
               begin f#pre2 caller observe\n\
               verdict holds\n\
               begin f#pre1 definer enforce\n\
               verdict holds\n\
               begin f#pre2 definer enforce\n\
               verdict holds\n\
               returned 5\n",
        ..PLAIN
    },
    // the Caller isn't skipped
    Row {
        of: Worked::CalledWithTwo(Takes::CallerPasses),
        begins: Some("begin f#pre1 definer enforce\n"),
        told: "not a run\n",
        ..PLAIN
    },
    Row {
        of: Worked::CalledWithTwo(Takes::BothEvaluate),
        begins: Some(
            "begin f#pre1 caller observe\n\
             begin f#pre1 definer enforce\n",
        ),
        told: "begin f#pre1 caller observe\n\
               verdict holds\n\
               not a run\n",
        ..PLAIN
    },
    // the second assertion waits for the first
    Row {
        of: Worked::CalledWithTwo(Takes::CallerPasses),
        begins: Some(
            "begin f#pre2 caller enforce\n\
             begin f#pre2 definer enforce\n\
             begin f#pre1 definer enforce\n",
        ),
        told: "begin f#pre2 caller enforce\n\
               verdict holds\n\
               not a run\n",
        ..PLAIN
    },
    // one repetition: the whole list again
    Row {
        of: Worked::CalledWithTwo(Takes::DefinerRepeats),
        told: "begin f#pre1 definer enforce\n\
               verdict holds\n\
               begin f#pre2 definer enforce\n\
               verdict holds\n\
               begin f#pre1 definer enforce\n\
               verdict holds\n\
               begin f#pre2 definer enforce\n\
               verdict holds\n\
               returned 5\n",
        ..PLAIN
    },
    // each twice in turn
    Row {
        of: Worked::CalledWithTwo(Takes::DefinerRepeats),
        told: "begin f#pre1 definer enforce\n\
               verdict holds\n\
               begin f#pre1 definer enforce\n\
               verdict holds\n\
               begin f#pre2 definer enforce\n\
               verdict holds\n\
               begin f#pre2 definer enforce\n\
               verdict holds\n\
               returned 5\n",
        ..PLAIN
    },
    // the repetitions in reverse
    Row {
        of: Worked::CalledWithTwo(Takes::DefinerRepeats),
        told: "begin f#pre1 definer enforce\n\
               verdict holds\n\
               begin f#pre2 definer enforce\n\
               verdict holds\n\
               begin f#pre2 definer enforce\n\
               verdict holds\n\
               begin f#pre1 definer enforce\n\
               verdict holds\n\
               returned 5\n",
        ..PLAIN
    },
    // the second before the first
    Row {
        of: Worked::CalledWithTwo(Takes::DefinerRepeats),
        begins: Some(
            "begin f#pre2 definer enforce\n\
             begin f#pre1 definer enforce\n\
             begin f#pre1 definer enforce\n\
             begin f#pre2 definer enforce\n",
        ),
        told: "not a run\n",
        ..PLAIN
    },
    // one more than is owed
    Row {
        of: Worked::CalledWithTwo(Takes::DefinerRepeats),
        begins: Some(
            "begin f#pre1 definer enforce\n\
             begin f#pre1 definer enforce\n\
             begin f#pre1 definer enforce\n",
        ),
        told: "begin f#pre1 definer enforce\n\
               verdict holds\n\
               begin f#pre1 definer enforce\n\
               verdict holds\n\
               not a run\n",
        ..PLAIN
    },
    // too few are told
    Row {
        of: Worked::CalledWithTwo(Takes::DefinerRepeats),
        begins: Some(
            "begin f#pre1 definer enforce\n\
             begin f#pre2 definer enforce\n\
             begin f#pre1 definer enforce\n",
        ),
        told: "begin f#pre1 definer enforce\n\
               verdict holds\n\
               begin f#pre2 definer enforce\n\
               verdict holds\n\
               begin f#pre1 definer enforce\n\
               verdict holds\n\
               waiting\n",
        ..PLAIN
    },
    // a party that takes no part
    Row {
        of: Worked::CalledWithTwo(Takes::DefinerRepeats),
        begins: Some("begin f#pre1 caller enforce\n"),
        told: "not a run\n",
        ..PLAIN
    },
    // a postcondition names the result
    Row {
        of: Worked::ResultIsCompared,
        told: "begin f#post1 definer enforce\n\
               verdict false\n\
               handler post predicate_false enforce a.cpp:1:20 f#post1: r > a\n\
               contract-terminated\n",
        ..PLAIN
    },
];
