use crate::programs::Worked;
use crate::rows::{PLAIN, Row};
use cx_code::Semantic;

/// Violation handlers: what they are told, and what follows where they throw.
pub const ROWS: &[Row] = &[
    // nothing is destroyed
    Row {
        of: Worked::HandlerThrowsWithinNoexcept,
        told: "begin f#pre1 caller enforce\n\
               verdict false\n\
               handler pre predicate_false enforce a.cpp:4:29 f#pre1: x > 0\n\
               throw int\n\
               terminated\n",
        ..PLAIN
    },
    // `q` is object 1, the class parameter 2
    Row {
        of: Worked::HandlerThrowsToTheCaller,
        told: "begin f#pre1 caller enforce\n\
               verdict false\n\
               handler pre predicate_false enforce a.cpp:4:20 f#pre1: n > 0\n\
               throw int\n\
               out 112\n\
               destroyed P 2 0\n\
               out 112\n\
               destroyed P 1 0\n\
               catch int\n\
               returned 3\n",
        ..PLAIN
    },
    Row {
        of: Worked::HandlerRethrows,
        told: "begin f#pre1 definer observe\n\
               throw int\n\
               verdict threw\n\
               handler pre evaluation_exception observe a.cpp:4:9 f#pre1: bad ( )\n\
               out 50\n\
               throw int\n\
               catch int\n\
               returned 4\n",
        ..PLAIN
    },
    // the default handler
    Row {
        of: Worked::ThrowingPredicate(Semantic::Observe),
        told: "begin f#pre1 definer observe\n\
               throw int\n\
               verdict threw\n\
               handler pre evaluation_exception observe a.cpp:1:33 f#pre1: bad ( )\n\
               returned 1\n",
        ..PLAIN
    },
    // three units: `150`, `amount <= balance ( )` and `closed` are written
    Row {
        of: Worked::Account,
        told: "begin Account::Account#pre1 caller observe\n\
               verdict holds\n\
               begin Account::Account#pre1 definer enforce\n\
               verdict holds\n\
               begin Account::deposit#pre1 caller observe\n\
               verdict holds\n\
               begin Account::deposit#pre1 definer enforce\n\
               verdict holds\n\
               begin Account::deposit#post1 definer enforce\n\
               verdict holds\n\
               begin Account::deposit#post1 caller observe\n\
               verdict holds\n\
               out 49\n\
               out 53\n\
               out 48\n\
               out 10\n\
               begin Account::withdraw#pre1 caller observe\n\
               verdict holds\n\
               begin Account::withdraw#pre2 caller observe\n\
               verdict false\n\
               handler pre predicate_false observe acct.hpp:12:5 Account::withdraw#pre2: amount <= balance ( )\n\
               out 97\n\
               out 109\n\
               out 111\n\
               out 117\n\
               out 110\n\
               out 116\n\
               out 32\n\
               out 60\n\
               out 61\n\
               out 32\n\
               out 98\n\
               out 97\n\
               out 108\n\
               out 97\n\
               out 110\n\
               out 99\n\
               out 101\n\
               out 32\n\
               out 40\n\
               out 32\n\
               out 41\n\
               out 10\n\
               throw int\n\
               out 99\n\
               out 108\n\
               out 111\n\
               out 115\n\
               out 101\n\
               out 100\n\
               out 10\n\
               destroyed Account 1 0\n\
               catch int\n\
               returned 2\n",
        ..PLAIN
    },
    Row {
        of: Worked::ThrowingPredicate(Semantic::Enforce),
        told: "begin f#pre1 definer enforce\n\
               throw int\n\
               verdict threw\n\
               handler pre evaluation_exception enforce a.cpp:1:33 f#pre1: bad ( )\n\
               contract-terminated\n",
        ..PLAIN
    },
    Row {
        of: Worked::ThrowingPredicate(Semantic::QuickEnforce),
        told: "begin f#pre1 definer quick_enforce\n\
               throw int\n\
               verdict threw\n\
               contract-terminated\n",
        ..PLAIN
    },
    // the exception of a predicate doesn't reach the edge
    Row {
        of: Worked::ThrowingPredicateOfNoexcept,
        told: "begin f#pre1 definer observe\n\
               throw int\n\
               verdict threw\n\
               handler pre evaluation_exception observe a.cpp:1:43 f#pre1: bad ( )\n\
               returned 0\n",
        ..PLAIN
    },
    // it dies when the handler returns
    Row {
        of: Worked::ThrowingAnObjectInAPredicate,
        told: "begin main#assert1 definer enforce\n\
               throw P\n\
               verdict threw\n\
               handler assert evaluation_exception enforce a.cpp:4:14 main#assert1: bad ( )\n\
               out 112\n\
               destroyed P 1 0\n\
               contract-terminated\n",
        ..PLAIN
    },
    Row {
        of: Worked::HandlerAsks,
        told: "begin main#assert1 definer observe\n\
               verdict false\n\
               handler assert predicate_false observe a.cpp:6:13 main#assert1: false\n\
               out 3\n\
               out 2\n\
               out 1\n\
               out 6\n\
               out 13\n\
               returned 3\n",
        ..PLAIN
    },
    // the handler's own call of itself is told as no call of a handler
    Row {
        of: Worked::HandlerCalledByName,
        told: "begin main#assert1 definer observe\n\
               verdict false\n\
               handler assert predicate_false observe a.cpp:5:14 main#assert1: false\n\
               returned 2\n",
        ..PLAIN
    },
];
