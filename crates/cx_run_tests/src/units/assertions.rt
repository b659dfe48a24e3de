use super::{ENFORCED, Unit};
use cx_code::Semantic;

/// Fails in the second turn of three.
const IN_A_LOOP: &str =
    "int main(){ int k = 0; while (k < 3) { contract_assert(k != 1); k = k + 1; } return k; }";

/// All three fail.
const THREE_FALSE: &str =
    "int main(){ contract_assert(0); { contract_assert(1 > 2); } contract_assert(!7); return 7; }";

/// Assertions under each semantic, and where they stand.
pub const UNITS: &[Unit] = &[
    Unit {
        shows: "an assertion in a loop that is ignored",
        text: IN_A_LOOP,
        semantic: Semantic::Ignore,
        told: "returned 3\n",
        ..ENFORCED
    },
    Unit {
        shows: "an assertion in a loop that is observed",
        text: IN_A_LOOP,
        semantic: Semantic::Observe,
        told: "begin main#assert1 definer observe\n\
               verdict holds\n\
               begin main#assert1 definer observe\n\
               verdict false\n\
               handler assert predicate_false observe a.cpp:1:40 main#assert1: k != 1\n\
               begin main#assert1 definer observe\n\
               verdict holds\n\
               returned 3\n",
        cut: true,
        ..ENFORCED
    },
    Unit {
        shows: "an assertion in a loop that is enforced",
        text: IN_A_LOOP,
        told: "begin main#assert1 definer enforce\n\
               verdict holds\n\
               begin main#assert1 definer enforce\n\
               verdict false\n\
               handler assert predicate_false enforce a.cpp:1:40 main#assert1: k != 1\n\
               contract-terminated\n",
        cut: true,
        ..ENFORCED
    },
    Unit {
        shows: "an assertion in a loop that is quickly enforced",
        text: IN_A_LOOP,
        semantic: Semantic::QuickEnforce,
        told: "begin main#assert1 definer quick_enforce\n\
               verdict holds\n\
               begin main#assert1 definer quick_enforce\n\
               verdict false\n\
               contract-terminated\n",
        cut: true,
        ..ENFORCED
    },
    Unit {
        shows: "the first assertion fails",
        text: "int main(){ contract_assert(false); contract_assert(true); contract_assert(true); return 7; }",
        told: "begin main#assert1 definer enforce\n\
               verdict false\n\
               handler assert predicate_false enforce a.cpp:1:13 main#assert1: false\n\
               contract-terminated\n",
        ..ENFORCED
    },
    Unit {
        shows: "the middle assertion fails",
        text: "int main(){ contract_assert(true); contract_assert(false); contract_assert(true); return 7; }",
        told: "begin main#assert1 definer enforce\n\
               verdict holds\n\
               begin main#assert2 definer enforce\n\
               verdict false\n\
               handler assert predicate_false enforce a.cpp:1:36 main#assert2: false\n\
               contract-terminated\n",
        ..ENFORCED
    },
    Unit {
        shows: "the last assertion fails",
        text: "int main(){ contract_assert(true); contract_assert(true); contract_assert(false); return 7; }",
        told: "begin main#assert1 definer enforce\n\
               verdict holds\n\
               begin main#assert2 definer enforce\n\
               verdict holds\n\
               begin main#assert3 definer enforce\n\
               verdict false\n\
               handler assert predicate_false enforce a.cpp:1:59 main#assert3: false\n\
               contract-terminated\n",
        ..ENFORCED
    },
    Unit {
        shows: "three assertions fail and are observed",
        text: THREE_FALSE,
        semantic: Semantic::Observe,
        told: "begin main#assert1 definer observe\n\
               verdict false\n\
               handler assert predicate_false observe a.cpp:1:13 main#assert1: 0\n\
               begin main#assert2 definer observe\n\
               verdict false\n\
               handler assert predicate_false observe a.cpp:1:35 main#assert2: 1 > 2\n\
               begin main#assert3 definer observe\n\
               verdict false\n\
               handler assert predicate_false observe a.cpp:1:61 main#assert3: ! 7\n\
               returned 7\n",
        ..ENFORCED
    },
    Unit {
        shows: "three assertions fail and are ignored",
        text: THREE_FALSE,
        semantic: Semantic::Ignore,
        told: "returned 7\n",
        ..ENFORCED
    },
    // the first assertion stands where nothing comes to
    Unit {
        shows: "an assertion is numbered by its place in the text",
        text: "int main(){ if (1 < 2) { if (false) contract_assert(false); else contract_assert(3 < 2); } return 7; }",
        told: "begin main#assert2 definer enforce\n\
               verdict false\n\
               handler assert predicate_false enforce a.cpp:1:66 main#assert2: 3 < 2\n\
               contract-terminated\n",
        ..ENFORCED
    },
    Unit {
        shows: "the predicate is converted to bool",
        text: "int main(){ contract_assert(-1); char c = 256;\n  contract_assert( c ); return 0; }",
        told: "begin main#assert1 definer enforce\n\
               verdict holds\n\
               begin main#assert2 definer enforce\n\
               verdict false\n\
               handler assert predicate_false enforce a.cpp:2:3 main#assert2: c\n\
               contract-terminated\n",
        ..ENFORCED
    },
    Unit {
        shows: "the predicate of an assertion that is ignored isn't evaluated",
        text: "int main(){ contract_assert(1 / 0 == 1); int k = 4; return k; }",
        semantic: Semantic::Ignore,
        told: "returned 4\n",
        ..ENFORCED
    },
    Unit {
        shows: "the tokens of a predicate, with one space between two",
        text: "int main(){ int k = 3; contract_assert(!(-k<~0)|/* no */(k==0)); return k; }",
        semantic: Semantic::Observe,
        told: "begin main#assert1 definer observe\n\
               verdict false\n\
               handler assert predicate_false observe a.cpp:1:24 main#assert1: ! ( - k < ~ 0 ) | ( k == 0 )\n\
               returned 3\n",
        ..ENFORCED
    },
];
