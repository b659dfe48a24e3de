use super::{ENFORCED, Unit};

/// Variables and the blocks in which they are visible.
pub const UNITS: &[Unit] = &[
    Unit {
        shows: "a block hides a variable up to its end",
        text: "int main(){ int k = 1; { int k = 2; k = 5; } return k; }",
        told: "returned 1\n",
        cut: true,
        ..ENFORCED
    },
    // 3 + 10, then 2 + 100
    Unit {
        shows: "three variables of one name",
        text: "int main(){ int k = 1; { int k = 2; { int k = 3; k = k + 10; contract_assert(k == 13); } k = k + 100; contract_assert(k == 102); } return k; }",
        told: "begin main#assert1 definer enforce\n\
               verdict holds\n\
               begin main#assert2 definer enforce\n\
               verdict holds\n\
               returned 1\n",
        ..ENFORCED
    },
    Unit {
        shows: "an inner block changes a variable of an outer one",
        text: "int main(){ int k = 1; { int m = 2; { k = k + m; } k = k * 10; } return k; }",
        told: "returned 30\n",
        ..ENFORCED
    },
    // 1 + 2, + 10 + 20, + 4
    Unit {
        shows: "blocks one behind the other have variables of their own",
        text: "int main(){ int a = 1; { int b = 2; a = a + b; } { int c = 10; { int d = 20; a = a + c + d; } } int e = 4; return a + e; }",
        told: "returned 37\n",
        ..ENFORCED
    },
    // a variable of the turn before would be 4, 7, ..
    Unit {
        shows: "a variable in a loop is made anew in each turn",
        text: "int main(){ int n = 0; int k = 0; while (k < 4) { int m = 1; m = m + k; n = n * 10 + m; k = k + 1; } return n; }",
        told: "returned 1234\n",
        ..ENFORCED
    },
    Unit {
        shows: "a name is free again behind its block, for another type",
        text: "int main(){ { char k = 'a'; k = k + 1; } bool k = 7; return k; }",
        told: "returned 1\n",
        ..ENFORCED
    },
    // 1 2 3 5 8 13 21 34 55 89
    Unit {
        shows: "assignments in order",
        text: "int main(){ int a = 1; int b = 1; int k = 0; while (k < 9) { int c = a + b; a = b; b = c; k = k + 1; } return b; }",
        told: "returned 89\n",
        ..ENFORCED
    },
];
