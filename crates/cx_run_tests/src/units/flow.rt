use super::{ENFORCED, Unit};

/// Branches, loops and returns.
pub const UNITS: &[Unit] = &[
    Unit {
        shows: "an else belongs to the nearest if",
        text: "int main(){ int k = 0; if (true) if (false) k = 1; else k = 2; if (false) if (true) k = 3; else k = 4; return k; }",
        told: "returned 2\n",
        ..ENFORCED
    },
    Unit {
        shows: "a block keeps an else from the nearest if",
        text: "int main(){ int k = 0; if (false) { if (true) k = 1; } else k = 2; return k; }",
        told: "returned 2\n",
        ..ENFORCED
    },
    Unit {
        shows: "a chain of branches",
        text: "int main(){ int n = 0; int k = 0; while (k < 4) { if (k == 0) n = 1; else if (k == 1) n = n * 10 + 2; else if (k == 2) n = n * 10 + 3; else n = n * 10 + 4; k = k + 1; } return n; }",
        told: "returned 1234\n",
        ..ENFORCED
    },
    // 1, 1 + 2 and 1 + 2 + 3
    Unit {
        shows: "a loop in a loop",
        text: "int main(){ int i = 0; int n = 0; while (i < 4) { int j = 0; while (j < i) { j = j + 1; n = n + j; } i = i + 1; } return n; }",
        told: "returned 10\n",
        cut: true,
        ..ENFORCED
    },
    Unit {
        shows: "a loop without a turn",
        text: "#include <cstdio>\nint main(){ int k = 3; while (k < 3) putchar('x'); while (false) { k = 4; } return k; }",
        told: "returned 3\n",
        ..ENFORCED
    },
    Unit {
        shows: "a loop whose body is one statement",
        text: "int main(){ int k = 0; while (k < 100) k = k + 7; return k; }",
        told: "returned 105\n",
        cut: true,
        ..ENFORCED
    },
    Unit {
        shows: "a return from nested blocks",
        text: "int main(){ int k = 5; { int m = 6; { int n = 7; if (k < n) { int p = 8; return k * m * n * p; } } } return 1; }",
        told: "returned 1680\n",
        ..ENFORCED
    },
    // 7 * 13
    Unit {
        shows: "a return from a loop",
        text: "int main(){ int n = 91; int d = 2; while (d < n) { if (n % d == 0) { return d; } d = d + 1; } return 0; }",
        told: "returned 7\n",
        cut: true,
        ..ENFORCED
    },
    // 49 + 16; the other way to make 65, 64 + 1, comes later
    Unit {
        shows: "a return from a loop in a loop",
        text: "int main(){ int a = 2; while (true) { int b = 1; while (b < a) { if (a * a + b * b == 65) return a * 10 + b; b = b + 1; } a = a + 1; } }",
        told: "returned 74\n",
        ..ENFORCED
    },
    Unit {
        shows: "nothing is run behind a return",
        text: "#include <cstdio>\nint main(){ return 4; putchar('x'); contract_assert(false); return 5; }",
        told: "returned 4\n",
        ..ENFORCED
    },
    Unit {
        shows: "main without statements",
        text: "int main(){ }",
        told: "returned 0\n",
        cut: true,
        ..ENFORCED
    },
    Unit {
        shows: "the end of main",
        text: "int main(){ int k = 7; if (k < 3) return 1; { int m = k; k = m; } }",
        told: "returned 0\n",
        ..ENFORCED
    },
    Unit {
        shows: "empty statements",
        text: "int main(){ ;; int k = 3; if (k == 3) ; else return 1; while (k == 4) ; {} { ; } return k; }",
        told: "returned 3\n",
        ..ENFORCED
    },
    // 27, 82, 41, .. 1 takes 111 turns
    Unit {
        shows: "a long loop with branches",
        text: "int main(){ int n = 27; int k = 0; while (n != 1) { if (n % 2 == 0) n = n / 2; else n = 3 * n + 1; k = k + 1; } contract_assert(k == 111); return k; }",
        told: "begin main#assert1 definer enforce\n\
               verdict holds\n\
               returned 111\n",
        ..ENFORCED
    },
];

/// A run of some ten thousand steps, with an evaluation in each hundredth turn.
pub const LONG: Unit = Unit {
    shows: "a run of many steps",
    text: "int main(){ int k = 0; while (k < 500) { k = k + 1; if (k % 100 == 0) contract_assert(k != 400); } return k; }",
    told: "begin main#assert1 definer enforce\n\
           verdict holds\n\
           begin main#assert1 definer enforce\n\
           verdict holds\n\
           begin main#assert1 definer enforce\n\
           verdict holds\n\
           begin main#assert1 definer enforce\n\
           verdict false\n\
           handler assert predicate_false enforce a.cpp:1:71 main#assert1: k != 400\n\
           contract-terminated\n",
    ..ENFORCED
};
