use super::{ENFORCED, Unit};

/// Expressions without a value, each behind a byte that is written.
pub const UNITS: &[Unit] = &[
    Unit {
        shows: "a sum that is too large",
        text: "#include <cstdio>\nint main(){ putchar('s'); return 2147483647 + 1; }",
        told: "out 115\nundefined: overflow\n",
        ..ENFORCED
    },
    Unit {
        shows: "a difference that is too small",
        text: "#include <cstdio>\nint main(){ putchar('d'); return -2147483647 - 2; }",
        told: "out 100\nundefined: overflow\n",
        ..ENFORCED
    },
    // 2147488281
    Unit {
        shows: "a product that is too large",
        text: "#include <cstdio>\nint main(){ putchar('p'); return 46341 * 46341; }",
        told: "out 112\nundefined: overflow\n",
        ..ENFORCED
    },
    Unit {
        shows: "the negative of the least int",
        text: "#include <cstdio>\nint main(){ putchar('n'); return -(-2147483647 - 1); }",
        told: "out 110\nundefined: overflow\n",
        ..ENFORCED
    },
    Unit {
        shows: "a quotient by zero",
        text: "#include <cstdio>\nint main(){ putchar('q'); return 1 / (2 - 2); }",
        told: "out 113\nundefined: division\n",
        ..ENFORCED
    },
    Unit {
        shows: "a remainder by zero",
        text: "#include <cstdio>\nint main(){ putchar('r'); return 0 % false; }",
        told: "out 114\nundefined: division\n",
        ..ENFORCED
    },
    Unit {
        shows: "a quotient that is too large",
        text: "#include <cstdio>\nint main(){ putchar('q'); return (-2147483647 - 1) / -1; }",
        told: "out 113\nundefined: division\n",
        ..ENFORCED
    },
    Unit {
        shows: "a remainder beside a quotient that is too large",
        text: "#include <cstdio>\nint main(){ putchar('r'); return (-2147483647 - 1) % -1; }",
        told: "out 114\nundefined: division\n",
        ..ENFORCED
    },
    Unit {
        shows: "a shift by the width",
        text: "#include <cstdio>\nint main(){ putchar('l'); return 0 << 32; }",
        told: "out 108\nundefined: shift\n",
        ..ENFORCED
    },
    Unit {
        shows: "a shift by less than nothing",
        text: "#include <cstdio>\nint main(){ putchar('l'); return 1 << -1; }",
        told: "out 108\nundefined: shift\n",
        ..ENFORCED
    },
    Unit {
        shows: "a shift to the right by the width",
        text: "#include <cstdio>\nint main(){ putchar('r'); return 1 >> 32; }",
        told: "out 114\nundefined: shift\n",
        ..ENFORCED
    },
    Unit {
        shows: "a shift to the right by less than nothing",
        text: "#include <cstdio>\nint main(){ putchar('r'); return 1 >> -1; }",
        told: "out 114\nundefined: shift\n",
        ..ENFORCED
    },
    Unit {
        shows: "a variable that is named in its own initialiser",
        text: "#include <cstdio>\nint main(){ putchar('u'); int k = k; return 0; }",
        told: "out 117\nundefined: unset\n",
        ..ENFORCED
    },
    // the inner `k` hides the outer one from its own initialiser on
    Unit {
        shows: "a hidden variable that is named in the initialiser of the one that hides it",
        text: "int main(){ int k = 1; { int k = k + 1; return k; } }",
        told: "undefined: unset\n",
        cut: true,
        ..ENFORCED
    },
    // the evaluation has no verdict
    Unit {
        shows: "a predicate without a value",
        text: "int main(){ int k = 0; contract_assert(10 / k == 1); return 0; }",
        told: "begin main#assert1 definer enforce\nundefined: division\n",
        ..ENFORCED
    },
    // 1, 1024, 1048576 and 1073741824
    Unit {
        shows: "a loop that multiplies by 1,024 until that is too large",
        text: "int main(){ int k = 1; while (true) { contract_assert(k > 0); k = k + k * 1023; } }",
        told: "begin main#assert1 definer enforce\n\
               verdict holds\n\
               begin main#assert1 definer enforce\n\
               verdict holds\n\
               begin main#assert1 definer enforce\n\
               verdict holds\n\
               begin main#assert1 definer enforce\n\
               verdict holds\n\
               undefined: overflow\n",
        cut: true,
        ..ENFORCED
    },
];
