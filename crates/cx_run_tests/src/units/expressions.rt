use super::{ENFORCED, Unit};

/// Values of expressions.
pub const UNITS: &[Unit] = &[
    Unit {
        shows: "nested parentheses",
        text: "int main(){ return (((((3)))) * ((2) + (5))); }",
        told: "returned 21\n",
        ..ENFORCED
    },
    Unit {
        shows: "zero",
        text: "int main(){ return 0; }",
        told: "returned 0\n",
        ..ENFORCED
    },
    Unit {
        shows: "the greatest int",
        text: "int main(){ return 2'147'483'647; }",
        told: "returned 2147483647\n",
        ..ENFORCED
    },
    Unit {
        shows: "the least int",
        text: "int main(){ return -2147483647 - 1; }",
        told: "returned -2147483648\n",
        ..ENFORCED
    },
    // 1 + 6 - 2 % 3 is 5
    Unit {
        shows: "products before sums before shifts",
        text: "int main(){ return 1 + 2 * 3 - 8 / 4 % 3 << 1; }",
        told: "returned 10\n",
        cut: true,
        ..ENFORCED
    },
    // 8 | (5 ^ 1)
    Unit {
        shows: "comparisons before bits, and `&` before `^` before `|`",
        text: "int main(){ return 12 & 10 | 5 ^ 3 == 3; }",
        told: "returned 12\n",
        ..ENFORCED
    },
    // (20 - 7) - 5, and (100 / 5) / 2
    Unit {
        shows: "operators of one level from the left",
        text: "int main(){ return (20 - 7 - 5) * 100 + 100 / 5 / 2; }",
        told: "returned 810\n",
        ..ENFORCED
    },
    // 7 - 6 + 1 + 0
    Unit {
        shows: "operators with one operand",
        text: "int main(){ return -(-7) + ~5 + !0 + !9; }",
        told: "returned 2\n",
        ..ENFORCED
    },
    // -3, -1 and 1
    Unit {
        shows: "quotients to zero, and remainders with the sign of the left operand",
        text: "int main(){ return -7 / 2 * 100 + -7 % 2 * 10 + 7 % -2; }",
        told: "returned -309\n",
        ..ENFORCED
    },
    Unit {
        shows: "what comparisons give",
        text: "int main(){ return (3 < 2) + (2 <= 2) * 2 + (3 > 2) * 4 + (2 >= 3) * 8 + (2 == 2) * 16 + (2 != 2) * 32; }",
        told: "returned 22\n",
        ..ENFORCED
    },
    // -4 * 1000, -48, and the remainder of -2147483648, which is -2
    Unit {
        shows: "shifts of the sign",
        text: "int main(){ return (-16 >> 2) * 1000 + (-3 << 4) + (1 << 31) % 7; }",
        told: "returned -4050\n",
        ..ENFORCED
    },
    Unit {
        shows: "the greatest product",
        text: "int main(){ return 46340 * 46340; }",
        told: "returned 2147395600\n",
        ..ENFORCED
    },
];
