use super::{ENFORCED, Unit};

/// Values of one type where another is wanted; `char` has the numbers from -128 to 127.
pub const UNITS: &[Unit] = &[
    Unit {
        shows: "an int that a char can't hold, at initialisation",
        text: "int main(){ char c = 200; return c; }",
        told: "returned -56\n",
        ..ENFORCED
    },
    Unit {
        shows: "an int that a char can't hold, at assignment",
        text: "int main(){ char c = 127; c = c + 1; return c; }",
        told: "returned -128\n",
        ..ENFORCED
    },
    // 300 - 256, and -129 + 256
    Unit {
        shows: "a char keeps eight bits",
        text: "int main(){ char c = 300; char d = -129; return c * 1000 + d; }",
        told: "returned 44127\n",
        ..ENFORCED
    },
    // -56 isn't 200
    Unit {
        shows: "a char is compared as an int",
        text: "int main(){ char c = 200; return (c == 200) + (c < 0) * 10 + (c == -56) * 100; }",
        told: "returned 110\n",
        ..ENFORCED
    },
    // 256 is true, though its last eight bits are 0
    Unit {
        shows: "any other number than 0 is true",
        text: "int main(){ bool a = 5; bool b = 0; bool c = -1; b = 256; char d = 256; return a + b * 10 + c * 100 + (d == 0) * 1000; }",
        told: "returned 1111\n",
        ..ENFORCED
    },
    Unit {
        shows: "a bool, a char and an int in turn",
        text: "int main(){ bool b = 'a'; char c = b; int k = c; b = k - 1; return k * 10 + b; }",
        told: "returned 10\n",
        ..ENFORCED
    },
    Unit {
        shows: "bools are added as ints",
        text: "int main(){ bool b = true; b = b + b; int k = b + true; return k; }",
        told: "returned 2\n",
        ..ENFORCED
    },
    // 98 - 65
    Unit {
        shows: "chars are subtracted as ints",
        text: "int main(){ char c = 'a'; char d = c + 1; return d - 'A'; }",
        told: "returned 33\n",
        ..ENFORCED
    },
    // 1 + 2 + 4 + 8, as the last condition is false
    Unit {
        shows: "what a condition takes for true",
        text: "int main(){ int n = 0; char c = 200; bool b = 2; if (c) n = n + 1; if (-5) n = n + 2; if ('0') n = n + 4; if (b) n = n + 8; if ('\\0') n = n + 16; return n; }",
        told: "returned 15\n",
        ..ENFORCED
    },
    Unit {
        shows: "a bool and a char are returned as ints",
        text: "int main(){ if (2 < 1) return true; return '~'; }",
        told: "returned 126\n",
        ..ENFORCED
    },
];
