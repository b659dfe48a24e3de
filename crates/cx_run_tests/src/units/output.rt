use super::{ENFORCED, Unit};
use cx_code::Semantic;

/// Bytes that are written.
pub const UNITS: &[Unit] = &[
    Unit {
        shows: "character literals and escapes",
        text: "#include <cstdio>\nint main(){ putchar('a'); putchar('\\n'); putchar('\\t'); putchar('\\r'); putchar('\\0'); putchar('\\\\'); putchar('\\''); putchar('\\\"'); putchar('\"'); putchar(' '); }",
        told: "out 97\n\
               out 10\n\
               out 9\n\
               out 13\n\
               out 0\n\
               out 92\n\
               out 39\n\
               out 34\n\
               out 34\n\
               out 32\n\
               returned 0\n",
        ..ENFORCED
    },
    Unit {
        shows: "a number that is no byte is written by its last eight bits",
        text: "#include <cstdio>\nint main(){ putchar(256 + 65); putchar(-1); putchar(-191); putchar(2147483647); putchar(256); return 0; }",
        told: "out 65\n\
               out 255\n\
               out 65\n\
               out 255\n\
               out 0\n\
               returned 0\n",
        ..ENFORCED
    },
    Unit {
        shows: "chars and bools are written as ints",
        text: "#include <cstdio>\nint main(){ char c = 200; bool b = 'x'; putchar(c); putchar(b); putchar(c == 200); return 0; }",
        told: "out 200\n\
               out 1\n\
               out 0\n\
               returned 0\n",
        ..ENFORCED
    },
    Unit {
        shows: "bytes that are written in a loop",
        text: "#include <cstdio>\nint main(){ char c = 'a'; while (c < 'e') { putchar(c); c = c + 1; } putchar('\\n'); }",
        told: "out 97\n\
               out 98\n\
               out 99\n\
               out 100\n\
               out 10\n\
               returned 0\n",
        cut: true,
        ..ENFORCED
    },
    Unit {
        shows: "bytes and assertions in their order",
        text: "#include <cstdio>\nint main(){ putchar('1'); contract_assert(false);\nputchar('2'); contract_assert(true); putchar('3'); return 0; }",
        semantic: Semantic::Observe,
        told: "out 49\n\
               begin main#assert1 definer observe\n\
               verdict false\n\
               handler assert predicate_false observe a.cpp:2:27 main#assert1: false\n\
               out 50\n\
               begin main#assert2 definer observe\n\
               verdict holds\n\
               out 51\n\
               returned 0\n",
        ..ENFORCED
    },
    // 142 in the system of tens
    Unit {
        shows: "the digits of a number",
        text: "#include <cstdio>\nint main(){ int n = 142; int power = 100; while (power > 0) { putchar('0' + n / power % 10); power = power / 10; } return 0; }",
        told: "out 49\n\
               out 52\n\
               out 50\n\
               returned 0\n",
        ..ENFORCED
    },
];
