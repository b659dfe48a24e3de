use crate::build::{Build, Made, Stated, Under};
use cx_code::{AssertionKind, Semantic};
use cx_core::BinaryOperator;
use cx_mean::Program;

/// The assertion of `main`, with this comment.
fn in_main(comment: &'static [u8]) -> Stated {
    Stated {
        kind: AssertionKind::Assert,
        name: b"main#assert1",
        file: b"a.cpp",
        line: 1,
        column: 13,
        comment,
    }
}

/// `int main(){ contract_assert(1 < 2); return 7; }`
pub fn holding(b: Build) -> Made<Program> {
    let main = b.main(b.list([
        b.asserts(0, b.ints(BinaryOperator::Less, b.number(1), b.number(2))),
        b.returns(b.number(7)),
    ]));
    b.with_assertions(
        &[Under(in_main(b"1 < 2"), Semantic::Enforce, 1)],
        b.program(b.list([main])),
    )
}

/// `int main(){ contract_assert(false); return 3; }`, evaluated so often under a semantic.
pub fn failing(b: Build, semantic: Semantic, times: u16) -> Made<Program> {
    let main = b.main(b.list([b.asserts(0, b.number(0)), b.returns(b.number(3))]));
    b.with_assertions(
        &[Under(in_main(b"false"), semantic, times)],
        b.program(b.list([main])),
    )
}

/// `int main(){ putchar('a'); putchar('b'); putchar('c'); int k = 2147483647; k = k + 1; return k; }`
pub fn overflowing(b: Build) -> Made<Program> {
    let sum = b.ints(BinaryOperator::Add, b.value_in(0), b.number(1));
    b.program(b.list([b.main(b.list([
        b.says(b'a'),
        b.says(b'b'),
        b.says(b'c'),
        b.declare_int(0, b.number(2147483647)),
        b.set_int(0, sum),
        b.returns(b.value_in(0)),
    ]))]))
}

/// `int main(){ while (true) {} }`
pub fn spinning(b: Build) -> Made<Program> {
    let spin = b.while_so(b.number(1), b.block(b.list([])));
    b.program(b.list([b.main(b.list([spin]))]))
}
