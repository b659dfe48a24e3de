use crate::build::{Build, Made, POINTER_TO_INT, Stated, Under};
use cx_code::{AssertionKind, Semantic};
use cx_core::{BinaryOperator, Operand, ResultKind, Statement, UnaryOperator};
use cx_mean::Program;

/// A program of `main` alone.
fn alone(b: Build, body: Made<Vec<Statement>>) -> Made<Program> {
    b.program(b.list([b.main(body)]))
}

/// `int main(){ }`
pub fn empty_main(b: Build) -> Made<Program> {
    alone(b, b.list([]))
}

/// `int main(){ int k = 1; return k; }`
pub fn one_variable(b: Build) -> Made<Program> {
    alone(
        b,
        b.list([b.declare_int(0, b.number(1)), b.returns(b.value_in(0))]),
    )
}

/// After `#include <cstdio>`: `int main(){ puts("hi"); return 0; }`, with this text.
pub fn putting(b: Build, text: &[u8]) -> Made<Program> {
    alone(b, b.list([b.does(b.puts(text)), b.returns(b.number(0))]))
}

/// `n += a * b;` and the like, of the variables in slots 0 to 2.
fn adds(b: Build, operator: BinaryOperator) -> Made<Statement> {
    let value = b.ints(operator, b.value_in(1), b.value_in(2));
    b.does(b.assign_by(BinaryOperator::Add, b.variable(0), value))
}

/// `n += -b;` and the like.
fn adds_one(b: Build, operator: UnaryOperator) -> Made<Statement> {
    let value = b.as_is(b.unary(operator, b.value_in(2)));
    b.does(b.assign_by(BinaryOperator::Add, b.variable(0), value))
}

/// `int main(){ int n = 0; int a = 23; int b = 5; n += a * b; .. return n; }`, for
/// `* / % + - << >> < > <= >= == != & ^ |`, and then `- ! ~` before `b`, in this order.
pub fn operating(b: Build) -> Made<Program> {
    let first = b.list([
        b.declare_int(0, b.number(0)),
        b.declare_int(1, b.number(23)),
        b.declare_int(2, b.number(5)),
    ]);
    let arithmetic = b.list([
        adds(b, BinaryOperator::Multiply),
        adds(b, BinaryOperator::Divide),
        adds(b, BinaryOperator::Remainder),
        adds(b, BinaryOperator::Add),
        adds(b, BinaryOperator::Subtract),
        adds(b, BinaryOperator::ShiftLeft),
        adds(b, BinaryOperator::ShiftRight),
    ]);
    let comparisons = b.list([
        adds(b, BinaryOperator::Less),
        adds(b, BinaryOperator::Greater),
        adds(b, BinaryOperator::LessEqual),
        adds(b, BinaryOperator::GreaterEqual),
        adds(b, BinaryOperator::Equal),
        adds(b, BinaryOperator::NotEqual),
    ]);
    let bits = b.list([
        adds(b, BinaryOperator::BitAnd),
        adds(b, BinaryOperator::BitXor),
        adds(b, BinaryOperator::BitOr),
    ]);
    let of_one = b.list([
        adds_one(b, UnaryOperator::Minus),
        adds_one(b, UnaryOperator::Not),
        adds_one(b, UnaryOperator::Complement),
        b.returns(b.value_in(0)),
    ]);
    let body = b.joined(b.joined(first, arithmetic), comparisons);
    alone(b, b.joined(b.joined(body, bits), of_one))
}

/// `1 / z`.
fn divided_by_z(b: Build) -> Made<Operand> {
    b.ints(BinaryOperator::Divide, b.number(1), b.value_in(0))
}

/// `int main(){ int z = 0; return (z != 0 && 1 / z > 0) || !z ? 4 : 1 / z; }`
pub fn skipping(b: Build) -> Made<Program> {
    let is_not_zero = b.ints(BinaryOperator::NotEqual, b.value_in(0), b.number(0));
    let is_positive = b.ints(BinaryOperator::Greater, divided_by_z(b), b.number(0));
    let is_zero = b.as_is(b.unary(UnaryOperator::Not, b.value_in(0)));
    let condition = b.or(b.and(is_not_zero, is_positive), is_zero);
    let chosen = b.as_is(b.conditional(condition, b.number(4), divided_by_z(b)));
    alone(
        b,
        b.list([b.declare_int(0, b.number(0)), b.returns(chosen)]),
    )
}

/// `int main(){ return 1 / 0; }`
pub fn dividing_by_zero(b: Build) -> Made<Program> {
    let quotient = b.ints(BinaryOperator::Divide, b.number(1), b.number(0));
    alone(b, b.list([b.returns(quotient)]))
}

/// ```cpp
/// int main(){ int n = 0;
///   for (int i = 0; i < 9; ++i) { if (i == 2) continue; if (i == 5) break; n += i; }
///   return n; }
/// ```
pub fn breaking_and_continuing(b: Build) -> Made<Program> {
    let is_two = b.ints(BinaryOperator::Equal, b.value_in(1), b.number(2));
    let is_five = b.ints(BinaryOperator::Equal, b.value_in(1), b.number(5));
    let body = b.block(b.list([
        b.if_so(is_two, b.continues()),
        b.if_so(is_five, b.breaks()),
        b.does(b.assign_by(BinaryOperator::Add, b.variable(0), b.value_in(1))),
    ]));
    let is_less = b.ints(BinaryOperator::Less, b.value_in(1), b.number(9));
    let step = b.does(b.increment(b.variable(1)));
    let turns = b.for_so(b.declare_int(1, b.number(0)), Some(is_less), step, body);
    alone(
        b,
        b.list([
            b.declare_int(0, b.number(0)),
            turns,
            b.returns(b.value_in(0)),
        ]),
    )
}

/// `int main(){ int k = 1; for (;;) { if (k++ > 3) return k; } }`
pub fn incrementing_after(b: Build) -> Made<Program> {
    let old = b.as_is(b.increment_after(b.variable(0)));
    let is_large = b.ints(BinaryOperator::Greater, old, b.number(3));
    let body = b.if_so(is_large, b.returns(b.value_in(0)));
    let turns = b.for_so(b.empty(), None, b.empty(), b.block(b.list([body])));
    alone(b, b.list([b.declare_int(0, b.number(1)), turns]))
}

/// `int main(){ int* p = nullptr; return *p; }`
pub fn using_null(b: Build) -> Made<Program> {
    let referred = b.indirection(b.read_pointer(b.variable(0)));
    alone(
        b,
        b.list([
            b.declare(0, POINTER_TO_INT, b.value(b.null())),
            b.returns(b.read_int(referred)),
        ]),
    )
}

/// `int main(){ int k = k; return 0; }`
pub fn initialised_by_itself(b: Build) -> Made<Program> {
    alone(
        b,
        b.list([b.declare_int(0, b.value_in(0)), b.returns(b.number(0))]),
    )
}

/// `int main(){ int& r = r; return r; }`
pub fn referring_to_itself(b: Build) -> Made<Program> {
    alone(
        b,
        b.list([
            b.declare_reference(0, b.variable(0)),
            b.returns(b.value_in(0)),
        ]),
    )
}

const IS_POSITIVE: Stated = Stated {
    kind: AssertionKind::Post,
    name: b"f#post1",
    file: b"a.cpp",
    line: 1,
    column: 16,
    comment: b"r > 0",
};

/// `int& f(int& x) post(r : r > 0) { return x; } int main(){ int k = 1; int& r = f(k); r = 6; return k; }`
pub fn referring(b: Build) -> Made<Program> {
    let arguments = b.list([b.by_reference(b.variable(0))]);
    let main = b.main(b.list([
        b.declare_int(0, b.number(1)),
        b.declare_reference(1, b.call(1, arguments)),
        b.set_int(1, b.number(6)),
        b.returns(b.value_in(0)),
    ]));
    let is_positive = b.ints(
        BinaryOperator::Greater,
        b.read_int(b.result_name()),
        b.number(0),
    );
    let f = b.function(
        ResultKind::Reference,
        b.list([b.returns_reference(b.variable(0))]),
    );
    let f = b.after(b.list([b.specifier(0, is_positive)]), f);
    b.with_assertions(
        &[Under(IS_POSITIVE, Semantic::Enforce, 1)],
        b.program(b.list([main, f])),
    )
}

/// `void f(int& x) { x = 4; return; } int main(){ int k = 1; f(k); return k; }`
pub fn returning_nothing(b: Build) -> Made<Program> {
    let arguments = b.list([b.by_reference(b.variable(0))]);
    let main = b.main(b.list([
        b.declare_int(0, b.number(1)),
        b.does(b.call(1, arguments)),
        b.returns(b.value_in(0)),
    ]));
    let f = b.function(
        ResultKind::Void,
        b.list([b.set_int(0, b.number(4)), b.returns_nothing()]),
    );
    b.program(b.list([main, f]))
}
