use crate::build::{Build, Made, UNSIGNED};
use cx_core::{BinaryOperator, IntegerType, Operand, ResultKind};
use cx_mean::Program;

/// `int main(){ int n = 0; while (getchar() != -1) n = n + 1; return n; }`
pub fn counting_bytes(b: Build) -> Made<Program> {
    let is_byte = b.ints(BinaryOperator::NotEqual, b.as_is(b.getchar()), b.number(-1));
    let next = b.ints(BinaryOperator::Add, b.value_in(0), b.number(1));
    b.program(b.list([b.main(b.list([
        b.declare_int(0, b.number(0)),
        b.while_so(is_byte, b.set_int(0, next)),
        b.returns(b.value_in(0)),
    ]))]))
}

/// An `unsigned` literal.
fn unsigned(b: Build, number: i128) -> Made<Operand> {
    b.converted(None, IntegerType::Unsigned, b.literal(number))
}

/// `int main(){ unsigned k = 0; k = k - 1; return k > 4000000000; }`
pub fn wrapping(b: Build) -> Made<Program> {
    let less = b.as_is(b.binary(
        BinaryOperator::Subtract,
        IntegerType::Unsigned,
        b.read(UNSIGNED, b.variable(0)),
        unsigned(b, 1),
    ));
    let is_large = b.binary(
        BinaryOperator::Greater,
        IntegerType::LongLong,
        b.converted(Some(UNSIGNED), IntegerType::LongLong, b.variable(0)),
        b.number(4_000_000_000),
    );
    b.program(b.list([b.main(b.list([
        b.declare(0, UNSIGNED, b.value(unsigned(b, 0))),
        b.set_int(0, less),
        b.returns(b.converted(None, IntegerType::Int, is_large)),
    ]))]))
}

/// `int main(){ return 1 << 32; }`
pub fn shifting_too_far(b: Build) -> Made<Program> {
    let shifted = b.ints(BinaryOperator::ShiftLeft, b.number(1), b.number(32));
    b.program(b.list([b.main(b.list([b.returns(shifted)]))]))
}

/// `int g = 5; int up(int& x) { x += 2; return x; } int main(){ return up(g) + g; }`
pub fn stepping_a_global(b: Build) -> Made<Program> {
    let arguments = b.list([b.by_reference(b.global(0))]);
    let sum = b.ints(
        BinaryOperator::Add,
        b.called(1, arguments),
        b.read_int(b.global(0)),
    );
    let main = b.main(b.list([b.returns(sum)]));
    let up = b.function(
        ResultKind::ScalarValue,
        b.list([
            b.does(b.assign_by(BinaryOperator::Add, b.variable(0), b.number(2))),
            b.returns(b.value_in(0)),
        ]),
    );
    b.with_global(5, b.program(b.list([main, up])))
}

/// `int f() { } int main(){ return f(); }`
pub fn flowing_off_the_end(b: Build) -> Made<Program> {
    let main = b.main(b.list([b.returns(b.called(1, b.list([])))]));
    let f = b.function(ResultKind::ScalarValue, b.list([]));
    b.program(b.list([main, f]))
}

/// `int* keep(int& x) { return &x; } int* lost() { int k = 1; return keep(k); } int main(){ return *lost(); }`
pub fn pointing_to_the_dead(b: Build) -> Made<Program> {
    let lost = b.indirection(b.called(2, b.list([])));
    let main = b.main(b.list([b.returns(b.read_int(lost))]));
    let keep = b.function(
        ResultKind::ScalarValue,
        b.list([b.returns(b.as_is(b.variable(0)))]),
    );
    let arguments = b.list([b.by_reference(b.variable(0))]);
    let lost = b.function(
        ResultKind::ScalarValue,
        b.list([
            b.declare_int(0, b.number(1)),
            b.returns(b.called(1, arguments)),
        ]),
    );
    b.program(b.list([main, keep, lost]))
}
