use crate::build::{Build, Made, POINTER_TO_INT, Stated, Under};
use cx_code::{AssertionKind, Semantic};
use cx_core::{BinaryOperator, ResultKind};
use cx_mean::Program;

/// `int f(int n) { if (n == 0) return 0; return f(n - 1); }` and a `main` that returns `f` of a number.
pub fn calling_itself(b: Build, number: i128) -> Made<Program> {
    let first = b.list([b.int_argument(b.number(number))]);
    let main = b.main(b.list([b.returns(b.called(1, first))]));
    let is_last = b.ints(BinaryOperator::Equal, b.value_in(0), b.number(0));
    let less = b.ints(BinaryOperator::Subtract, b.value_in(0), b.number(1));
    let next = b.list([b.int_argument(less)]);
    let f = b.function(
        ResultKind::ScalarValue,
        b.list([
            b.if_so(is_last, b.returns(b.number(0))),
            b.returns(b.called(1, next)),
        ]),
    );
    b.program(b.list([main, f]))
}

/// `int f(int x){return x;} int main(){ int* p = nullptr; return f(f(f(*p))); }`, with so many calls inside one another.
pub fn calls_round_null(b: Build, calls: u32) -> Made<Program> {
    let mut value = b.read_int(b.indirection(b.read_pointer(b.variable(0))));
    for _ in 0..calls {
        value = b.called(1, b.list([b.int_argument(value)]));
    }
    let main = b.main(b.list([
        b.declare(0, POINTER_TO_INT, b.value(b.null())),
        b.returns(value),
    ]));
    let f = b.function(ResultKind::ScalarValue, b.list([b.returns(b.value_in(0))]));
    b.program(b.list([main, f]))
}

const IN_MAIN: Stated = Stated {
    kind: AssertionKind::Assert,
    name: b"main#assert1",
    file: b"a.cpp",
    line: 3,
    column: 13,
    comment: b"false",
};

const IN_HANDLER: Stated = Stated {
    kind: AssertionKind::Assert,
    name: b"handle_contract_violation#assert1",
    file: b"a.cpp",
    line: 2,
    column: 79,
    comment: b"false",
};

/// ```cpp
/// #include <contracts>
/// void handle_contract_violation(const std::contracts::contract_violation& v) { contract_assert(false); }
/// int main(){ contract_assert(false); return 0; }
/// ```
pub fn handling_within_handling(b: Build) -> Made<Program> {
    let main = b.main(b.list([b.asserts(0, b.number(0)), b.returns(b.number(0))]));
    let handler = b.violation_handler(b.list([b.asserts(1, b.number(0))]));
    let program = b.with_assertions(
        &[
            Under(IN_MAIN, Semantic::Enforce, 1),
            Under(IN_HANDLER, Semantic::Enforce, 1),
        ],
        b.program(b.list([main, handler])),
    );
    b.with_handler(1, program)
}
