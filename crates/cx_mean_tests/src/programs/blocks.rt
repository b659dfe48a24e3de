use crate::build::{Build, Made, POINTER_TO_INT, Stated, Under};
use crate::programs::Takes;
use cx_code::{AssertionKind, Semantic};
use cx_core::{BinaryOperator, Operand, ResultKind, Specifier};
use cx_mean::Program;

const STEPS: Stated = Stated {
    kind: AssertionKind::Pre,
    name: b"f#pre1",
    file: b"a.cpp",
    line: 1,
    column: 15,
    comment: b"++ * p > 0",
};

/// `int f(int* p) pre(++*p > 0) { return *p; } int main(){ int k = 0; return f(&k); }`, with two repetitions.
pub fn stepping(b: Build) -> Made<Program> {
    let address = b.value(b.as_is(b.variable(0)));
    let arguments = b.list([b.by_value(POINTER_TO_INT, address)]);
    let main = b.main(b.list([
        b.declare_int(0, b.number(0)),
        b.returns(b.called(1, arguments)),
    ]));
    let referred = b.indirection(b.read_pointer(b.variable(0)));
    let stepped = b.read_int(b.increment(referred));
    let is_positive = b.ints(BinaryOperator::Greater, stepped, b.number(0));
    let value = b.read_int(b.indirection(b.read_pointer(b.variable(0))));
    let f = b.function(ResultKind::ScalarValue, b.list([b.returns(value)]));
    let f = b.before(b.list([b.specifier(0, is_positive)]), f);
    b.with_assertions(
        &[Under(STEPS, Semantic::Enforce, 3)],
        b.program(b.list([main, f])),
    )
}

const IS_POSITIVE: Stated = Stated {
    kind: AssertionKind::Pre,
    name: b"f#pre1",
    file: b"h.h",
    line: 1,
    column: 14,
    comment: b"x > 0",
};

const IS_ABOVE_ONE: Stated = Stated {
    kind: AssertionKind::Pre,
    name: b"f#pre2",
    file: b"h.h",
    line: 1,
    column: 25,
    comment: b"x > 1",
};

/// The one parameter is above a number.
fn is_above(b: Build, number: i128) -> Made<Operand> {
    b.ints(BinaryOperator::Greater, b.value_in(0), b.number(number))
}

/// `main` of the first unit calls `f` of the second one, which gives 5, with a number: what the Caller checks, and what
/// the Definer does.
fn calls_over_units(
    b: Build,
    number: i128,
    caller: Made<Vec<Specifier>>,
    definer: Made<Vec<Specifier>>,
) -> Made<Program> {
    let arguments = b.list([b.int_argument(b.number(number))]);
    let main = b.main(b.list([b.returns(b.called(1, arguments))]));
    let f = b.function(ResultKind::ScalarValue, b.list([b.returns(b.number(5))]));
    let f = b.in_unit(1, b.before(definer, f));
    let checks = b.list([b.no_checks(), b.checks(caller, b.list([]))]);
    b.with_caller(checks, b.program(b.list([main, f])))
}

/// `h.h` is `int f(int x) pre(x > 0);`. The first unit includes it and has `int main(){ return f(0); }`; it observes,
/// also as Caller. The second has `int f(int x) { return 5; }` and enforces.
pub fn checked_by_both(b: Build) -> Made<Program> {
    let caller = b.list([b.specifier(0, is_above(b, 0))]);
    let definer = b.list([b.specifier(1, is_above(b, 0))]);
    b.with_assertions(
        &[
            Under(IS_POSITIVE, Semantic::Observe, 1),
            Under(IS_POSITIVE, Semantic::Enforce, 1),
        ],
        calls_over_units(b, 0, caller, definer),
    )
}

/// What the first unit evaluates as Caller of the two assertions, and how often the second unit evaluates each as
/// Definer.
fn plan(takes: Takes) -> ([Under; 2], u16) {
    match takes {
        Takes::CallerPasses => {
            let first = Under(IS_POSITIVE, Semantic::Ignore, 0);
            ([first, Under(IS_ABOVE_ONE, Semantic::Enforce, 1)], 1)
        }
        Takes::DefinerRepeats => {
            let first = Under(IS_POSITIVE, Semantic::Ignore, 0);
            ([first, Under(IS_ABOVE_ONE, Semantic::Ignore, 0)], 2)
        }
        Takes::BothEvaluate => {
            let first = Under(IS_POSITIVE, Semantic::Observe, 1);
            ([first, Under(IS_ABOVE_ONE, Semantic::Observe, 1)], 1)
        }
    }
}

/// `h.h` is `int f(int x) pre(x > 0) pre(x > 1);`. The first unit includes it and has `int main(){ return f(2); }`; the
/// second has `int f(int x) { return 5; }`.
pub fn called_with_two(b: Build, takes: Takes) -> Made<Program> {
    let ([first, second], times) = plan(takes);
    let caller = b.list([
        b.specifier(0, is_above(b, 0)),
        b.specifier(1, is_above(b, 1)),
    ]);
    let definer = b.list([
        b.specifier(2, is_above(b, 0)),
        b.specifier(3, is_above(b, 1)),
    ]);
    b.with_assertions(
        &[
            first,
            second,
            Under(IS_POSITIVE, Semantic::Enforce, times),
            Under(IS_ABOVE_ONE, Semantic::Enforce, times),
        ],
        calls_over_units(b, 2, caller, definer),
    )
}

const IS_MORE: Stated = Stated {
    kind: AssertionKind::Post,
    name: b"f#post1",
    file: b"a.cpp",
    line: 1,
    column: 20,
    comment: b"r > a",
};

/// `int f(const int a) post(r : r > a) { return a; } int main(){ return f(3); }`
pub fn result_is_compared(b: Build) -> Made<Program> {
    let arguments = b.list([b.int_argument(b.number(3))]);
    let main = b.main(b.list([b.returns(b.called(1, arguments))]));
    let is_more = b.ints(
        BinaryOperator::Greater,
        b.read_int(b.result_name()),
        b.value_in(0),
    );
    let f = b.function(ResultKind::ScalarObject, b.list([b.returns(b.value_in(0))]));
    let f = b.after(b.list([b.specifier(0, is_more)]), f);
    b.with_assertions(
        &[Under(IS_MORE, Semantic::Enforce, 1)],
        b.program(b.list([main, f])),
    )
}
