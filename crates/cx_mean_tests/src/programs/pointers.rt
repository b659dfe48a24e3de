use crate::build::{Build, INT, Made, Makers, Stated, Under, class, pointer_to_function};
use crate::programs::By;
use cx_code::{AssertionKind, Semantic};
use cx_core::{
    Argument, BinaryOperator, Initializer, IntegerType, Operand, PointedResult, ResultKind,
    Specifier, UnaryOperator,
};
use cx_mean::{Function, Program};

/// What `f` is called with by a pointer to it in slot 0, which gives a scalar.
fn through(b: Build, arguments: Made<Vec<Argument>>) -> Made<Operand> {
    b.as_is(b.call_through(PointedResult::Scalar, b.pointer_in(0, 0), arguments))
}

/// One argument, for a parameter of type `int`.
fn one_int(b: Build, value: Made<Operand>) -> Made<Vec<Argument>> {
    b.list([b.int_argument(value)])
}

/// `int f(int x) { return x; }`
fn same_number(b: Build) -> Made<Function> {
    b.function(ResultKind::ScalarValue, b.list([b.returns(b.value_in(0))]))
}

// ---- contracts

/// The precondition of `f`, that its parameter is above 0, as the assertion with this index.
fn is_positive(b: Build, index: u32) -> Made<Vec<Specifier>> {
    let holds = b.ints(BinaryOperator::Greater, b.value_in(0), b.number(0));
    b.list([b.specifier(index, holds)])
}

/// The postcondition of `f`, that its result is above its parameter.
fn is_more(b: Build, index: u32) -> Made<Vec<Specifier>> {
    let holds = b.ints(
        BinaryOperator::Greater,
        b.read_int(b.result_name()),
        b.value_in(0),
    );
    b.list([b.specifier(index, holds)])
}

/// Both assertions of `f`, by the file of its first declaration.
fn stated(file: &'static [u8]) -> (Stated, Stated) {
    let before = Stated {
        kind: AssertionKind::Pre,
        name: b"f#pre1",
        file,
        line: 1,
        column: 20,
        comment: b"x > 0",
    };
    let behind = Stated {
        kind: AssertionKind::Post,
        name: b"f#post1",
        file,
        line: 1,
        column: 31,
        comment: b"r > x",
    };
    (before, behind)
}

/// `{ return x + 1; }` with its contract, by the Definer's indices of both assertions.
fn one_more(b: Build, before: u32, behind: u32) -> Made<Function> {
    let sum = b.ints(BinaryOperator::Add, b.value_in(0), b.number(1));
    let f = b.function(ResultKind::ScalarObject, b.list([b.returns(sum)]));
    b.before(is_positive(b, before), b.after(is_more(b, behind), f))
}

/// `int f(const int x) pre(x > 0) post(r : r > x) { return x + 1; }` and
/// `int main(){ int (*p)(int) = f; return (*p)(4); }`, or a `main` that calls `f` by its name, with the plan
/// `unit a.cpp enforce all 1`.
pub fn checked_call(b: Build, by: By) -> Made<Program> {
    let four = one_int(b, b.number(4));
    let called = match by {
        By::Name => b.called(1, four),
        By::Pointer => through(b, four),
    };
    let main = b.main(b.list([b.declare_pointer(0, 0, b.named(1)), b.returns(called)]));
    let checks = b.list([b.no_checks(), b.checks(is_positive(b, 0), is_more(b, 1))]);
    let program = b.with_caller(checks, b.program(b.list([main, one_more(b, 0, 1)])));
    let (before, behind) = stated(b"a.cpp");
    b.with_assertions(
        &[
            Under(before, Semantic::Enforce, 2),
            Under(behind, Semantic::Enforce, 2),
        ],
        program,
    )
}

/// `h.h` is `int f(const int x) pre(x > 0) post(r : r > x);`. The first unit includes it and has
/// `int main(){ int (*p)(int) = f; int k = p(0); return f(k); }`; the second one has
/// `int f(const int x) { return x + 1; }`. The plan is `unit a.cpp enforce all 0`, `unit b.cpp ignore none 0`.
pub fn called_both_ways(b: Build) -> Made<Program> {
    let main = b.main(b.list([
        b.declare_pointer(0, 0, b.named(1)),
        b.declare_int(1, through(b, one_int(b, b.number(0)))),
        b.returns(b.called(1, one_int(b, b.value_in(1)))),
    ]));
    let f = b.in_unit(1, one_more(b, 2, 3));
    let checks = b.list([b.no_checks(), b.checks(is_positive(b, 0), is_more(b, 1))]);
    let program = b.with_caller(checks, b.program(b.list([main, f])));
    let (before, behind) = stated(b"h.h");
    b.with_assertions(
        &[
            Under(before, Semantic::Enforce, 1),
            Under(behind, Semantic::Enforce, 1),
            Under(before, Semantic::Ignore, 0),
            Under(behind, Semantic::Ignore, 0),
        ],
        program,
    )
}

// ---- null

/// `main` returns what a null pointer is called with, and gives an `int`.
fn calls_null(b: Build, argument: Made<Operand>) -> Made<Program> {
    let called = through(b, one_int(b, argument));
    let main = b.main(b.list([b.declare_pointer(0, 0, b.null()), b.returns(called)]));
    b.program(b.list([main]))
}

/// `int main(){ int (*p)(int) = nullptr; return p(1); }`
pub fn calling_null(b: Build) -> Made<Program> {
    calls_null(b, b.number(1))
}

/// After `#include <cstdio>`: `int main(){ int (*p)(int) = nullptr; return p(putchar('a')); }`
pub fn calling_null_last(b: Build) -> Made<Program> {
    calls_null(b, b.as_is(b.putchar(b.character(b'a'))))
}

/// ```cpp
/// #include <cstdio>
/// struct P { P() { putchar('P'); } ~P() { putchar('p'); } };
/// int main(){ P (*q)(P) = nullptr; P x = q(P()); return 0; }
/// ```
pub fn calling_null_with_an_object(b: Build) -> Made<Program> {
    let passed = b.by_value(class(0), b.construct_plainly(1));
    let called = b.result_through(b.pointer_in(0, 0), b.list([passed]));
    let main = b.main(b.list([
        b.declare_pointer(0, 0, b.null()),
        b.declare(1, class(0), called),
        b.returns(b.number(0)),
    ]));
    let functions = b.list([
        main,
        b.constructor(b.list([]), b.list([b.says(b'P')])),
        b.implicit_copy(0),
        b.destructor(0, b.list([b.says(b'p')])),
    ]);
    let p = b.empty_class(b"P", Makers::from_number(1));
    b.with_classes(b.list([p]), b.program(functions))
}

/// `==` or `!=` of two pointers.
fn compared(
    b: Build,
    operator: BinaryOperator,
    left: Made<Operand>,
    right: Made<Operand>,
) -> Made<Operand> {
    b.as_is(b.binary(operator, IntegerType::Int, left, right))
}

/// ```cpp
/// int f(int x) { return x; }
/// int main(){ int (*p)(int) = f; int (*q)(int) = nullptr; return p == f && p != q && !q ? 3 : 0; }
/// ```
pub fn comparing_pointers(b: Build) -> Made<Program> {
    let is_f = compared(b, BinaryOperator::Equal, b.pointer_in(0, 0), b.named(1));
    let is_other = compared(
        b,
        BinaryOperator::NotEqual,
        b.pointer_in(0, 0),
        b.pointer_in(1, 0),
    );
    let is_set = b.converted(
        Some(pointer_to_function(0)),
        IntegerType::Bool,
        b.variable(1),
    );
    let is_null = b.as_is(b.unary(UnaryOperator::Not, is_set));
    let chosen = b.conditional(
        b.and(b.and(is_f, is_other), is_null),
        b.number(3),
        b.number(0),
    );
    let main = b.main(b.list([
        b.declare_pointer(0, 0, b.named(1)),
        b.declare_pointer(1, 0, b.null()),
        b.returns(b.as_is(chosen)),
    ]));
    b.program(b.list([main, same_number(b)]))
}

// ---- results

/// `int f(int x) { return x; }` and `int main(){ int (*p)(int) = f; return p(4); }`, or a `main` with `return f(4);`
/// alone.
pub fn calling(b: Build, by: By) -> Made<Program> {
    let four = one_int(b, b.number(4));
    let body = match by {
        By::Name => b.list([b.returns(b.called(1, four))]),
        By::Pointer => b.list([
            b.declare_pointer(0, 0, b.named(1)),
            b.returns(through(b, four)),
        ]),
    };
    b.program(b.list([b.main(body), same_number(b)]))
}

/// After `#include <cstdio>`:
/// `int f(int x) { return x; } int main(){ return (putchar('a') ? f : f)(4); }`
pub fn choosing_what_is_called(b: Build) -> Made<Program> {
    let said = b.as_is(b.putchar(b.character(b'a')));
    let chosen = b.as_is(b.conditional(said, b.named(1), b.named(1)));
    let called = b.call_through(PointedResult::Scalar, chosen, one_int(b, b.number(4)));
    let main = b.main(b.list([b.returns(b.as_is(called))]));
    b.program(b.list([main, same_number(b)]))
}

/// ```cpp
/// struct S {};
/// int f(int x) { return x; }
/// void g(int x) {}
/// int& h(int& x) { return x; }
/// int main() {
///   int (*p)(int) = f; void (*q)(int) = g; int& (*r)(int&) = h;
///   p(1); S a; q(1); S b; int k = 1; r(k) = 5; S c; f(1); S d;
///   return k;
/// }
/// ```
pub fn numbering_results(b: Build) -> Made<Program> {
    let nothing = b.call_through(
        PointedResult::Void,
        b.pointer_in(1, 1),
        one_int(b, b.number(1)),
    );
    let place = b.call_through(
        PointedResult::Reference,
        b.pointer_in(2, 2),
        b.list([b.by_reference(b.variable(5))]),
    );
    let pointers = b.list([
        b.declare_pointer(0, 0, b.named(4)),
        b.declare_pointer(1, 1, b.named(5)),
        b.declare_pointer(2, 2, b.named(6)),
    ]);
    let calls = b.list([
        b.discards(through(b, one_int(b, b.number(1)))),
        b.declare_plainly(3, 0, 1),
        b.does(nothing),
        b.declare_plainly(4, 0, 1),
        b.declare_int(5, b.number(1)),
        b.does(b.assign(place, b.number(5))),
        b.declare_plainly(6, 0, 1),
        b.does(b.call(4, one_int(b, b.number(1)))),
        b.declare_plainly(7, 0, 1),
        b.returns(b.value_in(5)),
    ]);
    let functions = b.list([
        b.main(b.joined(pointers, calls)),
        b.implicit_constructor(0),
        b.implicit_copy(0),
        b.implicit_destructor(0),
        same_number(b),
        b.function(ResultKind::Void, b.list([])),
        b.function(
            ResultKind::Reference,
            b.list([b.returns_reference(b.variable(0))]),
        ),
    ]);
    let s = b.empty_class(b"S", Makers::from_number(1));
    b.with_classes(b.list([s]), b.program(functions))
}

/// `struct C { int n; C(int k) : n(k) {} ~C() { putchar(n); } };` with functions 1 to 3,
/// `C make(int k) { return C(k); }` as function 4, and then another.
fn with_make(b: Build, main: Made<Function>, other: Made<Function>) -> Made<Program> {
    let of_k = b.construct(1, one_int(b, b.value_in(0)));
    let functions = b.list([
        main,
        b.constructor(b.list([b.int_field(0, b.value_in(1))]), b.list([])),
        b.implicit_copy(0),
        b.destructor(0, b.list([b.does(b.putchar(b.read_int(b.own(0))))])),
        b.function(ResultKind::ClassObject(0), b.list([b.returns_object(of_k)])),
        other,
    ]);
    let c = b.class_of_one(b"C", INT, Makers::with_parameters(1));
    b.with_classes(b.list([c]), b.program(functions))
}

/// What the pointer in slot 0 is called with, a character, as the initialiser of an object.
fn made_of(b: Build, byte: u8) -> Made<Initializer> {
    b.result_through(b.pointer_in(0, 0), one_int(b, b.character(byte)))
}

/// ```cpp
/// #include <cstdio>
/// struct C { int n; C(int k) : n(k) {} ~C() { putchar(n); } };
/// C make(int k) { return C(k); }
/// int take(C c) { return c.n; }
/// int main() {
///   C (*p)(int) = make; C c = p('a'); int v = p('b').n; v = take(p('c')); return v; }
/// ```
pub fn making_through_a_pointer(b: Build) -> Made<Program> {
    let of_b = b.temporary_through(0, b.pointer_in(0, 0), one_int(b, b.character(b'b')));
    let n = b.read_int(b.member(0, of_b));
    let taken = b.called(5, b.list([b.by_value(class(0), made_of(b, b'c'))]));
    let main = b.main(b.list([
        b.declare_pointer(0, 0, b.named(4)),
        b.declare(1, class(0), made_of(b, b'a')),
        b.declare_int(2, n),
        b.set_int(2, taken),
        b.returns(b.value_in(2)),
    ]));
    let own_number = b.read_int(b.member(0, b.variable(0)));
    let take = b.function(ResultKind::ScalarValue, b.list([b.returns(own_number)]));
    with_make(b, main, take)
}

/// ```cpp
/// #include <cstdio>
/// struct C { int n; C(int k) : n(k) {} ~C() { putchar(n); } };
/// C make(int k) { return C(k); }
/// int f(int x) { return x; }
/// int main() { return (f(1) ? make : make)('b').n; }
/// ```
pub fn making_a_temporary_behind_the_pointer(b: Build) -> Made<Program> {
    let chosen = b.conditional(b.called(5, one_int(b, b.number(1))), b.named(4), b.named(4));
    let made = b.temporary_through(0, b.as_is(chosen), one_int(b, b.character(b'b')));
    let main = b.main(b.list([b.returns(b.read_int(b.member(0, made)))]));
    with_make(b, main, same_number(b))
}

/// ```cpp
/// #include <cstdio>
/// struct P { ~P() { putchar('p'); } };
/// int f(P p) { throw 3; }
/// int main(){ int (*q)(P) = f; try { return q(P()); } catch (int e) { return e; } }
/// ```
pub fn throwing_through_a_pointer(b: Build) -> Made<Program> {
    let passed = b.by_value(class(0), b.zero_first(0, b.construct_plainly(1)));
    let body = b.list([b.returns(through(b, b.list([passed])))]);
    let catching = b.catches_int_in(1, b.list([b.returns(b.value_in(1))]));
    let functions = b.list([
        b.main(b.list([
            b.declare_pointer(0, 0, b.named(4)),
            b.tries(body, b.list([catching])),
        ])),
        b.implicit_constructor(0),
        b.implicit_copy(0),
        b.destructor(0, b.list([b.says(b'p')])),
        b.function(ResultKind::ScalarValue, b.list([b.throws_int(3)])),
    ]);
    let p = b.empty_class(b"P", Makers::from_number(1));
    b.with_classes(b.list([p]), b.program(functions))
}
