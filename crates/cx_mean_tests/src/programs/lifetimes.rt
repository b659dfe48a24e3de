use crate::build::{Build, INT, Made, Makers, POINTER_TO_INT, Stated, Under, class};
use cx_code::{AssertionKind, Semantic};
use cx_core::{BinaryOperator, Field, LeafKind, ResultKind};
use cx_mean::{Class, Function, Program};

/// `struct S { int a; }; int main(){ S s; S t = s; return 4; }`
pub fn copying_what_is_unset(b: Build) -> Made<Program> {
    let main = b.main(b.list([
        b.declare_plainly(0, 0, 1),
        b.declare(1, class(0), b.copy(2, b.variable(0))),
        b.returns(b.number(4)),
    ]));
    let functions = b.list([
        main,
        b.implicit_constructor(0),
        b.implicit_copy(0),
        b.implicit_destructor(0),
    ]);
    let s = b.class_of_one(b"S", INT, Makers::from_number(1));
    b.with_classes(b.list([s]), b.program(functions))
}

/// `struct A { int v; A* p; }; struct B { A a; int w; };`, whose functions begin at 1 and 4.
fn nested_classes(b: Build) -> Made<Vec<Class>> {
    let a = b.class(
        b"A",
        &[
            Field { leaf: 0, of: INT },
            Field {
                leaf: 1,
                of: POINTER_TO_INT,
            },
        ],
        &[LeafKind::Number, LeafKind::Pointer],
        1,
        Makers::from_number(1),
    );
    let outer = b.class(
        b"B",
        &[
            Field {
                leaf: 0,
                of: class(0),
            },
            Field { leaf: 2, of: INT },
        ],
        &[LeafKind::Number, LeafKind::Pointer, LeafKind::Number],
        2,
        Makers::from_number(4),
    );
    b.list([a, outer])
}

/// ```cpp
/// struct A { int v; A* p; };
/// struct B { A a; int w; };
/// int main(){ B b = B(); B c = b; return c.a.v + c.w; }
/// ```
pub fn copying_nested_objects(b: Build) -> Made<Program> {
    let v = b.member(0, b.member(0, b.variable(1)));
    let w = b.member(2, b.variable(1));
    let sum = b.ints(BinaryOperator::Add, b.read_int(v), b.read_int(w));
    let zeroed = b.zero_first(1, b.construct_plainly(4));
    let main = b.main(b.list([
        b.declare(0, class(1), zeroed),
        b.declare(1, class(1), b.copy(5, b.variable(0))),
        b.returns(sum),
    ]));
    let functions = b.list([
        main,
        b.implicit_constructor(0),
        b.implicit_copy(0),
        b.implicit_destructor(0),
        b.implicit_constructor(1),
        b.implicit_copy(1),
        b.implicit_destructor(1),
    ]);
    b.with_classes(nested_classes(b), b.program(functions))
}

/// `struct S { int a; }; S* lost() { S s; return &s; } int main(){ lost()->a; return 0; }`
pub fn member_of_the_dead(b: Build) -> Made<Program> {
    let lost = b.indirection(b.called(4, b.list([])));
    let main = b.main(b.list([b.does(b.member(0, lost)), b.returns(b.number(0))]));
    let lost = b.function(
        ResultKind::ScalarValue,
        b.list([
            b.declare_plainly(0, 0, 1),
            b.returns(b.as_is(b.variable(0))),
        ]),
    );
    let functions = b.list([
        main,
        b.implicit_constructor(0),
        b.implicit_copy(0),
        b.implicit_destructor(0),
        lost,
    ]);
    let s = b.class_of_one(b"S", INT, Makers::from_number(1));
    b.with_classes(b.list([s]), b.program(functions))
}

/// An assertion whose predicate is `say()`.
fn says(kind: AssertionKind, name: &'static [u8], column: u32) -> Stated {
    Stated {
        kind,
        name,
        file: b"a.cpp",
        line: 4,
        column,
        comment: b"say ( )",
    }
}

/// The functions of `W`, class 1, with assertions 0 to 2.
fn functions_of_w(b: Build) -> Made<Vec<Function>> {
    let p = b.field(0, class(0), b.construct_plainly(1));
    let constructor = b.constructor(b.list([p]), b.list([]));
    let said = b.list([b.specifier(0, b.called(7, b.list([])))]);
    let destructor = b.destructor(1, b.list([b.says(b'W')]));
    let first = b.list([b.specifier(1, b.called(7, b.list([])))]);
    let last = b.list([b.specifier(2, b.called(7, b.list([])))]);
    b.list([
        b.after(said, constructor),
        b.implicit_copy(1),
        b.before(first, b.after(last, destructor)),
    ])
}

/// ```cpp
/// #include <cstdio>
/// bool say() { putchar('!'); return true; }
/// struct P { ~P() { putchar('p'); } };
/// struct W { P p; W() post(say()) {} ~W() pre(say()) post(say()) { putchar('W'); } };
/// int main() { W w; return 0; }
/// ```
pub fn checked_destruction(b: Build) -> Made<Program> {
    let main = b.main(b.list([b.declare_plainly(0, 1, 4), b.returns(b.number(0))]));
    let of_p = b.list([
        b.implicit_constructor(0),
        b.implicit_copy(0),
        b.destructor(0, b.list([b.says(b'p')])),
    ]);
    let say = b.function(
        ResultKind::ScalarValue,
        b.list([b.says(b'!'), b.returns(b.number(1))]),
    );
    let functions = b.joined(b.list([main]), of_p);
    let functions = b.joined(functions, b.joined(functions_of_w(b), b.list([say])));
    let p = b.empty_class(b"P", Makers::from_number(1));
    let w = b.class(
        b"W",
        &[Field {
            leaf: 0,
            of: class(0),
        }],
        &[LeafKind::Empty],
        2,
        Makers::from_number(4),
    );
    b.with_assertions(
        &[
            Under(
                says(AssertionKind::Post, b"W::W#post1", 21),
                Semantic::Enforce,
                1,
            ),
            Under(
                says(AssertionKind::Pre, b"W::~W#pre1", 41),
                Semantic::Enforce,
                1,
            ),
            Under(
                says(AssertionKind::Post, b"W::~W#post1", 52),
                Semantic::Enforce,
                1,
            ),
        ],
        b.with_classes(b.list([p, w]), b.program(functions)),
    )
}

/// `struct P { ~P() { putchar('p'); } };` and
/// `struct T { int v; T(int n) : v(n) {} ~T() { putchar('t'); } };`, whose functions begin at 1 and 4, and then others.
fn with_p_and_t(b: Build, main: Made<Function>, others: Made<Vec<Function>>) -> Made<Program> {
    let functions = b.list([
        main,
        b.implicit_constructor(0),
        b.implicit_copy(0),
        b.destructor(0, b.list([b.says(b'p')])),
        b.constructor(b.list([b.int_field(0, b.value_in(1))]), b.list([])),
        b.implicit_copy(1),
        b.destructor(1, b.list([b.says(b't')])),
    ]);
    let classes = b.list([
        b.empty_class(b"P", Makers::from_number(1)),
        b.class_of_one(b"T", INT, Makers::with_parameters(4)),
    ]);
    b.with_classes(classes, b.program(b.joined(functions, others)))
}

/// After `#include <cstdio>` and these classes: `void h(int n, P p) {} int main() { h(T(1).v, P()); return 0; }`
pub fn parameters_before_temporaries(b: Build) -> Made<Program> {
    let of_one = b.construct(4, b.list([b.int_argument(b.number(1))]));
    let v = b.member(0, b.temporary(class(1), of_one));
    let arguments = b.list([
        b.int_argument(b.read_int(v)),
        b.by_value(class(0), b.construct_plainly(1)),
    ]);
    let main = b.main(b.list([b.does(b.call(7, arguments)), b.returns(b.number(0))]));
    let h = b.function(ResultKind::Void, b.list([]));
    with_p_and_t(b, main, b.list([h]))
}

/// After `#include <cstdio>` and these classes:
///
/// ```cpp
/// void f(P p, int n) { putchar('f'); }
/// int bad() { throw 7; }
/// int main() { try { f(P(), bad()); } catch (int) { return 3; } return 0; }
/// ```
pub fn throwing_argument(b: Build) -> Made<Program> {
    let arguments = b.list([
        b.by_value(class(0), b.construct_plainly(1)),
        b.int_argument(b.called(8, b.list([]))),
    ]);
    let body = b.list([b.does(b.call(7, arguments))]);
    let catching = b.catches_int(b.list([b.returns(b.number(3))]));
    let main = b.main(b.list([b.tries(body, b.list([catching])), b.returns(b.number(0))]));
    let f = b.function(ResultKind::Void, b.list([b.says(b'f')]));
    let bad = b.function(ResultKind::ScalarValue, b.list([b.throws_int(7)]));
    with_p_and_t(b, main, b.list([f, bad]))
}

/// ```cpp
/// #include <cstdio>
/// struct P { ~P() { putchar('p'); } };
/// struct E { E() { throw 7; } ~E() { putchar('e'); } };
/// int main() { try { P p; E e; } catch (int) { return 3; } return 0; }
/// ```
pub fn throwing_constructor(b: Build) -> Made<Program> {
    let body = b.list([b.declare_plainly(0, 0, 1), b.declare_plainly(1, 1, 4)]);
    let catching = b.catches_int(b.list([b.returns(b.number(3))]));
    let main = b.main(b.list([b.tries(body, b.list([catching])), b.returns(b.number(0))]));
    let functions = b.list([
        main,
        b.implicit_constructor(0),
        b.implicit_copy(0),
        b.destructor(0, b.list([b.says(b'p')])),
        b.constructor(b.list([]), b.list([b.throws_int(7)])),
        b.implicit_copy(1),
        b.destructor(1, b.list([b.says(b'e')])),
    ]);
    let classes = b.list([
        b.empty_class(b"P", Makers::from_number(1)),
        b.empty_class(b"E", Makers::from_number(4)),
    ]);
    b.with_classes(classes, b.program(functions))
}
