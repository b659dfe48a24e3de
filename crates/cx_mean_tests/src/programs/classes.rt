use crate::build::{Build, INT, Made, Makers, Stated, Under, class};
use cx_code::{AssertionKind, Semantic};
use cx_core::{BinaryOperator, Operand, ResultKind, Statement};
use cx_mean::{Function, Program};

/// A function that gives a number.
fn giving(b: Build, number: i128) -> Made<Function> {
    b.function(
        ResultKind::ScalarValue,
        b.list([b.returns(b.number(number))]),
    )
}

/// ```cpp
/// struct T { int v; T(int n) : v(n) {} T(const T& o) : v(o.v + 1) {} };
/// T g() { T a(1); return a; }
/// int main() { T b = g(); T c = b; return c.v; }
/// ```
pub fn counting_copies(b: Build) -> Made<Program> {
    let main = b.main(b.list([
        b.declare(0, class(0), b.result_of(4, b.list([]))),
        b.declare(1, class(0), b.copy(2, b.variable(0))),
        b.returns(b.read_int(b.member(0, b.variable(1)))),
    ]));
    let made = b.constructor(b.list([b.int_field(0, b.value_in(1))]), b.list([]));
    let one_more = b.ints(
        BinaryOperator::Add,
        b.read_int(b.member(0, b.variable(1))),
        b.number(1),
    );
    let copied = b.constructor(b.list([b.int_field(0, one_more)]), b.list([]));
    let of_one = b.list([b.int_argument(b.number(1))]);
    let g = b.function(
        ResultKind::ClassObject(0),
        b.list([
            b.declare(0, class(0), b.construct(1, of_one)),
            b.returns_object(b.copy(2, b.variable(0))),
        ]),
    );
    let t = b.class_of_one(b"T", INT, Makers::with_parameters(1));
    let functions = b.list([main, made, copied, b.implicit_destructor(0), g]);
    b.with_classes(b.list([t]), b.program(functions))
}

/// `main` with a body in a program of one class, whose objects functions 1 to 3 make, copy and destroy.
fn of_implicit_class(b: Build, body: Made<Vec<Statement>>) -> Made<Vec<Function>> {
    b.list([
        b.main(body),
        b.implicit_constructor(0),
        b.implicit_copy(0),
        b.implicit_destructor(0),
    ])
}

/// `struct S { int a; }; int main(){ return S().a; }`
pub fn zeroed_temporary(b: Build) -> Made<Program> {
    let zeroed = b.zero_first(0, b.construct_plainly(1));
    let field = b.member(0, b.temporary(class(0), zeroed));
    let body = b.list([b.returns(b.read_int(field))]);
    let s = b.class_of_one(b"S", INT, Makers::from_number(1));
    b.with_classes(b.list([s]), b.program(of_implicit_class(b, body)))
}

/// `struct S { int a; }; int main(){ S s; return s.a; }`
pub fn unset_field(b: Build) -> Made<Program> {
    let field = b.member(0, b.variable(0));
    let body = b.list([b.declare_plainly(0, 0, 1), b.returns(b.read_int(field))]);
    let s = b.class_of_one(b"S", INT, Makers::from_number(1));
    b.with_classes(b.list([s]), b.program(of_implicit_class(b, body)))
}

/// `struct S { int a; };` and a `main` that discards a value of its `S s`, and returns 0.
fn discarding(b: Build, value: Made<Operand>) -> Made<Program> {
    let body = b.list([
        b.declare_plainly(0, 0, 1),
        b.discards(value),
        b.returns(b.number(0)),
    ]);
    let s = b.class_of_one(b"S", INT, Makers::from_number(1));
    b.with_classes(b.list([s]), b.program(of_implicit_class(b, body)))
}

/// `struct S { int a; }; int main(){ S s; +s.a; return 0; }`
pub fn discarding_a_value(b: Build) -> Made<Program> {
    discarding(b, b.read_int(b.member(0, b.variable(0))))
}

/// `struct S { int a; }; int main(){ S s; s.a; return 0; }`
pub fn discarding_an_lvalue(b: Build) -> Made<Program> {
    discarding(b, b.as_is(b.member(0, b.variable(0))))
}

const IS_CONST: Stated = Stated {
    kind: AssertionKind::Assert,
    name: b"main#assert1",
    file: b"a.cpp",
    line: 1,
    column: 82,
    comment: b"s . f ( ) == 2",
};

/// On one line:
///
/// ```cpp
/// struct S { int f() { return 1; } int f() const { return 2; } };
/// int main(){ S s; contract_assert(s.f() == 2); return s.f(); }
/// ```
pub fn const_pair(b: Build) -> Made<Program> {
    let is_const = b.ints(
        BinaryOperator::Equal,
        b.called(5, b.list([b.on(0)])),
        b.number(2),
    );
    let body = b.list([
        b.declare_plainly(0, 0, 1),
        b.asserts(0, is_const),
        b.returns(b.called(4, b.list([b.on(0)]))),
    ]);
    let members = b.list([giving(b, 1), giving(b, 2)]);
    let functions = b.joined(of_implicit_class(b, body), members);
    let s = b.empty_class(b"S", Makers::from_number(1));
    b.with_assertions(
        &[Under(IS_CONST, Semantic::Enforce, 1)],
        b.with_classes(b.list([s]), b.program(functions)),
    )
}

/// `h.h` is `struct S { int f() const { return 4; } };`. The first unit includes it and has
/// `int main(){ S s; return s.f(); }`; the second unit includes it alone. The inline function is the first unit's.
pub fn inline_member(b: Build) -> Made<Program> {
    let body = b.list([
        b.declare_plainly(0, 0, 1),
        b.returns(b.called(4, b.list([b.on(0)]))),
    ]);
    let functions = b.joined(of_implicit_class(b, body), b.list([giving(b, 4)]));
    let s = b.empty_class(b"S", Makers::from_number(1));
    b.with_classes(b.list([s]), b.program(functions))
}

/// `struct S { int f() { return 1; } int g() { return f(); } }; int main(){ S s; return s.g(); }`
pub fn naming_a_member_alone(b: Build) -> Made<Program> {
    let body = b.list([
        b.declare_plainly(0, 0, 1),
        b.returns(b.called(5, b.list([b.on(0)]))),
    ]);
    let own = b.list([b.by_reference(b.own(0))]);
    let g = b.function(
        ResultKind::ScalarValue,
        b.list([b.returns(b.called(4, own))]),
    );
    let functions = b.joined(of_implicit_class(b, body), b.list([giving(b, 1), g]));
    let s = b.empty_class(b"S", Makers::from_number(1));
    b.with_classes(b.list([s]), b.program(functions))
}
