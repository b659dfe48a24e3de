use crate::build::{Build, INT, Made, Makers, Stated, Under, class};
use cx_code::{AssertionKind, Semantic};
use cx_core::{Expression, Initializer, ResultKind};
use cx_mean::{Class, Function, Program};

/// `struct T { int v; T(int n) : v(n) { putchar('T'); } ~T() { putchar('t'); } };`, whose functions begin at 1.
fn t(b: Build) -> Made<Class> {
    b.class_of_one(b"T", INT, Makers::with_parameters(1))
}

/// `struct P { ~P() { putchar('p'); } };`, whose functions begin at 4.
fn p(b: Build) -> Made<Class> {
    b.empty_class(b"P", Makers::from_number(4))
}

/// The functions of `T`, class 0, and of `P`, class 1.
fn functions_of_both(b: Build) -> Made<Vec<Function>> {
    b.list([
        b.constructor(
            b.list([b.int_field(0, b.value_in(1))]),
            b.list([b.says(b'T')]),
        ),
        b.implicit_copy(0),
        b.destructor(0, b.list([b.says(b't')])),
        b.implicit_constructor(1),
        b.implicit_copy(1),
        b.destructor(1, b.list([b.says(b'p')])),
    ])
}

/// `f(p)`, where `f` is function 7 and `p` is in slot 0, as the initialiser of an object.
fn result_of_f(b: Build) -> Made<Initializer> {
    let passed = b.by_value(class(1), b.copy(5, b.variable(0)));
    b.result_of(7, b.list([passed]))
}

/// `T(1)`.
fn t_of_one(b: Build) -> Made<Initializer> {
    b.construct(1, b.list([b.int_argument(b.number(1))]))
}

/// `x.v`, where `x` is in slot 1.
fn v_of_x(b: Build) -> Made<Expression> {
    b.member(0, b.variable(1))
}

const SAYS: Stated = Stated {
    kind: AssertionKind::Post,
    name: b"f#post1",
    file: b"a.cpp",
    line: 6,
    column: 10,
    comment: b"say ( '!' )",
};

/// `bool say(char c) { putchar(c); return true; }`
fn say(b: Build) -> Made<Function> {
    b.function(
        ResultKind::ScalarValue,
        b.list([
            b.does(b.putchar(b.read_char(b.variable(0)))),
            b.returns(b.number(1)),
        ]),
    )
}

/// ```cpp
/// #include <cstdio>
/// struct T { int v; T(int n) : v(n) { putchar('T'); } ~T() { putchar('t'); } };
/// struct U { ~U() { putchar('u'); } };
/// struct P { ~P() { putchar('p'); } };
/// bool say(char c) { putchar(c); return true; }
/// T f(P p) post(say('!')) { U u; return T(1); }
/// int main() { P p; T x = f(p); return x.v; }
/// ```
pub fn speaking(b: Build) -> Made<Program> {
    let main = b.main(b.list([
        b.declare_plainly(0, 1, 4),
        b.declare(1, class(0), result_of_f(b)),
        b.returns(b.read_int(v_of_x(b))),
    ]));
    let f = b.function(
        ResultKind::ClassObject(0),
        b.list([b.declare_plainly(1, 2, 9), b.returns_object(t_of_one(b))]),
    );
    let said = b.called(8, b.list([b.char_argument(b'!')]));
    let f = b.after(b.list([b.specifier(0, said)]), f);
    let others = b.list([
        f,
        say(b),
        b.implicit_constructor(2),
        b.implicit_copy(2),
        b.destructor(2, b.list([b.says(b'u')])),
    ]);
    let functions = b.joined(b.list([main]), b.joined(functions_of_both(b), others));
    let u = b.empty_class(b"U", Makers::from_number(9));
    let program = b.with_classes(b.list([t(b), p(b), u]), b.program(functions));
    b.with_assertions(&[Under(SAYS, Semantic::Enforce, 1)], program)
}

const NEVER: Stated = Stated {
    kind: AssertionKind::Post,
    name: b"f#post1",
    file: b"a.cpp",
    line: 5,
    column: 10,
    comment: b"false",
};

/// ```cpp
/// #include <contracts>
/// #include <cstdio>
/// struct T { int v; T(int n) : v(n) { putchar('T'); } ~T() { putchar('t'); } };
/// struct P { ~P() { putchar('p'); } };
/// T f(P p) post(false) { return T(1); }
/// void handle_contract_violation(const std::contracts::contract_violation& v) { throw 5; }
/// int main() { P p; try { T x = f(p); return x.v; } catch (int e) { return e; } }
/// ```
pub fn giving_up_the_result(b: Build) -> Made<Program> {
    let body = b.list([
        b.declare(1, class(0), result_of_f(b)),
        b.returns(b.read_int(v_of_x(b))),
    ]);
    let handler = b.catches_int_in(1, b.list([b.returns(b.value_in(1))]));
    let main = b.main(b.list([b.declare_plainly(0, 1, 4), b.tries(body, b.list([handler]))]));
    let f = b.function(
        ResultKind::ClassObject(0),
        b.list([b.returns_object(t_of_one(b))]),
    );
    let f = b.after(b.list([b.specifier(0, b.number(0))]), f);
    let others = b.list([f, b.violation_handler(b.list([b.throws_int(5)]))]);
    let functions = b.joined(b.list([main]), b.joined(functions_of_both(b), others));
    let program = b.with_classes(b.list([t(b), p(b)]), b.program(functions));
    let program = b.with_assertions(&[Under(NEVER, Semantic::Enforce, 1)], program);
    b.with_handler(8, program)
}
