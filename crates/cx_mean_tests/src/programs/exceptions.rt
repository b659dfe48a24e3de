use crate::build::{Build, CHAR, INT, Made, Makers, class};
use cx_core::{BinaryOperator, Field, FieldInitializer, LeafKind, ResultKind};
use cx_mean::{Class, Function, Program};

/// `struct E { int c; E(int n) : c(n) {} };`, whose functions begin at 1; `M`, whose functions begin at 4; and
/// `struct W { M a; M b; M c; .. };`, whose functions begin at 7.
fn e_m_and_w(b: Build) -> Made<Vec<Class>> {
    let fields = [0, 1, 2].map(|leaf| Field { leaf, of: class(1) });
    let w = b.class(
        b"W",
        &fields,
        &[LeafKind::Number, LeafKind::Number, LeafKind::Number],
        4,
        Makers::from_number(7),
    );
    b.list([
        b.class_of_one(b"E", INT, Makers::with_parameters(1)),
        b.class_of_one(b"M", CHAR, Makers::with_parameters(4)),
        w,
    ])
}

/// `M(char k) : n(k) { if (k == 'c') throw E(9); }`
fn m_unless_c(b: Build) -> Made<Function> {
    let of_nine = b.list([b.int_argument(b.number(9))]);
    let throws = b.throws(class(0), b.construct(1, of_nine));
    let is_c = b.ints(
        BinaryOperator::Equal,
        b.read_char(b.variable(1)),
        b.character(b'c'),
    );
    let k = b.value(b.read(CHAR, b.variable(1)));
    b.constructor(
        b.list([b.field(0, CHAR, k)]),
        b.list([b.if_so(is_c, throws)]),
    )
}

/// A field `m('k')` of `W`.
fn m_of(b: Build, leaf: u32, byte: u8) -> Made<FieldInitializer> {
    let arguments = b.list([b.char_argument(byte)]);
    b.field(leaf, class(1), b.construct(4, arguments))
}

/// ```cpp
/// #include <cstdio>
/// struct E { int c; E(int n) : c(n) {} };
/// struct M { char n; M(char k) : n(k) { if (k == 'c') throw E(9); } ~M() { putchar(n); } };
/// struct W { M a; M b; M c; W() : a('a'), b('b'), c('c') {} ~W() { putchar('W'); } };
/// int main() { try { W w; } catch (const E& e) { return e.c; } return 0; }
/// ```
pub fn throwing_third_field(b: Build) -> Made<Program> {
    let code = b.read_int(b.member(0, b.variable(1)));
    let handler = b.catches_reference(class(0), 1, b.list([b.returns(code)]));
    let body = b.list([b.declare_plainly(0, 2, 7)]);
    let main = b.main(b.list([b.tries(body, b.list([handler])), b.returns(b.number(0))]));
    let functions = b.list([
        main,
        b.constructor(b.list([b.int_field(0, b.value_in(1))]), b.list([])),
        b.implicit_copy(0),
        b.implicit_destructor(0),
        m_unless_c(b),
        b.implicit_copy(1),
        b.destructor(1, b.list([b.does(b.putchar(b.read_char(b.own(0))))])),
        b.constructor(
            b.list([m_of(b, 0, b'a'), m_of(b, 1, b'b'), m_of(b, 2, b'c')]),
            b.list([]),
        ),
        b.implicit_copy(2),
        b.destructor(2, b.list([b.says(b'W')])),
    ]);
    b.with_classes(e_m_and_w(b), b.program(functions))
}

/// ```cpp
/// struct E { E() {} E(const E& o) { throw 1; } };
/// int main() { try { throw E(); } catch (E e) {} return 0; }
/// ```
pub fn throwing_copy(b: Build) -> Made<Program> {
    let copied = b.copy(2, b.exception_object());
    let handler = b.catches(class(0), 0, copied, b.list([]));
    let body = b.list([b.throws(class(0), b.construct_plainly(1))]);
    let main = b.main(b.list([b.tries(body, b.list([handler])), b.returns(b.number(0))]));
    let functions = b.list([
        main,
        b.constructor(b.list([]), b.list([])),
        b.constructor(b.list([]), b.list([b.throws_int(1)])),
        b.implicit_destructor(0),
    ]);
    let e = b.empty_class(b"E", Makers::from_number(1));
    b.with_classes(b.list([e]), b.program(functions))
}

/// `int main(){ throw; }`
pub fn rethrowing_nothing(b: Build) -> Made<Program> {
    b.program(b.list([b.main(b.list([b.rethrows()]))]))
}

/// ```cpp
/// #include <cstdio>
/// struct U { ~U() { putchar('u'); } };
/// void f() noexcept { U u; throw 1; }
/// int main(){ f(); return 0; }
/// ```
pub fn throwing_within_noexcept(b: Build) -> Made<Program> {
    let main = b.main(b.list([b.does(b.call(4, b.list([]))), b.returns(b.number(0))]));
    let f = b.function(
        ResultKind::Void,
        b.list([b.declare_plainly(0, 0, 1), b.throws_int(1)]),
    );
    let functions = b.list([
        main,
        b.implicit_constructor(0),
        b.implicit_copy(0),
        b.destructor(0, b.list([b.says(b'u')])),
        b.noexcept(f),
    ]);
    let u = b.empty_class(b"U", Makers::from_number(1));
    b.with_classes(b.list([u]), b.program(functions))
}

/// `int main(){ try { try { throw 1; } catch (int) { throw; } } catch (int e) { return e + 1; } }`
pub fn rethrowing(b: Build) -> Made<Program> {
    let inner = b.catches_int(b.list([b.rethrows()]));
    let within = b.tries(b.list([b.throws_int(1)]), b.list([inner]));
    let one_more = b.ints(BinaryOperator::Add, b.value_in(0), b.number(1));
    let outer = b.catches_int_in(0, b.list([b.returns(one_more)]));
    let main = b.main(b.list([b.tries(b.list([within]), b.list([outer]))]));
    b.program(b.list([main]))
}

/// `struct U { ~U() { throw 1; } }; int main(){ try { U u; } catch (...) {} return 0; }`
pub fn throwing_destructor(b: Build) -> Made<Program> {
    let body = b.list([b.declare_plainly(0, 0, 1)]);
    let catching = b.catches_all(b.list([]));
    let functions = b.list([
        b.main(b.list([b.tries(body, b.list([catching])), b.returns(b.number(0))])),
        b.implicit_constructor(0),
        b.implicit_copy(0),
        b.destructor(0, b.list([b.throws_int(1)])),
    ]);
    let u = b.empty_class(b"U", Makers::from_number(1));
    b.with_classes(b.list([u]), b.program(functions))
}

/// `int main(){ try { throw 'a'; } catch (int) { return 1; } catch (...) { return 2; } }`
pub fn throwing_a_char(b: Build) -> Made<Program> {
    let body = b.list([b.throws(CHAR, b.value(b.number(97)))]);
    let handlers = b.list([
        b.catches_int(b.list([b.returns(b.number(1))])),
        b.catches_all(b.list([b.returns(b.number(2))])),
    ]);
    b.program(b.list([b.main(b.list([b.tries(body, handlers)]))]))
}

/// `int main(){ throw 1; }`
pub fn catching_nothing(b: Build) -> Made<Program> {
    b.program(b.list([b.main(b.list([b.throws_int(1)]))]))
}

/// `struct A { A() {} A(const A& o) {} ~A() { putchar('a'); } };`,
/// `struct B { B() {} B(const B& o) { throw 3; } ~B() { putchar('b'); } };` and `struct W { A a; B b; };`, whose
/// functions begin at 1, 4 and 7.
fn functions_of_fields(b: Build) -> Made<Vec<Function>> {
    b.list([
        b.constructor(b.list([]), b.list([])),
        b.constructor(b.list([]), b.list([])),
        b.destructor(0, b.list([b.says(b'a')])),
        b.constructor(b.list([]), b.list([])),
        b.constructor(b.list([]), b.list([b.throws_int(3)])),
        b.destructor(1, b.list([b.says(b'b')])),
        b.implicit_constructor(2),
        b.implicit_copy(2),
        b.implicit_destructor(2),
    ])
}

/// ```cpp
/// #include <cstdio>
/// struct A { A() {} A(const A& o) {} ~A() { putchar('a'); } };
/// struct B { B() {} B(const B& o) { throw 3; } ~B() { putchar('b'); } };
/// struct W { A a; B b; };
/// int main() { try { W w; W x = w; } catch (int e) { return e; } return 0; }
/// ```
pub fn throwing_copy_of_a_field(b: Build) -> Made<Program> {
    let body = b.list([
        b.declare_plainly(0, 2, 7),
        b.declare(1, class(2), b.copy(8, b.variable(0))),
    ]);
    let catching = b.catches_int_in(2, b.list([b.returns(b.value_in(2))]));
    let main = b.main(b.list([b.tries(body, b.list([catching])), b.returns(b.number(0))]));
    let w = b.class(
        b"W",
        &[
            Field {
                leaf: 0,
                of: class(0),
            },
            Field {
                leaf: 1,
                of: class(1),
            },
        ],
        &[LeafKind::Empty, LeafKind::Empty],
        3,
        Makers::from_number(7),
    );
    let classes = b.list([
        b.empty_class(b"A", Makers::from_number(1)),
        b.empty_class(b"B", Makers::from_number(4)),
        w,
    ]);
    let functions = b.joined(b.list([main]), functions_of_fields(b));
    b.with_classes(classes, b.program(functions))
}
