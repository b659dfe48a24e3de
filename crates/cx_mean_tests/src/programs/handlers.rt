use crate::build::{Build, Made, Makers, Stated, Under, class};
use cx_code::{AssertionKind, Semantic};
use cx_core::{BinaryOperator, Handler, IntegerType, Query, ResultKind, Specifier, Statement};
use cx_mean::{Function, Program};

/// `f#pre1` at a place of `a.cpp`.
fn first_of_f(line: u32, column: u32, comment: &'static [u8]) -> Stated {
    Stated {
        kind: AssertionKind::Pre,
        name: b"f#pre1",
        file: b"a.cpp",
        line,
        column,
        comment,
    }
}

/// `struct P { ~P() { putchar('p'); } };` with `int main() { try { P q; f(q, 0); } catch .. return 0; }`, `f` as function
/// 4 and a violation handler as function 5. The unit checks the precondition of `f`, that its second parameter is above
/// 0, as Caller and as Definer, and enforces it.
fn called_with_zero(
    b: Build,
    catching: Made<Handler>,
    f: Made<Function>,
    handler: Made<Function>,
) -> Made<Program> {
    let passed = b.by_value(class(0), b.copy(2, b.variable(0)));
    let body = b.list([
        b.declare_plainly(0, 0, 1),
        b.does(b.call(4, b.list([passed, b.int_argument(b.number(0))]))),
    ]);
    let main = b.main(b.list([b.tries(body, b.list([catching])), b.returns(b.number(0))]));
    let functions = b.list([
        main,
        b.implicit_constructor(0),
        b.implicit_copy(0),
        b.destructor(0, b.list([b.says(b'p')])),
        b.before(second_is_positive(b), f),
        handler,
    ]);
    let p = b.empty_class(b"P", Makers::from_number(1));
    let program = b.with_handler(5, b.with_classes(b.list([p]), b.program(functions)));
    let of_f = b.checks(second_is_positive(b), b.list([]));
    let checks = b.list([
        b.no_checks(),
        b.no_checks(),
        b.no_checks(),
        b.no_checks(),
        of_f,
    ]);
    b.with_caller(checks, program)
}

/// The second parameter is above 0, as assertion 0 says.
fn second_is_positive(b: Build) -> Made<Vec<Specifier>> {
    let is_positive = b.ints(BinaryOperator::Greater, b.value_in(1), b.number(0));
    b.list([b.specifier(0, is_positive)])
}

/// The plan of the unit is `enforce pre 0`: it checks preconditions as Caller too, without repetitions.
///
/// ```cpp
/// #include <contracts>
/// #include <cstdio>
/// struct P { ~P() { putchar('p'); } };
/// void f(P p, int x) noexcept pre(x > 0) {}
/// void handle_contract_violation(const std::contracts::contract_violation& v) { throw 1; }
/// int main() { try { P q; f(q, 0); } catch (int) { putchar('c'); } return 0; }
/// ```
pub fn handler_throws_within_noexcept(b: Build) -> Made<Program> {
    let catching = b.catches_int(b.list([b.says(b'c')]));
    let f = b.noexcept(b.function(ResultKind::Void, b.list([])));
    let handler = b.violation_handler(b.list([b.throws_int(1)]));
    b.with_assertions(
        &[Under(first_of_f(4, 29, b"x > 0"), Semantic::Enforce, 1)],
        called_with_zero(b, catching, f, handler),
    )
}

/// The plan of the unit is `enforce pre 0`: it checks preconditions as Caller too, without repetitions.
///
/// ```cpp
/// #include <contracts>
/// #include <cstdio>
/// struct P { ~P() { putchar('p'); } };
/// void f(P a, int n) pre(n > 0) { putchar('f'); }
/// void handle_contract_violation(const std::contracts::contract_violation& v) { throw 3; }
/// int main() { try { P q; f(q, 0); } catch (int e) { return e; } return 0; }
/// ```
pub fn handler_throws_to_the_caller(b: Build) -> Made<Program> {
    let catching = b.catches_int_in(1, b.list([b.returns(b.value_in(1))]));
    let f = b.function(ResultKind::Void, b.list([b.says(b'f')]));
    let handler = b.violation_handler(b.list([b.throws_int(3)]));
    b.with_assertions(
        &[Under(first_of_f(4, 20, b"n > 0"), Semantic::Enforce, 1)],
        called_with_zero(b, catching, f, handler),
    )
}

/// `bool bad() { throw 4; } int f() pre(bad()) { return 1; }` as functions 1 and 2, and `main` with a body.
fn with_bad(b: Build, body: Made<Vec<Statement>>) -> Made<Vec<Function>> {
    let bad = b.function(ResultKind::ScalarValue, b.list([b.throws_int(4)]));
    let f = b.function(ResultKind::ScalarValue, b.list([b.returns(b.number(1))]));
    let holds = b.specifier(0, b.called(1, b.list([])));
    b.list([b.main(body), bad, b.before(b.list([holds]), f)])
}

/// ```cpp
/// #include <contracts>
/// #include <cstdio>
/// bool bad() { throw 4; }
/// int f() pre(bad()) { return 1; }
/// void handle_contract_violation(const std::contracts::contract_violation& v) {
///   putchar('0' + int(v.detection_mode())); throw; }
/// int main() { try { return f(); } catch (int e) { return e; } }
/// ```
pub fn handler_rethrows(b: Build) -> Made<Program> {
    let catching = b.catches_int_in(0, b.list([b.returns(b.value_in(0))]));
    let body = b.list([b.returns(b.called(2, b.list([])))]);
    let functions = with_bad(b, b.list([b.tries(body, b.list([catching]))]));
    let mode = b.int_of(b.query(Query::DetectionMode, b.variable(0)));
    let digit = b.ints(BinaryOperator::Add, b.character(b'0'), b.as_is(mode));
    let handler = b.violation_handler(b.list([b.does(b.putchar(digit)), b.rethrows()]));
    let program = b.program(b.joined(functions, b.list([handler])));
    b.with_assertions(
        &[Under(first_of_f(4, 9, b"bad ( )"), Semantic::Observe, 1)],
        b.with_handler(3, program),
    )
}

/// `bool bad() { throw 4; } int f() pre(bad()) { return 1; } int main(){ return f(); }`, under a semantic.
pub fn throwing_predicate(b: Build, semantic: Semantic) -> Made<Program> {
    let functions = with_bad(b, b.list([b.returns(b.called(2, b.list([])))]));
    b.with_assertions(
        &[Under(first_of_f(1, 33, b"bad ( )"), semantic, 1)],
        b.program(functions),
    )
}

/// `bool bad() { throw 7; } void f() noexcept pre(bad()) {} int main() { f(); return 0; }`, observed.
pub fn throwing_predicate_of_noexcept(b: Build) -> Made<Program> {
    let main = b.main(b.list([b.does(b.call(2, b.list([]))), b.returns(b.number(0))]));
    let bad = b.function(ResultKind::ScalarValue, b.list([b.throws_int(7)]));
    let holds = b.specifier(0, b.called(1, b.list([])));
    let f = b.noexcept(b.function(ResultKind::Void, b.list([])));
    let functions = b.list([main, bad, b.before(b.list([holds]), f)]);
    b.with_assertions(
        &[Under(first_of_f(1, 43, b"bad ( )"), Semantic::Observe, 1)],
        b.program(functions),
    )
}

/// The assertion of `main` at a place of `a.cpp`.
fn in_main(line: u32, column: u32, comment: &'static [u8]) -> Stated {
    Stated {
        kind: AssertionKind::Assert,
        name: b"main#assert1",
        file: b"a.cpp",
        line,
        column,
        comment,
    }
}

/// ```cpp
/// #include <cstdio>
/// struct P { ~P() { putchar('p'); } };
/// bool bad() { throw P(); }
/// int main() { contract_assert(bad()); return 1; }
/// ```
pub fn throwing_an_object_in_a_predicate(b: Build) -> Made<Program> {
    let main = b.main(b.list([
        b.asserts(0, b.called(4, b.list([]))),
        b.returns(b.number(1)),
    ]));
    let bad = b.function(
        ResultKind::ScalarValue,
        b.list([b.throws(class(0), b.construct_plainly(1))]),
    );
    let functions = b.list([
        main,
        b.implicit_constructor(0),
        b.implicit_copy(0),
        b.destructor(0, b.list([b.says(b'p')])),
        bad,
    ]);
    let p = b.empty_class(b"P", Makers::from_number(1));
    b.with_assertions(
        &[Under(in_main(4, 14, b"bad ( )"), Semantic::Enforce, 1)],
        b.with_classes(b.list([p]), b.program(functions)),
    )
}

/// `putchar` of what is asked of the violation, an enumerator.
fn puts_enumerator(b: Build, query: Query) -> Made<Statement> {
    let number = b.int_of(b.query(query, b.variable(0)));
    b.does(b.putchar(b.as_is(number)))
}

/// `putchar` of what is asked of the violation's place, an `unsigned`.
fn puts_unsigned(b: Build, query: Query) -> Made<Statement> {
    let number = b.query(query, b.variable(0));
    b.does(b.putchar(b.converted(None, IntegerType::Int, number)))
}

/// ```cpp
/// #include <contracts>
/// #include <cstdio>
/// void handle_contract_violation(const std::contracts::contract_violation& v) {
///   putchar(int(v.kind())); putchar(int(v.semantic())); putchar(int(v.detection_mode()));
///   putchar(v.location().line()); putchar(v.location().column()); }
/// int main(){ contract_assert(false); return 3; }
/// ```
pub fn handler_asks(b: Build) -> Made<Program> {
    let main = b.main(b.list([b.asserts(0, b.number(0)), b.returns(b.number(3))]));
    let handler = b.violation_handler(b.list([
        puts_enumerator(b, Query::Kind),
        puts_enumerator(b, Query::Semantic),
        puts_enumerator(b, Query::DetectionMode),
        puts_unsigned(b, Query::Line),
        puts_unsigned(b, Query::Column),
    ]));
    b.with_assertions(
        &[Under(in_main(6, 13, b"false"), Semantic::Observe, 1)],
        b.with_handler(1, b.program(b.list([main, handler]))),
    )
}

/// ```cpp
/// #include <contracts>
/// int n = 0;
/// void handle_contract_violation(const std::contracts::contract_violation& v) {
///   n = n + 1; if (n < 2) handle_contract_violation(v); }
/// int main() { contract_assert(false); return n; }
/// ```
pub fn handler_called_by_name(b: Build) -> Made<Program> {
    let main = b.main(b.list([
        b.asserts(0, b.number(0)),
        b.returns(b.read_int(b.global(0))),
    ]));
    let more = b.ints(BinaryOperator::Add, b.read_int(b.global(0)), b.number(1));
    let is_first = b.ints(BinaryOperator::Less, b.read_int(b.global(0)), b.number(2));
    let again = b.call(1, b.list([b.by_reference(b.variable(0))]));
    let handler = b.violation_handler(b.list([
        b.does(b.assign(b.global(0), more)),
        b.if_so(is_first, b.does(again)),
    ]));
    let program = b.with_global(0, b.program(b.list([main, handler])));
    b.with_assertions(
        &[Under(in_main(5, 14, b"false"), Semantic::Observe, 1)],
        b.with_handler(1, program),
    )
}
