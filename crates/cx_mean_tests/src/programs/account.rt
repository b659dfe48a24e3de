use crate::build::{Build, INT, Made, Makers, Stated, Under, class};
use cx_code::{AssertionKind, Semantic};
use cx_core::{BinaryOperator, Operand, Query, ResultKind, Specifier, Statement};
use cx_mean::{CallerChecks, Function, Program};

/// An assertion that `acct.hpp` declares.
fn declared(
    kind: AssertionKind,
    name: &'static [u8],
    line: u32,
    column: u32,
    comment: &'static [u8],
) -> Stated {
    Stated {
        kind,
        name,
        file: b"acct.hpp",
        line,
        column,
        comment,
    }
}

/// The assertions of the class, in the order of their places; the last is that of the body of `withdraw`.
fn stated() -> [Stated; 7] {
    use AssertionKind::{Post, Pre};
    [
        declared(Pre, b"Account::Account#pre1", 4, 22, b"start >= 0"),
        declared(Pre, b"Account::deposit#pre1", 8, 5, b"amount > 0"),
        declared(
            Post,
            b"Account::deposit#post1",
            9,
            5,
            b"balance ( ) >= amount",
        ),
        declared(Pre, b"Account::withdraw#pre1", 11, 5, b"amount > 0"),
        declared(
            Pre,
            b"Account::withdraw#pre2",
            12,
            5,
            b"amount <= balance ( )",
        ),
        declared(Post, b"Account::withdraw#post1", 13, 5, b"ok"),
        Stated {
            kind: AssertionKind::Assert,
            name: b"Account::withdraw#assert1",
            file: b"acct.cpp",
            line: 9,
            column: 3,
            comment: b"held >= 0",
        },
    ]
}

/// `start >= 0`, as the assertion with this index.
fn starts(b: Build, index: u32) -> Made<Vec<Specifier>> {
    let holds = b.ints(BinaryOperator::GreaterEqual, b.value_in(1), b.number(0));
    b.list([b.specifier(index, holds)])
}

/// `amount > 0`.
fn amount_is_positive(b: Build) -> Made<Operand> {
    b.ints(BinaryOperator::Greater, b.value_in(1), b.number(0))
}

/// `balance()`, of the object of the member function.
fn own_balance(b: Build) -> Made<Operand> {
    b.called(6, b.list([b.by_reference(b.own(0))]))
}

/// The preconditions of `deposit`.
fn deposits(b: Build, index: u32) -> Made<Vec<Specifier>> {
    b.list([b.specifier(index, amount_is_positive(b))])
}

/// The postconditions of `deposit`.
fn deposited(b: Build, index: u32) -> Made<Vec<Specifier>> {
    let holds = b.ints(BinaryOperator::GreaterEqual, own_balance(b), b.value_in(1));
    b.list([b.specifier(index, holds)])
}

/// The preconditions of `withdraw`.
fn withdraws(b: Build, first: u32, second: u32) -> Made<Vec<Specifier>> {
    let is_covered = b.ints(BinaryOperator::LessEqual, b.value_in(1), own_balance(b));
    b.list([
        b.specifier(first, amount_is_positive(b)),
        b.specifier(second, is_covered),
    ])
}

/// The postconditions of `withdraw`.
fn withdrawn(b: Build, index: u32) -> Made<Vec<Specifier>> {
    b.list([b.specifier(index, b.read_int(b.result_name()))])
}

/// `void number(int n) { if (n >= 10) number(n / 10); putchar('0' + n % 10); }`
fn number(b: Build) -> Made<Function> {
    let is_long = b.ints(BinaryOperator::GreaterEqual, b.value_in(0), b.number(10));
    let shorter = b.ints(BinaryOperator::Divide, b.value_in(0), b.number(10));
    let front = b.does(b.call(1, b.list([b.int_argument(shorter)])));
    let last = b.ints(BinaryOperator::Remainder, b.value_in(0), b.number(10));
    let digit = b.ints(BinaryOperator::Add, b.character(b'0'), last);
    b.function(
        ResultKind::Void,
        b.list([b.if_so(is_long, front), b.does(b.putchar(digit))]),
    )
}

/// `void show(const Account& a) { number(a.balance()); putchar('\n'); }`
fn show(b: Build) -> Made<Function> {
    let balance = b.int_argument(b.called(6, b.list([b.on(0)])));
    b.function(
        ResultKind::Void,
        b.list([b.does(b.call(1, b.list([balance]))), b.says(b'\n')]),
    )
}

/// A call of a member function on `a`, with a number.
fn on_a(b: Build, function: u32, number: i128) -> Made<Statement> {
    let arguments = b.list([b.on(0), b.int_argument(b.number(number))]);
    b.does(b.call(function, arguments))
}

/// ```cpp
/// int main() {
///   try {
///     Account a(100);
///     a.deposit(50);
///     show(a);
///     a.withdraw(500);
///     puts("never");
///   } catch (int code) {
///     return code;
///   }
///   return 0;
/// }
/// ```
fn main(b: Build) -> Made<Function> {
    let of_hundred = b.construct(3, b.list([b.int_argument(b.number(100))]));
    let shown = b.list([b.by_reference(b.variable(0))]);
    let body = b.list([
        b.declare(0, class(0), of_hundred),
        on_a(b, 7, 50),
        b.does(b.call(2, shown)),
        on_a(b, 8, 500),
        b.does(b.puts(b"never")),
    ]);
    let catching = b.catches_int_in(1, b.list([b.returns(b.value_in(1))]));
    b.main(b.list([b.tries(body, b.list([catching])), b.returns(b.number(0))]))
}

/// `void Account::deposit(const int amount) { held = held + amount; }`
fn deposit(b: Build) -> Made<Function> {
    let sum = b.ints(BinaryOperator::Add, b.read_int(b.own(0)), b.value_in(1));
    let body = b.list([b.does(b.assign(b.own(0), sum))]);
    let plain = b.function(ResultKind::Void, body);
    b.before(deposits(b, 7), b.after(deposited(b, 8), plain))
}

/// `bool Account::withdraw(const int amount) { held -= amount; contract_assert(held >= 0); return true; }`
fn withdraw(b: Build) -> Made<Function> {
    let taken = b.assign_by(BinaryOperator::Subtract, b.own(0), b.value_in(1));
    let is_left = b.ints(
        BinaryOperator::GreaterEqual,
        b.read_int(b.own(0)),
        b.number(0),
    );
    let body = b.list([
        b.does(taken),
        b.asserts(12, is_left),
        b.returns(b.number(1)),
    ]);
    let plain = b.function(ResultKind::ScalarObject, body);
    b.before(withdraws(b, 9, 10), b.after(withdrawn(b, 11), plain))
}

/// The functions of `acct.cpp`, from 3 on.
fn of_account(b: Build) -> Made<Vec<Function>> {
    let held = b.list([b.int_field(0, b.value_in(1))]);
    let constructor = b.before(starts(b, 6), b.constructor(held, b.list([])));
    let closes = b.list([b.does(b.puts(b"closed"))]);
    let balance = b.function(
        ResultKind::ScalarValue,
        b.list([b.returns(b.read_int(b.own(0)))]),
    );
    b.list([
        b.in_unit(1, constructor),
        b.in_unit(1, b.implicit_copy(0)),
        b.in_unit(1, b.destructor(0, closes)),
        b.in_unit(1, balance),
        b.in_unit(1, deposit(b)),
        b.in_unit(1, withdraw(b)),
    ])
}

/// ```cpp
/// void handle_contract_violation(const std::contracts::contract_violation& v) {
///   puts(v.comment());
///   if (v.kind() == std::contracts::assertion_kind::pre) throw 2;
/// }
/// ```
fn log(b: Build) -> Made<Function> {
    let kind = b.as_is(b.query(Query::Kind, b.variable(0)));
    let is_precondition = b.ints(BinaryOperator::Equal, kind, b.number(1));
    let handler = b.violation_handler(b.list([
        b.does(b.puts_comment(b.variable(0))),
        b.if_so(is_precondition, b.throws_int(2)),
    ]));
    b.in_unit(2, handler)
}

/// What `main.cpp` checks as Caller.
fn of_main(b: Build) -> Made<Vec<CallerChecks>> {
    b.list([
        b.no_checks(),
        b.no_checks(),
        b.no_checks(),
        b.checks(starts(b, 0), b.list([])),
        b.no_checks(),
        b.no_checks(),
        b.no_checks(),
        b.checks(deposits(b, 1), deposited(b, 2)),
        b.checks(withdraws(b, 3, 4), withdrawn(b, 5)),
        b.no_checks(),
    ])
}

/// The units `main.cpp`, which observes as Caller of both lists, `acct.cpp`, which enforces as Definer, and `log.cpp`,
/// with the handler. The class has
///
/// ```cpp
/// Account(int start) pre(start >= 0);
/// ~Account();
/// int balance() const;
/// void deposit(const int amount) pre(amount > 0) post(balance() >= amount);
/// bool withdraw(const int amount) pre(amount > 0) pre(amount <= balance()) post(ok : ok);
/// int held;
/// ```
pub fn account(b: Build) -> Made<Program> {
    let [
        start,
        deposit,
        deposited,
        withdraw,
        covered,
        withdrawn,
        left,
    ] = stated();
    let functions = b.joined(b.list([main(b), number(b), show(b)]), of_account(b));
    let functions = b.joined(functions, b.list([log(b)]));
    let class = b.class_of_one(b"Account", INT, Makers::with_parameters(3));
    let program = b.with_classes(b.list([class]), b.program(functions));
    let program = b.with_assertions(
        &[
            Under(start, Semantic::Observe, 1),
            Under(deposit, Semantic::Observe, 1),
            Under(deposited, Semantic::Observe, 1),
            Under(withdraw, Semantic::Observe, 1),
            Under(covered, Semantic::Observe, 1),
            Under(withdrawn, Semantic::Observe, 1),
            Under(start, Semantic::Enforce, 1),
            Under(deposit, Semantic::Enforce, 1),
            Under(deposited, Semantic::Enforce, 1),
            Under(withdraw, Semantic::Enforce, 1),
            Under(covered, Semantic::Enforce, 1),
            Under(withdrawn, Semantic::Enforce, 1),
            Under(left, Semantic::Enforce, 1),
        ],
        program,
    );
    b.with_handler(9, b.with_caller(of_main(b), program))
}
