use crate::program::{Function, PlannedAssertion};
use cx_code::Party;
use cx_core::{
    Argument, Expression, Field, FieldInitializer, Handler, Initializer, Operand, ResultKind,
    Specifier, Statement,
};
use cx_plain_state::{Address, Exception, Living, ObjectType, Report, Value};

/// The calls that may still become active inside one another: those that are counted, and the implicit ones before the
/// next of these.
#[derive(Clone, Copy)]
pub struct Level {
    pub counted: u32,
    pub implicit: u64,
}

/// A call that is about to become active: the unit whose code evaluates it, what the parameters denote, and the place
/// of the result object.
#[derive(Drop)]
pub struct Call<'p> {
    pub function: u32,
    /// The unit that checks the function's contract assertions as Caller.
    pub caller: Option<u32>,
    /// The unit whose code evaluates the call.
    pub unit: u32,
    /// The violation that makes this call of its handler.
    pub reports: Option<Report<'p>>,
    pub arguments: Vec<Value<'p>>,
    pub result: Option<Value<'p>>,
}

/// What is called: a function by its name, or what the value of a pointer holds.
#[derive(Clone, Copy)]
pub enum Callee<'p> {
    ByName(u32),
    ByPointer(Value<'p>),
}

/// An assertion of the program with its predicate.
#[derive(Clone, Copy)]
pub struct Check<'p> {
    pub planned: &'p PlannedAssertion,
    pub predicate: &'p Operand,
}

/// The assertions of a block of checks, by the program's table.
#[derive(Clone, Copy)]
pub enum Row<'p> {
    /// Of a function.
    Specifiers(&'p [Specifier]),
    /// Of a statement: its assertion and its predicate.
    Statement(u32, &'p Operand),
}

/// An assertion of a row, as often as it is still owed.
#[derive(Clone, Copy)]
pub struct Due<'p> {
    pub check: Check<'p>,
    pub left: u16,
}

/// Which list keeps an object that is made.
#[derive(Clone, Copy)]
pub enum Keeper {
    InnermostScope,
    FullExpression,
    Nobody,
}

/// A loop: its condition, its step, which only a `for` has, and its body.
#[derive(Clone, Copy)]
pub struct Loop<'p> {
    pub condition: Option<&'p Operand>,
    pub step: Option<&'p Box<Statement>>,
    pub body: &'p Box<Statement>,
}

/// A field of class type, by its first leaf and its class.
#[derive(Clone, Copy)]
pub struct ClassField {
    pub leaf: u32,
    pub class: u32,
}

/// What is still to do.
#[derive(Drop)]
pub enum Task<'p> {
    Expression(ExpressionTask<'p>),
    Statement(Box<StatementTask<'p>>),
    Object(ObjectTask<'p>),
    Check(CheckTask<'p>),
    Call(CallTask<'p>),
}

/// An expression, operand, initialiser or list of arguments to evaluate. A truth is a value that is converted to `bool`;
/// what is evaluated is a full-expression of its own.
#[derive(Clone, Copy)]
pub enum ExpressionTask<'p> {
    Expression(Level, &'p Expression),
    Used(Level, &'p Operand),
    Evaluated(Level, &'p Operand),
    UsedTruth(Level, &'p Operand),
    EvaluatedTruth(Level, &'p Operand),
    Initialise(Level, &'p Initializer, Address),
    Arguments(Level, &'p [Argument]),
}

/// Statements to run, handlers to try, or turns of a loop to take.
#[derive(Clone, Copy)]
pub enum StatementTask<'p> {
    Statement(Level, &'p Statement),
    Statements(Level, &'p [Statement]),
    Block(Level, &'p [Statement]),
    Handling(Level, &'p [Handler], Exception),
    Testing(Level, Option<&'p Operand>),
    Looping(Level, Loop<'p>),
    /// At most so many turns.
    Turns(Level, Loop<'p>, u64),
}

/// Objects to make, initialise, copy or end.
#[derive(Drop)]
pub enum ObjectTask<'p> {
    Destroying(Level, u32, Address),
    /// The first to be destroyed is the last.
    DestroyingEach(Level, Address, Vec<ClassField>),
    DestroyingFields(Level, u32, Address),
    Ending(Level, Living),
    EndingEach(Level, Vec<Living>),
    /// The slot of a variable is bound before its initialiser is evaluated.
    Making(Level, Keeper, ObjectType, Option<u32>, &'p Initializer),
    Declaring(Level, u32, ObjectType, &'p Initializer),
    FieldInits(Level, &'p [FieldInitializer]),
    DefaultFields(Level, &'p [Field]),
    CopyingFields(Level, Address, &'p [Field]),
    CopyingMembers(Level, &'p [Field], Address, Address),
    CopyingObject(Level, ObjectType, Address, Address),
}

/// Blocks of checks, and what follows a violation.
#[derive(Drop)]
pub enum CheckTask<'p> {
    /// So many evaluations of what is still owed.
    Evaluations(Level, Party, u64, Vec<Due<'p>>),
    Checks(Level, Party, Row<'p>),
    /// No exception leaves these.
    EdgedChecks(Level, Row<'p>),
    HandlingViolation(Level, Report<'p>),
}

/// Calls, and their parts.
#[derive(Drop)]
pub enum CallTask<'p> {
    /// With so many implicit and counted calls left.
    Calling(u64, u32, Call<'p>),
    Counted(u32, Call<'p>),
    /// On an object or none, with the place of the result object or none.
    CallOf(Level, Callee<'p>, Option<Address>, &'p [Argument], Option<Value<'p>>),
    /// With a result object by its number.
    CallInto(Level, Callee<'p>, &'p [Argument], u64),
    /// By a constructor.
    ConstructAt(Level, u32, Address, Vec<Value<'p>>),
    Before(Level, &'p Function, Call<'p>),
    After(Level, &'p Function, Call<'p>),
    CallerBefore(Level, Call<'p>),
    CallerAfter(Level, Call<'p>),
    Body(Level, ResultKind, &'p [Statement]),
}
