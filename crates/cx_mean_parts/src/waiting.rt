use crate::program::Function;
use crate::task::{Call, Callee, Keeper, Level, Loop, Task};
use cx_code::Semantic;
use cx_core::{
    Argument, Assertion, BinaryOperator, Expression, Handler, IntegerType, Operand, PointedResult,
    Query, ResultKind, Statement, UnaryOperator,
};
use cx_plain_state::{Address, Exception, Frame, Living, ObjectType, Value};

/// How a statement is left, unless by an exception or the end of the run.
#[derive(Clone, Copy)]
pub enum Completion<'p> {
    OnToNext,
    Break,
    Continue,
    /// With the value of a scalar or what a reference denotes, and null otherwise.
    Return(Value<'p>),
}

/// What a task gives.
#[derive(Drop)]
pub enum Given<'p> {
    Value(Value<'p>),
    Nothing,
    Truth(bool),
    Values(Vec<Value<'p>>),
    Number(u64),
    Completion(Completion<'p>),
}

/// How a part was left, which what is done on leaving passes on.
#[derive(Drop)]
pub enum Left<'p> {
    Given(Given<'p>),
    Thrown(Exception),
}

/// What is done with the values of operands.
#[derive(Clone, Copy)]
pub enum Operation<'p> {
    Unary(UnaryOperator, IntegerType),
    /// With the left operand.
    Binary(BinaryOperator, IntegerType, Value<'p>),
    Cast,
    /// With the right operand.
    Assign(Value<'p>),
    /// Computed in one type and stored as the other, with the right operand.
    CompoundAssign(BinaryOperator, IntegerType, IntegerType, Value<'p>),
    PrefixStep(BinaryOperator, IntegerType),
    PostfixStep(BinaryOperator, IntegerType),
    Indirection,
    Member(u32),
    Read(Option<ObjectType>),
    Convert(Option<IntegerType>),
    Putchar,
    PutsComment,
    Query(Query),
    StoreResult,
}

/// What waits for what a task gives.
#[derive(Drop)]
pub enum Waiting<'p> {
    Operand(OperandFrame<'p>),
    Argument(ArgumentFrame<'p>),
    Following(FollowingFrame<'p>),
    Object(ObjectFrame),
    Leaving(LeavingFrame<'p>),
    Statement(StatementFrame<'p>),
    Call(CallFrame<'p>),
}

/// For an operand of an expression.
#[derive(Clone, Copy)]
pub enum OperandFrame<'p> {
    Operate(Operation<'p>),
    RightOperand(Level, BinaryOperator, IntegerType, &'p Operand),
    LeftPlace(Level, &'p Expression),
    CompoundPlace(Level, BinaryOperator, IntegerType, IntegerType, &'p Expression),
    ToTruth,
    /// The left operand decides where it is this truth; otherwise the right one does.
    Decide(Level, bool, &'p Operand),
    Choose(Level, &'p Operand, &'p Operand),
    TruthAsValue,
    PlaceOfObject,
}

/// For an argument, or the end of a call with a result object.
#[derive(Clone, Copy)]
pub enum ArgumentFrame<'p> {
    ReferenceArgument(Level, &'p [Argument]),
    ObjectArgument(Level, &'p [Argument]),
    FirstArgument(Value<'p>),
    /// For a pointer that is called, by what it gives.
    CallThrough(Level, PointedResult, &'p [Argument]),
    /// For a pointer whose call initialises an object.
    ResultThrough(Level, &'p [Argument], Address),
    /// The pointer whose call initialises a temporary of a class.
    TemporaryThrough(Level, u32, &'p [Argument]),
    CallWith(Level, Callee<'p>, Option<Value<'p>>),
    CallIntoObject(Level, Callee<'p>, u64),
    ReadResult(u64),
    EndResult(u64),
    EndObject(u64),
}

/// What is given is replaced, or another task follows.
#[derive(Drop)]
pub enum FollowingFrame<'p> {
    Discard,
    ThenNext(Box<Task<'p>>),
    Replace(Given<'p>),
    Completed,
    Returning,
}

/// For the initialisation of an object.
#[derive(Clone, Copy)]
pub enum ObjectFrame {
    WriteValue(Address),
    Made(Keeper, u64, ObjectType),
    KeepingField(Address, ObjectType),
    Bound(u32),
    Throwing(ObjectType),
}

/// What is done where a scope, a full-expression, a constructor, a handler or a call is left, in whatever way.
#[derive(Drop)]
pub enum LeavingFrame<'p> {
    LeavingScope(Level, Vec<Living>),
    LeavingFull(Level, Vec<Living>),
    RestoreLiving(Vec<Living>, Left<'p>),
    RestoreTemporaries(Vec<Living>, Left<'p>),
    Constructing(Level, Vec<Living>),
    UndoneFields(Vec<Living>, Exception),
    Holding(Level, Exception, Vec<Exception>),
    AsLeft(Left<'p>),
    Within(Frame<'p>),
    /// No exception passes, where this is true.
    EdgeIf(bool),
}

/// For a condition or a statement.
#[derive(Clone, Copy)]
pub enum StatementFrame<'p> {
    Branch(Level, &'p Box<Statement>, &'p Box<Statement>),
    Sequence(Level, &'p [Statement]),
    Catching(Level, &'p [Handler]),
    TurnTested(Level, Loop<'p>, u64),
    TurnDone(Level, Loop<'p>, u64),
}

/// For a predicate, or a part of a call.
#[derive(Drop)]
pub enum CallFrame<'p> {
    Verdict(Level, &'p Assertion, Semantic),
    Terminate,
    ValueGiven(ResultKind),
    Postconditions(Level, &'p Function, Call<'p>),
    Posted(Level, ResultKind, Option<Value<'p>>, Value<'p>),
    /// The name of the class, and the place of the object.
    Destroyed(&'p [u8], Address),
}

/// What a step comes to: something is given, or a task is done under more frames, the innermost last.
#[derive(Drop)]
pub enum Next<'p> {
    Give(Given<'p>),
    Go(Task<'p>, Vec<Waiting<'p>>),
}
