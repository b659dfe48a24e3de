use cx_code::Semantic;
use cx_core::{Assertion, Body, ClassDefinition, Constant, ResultKind, Specifier};
use cx_outside::Text;

/// A program with its plan: functions, classes, globals and assertions go by their place here, also in the trees, whose
/// indices are the program's. (This project's own.)
#[derive(Drop)]
pub struct Program {
    pub functions: Vec<Function>,
    pub classes: Vec<Class>,
    /// The first values of the globals.
    pub globals: Vec<Constant>,
    pub assertions: Vec<PlannedAssertion>,
    /// By unit and then by function: the checks that the unit makes where its code evaluates a call.
    pub callers: Vec<Vec<CallerChecks>>,
    pub main: u32,
    /// The violation handler, if a unit defines one.
    pub handler: Option<u32>,
}

/// The definition of a function.
#[derive(Drop)]
pub struct Function {
    /// The unit whose definition it is.
    pub definer: u32,
    pub noexcept: bool,
    pub result: ResultKind,
    /// What the unit of the definition checks.
    pub preconditions: Vec<Specifier>,
    pub postconditions: Vec<Specifier>,
    pub body: Body,
}

/// A class, by the name that events have of it.
#[derive(Drop)]
pub struct Class {
    pub name: Text,
    pub definition: ClassDefinition,
}

/// An assertion as one party evaluates it. One that both parties evaluate, or one that is repeated otherwise by one of
/// them, stands several times.
#[derive(Drop)]
pub struct PlannedAssertion {
    pub assertion: Assertion,
    pub semantic: Semantic,
    /// How often it is evaluated in a block of checks.
    pub times: u16,
}

/// What a unit checks of a function that its code calls.
#[derive(Drop)]
pub struct CallerChecks {
    pub preconditions: Vec<Specifier>,
    pub postconditions: Vec<Specifier>,
}
