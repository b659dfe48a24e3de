//! The state of a run of a plain program that computes the meaning of cx_core, and each change of it that needs no call:
//! the budget, names, objects, operators, conversions and library functions. It is slow and simple, for tests alone.
#![tactic(auto)]

mod answer;
mod arithmetic;
mod library;
mod number;
mod operations;
mod operators;
mod state;
mod store;
mod value;

pub use answer::{Answer, Evaluation, Event, Exception, Halt, Living};
pub use operators::undefined;
pub use state::{Binding, Frame, Object, State};
pub use value::{Address, ObjectType, Report, Value};
