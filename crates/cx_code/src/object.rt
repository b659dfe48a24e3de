use crate::image::{Assertion, Initial};
use crate::{Instruction, Region};
use cx_outside::{Items, Text};

/// What a unit is compiled to: its functions, with what a linker needs to join them with those of other units. Indices
/// are into the object's own tables. (This project's own.)
#[derive(Debug, Drop)]
pub struct Object {
    /// The unit's name.
    pub unit: Text,
    /// Texts that assertions and instructions name by their indices.
    pub texts: Items<Text>,
    /// The types of exception objects and of classes.
    pub types: Items<UnitType>,
    /// The globals that the unit declares.
    pub globals: Items<UnitGlobal>,
    /// The functions that the unit declares, and its helpers.
    pub functions: Items<UnitFunction>,
    /// The contract assertions.
    pub assertions: Items<Assertion>,
}

/// A type of an object. (This project's own.)
#[derive(Debug, Drop)]
pub struct UnitType {
    /// Its spelling, which a journal's text shows.
    pub name: Text,
    /// The tokens of its class definition with one space between two, and nothing for a scalar. Two units that have
    /// the type must agree in it ([basic.def.odr]).
    pub definition: Text,
    /// How many leaves an object of it has, 1 to 256.
    pub leaves: u32,
    /// The index plus 1 of the function that ends an exception object of the type, or 0.
    pub dropper: u32,
}

/// A global of an object. (This project's own.)
#[derive(Debug, Drop)]
pub struct UnitGlobal {
    /// Its name.
    pub name: Text,
    /// Its type's spelling.
    pub type_name: Text,
    /// What the unit knows of it.
    pub state: GlobalState,
}

/// What a unit knows of a global ([basic.link]).
#[derive(Clone, Copy, Debug, PartialEq, Eq)]
pub enum GlobalState {
    /// The unit uses it and another one defines it.
    Named,
    /// The unit defines it, with what it holds at first.
    Defined(Initial),
    /// The unit declares it and neither defines nor uses it.
    Declared,
}

/// A function of an object. (This project's own.)
#[derive(Debug, Drop)]
pub struct UnitFunction {
    /// Its name, of which the names of its assertions are made.
    pub name: Text,
    /// Its result and parameter types, by which units must agree.
    pub signature: Text,
    /// The tokens of its function contract specifiers, with parameters and the result by number, by which units must
    /// agree ([dcl.contract.func]).
    pub specifiers: Text,
    /// What the unit knows of it.
    pub form: FunctionForm,
}

/// What a unit knows of a function ([basic.link], [dcl.inline]).
#[derive(Debug, Drop)]
pub enum FunctionForm {
    /// The unit calls or names it and another one defines it.
    Needed,
    /// The unit defines it.
    Defined(FunctionBody),
    /// The unit defines it inline: the tokens of its definition with one space between two, by which units must agree
    /// ([basic.def.odr]), and its body.
    Inline(Text, FunctionBody),
    /// It stands for no function of the source and is not joined with those of other units by its name.
    Helper(FunctionBody),
    /// The unit declares it, and neither defines, calls nor names it.
    Declared,
}

/// What a function is compiled to. (This project's own.)
#[derive(Debug, Drop)]
pub struct FunctionBody {
    /// It counts for the depth of calls.
    pub counted: bool,
    /// How many arguments a call passes.
    pub parameters: u32,
    /// How many slots a frame has, those of the parameters first.
    pub slots: u32,
    /// A call of it has a value.
    pub result: bool,
    /// Its code.
    pub code: Items<Instruction>,
    /// Its unwind table, the inner regions first.
    pub regions: Items<Region>,
}
