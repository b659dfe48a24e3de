use crate::{Constant, Initializer, Operand, Statement};
use cx_code::AssertionKind;
use cx_outside::{Items, Text};
use cx_types::ValueType;

/// A unit whose names, types and contracts are checked. Its parts go by their index in its tables.
#[derive(Drop)]
pub struct CoreUnit {
    pub name: Text,
    pub classes: Items<Class>,
    pub globals: Items<Global>,
    /// Each function that the unit declares, names or needs, with its first declaration in the unit.
    pub functions: Items<Function>,
    /// The types of these functions and of those that its pointers hold, equal ones once.
    pub function_types: Items<FunctionType>,
    /// The functions that it defines, in order of place.
    pub definitions: Items<u32>,
    pub assertions: Items<Assertion>,
    /// In order of place.
    pub calls: Items<CallSite>,
    pub tokens: u32,
    /// The bytes of all files that were taken for the unit.
    pub bytes: u32,
}

/// A call of a function by its name, or of a constructor, that stands in the unit.
#[derive(Clone, Copy, Debug, PartialEq, Eq)]
pub struct CallSite {
    /// The function that is called.
    pub function: u32,
    pub within: CallPlace,
}

/// Where a call stands, by the function.
#[derive(Clone, Copy, Debug, PartialEq, Eq)]
pub enum CallPlace {
    Definition(u32),
    /// In a predicate of its first declaration.
    Predicate(u32),
}

/// A class [class]; one that is only declared has no definition.
#[derive(Drop)]
pub struct Class {
    pub name: Text,
    /// The tokens of its definition with one space between two, which linking compares.
    pub text: Text,
    pub definition: Option<ClassDefinition>,
}

/// The layout of a class, and the functions that make, copy and destroy its objects.
#[derive(Drop)]
pub struct ClassDefinition {
    /// In order of declaration.
    pub fields: Items<Field>,
    pub leaves: Items<LeafKind>,
    /// The class objects in an object of the class, itself included.
    pub objects: u32,
    /// The constructor without parameters, declared or implicit, if there is one.
    pub default_constructor: Option<u32>,
    pub copy_constructor: u32,
    pub destructor: u32,
}

/// A field, by the first of its leaves.
#[derive(Clone, Copy, Debug, PartialEq, Eq)]
pub struct Field {
    pub leaf: u32,
    pub of: ValueType,
}

/// What zero-initialisation makes of a leaf.
#[derive(Clone, Copy, Debug, PartialEq, Eq)]
pub enum LeafKind {
    Number,
    Pointer,
    /// The one leaf of a class without fields.
    Empty,
}

/// A global; one that is only declared has no value.
#[derive(Drop)]
pub struct Global {
    pub name: Text,
    pub of: ValueType,
    /// How its type is written, which linking compares.
    pub type_text: Text,
    /// An expression of the unit names it.
    pub is_named: bool,
    pub value: Option<Constant>,
}

/// A function's type [dcl.fct]: its result and its parameters, without their own `const`, `this` and `noexcept`.
#[derive(Drop)]
pub struct FunctionType {
    /// How it is written, its tokens with one space between two, with classes by their names: the same in all units.
    pub text: Text,
    pub result: ValueType,
    pub parameters: Items<ValueType>,
}

/// A function, member function, constructor or destructor.
#[derive(Drop)]
pub struct Function {
    /// As assertions name it: `f`, `T::f`, `T::f.const`, `T::T`, `T::T.copy` or `T::~T`.
    pub name: Text,
    /// The index of its type.
    pub of: u32,
    /// Its signature, and the specifiers of its first declaration with a mark for each parameter and result name:
    /// linking compares them.
    pub signature: Text,
    pub specifiers: Text,
    pub is_inline: bool,
    /// The tokens of an inline definition, which linking compares.
    pub inline_text: Text,
    /// Code of the unit calls or names it.
    pub is_needed: bool,
    pub noexcept: bool,
    pub named_parameters: u32,
    pub result: ResultKind,
    /// The function contract specifiers of its first declaration in this unit.
    pub preconditions: Items<Specifier>,
    pub postconditions: Items<Specifier>,
    /// Its definition in this unit, if there is one.
    pub body: Option<Body>,
    /// The tokens of the first declaration without its body, and of the definition.
    pub declaration_tokens: u32,
    pub definition_tokens: u32,
}

/// What a call gives.
#[derive(Clone, Copy, Debug, PartialEq, Eq)]
pub enum ResultKind {
    Void,
    ScalarValue,
    /// The scalar result of a function with a postcondition.
    ScalarObject,
    ClassObject(u32),
    Reference,
    /// The result of `main`.
    ExitStatus,
}

/// A function contract specifier [dcl.contract.func]: an assertion and its predicate.
#[derive(Drop)]
pub struct Specifier {
    pub assertion: u32,
    pub predicate: Operand,
}

/// A contract assertion of the unit.
#[derive(Drop)]
pub struct Assertion {
    pub kind: AssertionKind,
    pub name: Text,
    pub file: Text,
    pub line: u32,
    pub column: u32,
    /// The tokens of its predicate with one space between two.
    pub comment: Text,
}

/// What a call does between its checks.
#[derive(Drop)]
pub enum Body {
    Function(Vec<Statement>),
    Constructor(Vec<FieldInitializer>, Vec<Statement>),
    /// Of the class with this index, as are the implicit ones.
    Destructor(u32, Vec<Statement>),
    ImplicitConstructor(u32),
    ImplicitCopyConstructor(u32),
    ImplicitDestructor(u32),
}

/// The initialiser of a field, in a constructor of its class.
#[derive(Drop)]
pub struct FieldInitializer {
    pub leaf: u32,
    pub of: ValueType,
    pub init: Initializer,
}
