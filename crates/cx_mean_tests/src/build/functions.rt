use crate::build::{Build, INT, Made};
use cx_core::{Body, FieldInitializer, Initializer, Operand, ResultKind, Specifier, Statement};
use cx_mean::Function;
use cx_types::ValueType;

/// Functions of the first unit, without contracts.
impl Build {
    /// A function by its body.
    pub fn with_body(self, gives: ResultKind, body: Made<Body>) -> Made<Function> {
        Ok(Function {
            definer: 0,
            noexcept: false,
            result: gives,
            preconditions: Vec::new(self.alloc),
            postconditions: Vec::new(self.alloc),
            body: body?,
        })
    }

    /// A function that is no member, or a member function.
    pub fn function(self, gives: ResultKind, body: Made<Vec<Statement>>) -> Made<Function> {
        self.with_body(gives, self.plain(body))
    }

    fn plain(self, body: Made<Vec<Statement>>) -> Made<Body> {
        Ok(Body::Function(body?))
    }

    /// `main`.
    pub fn main(self, body: Made<Vec<Statement>>) -> Made<Function> {
        self.function(ResultKind::ExitStatus, body)
    }

    /// `handle_contract_violation`.
    pub fn violation_handler(self, body: Made<Vec<Statement>>) -> Made<Function> {
        self.function(ResultKind::Void, body)
    }

    /// A constructor by what it initialises fields with, in their order, and its body.
    pub fn constructor(
        self,
        fields: Made<Vec<FieldInitializer>>,
        body: Made<Vec<Statement>>,
    ) -> Made<Function> {
        let body = Body::Constructor(fields?, body?);
        self.with_body(ResultKind::Void, Ok(body))
    }

    /// A destructor of this class.
    pub fn destructor(self, class: u32, body: Made<Vec<Statement>>) -> Made<Function> {
        let body = Body::Destructor(class, body?);
        self.with_body(ResultKind::Void, Ok(body))
    }

    /// The implicit constructor of this class.
    pub fn implicit_constructor(self, class: u32) -> Made<Function> {
        self.with_body(ResultKind::Void, Ok(Body::ImplicitConstructor(class)))
    }

    /// The implicit copy constructor of this class.
    pub fn implicit_copy(self, class: u32) -> Made<Function> {
        self.with_body(ResultKind::Void, Ok(Body::ImplicitCopyConstructor(class)))
    }

    /// The implicit destructor of this class.
    pub fn implicit_destructor(self, class: u32) -> Made<Function> {
        self.with_body(ResultKind::Void, Ok(Body::ImplicitDestructor(class)))
    }

    /// The initialiser of the field that begins at this leaf.
    pub fn field(
        self,
        leaf: u32,
        of: ValueType,
        init: Made<Initializer>,
    ) -> Made<FieldInitializer> {
        Ok(FieldInitializer {
            leaf,
            of,
            init: init?,
        })
    }

    /// The same, of type `int`.
    pub fn int_field(self, leaf: u32, value: Made<Operand>) -> Made<FieldInitializer> {
        self.field(leaf, INT, self.value(value))
    }
}

/// What else a function has.
impl Build {
    /// It is defined in this unit.
    pub fn in_unit(self, unit: u32, function: Made<Function>) -> Made<Function> {
        let mut function = function?;
        function.definer = unit;
        Ok(function)
    }

    /// It is `noexcept`.
    pub fn noexcept(self, function: Made<Function>) -> Made<Function> {
        let mut function = function?;
        function.noexcept = true;
        Ok(function)
    }

    /// An assertion of a function, by its index in the program's table, with its predicate.
    pub fn specifier(self, assertion: u32, predicate: Made<Operand>) -> Made<Specifier> {
        Ok(Specifier {
            assertion,
            predicate: predicate?,
        })
    }

    /// With these preconditions, which its unit checks as Definer.
    pub fn before(
        self,
        preconditions: Made<Vec<Specifier>>,
        function: Made<Function>,
    ) -> Made<Function> {
        let mut function = function?;
        function.preconditions = preconditions?;
        Ok(function)
    }

    /// With these postconditions, which its unit checks as Definer.
    pub fn after(
        self,
        postconditions: Made<Vec<Specifier>>,
        function: Made<Function>,
    ) -> Made<Function> {
        let mut function = function?;
        function.postconditions = postconditions?;
        Ok(function)
    }
}
