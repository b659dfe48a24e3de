use crate::build::{Build, INT, Made, class, pointer_to_function};
use cx_core::{CatchParameter, Expression, Handler, Initializer, Operand, Statement};
use cx_types::ValueType;

/// The slot of a parameter that has no name.
const UNNAMED: u32 = 9;

/// Statements.
impl Build {
    /// `;`.
    pub fn empty(self) -> Made<Statement> {
        Ok(Statement::Empty)
    }

    /// An expression whose value is discarded.
    pub fn discards(self, operand: Made<Operand>) -> Made<Statement> {
        Ok(Statement::Expression(operand?))
    }

    /// An expression whose value is discarded, and isn't read.
    pub fn does(self, expression: Made<Expression>) -> Made<Statement> {
        self.discards(self.as_is(expression))
    }

    /// `putchar` of this byte.
    pub fn says(self, byte: u8) -> Made<Statement> {
        self.does(self.putchar(self.character(byte)))
    }

    /// A variable in this slot.
    pub fn declare(self, slot: u32, of: ValueType, init: Made<Initializer>) -> Made<Statement> {
        Ok(Statement::Variable(slot, of, init?))
    }

    /// A variable of type `int` in this slot.
    pub fn declare_int(self, slot: u32, value: Made<Operand>) -> Made<Statement> {
        self.declare(slot, INT, self.value(value))
    }

    /// A pointer to functions of this type, in this slot.
    pub fn declare_pointer(self, slot: u32, of: u32, value: Made<Operand>) -> Made<Statement> {
        self.declare(slot, pointer_to_function(of), self.value(value))
    }

    /// An object of this class, by a constructor without arguments.
    pub fn declare_plainly(self, slot: u32, of: u32, constructor: u32) -> Made<Statement> {
        self.declare(slot, class(of), self.construct_plainly(constructor))
    }

    /// A reference in this slot.
    pub fn declare_reference(self, slot: u32, place: Made<Expression>) -> Made<Statement> {
        Ok(Statement::Reference(slot, place?))
    }

    /// The `int` in this slot is assigned to.
    pub fn set_int(self, slot: u32, value: Made<Operand>) -> Made<Statement> {
        self.does(self.assign(self.variable(slot), value))
    }

    /// A block.
    pub fn block(self, statements: Made<Vec<Statement>>) -> Made<Statement> {
        Ok(Statement::Block(statements?))
    }

    /// `if` without `else`.
    pub fn if_so(self, condition: Made<Operand>, then: Made<Statement>) -> Made<Statement> {
        Ok(Statement::If(condition?, self.boxed(then)?, self.boxed(self.empty())?))
    }

    /// `for`, with a condition or without.
    pub fn for_so(
        self,
        first: Made<Statement>,
        condition: Option<Made<Operand>>,
        step: Made<Statement>,
        body: Made<Statement>,
    ) -> Made<Statement> {
        let condition = match condition {
            Some(condition) => Some(condition?),
            None => None,
        };
        Ok(Statement::For(
            self.boxed(first)?,
            condition,
            self.boxed(step)?,
            self.boxed(body)?,
        ))
    }

    /// `break;`.
    pub fn breaks(self) -> Made<Statement> {
        Ok(Statement::Break)
    }

    /// `continue;`.
    pub fn continues(self) -> Made<Statement> {
        Ok(Statement::Continue)
    }

    /// `return;`.
    pub fn returns_nothing(self) -> Made<Statement> {
        Ok(Statement::Return)
    }

    /// `return` of a reference.
    pub fn returns_reference(self, place: Made<Expression>) -> Made<Statement> {
        Ok(Statement::ReturnReference(place?))
    }

    /// `while`.
    pub fn while_so(self, condition: Made<Operand>, body: Made<Statement>) -> Made<Statement> {
        Ok(Statement::While(condition?, self.boxed(body)?))
    }

    /// `return` of a scalar.
    pub fn returns(self, value: Made<Operand>) -> Made<Statement> {
        Ok(Statement::ReturnValue(value?))
    }

    /// `return` of a class object.
    pub fn returns_object(self, init: Made<Initializer>) -> Made<Statement> {
        Ok(Statement::ReturnObject(init?))
    }

    /// `contract_assert` of the assertion with this index.
    pub fn asserts(self, assertion: u32, predicate: Made<Operand>) -> Made<Statement> {
        Ok(Statement::ContractAssert(assertion, predicate?))
    }

    /// `throw` of an object of this type.
    pub fn throws(self, of: ValueType, init: Made<Initializer>) -> Made<Statement> {
        Ok(Statement::Throw(of, init?))
    }

    /// `throw` of an `int`.
    pub fn throws_int(self, number: i128) -> Made<Statement> {
        self.throws(INT, self.value(self.number(number)))
    }

    /// `throw;`.
    pub fn rethrows(self) -> Made<Statement> {
        Ok(Statement::Rethrow)
    }

    /// `try` with its handlers.
    pub fn tries(
        self,
        body: Made<Vec<Statement>>,
        handlers: Made<Vec<Handler>>,
    ) -> Made<Statement> {
        Ok(Statement::Try(body?, handlers?))
    }
}

/// Handlers.
impl Build {
    /// `catch (T name)`, whose parameter is initialised so from the exception object.
    pub fn catches(
        self,
        of: ValueType,
        slot: u32,
        init: Made<Initializer>,
        body: Made<Vec<Statement>>,
    ) -> Made<Handler> {
        Ok(Handler {
            catches: Some(of),
            parameter: CatchParameter::Object(slot, slot != UNNAMED, init?),
            body: body?,
        })
    }

    /// `catch (int name)`.
    pub fn catches_int_in(self, slot: u32, body: Made<Vec<Statement>>) -> Made<Handler> {
        let init = self.value(self.read_int(self.exception_object()));
        self.catches(INT, slot, init, body)
    }

    /// `catch (int)`.
    pub fn catches_int(self, body: Made<Vec<Statement>>) -> Made<Handler> {
        self.catches_int_in(UNNAMED, body)
    }

    /// `catch (const T& name)`.
    pub fn catches_reference(
        self,
        of: ValueType,
        slot: u32,
        body: Made<Vec<Statement>>,
    ) -> Made<Handler> {
        Ok(Handler {
            catches: Some(of),
            parameter: CatchParameter::Reference(slot),
            body: body?,
        })
    }

    /// `catch (...)`.
    pub fn catches_all(self, body: Made<Vec<Statement>>) -> Made<Handler> {
        Ok(Handler {
            catches: None,
            parameter: CatchParameter::Unnamed,
            body: body?,
        })
    }
}
