use crate::build::{Build, CHAR, INT, Made, POINTER_TO_INT, pointer_to_function};
use cx_core::{
    Argument, BinaryOperator, Constant, Expression, Initializer, IntegerType, Operand,
    PointedResult, Query, UnaryOperator,
};
use cx_outside::Text;
use cx_types::ValueType;

/// Expressions.
impl Build {
    /// A variable or parameter by its slot.
    pub fn variable(self, slot: u32) -> Made<Expression> {
        Ok(Expression::Variable(slot))
    }

    /// A global by its number.
    pub fn global(self, number: u32) -> Made<Expression> {
        Ok(Expression::Global(number))
    }

    /// The result name of a postcondition.
    pub fn result_name(self) -> Made<Expression> {
        Ok(Expression::ResultName)
    }

    /// What a catch parameter is initialised from.
    pub fn exception_object(self) -> Made<Expression> {
        Ok(Expression::ExceptionObject)
    }

    /// An integer literal or an enumerator.
    pub fn literal(self, number: i128) -> Made<Expression> {
        Ok(Expression::Literal(Constant::Number(number)))
    }

    /// `nullptr`.
    pub fn null(self) -> Made<Operand> {
        self.as_is(Ok(Expression::Literal(Constant::Nullptr)))
    }

    /// An operator with two operands, computed in this type.
    pub fn binary(
        self,
        operator: BinaryOperator,
        of: IntegerType,
        left: Made<Operand>,
        right: Made<Operand>,
    ) -> Made<Expression> {
        Ok(Expression::Binary(operator, of, self.boxed(left)?, self.boxed(right)?))
    }

    /// `=`, whose right side is evaluated first.
    pub fn assign(self, place: Made<Expression>, value: Made<Operand>) -> Made<Expression> {
        Ok(Expression::Assign(self.boxed(place)?, self.boxed(value)?))
    }

    /// `+=` and the like, of two operands of type `int`.
    pub fn assign_by(
        self,
        operator: BinaryOperator,
        place: Made<Expression>,
        value: Made<Operand>,
    ) -> Made<Expression> {
        Ok(Expression::CompoundAssign(
            operator,
            IntegerType::Int,
            IntegerType::Int,
            self.boxed(place)?,
            self.boxed(value)?,
        ))
    }

    /// An operator with one operand of type `int`.
    pub fn unary(self, operator: UnaryOperator, operand: Made<Operand>) -> Made<Expression> {
        Ok(Expression::Unary(operator, IntegerType::Int, self.boxed(operand)?))
    }

    /// `&&`.
    pub fn and(self, left: Made<Operand>, right: Made<Operand>) -> Made<Operand> {
        let both = Expression::LogicalAnd(self.boxed(left)?, self.boxed(right)?);
        self.as_is(Ok(both))
    }

    /// `||`.
    pub fn or(self, left: Made<Operand>, right: Made<Operand>) -> Made<Operand> {
        let either = Expression::LogicalOr(self.boxed(left)?, self.boxed(right)?);
        self.as_is(Ok(either))
    }

    /// `?:`.
    pub fn conditional(
        self,
        condition: Made<Operand>,
        first: Made<Operand>,
        second: Made<Operand>,
    ) -> Made<Expression> {
        Ok(Expression::Conditional(
            self.boxed(condition)?,
            self.boxed(first)?,
            self.boxed(second)?,
        ))
    }

    /// `++` after an operand of type `int`.
    pub fn increment_after(self, place: Made<Expression>) -> Made<Expression> {
        Ok(Expression::PostfixStep(BinaryOperator::Add, IntegerType::Int, self.boxed(place)?))
    }

    /// `++` before an operand of type `int`.
    pub fn increment(self, place: Made<Expression>) -> Made<Expression> {
        Ok(Expression::PrefixStep(BinaryOperator::Add, IntegerType::Int, self.boxed(place)?))
    }

    /// `*` before a pointer.
    pub fn indirection(self, pointer: Made<Operand>) -> Made<Expression> {
        Ok(Expression::Indirection(self.boxed(pointer)?))
    }

    /// The field at this leaf, or at leaf 0 the object of a member call.
    pub fn member(self, leaf: u32, object: Made<Expression>) -> Made<Expression> {
        Ok(Expression::Member(leaf, self.boxed(object)?))
    }

    /// A field that is named alone.
    pub fn own(self, leaf: u32) -> Made<Expression> {
        self.member(leaf, self.indirection(self.as_is(Ok(Expression::This))))
    }

    /// A call of a function by its number.
    pub fn call(self, function: u32, arguments: Made<Vec<Argument>>) -> Made<Expression> {
        Ok(Expression::Call(function, arguments?))
    }

    /// A call of what a pointer holds.
    pub fn call_through(
        self,
        gives: PointedResult,
        pointer: Made<Operand>,
        arguments: Made<Vec<Argument>>,
    ) -> Made<Expression> {
        Ok(Expression::CallThrough(gives, self.boxed(pointer)?, arguments?))
    }

    /// The temporary of a class that a call of what a pointer holds gives.
    pub fn temporary_through(
        self,
        class: u32,
        pointer: Made<Operand>,
        arguments: Made<Vec<Argument>>,
    ) -> Made<Expression> {
        Ok(Expression::TemporaryThrough(class, self.boxed(pointer)?, arguments?))
    }

    /// A temporary of class type.
    pub fn temporary(self, of: ValueType, init: Made<Initializer>) -> Made<Expression> {
        Ok(Expression::Temporary(of, self.boxed(init)?))
    }

    /// `int(e)` of an enumerator.
    pub fn int_of(self, of: Made<Expression>) -> Made<Expression> {
        let operand = Operand {
            read: None,
            to: Some(IntegerType::Int),
            of: of?,
        };
        Ok(Expression::Cast(self.boxed(Ok(operand))?))
    }

    /// `getchar()`.
    pub fn getchar(self) -> Made<Expression> {
        Ok(Expression::Getchar)
    }

    /// `putchar` of an `int`.
    pub fn putchar(self, byte: Made<Operand>) -> Made<Expression> {
        Ok(Expression::Putchar(self.boxed(byte)?))
    }

    /// `puts` of a text literal.
    pub fn puts(self, text: &[u8]) -> Made<Expression> {
        Ok(Expression::Puts(Text::copy_of(self.alloc, text)?))
    }

    /// `puts(v.comment())`, in a violation handler.
    pub fn puts_comment(self, violation: Made<Expression>) -> Made<Expression> {
        Ok(Expression::PutsComment(self.boxed(violation)?))
    }

    /// What else a violation handler asks of its violation.
    pub fn query(self, query: Query, violation: Made<Expression>) -> Made<Expression> {
        Ok(Expression::Query(query, self.boxed(violation)?))
    }
}

/// Operands.
impl Build {
    /// Neither read nor converted.
    pub fn as_is(self, of: Made<Expression>) -> Made<Operand> {
        Ok(Operand {
            read: None,
            to: None,
            of: of?,
        })
    }

    /// An object of this type is read.
    pub fn read(self, of: ValueType, place: Made<Expression>) -> Made<Operand> {
        Ok(Operand {
            read: Some(of),
            to: None,
            of: place?,
        })
    }

    /// It is converted, and read before where it is an object of a type.
    pub fn converted(
        self,
        read: Option<ValueType>,
        to: IntegerType,
        of: Made<Expression>,
    ) -> Made<Operand> {
        Ok(Operand {
            read,
            to: Some(to),
            of: of?,
        })
    }

    /// An `int` is read.
    pub fn read_int(self, place: Made<Expression>) -> Made<Operand> {
        self.read(INT, place)
    }

    /// A `char` that is promoted.
    pub fn read_char(self, place: Made<Expression>) -> Made<Operand> {
        self.converted(Some(CHAR), IntegerType::Int, place)
    }

    /// A pointer to `int` is read.
    pub fn read_pointer(self, place: Made<Expression>) -> Made<Operand> {
        self.read(POINTER_TO_INT, place)
    }

    /// A pointer to functions of this type is read, in this slot.
    pub fn pointer_in(self, slot: u32, of: u32) -> Made<Operand> {
        self.read(pointer_to_function(of), self.variable(slot))
    }

    /// The name of a function, as a pointer to it.
    pub fn named(self, function: u32) -> Made<Operand> {
        self.as_is(Ok(Expression::FunctionName(function)))
    }

    /// The `int` in this slot.
    pub fn value_in(self, slot: u32) -> Made<Operand> {
        self.read_int(self.variable(slot))
    }

    /// A literal that needs no conversion.
    pub fn number(self, number: i128) -> Made<Operand> {
        self.as_is(self.literal(number))
    }

    /// A character literal that is promoted.
    pub fn character(self, byte: u8) -> Made<Operand> {
        self.converted(None, IntegerType::Int, self.literal(i128::from(byte)))
    }

    /// Of two operands of type `int`.
    pub fn ints(
        self,
        operator: BinaryOperator,
        left: Made<Operand>,
        right: Made<Operand>,
    ) -> Made<Operand> {
        self.as_is(self.binary(operator, IntegerType::Int, left, right))
    }

    /// The value of a call.
    pub fn called(self, function: u32, arguments: Made<Vec<Argument>>) -> Made<Operand> {
        self.as_is(self.call(function, arguments))
    }
}

/// Initialisers and arguments.
impl Build {
    /// A scalar is initialised by a value.
    pub fn value(self, of: Made<Operand>) -> Made<Initializer> {
        Ok(Initializer::Value(of?))
    }

    /// By a constructor, implicit or not.
    pub fn construct(self, constructor: u32, arguments: Made<Vec<Argument>>) -> Made<Initializer> {
        Ok(Initializer::Construct(constructor, arguments?))
    }

    /// By a constructor without arguments.
    pub fn construct_plainly(self, constructor: u32) -> Made<Initializer> {
        self.construct(constructor, self.list([]))
    }

    /// By a copy constructor, from this object.
    pub fn copy(self, constructor: u32, from: Made<Expression>) -> Made<Initializer> {
        self.construct(constructor, self.list([self.by_reference(from)]))
    }

    /// An object of this class is zeroed first.
    pub fn zero_first(self, class: u32, init: Made<Initializer>) -> Made<Initializer> {
        Ok(Initializer::ZeroFirst(class, self.boxed(init)?))
    }

    /// The object is the result of a call.
    pub fn result_of(self, function: u32, arguments: Made<Vec<Argument>>) -> Made<Initializer> {
        Ok(Initializer::ResultOf(function, arguments?))
    }

    /// The object is the result of a call of what a pointer holds.
    pub fn result_through(
        self,
        pointer: Made<Operand>,
        arguments: Made<Vec<Argument>>,
    ) -> Made<Initializer> {
        Ok(Initializer::ResultThrough(self.boxed(pointer)?, arguments?))
    }

    /// Bound to a reference, or the object of a member call.
    pub fn by_reference(self, place: Made<Expression>) -> Made<Argument> {
        Ok(Argument::ByReference(place?))
    }

    /// The initialiser of a parameter of this type.
    pub fn by_value(self, of: ValueType, init: Made<Initializer>) -> Made<Argument> {
        Ok(Argument::ByValue(of, init?))
    }

    /// The initialiser of a parameter of type `int`.
    pub fn int_argument(self, value: Made<Operand>) -> Made<Argument> {
        self.by_value(INT, self.value(value))
    }

    /// A character literal for a parameter of type `char`.
    pub fn char_argument(self, byte: u8) -> Made<Argument> {
        self.by_value(CHAR, self.value(self.number(i128::from(byte))))
    }

    /// The variable in this slot, as the object of a member call.
    pub fn on(self, slot: u32) -> Made<Argument> {
        self.by_reference(self.member(0, self.variable(slot)))
    }
}
