/// The integer types [basic.fundamental] of the profile.
#[derive(Clone, Copy, Debug, PartialEq, Eq)]
pub enum IntegerType {
    Bool,
    Char,
    Int,
    Unsigned,
    LongLong,
    UnsignedLongLong,
}

/// The operators with two operands, other than the logical ones and those of assignment: [expr.mul] to [expr.or].
#[derive(Clone, Copy, Debug, PartialEq, Eq)]
pub enum BinaryOperator {
    Multiply,
    Divide,
    Remainder,
    Add,
    Subtract,
    ShiftLeft,
    ShiftRight,
    Less,
    Greater,
    LessEqual,
    GreaterEqual,
    Equal,
    NotEqual,
    BitAnd,
    BitXor,
    BitOr,
}

/// The operators with one operand that compute a number [expr.unary.op].
#[derive(Clone, Copy, Debug, PartialEq, Eq)]
pub enum UnaryOperator {
    Minus,
    Not,
    Complement,
}

/// What a handler asks of a violation that is a number [support.contract.violation].
#[derive(Clone, Copy, Debug, PartialEq, Eq)]
pub enum Query {
    Kind,
    Semantic,
    DetectionMode,
    Line,
    Column,
}
