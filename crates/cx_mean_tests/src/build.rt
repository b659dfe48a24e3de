mod classes;
mod expressions;
mod functions;
mod programs;
mod statements;

pub use classes::Makers;
use cx_outside::NoMemory;
use cx_types::{Base, Scalar, ValueType};
pub use programs::{Stated, Under};
use std::alloc::Global;

/// What the builder made, or want of memory. Each part of a tree takes its own parts so, and a tree is one expression.
pub type Made<T> = Result<T, NoMemory>;

/// Makes trees on an allocator.
#[derive(Clone, Copy)]
pub struct Build {
    pub alloc: Global,
}

impl Build {
    /// A part of a tree in a place of its own.
    fn boxed<T: Drop>(self, made: Made<T>) -> Made<Box<T>> {
        Ok(Box::new(self.alloc, made?)?)
    }

    /// A list of these, in order.
    pub fn list<T: Drop, const N: usize>(self, made: [Made<T>; N]) -> Made<Vec<T>> {
        let mut list = Vec::new(self.alloc);
        for item in Vec::from_array(self.alloc, made)? {
            list.push(item?)?;
        }
        Ok(list)
    }

    /// A list, and then another.
    pub fn joined<T: Drop>(self, list: Made<Vec<T>>, more: Made<Vec<T>>) -> Made<Vec<T>> {
        let mut list = list?;
        for item in more? {
            list.push(item)?;
        }
        Ok(list)
    }
}

/// `int`.
pub const INT: ValueType = ValueType {
    base: Base::Scalar(Scalar::Int),
    constant: false,
    pointers: 0,
    pointer_consts: 0,
    reference: false,
};

/// `char`.
pub const CHAR: ValueType = ValueType {
    base: Base::Scalar(Scalar::Char),
    constant: false,
    pointers: 0,
    pointer_consts: 0,
    reference: false,
};

/// `unsigned`.
pub const UNSIGNED: ValueType = ValueType {
    base: Base::Scalar(Scalar::Unsigned),
    constant: false,
    pointers: 0,
    pointer_consts: 0,
    reference: false,
};

/// `int*`.
pub const POINTER_TO_INT: ValueType = ValueType {
    base: Base::Scalar(Scalar::Int),
    constant: false,
    pointers: 1,
    pointer_consts: 0,
    reference: false,
};

/// A class by its number.
pub fn class(number: u32) -> ValueType {
    ValueType {
        base: Base::Class(number),
        constant: false,
        pointers: 0,
        pointer_consts: 0,
        reference: false,
    }
}

/// A pointer to functions of this type, by the type's number.
pub fn pointer_to_function(number: u32) -> ValueType {
    ValueType {
        base: Base::Function(number),
        constant: false,
        pointers: 0,
        pointer_consts: 0,
        reference: false,
    }
}
