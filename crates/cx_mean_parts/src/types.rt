//! Types of objects and of exceptions.
ghost use Rattle.std.specs.Prelude.{◌≡◌};
ghost use Rattle.cx_types.specs.Scalar.{scalar_name, same_scalar};
ghost use Rattle.cx_core.specs.Tree as tree;
ghost use Rattle.cx_core.specs.Statements.{same_type, type_name};
ghost use Rattle.cx_core.specs.View.{base_type, object_type};
ghost use Rattle.cx_plain_state.specs.Seen.{type_of};
ghost use Rattle.cx_mean_parts.specs.Seen.{program_of};

use crate::machine::Machine;
use cx_plain_state::ObjectType;
use cx_types::{Base, Scalar, ValueType};

/// How a scalar type is written in an event.
pub fn scalar_name(scalar: Scalar) -> &'static [u8]
    ensures { result.now ≡ scalar_name scalar }
{
    match scalar {
        Scalar::Bool => b"bool",
        Scalar::Char => b"char",
        Scalar::Int => b"int",
        Scalar::Unsigned => b"unsigned",
        Scalar::LongLong => b"long long",
        Scalar::UnsignedLongLong => b"unsigned long long",
        Scalar::AssertionKind => b"std :: contracts :: assertion_kind",
        Scalar::EvaluationSemantic => b"std :: contracts :: evaluation_semantic",
        Scalar::DetectionMode => b"std :: contracts :: detection_mode",
        Scalar::Null => b"nullptr",
        Scalar::Literal => b"literal",
        Scalar::Location => b"location",
    }
}

pub fn same_scalar(a: Scalar, b: Scalar) -> bool
    ensures { result ≡ same_scalar a b }
{
    scalar_name(a) == scalar_name(b)
}

/// Whether a handler for one type takes an exception of the other, pointers aside.
pub fn same_base(a: Base, b: Base) -> bool
    ensures { result ≡ same_type (base_type a) (base_type b) }
{
    match (a, b) {
        (Base::Scalar(a), Base::Scalar(b)) => same_scalar(a, b),
        (Base::Class(a), Base::Class(b)) => a == b,
        (Base::Class(a), Base::Violation | Base::Void) => a == 0,
        (Base::Violation | Base::Void, Base::Class(b)) => 0 == b,
        (Base::Violation | Base::Void, Base::Violation | Base::Void) => true,
        _ => false,
    }
}

/// The same of what two pointers point to.
pub fn same_value_type(a: ValueType, b: ValueType) -> bool
    ensures { result ≡ same_type (object_type a) (object_type b) }
{
    a.pointers == b.pointers && same_base(a.base, b.base)
}

/// Whether a handler for one type takes an exception of the other [except.handle].
pub fn same_type(a: ObjectType, b: ObjectType) -> bool
    ensures { result ≡ same_type (type_of a) (type_of b) }
{
    match (a, b) {
        (ObjectType::Scalar(a), ObjectType::Scalar(b)) => same_scalar(a, b),
        (ObjectType::Pointer(a), ObjectType::Pointer(b)) => same_value_type(a, b),
        (ObjectType::Class(a), ObjectType::Class(b)) => a == b,
        _ => false,
    }
}

impl<'p> Machine<'p> {
    /// The name of a class in an event.
    pub fn class_name(&self, class: u32) -> &'p [u8]
        ensures { result.now ≡ type_name (program_of self.now.program.now) (tree.class class) }
    {
        match self.class_at(class) {
            None => b"",
            Some(class) => class.name.bytes(),
        }
    }

    /// The name of a type in an event.
    pub fn type_name(&self, of: ObjectType) -> &'p [u8]
        ensures { result.now ≡ type_name (program_of self.now.program.now) (type_of of) }
    {
        match of {
            ObjectType::Scalar(scalar) => scalar_name(scalar),
            ObjectType::Pointer(_) | ObjectType::FunctionPointer(_) => b"",
            ObjectType::Class(class) => self.class_name(class),
        }
    }
}
