//! The functions, classes and types of the program, by the table in its trees.
ghost use Rattle.std.specs.Prelude.{◌≡◌, slice_get};
ghost use Rattle.std.specs.Option.{option_map};
ghost use Rattle.cx_core.specs.View.{object_type};
ghost use Rattle.cx_plain_state.specs.Seen.{type_of};
ghost use Rattle.cx_mean_parts.specs.Seen.{table_of, program_of, function_of, class_of};

use crate::machine::Machine;
use crate::program::{Class, Function};
use cx_plain_state::ObjectType;
use cx_types::{Base, ValueType};

impl<'p> Machine<'p> {
    /// The definition of a function.
    pub fn function_at(&self, function: u32) -> Option<&'p Function>
        ensures { let p = self.now.program.now in slice_get (program_of p).functions function ≡ option_map (λ f. function_of (table_of p) f.now) result }
    {
        self.program.functions.get(function as usize)
    }

    /// A class.
    pub fn class_at(&self, class: u32) -> Option<&'p Class>
        ensures { let p = self.now.program.now in slice_get (program_of p).classes class ≡ option_map (λ c. class_of c.now) result }
    {
        self.program.classes.get(class as usize)
    }

    /// The type of an object.
    pub fn object_type(&self, of: ValueType) -> ObjectType
        ensures { type_of result ≡ object_type of }
    {
        if of.pointers != 0 {
            return ObjectType::Pointer(ValueType {
                pointers: of.pointers - 1,
                ..of
            });
        }
        match of.base {
            Base::Scalar(scalar) => ObjectType::Scalar(scalar),
            Base::Class(class) => ObjectType::Class(class),
            Base::Function(of) => ObjectType::FunctionPointer(of),
            Base::Violation | Base::Void => ObjectType::Class(0),
        }
    }
}
