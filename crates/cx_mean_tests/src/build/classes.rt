ghost use Rattle.std.specs.Prelude.{◌<◌};

use crate::build::{Build, Made};
use cx_core::{ClassDefinition, Field, LeafKind};
use cx_mean::Class;
use cx_outside::{Items, NoMemory, Text};
use cx_types::ValueType;

/// The functions that make, copy and destroy the objects of a class.
#[derive(Clone, Copy)]
pub struct Makers {
    pub default_constructor: Option<u32>,
    pub copy_constructor: u32,
    pub destructor: u32,
}

impl Makers {
    /// A constructor without parameters, a copy constructor and a destructor, in this order from a function on.
    pub fn from_number(first: u32) -> Self
        requires { first < 100 }
    {
        Makers {
            default_constructor: Some(first),
            copy_constructor: first + 1,
            destructor: first + 2,
        }
    }

    /// The same, where the constructor has parameters.
    pub fn with_parameters(first: u32) -> Self
        requires { first < 100 }
    {
        Makers {
            default_constructor: None,
            copy_constructor: first + 1,
            destructor: first + 2,
        }
    }
}

/// Classes.
impl Build {
    fn items<T: Copy>(self, from: &[T]) -> Result<Items<T>, NoMemory> {
        let mut items = Items::new(self.alloc);
        for item in from {
            items.push(*item)?;
        }
        Ok(items)
    }

    /// A class by its fields, its leaves and the number of class objects in it, itself included.
    pub fn class(
        self,
        name: &[u8],
        fields: &[Field],
        leaves: &[LeafKind],
        objects: u32,
        makers: Makers,
    ) -> Made<Class> {
        Ok(Class {
            name: Text::copy_of(self.alloc, name)?,
            definition: ClassDefinition {
                fields: self.items(fields)?,
                leaves: self.items(leaves)?,
                objects,
                default_constructor: makers.default_constructor,
                copy_constructor: makers.copy_constructor,
                destructor: makers.destructor,
            },
        })
    }

    /// With one field, of this scalar type.
    pub fn class_of_one(self, name: &[u8], of: ValueType, makers: Makers) -> Made<Class> {
        self.class(
            name,
            &[Field { leaf: 0, of }],
            &[LeafKind::Number],
            1,
            makers,
        )
    }

    /// Without fields.
    pub fn empty_class(self, name: &[u8], makers: Makers) -> Made<Class> {
        self.class(name, &[], &[LeafKind::Empty], 1, makers)
    }
}
