ghost use Rattle.std.specs.Prelude.{◌≡◌, IfOk};
ghost use Rattle.cx_core.specs.View.{object_type};
ghost use Rattle.cx_core.specs.Tree.{scalar};
ghost use Rattle.cx_front.specs.Front.{found, scalar_of, value_type};

use cx_core::IntegerType;
use cx_outside::NoMemory;
use cx_types::{Base, Scalar, ValueType};

/// A variable that is visible, by the number of its name among the marks of its unit. Its slot is its place in the list
/// of those that are visible.
#[derive(Clone, Copy, Debug, PartialEq, Eq)]
pub struct Variable {
    pub name: u32,
    pub of: IntegerType,
}

/// What a name denotes: the slot of a variable, and its type.
#[derive(Clone, Copy, Debug, PartialEq, Eq)]
pub struct Slot {
    pub slot: u32,
    pub of: IntegerType,
}

/// The latest variable of a name, which hides the others [basic.scope.block].
pub fn found(name: u32, names: &[Variable]) -> Result<Option<Slot>, NoMemory>
    ensures { IfOk result (λ told. told ≡ found name names.now) }
{
    let mut latest = None;
    for at in 0..names.len() {
        let variable = names[at];
        if variable.name == name {
            latest = Some(Slot {
                slot: number_of(at)?,
                of: variable.of,
            });
        }
    }
    Ok(latest)
}

/// A place in a list as a number of the unit. A list of 2^32 items is never made: it counts as want of memory.
pub fn number_of(at: usize) -> Result<u32, NoMemory>
    ensures { IfOk result (λ number. number ≡ at) }
{
    match u32::try_from(at) {
        Ok(number) => Ok(number),
        Err(_) => Err(NoMemory),
    }
}

/// The type of an object as the typed program has it.
pub fn value_type(of: IntegerType) -> ValueType
    ensures whole { result ≡ value_type of }
    ensures object { object_type result ≡ scalar (scalar_of of) }
{
    ValueType {
        base: Base::Scalar(scalar_of(of)),
        constant: false,
        pointers: 0,
        pointer_consts: 0,
        reference: false,
    }
}

/// The scalar type of an object.
fn scalar_of(of: IntegerType) -> Scalar
    ensures { result ≡ scalar_of of }
{
    match of {
        IntegerType::Bool => Scalar::Bool,
        IntegerType::Char => Scalar::Char,
        IntegerType::Int => Scalar::Int,
        IntegerType::Unsigned => Scalar::Unsigned,
        IntegerType::LongLong => Scalar::LongLong,
        IntegerType::UnsignedLongLong => Scalar::UnsignedLongLong,
    }
}
