//! Values of the machine: arithmetic in each type of numbers, conversion and comparison.
#![tactic(auto)]

mod bits;
mod conversion;
mod division;
mod range;
mod shift;
mod sums;
mod values;

pub use bits::{both_bits, complement, different_bits, either_bits};
pub use conversion::{convert, int_value};
pub use division::{quotient, remainder};
pub use shift::{shifted_left, shifted_right};
pub use sums::{difference, logical_not, negated, product, sum};
pub use values::equal_values;
