//! Which typed programs are built so far: the types of their expressions, and that they are well made.
#![tactic(auto)]

mod laws;

pub use laws::{
    images_of_typed_units_are_faithful, typed_programs_are_well_made,
    units_of_main_have_its_program,
};
