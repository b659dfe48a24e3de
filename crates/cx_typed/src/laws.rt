ghost use Rattle.cx_typed.specs.Laws.{ImagesOfTypedUnitsAreFaithful, TypedProgramsAreWellMade, UnitsOfMainHaveItsProgram};

use cx_emit::images_of_main_are_faithful;

/// A program of `main` alone whose statements are typed is well made: it never comes to undefined behaviour of the kind
/// that no well made program has, and what `main` returns is a number of `int`. Variables are read unset, numbers
/// overflow and loops go on without end as the source says.
///
/// Source: this project's own, for [basic.start.main] and [stmt] of the C++ draft and [basic.contract.eval] of
/// P2900R14.
pub fn typed_programs_are_well_made()
    ensures { TypedProgramsAreWellMade }
{}

/// The program of a unit that defines `main` and nothing else is one of `main` alone, under each of the four semantics:
/// with the unit's statements as its body, without preconditions, postconditions and globals, and with the default
/// violation handler.
///
/// Source: this project's own, for [basic.start.main] of the C++ draft.
pub fn units_of_main_have_its_program()
    ensures { UnitsOfMainHaveItsProgram }
{}

/// An image that stands for the body of such a unit, under any of the four semantics, has only runs that the unit's
/// program permits, if the statements are typed and the image has no violation handler and no globals: the other
/// premises of `images_of_main_are_faithful` hold of each such program.
///
/// Source: this project's own.
pub fn images_of_typed_units_are_faithful()
    ensures { ImagesOfTypedUnitsAreFaithful }
{
    images_of_main_are_faithful();
}
