//! Laws of typed programs. Each function does nothing: its contract is the law.
ghost use Rattle.cx_soundness.specs.Laws.{TypedProgramsAreWellMade, DefinitionsStayTyped, ChecksStayTyped, LinkedUnitsAreTyped, LinkedUnitsAreWellMade};

use cx_core::laws::linking_keeps_apart;

/// A typed program never comes to undefined behaviour of the kind that no well made program has, whatever the
/// evaluations that it is told, its input and its budget are, and what `main` returns is a number of `int`.
///
/// Source: this project's own, for the clauses on expressions, statements, classes and exceptions of the C++ draft and
/// [basic.contract.eval] of P2900R14.
pub fn typed_programs_are_well_made()
    ensures { TypedProgramsAreWellMade }
{}

/// A function's definition that is typed in its unit is typed in the program, under the program's numbers, if what the
/// unit declares agrees with what the program declares.
///
/// Source: this project's own, for [basic.link] and [basic.def.odr] of the C++ draft.
pub fn definitions_stay_typed()
    ensures { DefinitionsStayTyped }
{}

/// The checks that a unit makes of a function are typed in the program, under the program's numbers, if what the unit
/// declares agrees with what the program declares.
///
/// Source: this project's own, for [basic.link] of the C++ draft and [dcl.contract.func] of P2900R14.
pub fn checks_stay_typed()
    ensures { ChecksStayTyped }
{}

/// The program that typed units are linked into is typed, if what they declare is the same by name, each function and
/// global that code calls or names has a definition, and no global has two. The last premises are tests that compute.
///
/// Source: this project's own, for [basic.link] and [basic.def.odr] of the C++ draft.
pub fn linked_units_are_typed()
    ensures { LinkedUnitsAreTyped }
{
    linking_keeps_apart();
}

/// The program that typed units are linked into is well made: it never comes to undefined behaviour of the kind that no
/// well made program has, and what `main` returns is a number of `int`.
///
/// Source: this project's own, as for `typed_programs_are_well_made` and `linked_units_are_typed`.
pub fn linked_units_are_well_made()
    ensures { LinkedUnitsAreWellMade }
{
    typed_programs_are_well_made();
    linked_units_are_typed();
}
