//! Laws of the runs of a valid image. Each function does nothing: its contract is the law.
ghost use Rattle.cx_sound.specs.Unread.{UnreadInputMakesNoDifference};
ghost use Rattle.cx_sound.specs.Laws.{EachInstructionHasWhatItTakes, EachMoveHasItsRegions, GoesOn, Starts};

/// A run of a valid image starts in a sound state.
pub fn starts()
    ensures { Starts }
{}

/// A step from a sound state either ends the run or comes to a sound state.
pub fn goes_on()
    ensures { GoesOn }
{}

/// In a sound state no instruction lacks an operand, an index, a place in the code or a pending exception.
pub fn has_what_it_takes()
    ensures { EachInstructionHasWhatItTakes }
{}

/// While an exception is unwound from a sound state, each region that covers the place finds the operands that it keeps, and its
/// target is in the code.
pub fn has_regions()
    ensures { EachMoveHasItsRegions }
{}

/// An image none of whose instructions reads the input runs alike on all inputs.
pub fn unread_input_makes_no_difference()
    ensures { UnreadInputMakesNoDifference }
{}
