ghost use Rattle.cx_simulation.specs.Laws.{FollowedRunsArePermitted};
ghost use Rattle.cx_simulation.specs.Parts.{FollowedCallsOfMainArePermitted};

/// A machine whose run of each input is followed by the meaning of a program, whatever the budget is and however many of
/// its evaluations are told, has only runs that the program permits: ended ones have the meaning's journal and ending, and
/// cut ones are begun and really got that far. It serves every compiler from typed programs to a machine.
///
/// Source: this project's own.
pub fn followed_runs_are_permitted()
    ensures { FollowedRunsArePermitted }
{}

/// The same of an image whose machine follows the call of `main` as a part of a run, where the program never comes to
/// undefined behaviour of the kind that no well made program has, and returns a number of `int`. What is said of a part is said by how it is left: it
/// goes on, an exception flies, or the run ends, each with the steps and the units of the budget that pay for each other.
///
/// Source: this project's own.
pub fn followed_calls_of_main_are_permitted()
    ensures { FollowedCallsOfMainArePermitted }
{}
