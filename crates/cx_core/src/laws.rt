//! Laws of the meaning. Each function does nothing: its contract is the law.
ghost use Rattle.cx_core.specs.Apart.{LinkingKeepsApart};
ghost use Rattle.cx_core.specs.Block.{TakenAreTheRows};
ghost use Rattle.cx_core.specs.Laws.{BeginsAreTheFirstTold, InputIsReadInOrder, NoBudgetSaysNothing, LargerBudgetChangesNoEnding, LargerBudgetOnlyAddsEvents, ObjectsStayNumbered};

/// The evaluations that a run begins are the first of those that it is told.
pub fn begins_are_the_first_told()
    ensures { BeginsAreTheFirstTold }
{}

/// An ending stays as it is under each larger budget, with the events before it; so does the answer that the run waits
/// for an evaluation, and the answer that it is no run.
pub fn larger_budget_changes_no_ending()
    ensures { LargerBudgetChangesNoEnding }
{}

/// The events under a budget are the first of those under each larger one.
pub fn larger_budget_only_adds_events()
    ensures { LargerBudgetOnlyAddsEvents }
{}

/// The numbers of the live objects differ and are below the next one, at the start and after each call.
pub fn objects_stay_numbered()
    ensures { ObjectsStayNumbered }
{}

/// The bytes that a run reads are the first of its input.
pub fn input_is_read_in_order()
    ensures { InputIsReadInOrder }
{}

/// With no budget the answer is that the run goes on, and there is no event.
pub fn no_budget_says_nothing()
    ensures { NoBudgetSaysNothing }
{}

/// Of evaluations that are owed once each by name, the meaning takes a list as a row exactly where each stands as often
/// as it is owed, none stands before an earlier one that is to stand and has not stood yet, and no other stands.
pub fn taken_are_the_rows()
    ensures { TakenAreTheRows }
{}

/// The numbers that linking gives to the functions, types of functions, classes and globals of a unit differ where their
/// places in the unit's tables do, also for places that a table lacks.
pub fn linking_keeps_apart()
    ensures { LinkingKeepsApart }
{}
