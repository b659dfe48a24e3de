//! Laws of units and their lists. Each function does nothing: its contract is the law.
ghost use Rattle.cx_judged.specs.Laws.{BuiltIsNotOutside, BuiltOrOutside, FaultlessHasNoFault, FaultlessHasTree, FaultlessOrFault, ListOrFault};

/// Whatever the files hold, a unit has an assembled list or a first fault.
pub fn list_or_fault()
    ensures { ListOrFault }
{}

/// A list is without a fault or has one.
pub fn faultless_or_fault()
    ensures { FaultlessOrFault }
{}

/// A list without a fault has none.
pub fn faultless_has_no_fault()
    ensures { FaultlessHasNoFault }
{}

/// A list without a fault has a tree, its only one.
pub fn faultless_has_tree()
    ensures { FaultlessHasTree }
{}

/// A list without a fault is built or outside what is built.
pub fn built_or_outside()
    ensures { BuiltOrOutside }
{}

/// A list that is built isn't outside.
pub fn built_is_not_outside()
    ensures { BuiltIsNotOutside }
{}
