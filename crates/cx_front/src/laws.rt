//! Laws of the units that are built. The function does nothing: its contract is the law.
ghost use Rattle.cx_front.specs.Laws.{UnitsAreBuilt};

/// The unit that the tree of an assembled list is, is one that is lowered, if the list has at most 4,096 tokens and the
/// names of its files at most 1,024 bytes each: its statements are typed, weigh at most
/// 4,096, and have at most as many assertions, which are named by their ordinals from 1, whose comments have at most
/// 8,388,608 bytes in all and whose files have names of at most 1,024 bytes, as the unit has.
///
/// Source: this project's own, for [expr], [stmt] and [basic.start.main] of the C++ draft.
pub fn units_are_built()
    ensures { UnitsAreBuilt }
{}
