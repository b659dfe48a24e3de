//! Laws of which places are reached. Each function does nothing: its contract is the law.
ghost use Rattle.cx_reach.specs.Agreement.{Agrees};
ghost use Rattle.cx_reach.specs.Broken.{NothingIsBrokenInValid, ValidWhereNothingIsBroken};
ghost use Rattle.cx_reach.specs.Order.{OneIsFirst};

/// Where each instruction has the operands that it takes, the places are reached as the rules of a
/// valid image say, with the same depths. It serves a check of an image: what `arrivals` finds of a
/// function then speaks of those rules.
pub fn agrees()
    ensures { Agrees }
{}

/// A storable image is valid where no rule is broken at any of its items. It serves a check
/// that goes over the items and names the first broken rule; such a check knows the arrivals of each
/// function, and the law asks for them.
pub fn valid_where_nothing_is_broken()
    ensures { ValidWhereNothingIsBroken }
{}

/// In a valid image no rule is broken at any item, so a check that names a broken rule refuses no
/// valid image.
pub fn nothing_is_broken_in_valid()
    ensures { NothingIsBrokenInValid }
{}

/// An image has at most one first broken rule, at one item.
pub fn one_is_first()
    ensures { OneIsFirst }
{}
