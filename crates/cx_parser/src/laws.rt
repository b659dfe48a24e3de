//! Laws of the grammar. Each function does nothing: its contract is the law.
ghost use Rattle.cx_parser.specs.Laws.{AtMostOnePlace, AtMostOneTree, PrefixesBegin, TreeOrPlace};

/// A list of marks has at most one tree.
pub fn at_most_one_tree()
    ensures { AtMostOneTree }
{}

/// Each prefix of a grammatical list begins a grammatical one.
pub fn prefixes_begin()
    ensures { PrefixesBegin }
{}

/// No grammatical list has the place of a fault.
pub fn tree_or_place()
    ensures { TreeOrPlace }
{}

/// A list has at most one place of a fault.
pub fn at_most_one_place()
    ensures { AtMostOnePlace }
{}
