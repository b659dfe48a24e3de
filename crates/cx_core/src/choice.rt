use cx_code::Semantic;

/// The function contract assertions that a unit checks where its code evaluates a call.
#[derive(Clone, Copy, Debug, PartialEq, Eq)]
pub enum Calls {
    Nothing,
    Pre,
    /// Preconditions and postconditions.
    All,
}

/// What a plan says of a unit.
#[derive(Clone, Copy, Debug, PartialEq, Eq)]
pub struct Choice {
    /// The evaluation semantic of the assertions for which the plan says no other.
    pub semantic: Semantic,
    pub calls: Calls,
    /// How often an evaluation is repeated.
    pub repeat: u8,
}
