use cx_code::Semantic;
use cx_core::Choice;
use cx_outside::{Items, Text};

/// What the text of a plan says, line by line, and the semantic of the units of which it says nothing. (The plan is
/// this project's own form of what P2900R14 leaves to an implementation: the choice of evaluation semantics and of
/// repetitions.)
#[derive(Debug, Drop)]
pub struct Plan {
    /// The semantic of the assertions of a unit that no line names.
    pub semantic: Semantic,
    /// The lines that say something, in the order of the text. No two say something of the same.
    pub lines: Items<PlanLine>,
}

/// A line that says something. (This project's own.)
#[derive(Debug, Drop)]
pub struct PlanLine {
    /// Its number in the text, from 1.
    pub number: u32,
    /// What it says.
    pub says: Directive,
}

/// What a line says. (This project's own.)
#[derive(Debug, Drop)]
pub enum Directive {
    /// The choice of the unit of this name: `unit NAME SEMANTIC CALLS REPEAT`.
    Unit(Text, Choice),
    /// The semantic of the assertion of this name, the second one, in the unit of the first: `at NAME ASSERTION SEMANTIC`.
    At(Text, Text, Semantic),
}
