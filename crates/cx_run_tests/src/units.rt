pub mod assertions;
pub mod conversions;
pub mod expressions;
pub mod flow;
pub mod output;
pub mod undefined;
pub mod variables;

use cx_code::Semantic;

/// A unit, and the run that it is to have.
#[derive(Clone, Copy)]
pub struct Unit {
    /// What it shows.
    pub shows: &'static str,
    pub text: &'static str,
    /// That of all its assertions.
    pub semantic: Semantic,
    /// A line for each event, and one for the ending.
    pub told: &'static str,
    /// Its run is also looked at where it is cut after each of its steps.
    pub cut: bool,
}

/// What most units have.
pub const ENFORCED: Unit = Unit {
    shows: "",
    text: "",
    semantic: Semantic::Enforce,
    told: "",
    cut: false,
};
