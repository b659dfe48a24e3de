//! The grammar of a unit: units that are grammatical, and units with a syntax fault, its place worked out by hand.
#![tactic(auto)]

/// Units with a syntax fault: the text, the line and the column of each.
macro_rules! faulty {
    ($($unit:literal $line:literal $column:literal),* $(,)?) => {
        &[$(Faulty { unit: $unit, line: $line, column: $column }),*]
    };
}

#[cfg(test)]
mod branches;
#[cfg(test)]
mod ends;
#[cfg(test)]
mod functions;
#[cfg(test)]
mod included;
#[cfg(test)]
mod judging;
#[cfg(test)]
mod jumps;
#[cfg(test)]
mod long;
#[cfg(test)]
mod makers;
#[cfg(test)]
mod members;
#[cfg(test)]
mod names;
#[cfg(test)]
mod operands;
#[cfg(test)]
mod operators;
#[cfg(test)]
mod outside;
#[cfg(test)]
mod types;
#[cfg(test)]
mod units;
