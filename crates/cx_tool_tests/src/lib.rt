//! Calls of the program over files and streams in memory: what is answered, put and written, worked out by hand.
#![tactic(auto)]

#[cfg(test)]
mod calls;
