//! Units as texts, each compiled and run by the machine, and run by the plain program of its meaning: journal and ending
//! of both are worked out by hand.
#![tactic(auto)]

#[cfg(test)]
mod begins;
#[cfg(test)]
mod compiled;
#[cfg(test)]
mod copies;
#[cfg(test)]
mod cuts;
#[cfg(test)]
mod subject;
#[cfg(test)]
mod tests;
#[cfg(test)]
mod told;
#[cfg(test)]
mod units;
