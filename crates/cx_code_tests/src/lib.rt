//! The machine's parts: files and streams in memory, instructions, arithmetic, unwind tables, arrivals, images and violations, worked out by hand.
#![tactic(auto)]

#[cfg(test)]
mod arithmetic;
#[cfg(test)]
mod arriving;
#[cfg(test)]
mod images;
#[cfg(test)]
mod operations;
#[cfg(test)]
mod outside;
#[cfg(test)]
mod regions;
#[cfg(test)]
mod violations;
