//! Runs of hand-made images, worked out by hand from the meaning of each instruction.
#![tactic(auto)]

/// Instructions, by the numbers of the format: the code, a and b of each.
macro_rules! code {
    ($($code:literal $a:literal $b:literal),* $(,)?) => {
        &[$(Instruction { code: $code, a: $a, b: $b }),*]
    };
}

/// Regions: the start, the end, the kind, the type, the target and the depth of each.
macro_rules! regions {
    ($($start:literal $end:literal $kind:literal $of:literal $target:literal $depth:literal),*) => {
        &[$(Region { start: $start, end: $end, kind: $kind, of: $of, target: $target, depth: $depth }),*]
    };
}

#[cfg(test)]
mod images;
#[cfg(test)]
mod programs;
#[cfg(test)]
mod stopped;
#[cfg(test)]
mod tests;
