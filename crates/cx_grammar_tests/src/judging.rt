use cx_faults::{FaultPlace, ListFault, first_fault};
use cx_includes::assemble;
use cx_outside::{MemFiles, NoMemory};
use std::alloc::Global;

/// A unit with a syntax fault, and the fault's line and column.
#[derive(Clone, Copy)]
pub struct Faulty {
    pub unit: &'static [u8],
    pub line: u32,
    pub column: u32,
}

/// What a unit is found to be.
#[derive(Clone, Copy, Debug, PartialEq, Eq)]
pub enum Judged {
    /// Without a fault.
    Grammatical,
    Syntax(FaultPlace),
    OpenTokens(u32),
    /// No list of tokens: a fault of its files, lines or tokens.
    NoList,
}

/// What the unit `a.cpp` of some files is found to be.
pub fn judge(alloc: Global, files: &mut MemFiles) -> Result<Judged, NoMemory> {
    let Ok(list) = assemble(alloc, b"a.cpp", files) else {
        return Ok(Judged::NoList);
    };
    match first_fault(alloc, &list) {
        Ok(()) => Ok(Judged::Grammatical),
        Err(ListFault::OutOfMemory) => Err(NoMemory),
        Err(ListFault::OpenTokens(count)) => Ok(Judged::OpenTokens(count)),
        Err(ListFault::Syntax(place)) => Ok(Judged::Syntax(place)),
    }
}

/// What a unit of one file is found to be.
pub fn judge_text(alloc: Global, unit: &[u8]) -> Result<Judged, NoMemory> {
    let mut files = MemFiles::new(alloc, &[])?;
    files.hold(b"a.cpp", unit)?;
    judge(alloc, &mut files)
}

/// The first of these units that isn't grammatical, by its index, and what it is found to be.
pub fn first_refused(
    alloc: Global,
    units: &[&'static [u8]],
) -> Result<Option<(usize, Judged)>, NoMemory> {
    for (index, unit) in units.iter().enumerate() {
        let found = judge_text(alloc, unit)?;
        if found != Judged::Grammatical {
            return Ok(Some((index, found)));
        }
    }
    Ok(None)
}

/// The first of these units that doesn't have its syntax fault, by its index, and what it is found to be.
pub fn first_other(alloc: Global, units: &[Faulty]) -> Result<Option<(usize, Judged)>, NoMemory> {
    for (index, row) in units.iter().enumerate() {
        let place = FaultPlace {
            file: 0,
            line: row.line,
            column: row.column,
        };
        let found = judge_text(alloc, row.unit)?;
        if found != Judged::Syntax(place) {
            return Ok(Some((index, found)));
        }
    }
    Ok(None)
}
