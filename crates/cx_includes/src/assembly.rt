ghost use Rattle.std.specs.Prelude.{◌≡◌, ◌≤◌, ℕ, List as Bytes, max, length, Some, IfOk, IfErr};
ghost use Rattle.cx_outside.specs.Folder.{Folder};
ghost use Rattle.std.specs.List.{All};
ghost use Rattle.cx_outside.specs.Fault.{Rose};
ghost use Rattle.cx_includes.specs.declared.assembled.Assembled.{Assembled as List};
ghost use Rattle.cx_includes.specs.declared.assembly.AssembleFault.{AssembleFault as Cause};
ghost use Rattle.cx_includes.specs.declared.assembly.AssembleFault.TheVariants as faults;
ghost use Rattle.cx_includes.specs.Fault.{IsFirstFault};
ghost use Rattle.cx_includes.specs.Assembled.{IsListOver, IsListOf, IsWithin, HasCause, GetsList, GetsFault};

use crate::assembled::Assembled;
use crate::taking::Taking;
use cx_lexer::LexFault;
use cx_outside::{Files, NoMemory, Text};
use std::alloc::Global;

/// Why a unit has no tokens. This project's own.
#[derive(Debug, Drop)]
pub enum AssembleFault {
    /// Want of memory.
    OutOfMemory,
    /// There is no file of this name.
    Missing(Text),
    /// A file could not be read.
    Failed,
    /// A lexical fault: its file, line and column, and what it is. A name that is too long may also be that of a file.
    Lex(Text, u32, u32, LexFault),
    /// A directive that isn't one of the four forms: its file and line.
    BadLine(Text, u32),
    /// An include whose file would be the seventeenth open one below the unit's: its file and line.
    Depth(Text, u32),
    /// The bytes of all files taken pass the limit: as many as were seen.
    Large(u64),
}

impl From<NoMemory> for AssembleFault {
    ghost from_gives = { λ _ fault. fault ≡ faults.OutOfMemory };

    fn from(_: NoMemory) -> Self {
        AssembleFault::OutOfMemory
    }
}

/// The tokens of the unit of a name with those of the files that it includes, or the first fault of its files, lines and
/// tokens in the order of the text. Each file is read once.
///
/// Arguments: the allocator; the name of the unit's file; the files. What the files hold stays.
///
/// Errors: `Missing` where the files lack the unit's file or an included one; `Failed` where a read failed, and only
/// where the files' count of faults rose; `Lex`, `BadLine`, `Depth` and `Large` exactly at the first fault; want of
/// memory at any time. Where the files tell nothing, `Missing` and `Large` come only where their count rose.
///
/// Source: [cpp.include] and [cpp.pragma], narrowed to four forms of directives; limits are this project's own.
pub fn assemble<F: Files>(
    alloc: Global,
    name: &[u8],
    files: &mut F,
) -> Result<Assembled, AssembleFault>
    ensures list { IfOk result (λ unit. IsListOver (F.content files.old) name.now unit) }
    ensures within { IfOk result (λ unit. All (IsWithin unit.files) unit.placed) }
    ensures short { IfOk result (λ unit. All (λ file. length file.name ≤ max 1024 (length name.now)) unit.files) }
    ensures fault { IfErr result (HasCause (F.content files.old) name.now (Rose (F.faults files.old) (F.faults files.new))) }
    ensures only_list { (folder : _) (unit : List) → F.content files.old ≡ Some folder → IsListOf folder name.now unit → GetsList unit result }
    ensures only_fault { (folder : _) (fault : Cause) → F.content files.old ≡ Some folder → IsFirstFault folder name.now fault → GetsFault fault result }
    ensures stays { F.content files.new ≡ F.content files.old }
    ensures puts { F.put_faults files.new ≡ F.put_faults files.old }
    ensures later { F.faults files.old ≤ F.faults files.new }
{
    take_unit(alloc, name, files)
}

/// The list of a unit, or its first fault.
fn take_unit<F: Files>(
    alloc: Global,
    name: &[u8],
    files: &mut F,
) -> Result<Assembled, AssembleFault>
    ensures list { IfOk result (λ unit. IsListOver (F.content files.old) name.now unit) }
    ensures within { IfOk result (λ unit. All (IsWithin unit.files) unit.placed) }
    ensures short { IfOk result (λ unit. All (λ file. length file.name ≤ max 1024 (length name.now)) unit.files) }
    ensures fault { IfErr result (HasCause (F.content files.old) name.now (Rose (F.faults files.old) (F.faults files.new))) }
    ensures stays { F.content files.new ≡ F.content files.old }
    ensures puts { F.put_faults files.new ≡ F.put_faults files.old }
    ensures later { F.faults files.old ≤ F.faults files.new }
{
    let mut taking = Taking::new(alloc);
    let file = taking.open_first(name, files)?;
    taking.take_file(file, 0, files)?;
    let unit = taking.finish()?;
    Ok(unit)
}

/// Over a folder a unit has at most one list, at most one first fault, and not both.
pub fn one_assembly()
    ensures list { (folder : Folder) (name : Bytes ℕ) (a b : List) → IsListOf folder name a → IsListOf folder name b → a ≡ b }
    ensures fault { (folder : Folder) (name : Bytes ℕ) (a b : Cause) → IsFirstFault folder name a → IsFirstFault folder name b → a ≡ b }
    ensures apart { (folder : Folder) (name : Bytes ℕ) (list : List) (fault : Cause) → IsListOf folder name list → IsFirstFault folder name fault → ⊥ }
{}
