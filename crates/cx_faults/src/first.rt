ghost use Rattle.std.specs.Prelude.{◌<◌, ◌^◌, ◌-◌, length, IfOk, IfErr, OnOk, MatchOption};
ghost use Rattle.std.specs.List.{All};
ghost use Rattle.cx_syntax.specs.Place.{Grammatical, IsPlace};
ghost use Rattle.cx_includes.specs.Assembled.{IsWithin};
ghost use Rattle.cx_faults.specs.declared.fault.ListFault.{ListFault as Fault};
ghost use Rattle.cx_faults.specs.Faults.{marks_of, GetsFault, HasFile, IsCause, IsFaultless, IsList, IsListFault};

use crate::fault::ListFault;
use crate::marked::marks;
use crate::place::place_at;
use cx_includes::{Assembled, open_tokens};
use cx_outside::{Limit, NoMemory};
use cx_parser::{ParseFault, recognize};
use std::alloc::Global;

/// Whether an assembled list is one that rules can be asked of, and if not, its first fault.
///
/// Arguments: the allocator; a list that `assemble` gave.
///
/// Errors: `OpenTokens` exactly where more than 1,024 tokens are open at one place; `Syntax` exactly where no more are
/// and the list isn't grammatical, with the place of the first token with which no grammatical list can go on, or of the
/// end of the unit's own file where its whole list can; want of memory at any time.
///
/// Source: [gram]; the limit and the place are this project's own.
pub fn first_fault(alloc: Global, list: &Assembled) -> Result<(), ListFault>
    requires list { IsList list.now }
    requires within { All (IsWithin list.now.files) list.now.placed }
    ensures faultless { OnOk result (IsFaultless list.now) }
    ensures cause { IfErr result (IsCause list.now) }
    ensures file { IfErr result (HasFile list.now) }
    ensures only_fault { (fault : Fault) → IsListFault list.now fault → GetsFault fault result }
{
    let open = open_tokens(alloc, list)?;
    if u64::from(open) > Limit::OpenTokens.number() {
        return Err(ListFault::OpenTokens(open));
    }
    match syntax_place(alloc, list)? {
        Some(at) => Err(ListFault::Syntax(place_at(list, at))),
        None => Ok(()),
    }
}

/// The index of the token at which a list isn't grammatical, the number of its tokens where that is its end, or nothing
/// where it is.
fn syntax_place(alloc: Global, list: &Assembled) -> Result<Option<usize>, NoMemory>
    requires within { All (IsWithin list.now.files) list.now.placed }
    requires few { length list.now.placed < 2 ^ 32 - 3 }
    ensures { IfOk result (λ place. MatchOption place (Grammatical (marks_of list.now)) (IsPlace (marks_of list.now))) }
{
    let marks = marks(alloc, list)?;
    match recognize(alloc, marks.as_slice()) {
        Ok(()) => Ok(None),
        Err(ParseFault::SyntaxAt(at)) => Ok(Some(at)),
        Err(ParseFault::OutOfMemory) => Err(NoMemory),
    }
}
