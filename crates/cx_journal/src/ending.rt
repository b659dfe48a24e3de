ghost use Rattle.std.specs.Prelude.{◌≡◌, ◌++◌, codes, OnOk};
ghost use Rattle.cx_journal.specs.Lines.{kind_text, ending_text, ending_line};

use crate::event::put_number;
use cx_code::{Ending, Kind};
use cx_outside::{NoMemory, Text};
use itoa::Buffer;

/// Adds the line of an ending.
pub fn put_ending(out: &mut Text, ending: Ending, steps: u32) -> Result<(), NoMemory>
    ensures { OnOk result (out.new ≡ out.old ++ ending_line ending steps) }
{
    out.append(b"ending ")?;
    put_ending_text(out, ending, steps)?;
    out.append(b"\n")?;
    Ok(())
}

/// Adds how a run ended that took so many steps, as `returned 7`: what the closing line has behind `cx: ` and the journal's
/// last line behind `ending `. A run that stopped, or none, has no text. The only other answer is want of memory.
///
/// The words are this project's own.
pub fn put_ending_text(out: &mut Text, ending: Ending, steps: u32) -> Result<(), NoMemory>
    ensures { OnOk result (out.new ≡ out.old ++ ending_text ending steps) }
{
    match ending {
        Ending::Returned(value) => {
            out.append(b"returned ")?;
            let mut buffer = Buffer::new();
            out.append(buffer.format(value).as_bytes())
        }
        Ending::ContractTerminated => out.append(b"contract-terminated"),
        Ending::Terminated => out.append(b"terminated"),
        Ending::Undefined(kind) => put_undefined(out, kind),
        Ending::TooDeep => out.append(b"too deep"),
        Ending::StepsSpent => {
            out.append(b"steps spent: ")?;
            put_number(out, u64::from(steps))
        }
        Ending::Stopped(_) | Ending::NotStarted => Ok(()),
    }
}

fn put_undefined(out: &mut Text, kind: Kind) -> Result<(), NoMemory>
    ensures { OnOk result (out.new ≡ out.old ++ (codes "undefined: " ++ kind_text kind)) }
{
    out.append(b"undefined: ")?;
    out.append(kind_text(kind).as_bytes())?;
    Ok(())
}

#[tactic(auto, unfolding(crate::specs::Lines::kind_text))]
fn kind_text(kind: Kind) -> &'static str
    ensures { result.now ≡ kind_text kind }
{
    match kind {
        Kind::Overflow => "overflow",
        Kind::Division => "division",
        Kind::Shift => "shift",
        Kind::Null => "null",
        Kind::Dead => "dead",
        Kind::Unset => "unset",
        Kind::Flow => "flow",
        Kind::Mixed => "mixed",
    }
}
