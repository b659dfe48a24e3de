ghost use Rattle.std.specs.Prelude.{◌≡◌, ◌≢◌, ◌≤◌, []};
ghost use Rattle.cx_code.specs.Output.{written_out};
ghost use Rattle.cx_machine.specs.Outcome.{object};
ghost use Rattle.cx_sound.specs.Unread.{ReadsNothing};
ghost use Rattle.cx_tool.specs.Report.{IsRunTo};

use cx_code::{BlockMap, Ending, Run};
use cx_image::Valid;
use cx_machine::run;
use cx_outside::{Next, Sink, Source};
use cx_sound::laws::unread_input_makes_no_difference;
use std::alloc::Global;

/// The input of a program that doesn't read: it has no byte, and no call of it fails.
#[derive(Clone, Copy, Debug)]
struct NoInput;

impl Source for NoInput {
    ghost use Rattle.std.specs.Prelude.{Some, []};

    ghost left = { λ _. Some [] };

    ghost faults = { λ _. 0 };

    fn next(&mut self) -> Next {
        Next::End
    }
}

/// Runs an image that has the default violation handler and reads nothing, for at most `limit` steps. `out` takes the bytes
/// of the events Out after the last step, and `err` the default handler's lines.
pub fn run_unit<O: Sink, E: Sink>(
    alloc: Global,
    valid: &Valid,
    out: &mut O,
    err: &mut E,
    limit: u32,
) -> Run
    requires handler { valid.now.handler ≡ 0 }
    requires reads { ReadsNothing valid.now }
    ensures outcome { IsRunTo result.ending valid.now limit result (object (O.taken out.old) (O.taken out.new) (O.faults out.old) (O.faults out.new)) (object (E.taken err.old) (E.taken err.new) (E.faults err.old) (E.faults err.new)) [] }
    ensures started { result.ending ≢ Ending.NotStarted }
    ensures silent { written_out result.journal ≡ [] → out.new ≡ out.old }
    ensures later { E.faults err.old ≤ E.faults err.new }
{
    unread_input_makes_no_difference();
    let mut memory = BlockMap::new(alloc);
    let mut input = NoInput;
    run(alloc, valid, &mut memory, &mut input, out, err, limit)
}
