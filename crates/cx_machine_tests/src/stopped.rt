//! Runs that stop where the outside fails, worked out by hand from the meaning of each instruction: the input is read
//! before the first step, the lines of violations are written as they come, and the output after the last step.
use crate::programs::{echo, speaking, violated_twice};
use cx_code::{BlockMap, Cause, DetectionMode, Ending, Event, Semantic};
use cx_image::Valid;
use cx_machine::run;
use cx_outside::{MemSource, NoMemory, Sink, SinkFault, Text};
use std::alloc::Global;
use std::test::Fail;

/// How a sink takes what is written.
#[derive(Clone, Copy)]
enum Takes {
    All,
    /// So many pieces whole. Of the next one, and each later one, it takes so many bytes, and fails.
    Front(u32, usize),
    /// It takes none, and wants memory for each.
    WantsMemory,
}

/// A sink that may fail in the middle of a piece.
#[derive(Drop)]
struct Taker {
    takes: Takes,
    bytes: Text,
    failures: u64,
}

impl Taker {
    fn new(alloc: Global, takes: Takes) -> Taker {
        Taker {
            takes,
            bytes: Text::new(alloc),
            failures: 0,
        }
    }
}

impl Sink for Taker {
    ghost use Rattle.std.specs.Prelude.{Some};

    ghost taken = { λ taker. Some taker.bytes };

    ghost faults = { λ taker. taker.failures };

    fn write(&mut self, piece: &[u8]) -> Result<(), SinkFault> {
        match self.takes {
            Takes::All => {
                self.bytes.append(piece)?;
                Ok(())
            }
            Takes::Front(pieces, count) => {
                if pieces > 0 {
                    self.bytes.append(piece)?;
                    self.takes = Takes::Front(pieces - 1, count);
                    return Ok(());
                }
                let count = count.min(piece.len());
                self.bytes.append(&piece[..count])?;
                self.failures = self.failures.saturating_add(1);
                Err(SinkFault::Failed)
            }
            Takes::WantsMemory => Err(SinkFault::OutOfMemory),
        }
    }
}

/// An image of these tests.
#[derive(Clone, Copy)]
enum Subject {
    Echo,
    Speaking,
    ViolatedTwice,
}

impl Subject {
    fn image(self, alloc: Global) -> Result<Valid, NoMemory> {
        match self {
            Subject::Echo => echo(alloc),
            Subject::Speaking => speaking(alloc),
            Subject::ViolatedTwice => violated_twice(alloc),
        }
    }
}

/// What an image is run on, and what the run is to come to.
#[derive(Clone, Copy)]
struct Row {
    of: Subject,
    limit: u32,
    input: &'static [u8],
    /// The reads that fail, by their numbers from 1.
    unread: &'static [u32],
    out: Takes,
    err: Takes,
    ending: Ending,
    steps: u32,
    journal: &'static [Event],
    /// What both sinks took.
    written: &'static [u8],
    told: &'static [u8],
}

/// What most rows have.
const PLAIN: Row = Row {
    of: Subject::Speaking,
    limit: 100,
    input: b"",
    unread: &[],
    out: Takes::All,
    err: Takes::All,
    ending: Ending::Returned(66),
    steps: 7,
    journal: WHOLE,
    written: b"AB",
    told: OBSERVED,
};

const OBSERVED: &[u8] = b"contract violation: pre predicate_false observe AB:4:13 #pre1: \n";

const VIOLATED: Event = Event::Handler(0, DetectionMode::PredicateFalse, Semantic::Observe);

const ENFORCED: Event = Event::Handler(0, DetectionMode::PredicateFalse, Semantic::Enforce);

/// All events of the run that speaks.
const WHOLE: &[Event] = &[Event::Out(65), VIOLATED, Event::Out(66)];

/// Its events up to the violation.
const BEGUN: &[Event] = &[Event::Out(65), VIOLATED];

const ROWS: &[Row] = &[
    // nothing fails
    PLAIN,
    Row {
        of: Subject::ViolatedTwice,
        ending: Ending::Returned(5),
        steps: 4,
        journal: &[VIOLATED, ENFORCED],
        written: b"",
        told: b"contract violation: pre predicate_false observe AB:4:13 #pre1: \n\
                contract violation: pre predicate_false enforce AB:4:13 #pre1: \n",
        ..PLAIN
    },
    // the first read
    Row {
        of: Subject::Echo,
        input: b"B!",
        unread: &[1],
        ending: Ending::Stopped(Cause::Read),
        steps: 0,
        journal: &[],
        written: b"",
        told: b"",
        ..PLAIN
    },
    // a later one, which comes before the first step too
    Row {
        of: Subject::Echo,
        input: b"B!",
        unread: &[3],
        ending: Ending::Stopped(Cause::Read),
        steps: 0,
        journal: &[],
        written: b"",
        told: b"",
        ..PLAIN
    },
    // the output takes nothing of its one piece, a part of it, and all of it
    Row {
        out: Takes::Front(0, 0),
        ending: Ending::Stopped(Cause::Out),
        written: b"",
        ..PLAIN
    },
    Row {
        out: Takes::Front(0, 1),
        ending: Ending::Stopped(Cause::Out),
        written: b"A",
        ..PLAIN
    },
    Row {
        out: Takes::Front(0, 2),
        ending: Ending::Stopped(Cause::Out),
        ..PLAIN
    },
    // of a run that is cut at the limit
    Row {
        limit: 6,
        out: Takes::Front(0, 1),
        ending: Ending::Stopped(Cause::Out),
        steps: 6,
        written: b"A",
        ..PLAIN
    },
    // an output that isn't written to doesn't fail
    Row {
        of: Subject::ViolatedTwice,
        out: Takes::Front(0, 0),
        ending: Ending::Returned(5),
        steps: 4,
        journal: &[VIOLATED, ENFORCED],
        written: b"",
        told: b"contract violation: pre predicate_false observe AB:4:13 #pre1: \n\
                contract violation: pre predicate_false enforce AB:4:13 #pre1: \n",
        ..PLAIN
    },
    // the line of the violation is cut, at the fourth step
    Row {
        err: Takes::Front(0, 20),
        ending: Ending::Stopped(Cause::Err),
        steps: 4,
        journal: BEGUN,
        written: b"",
        told: b"contract violation: ",
        ..PLAIN
    },
    Row {
        err: Takes::Front(0, 0),
        ending: Ending::Stopped(Cause::Err),
        steps: 4,
        journal: BEGUN,
        written: b"",
        told: b"",
        ..PLAIN
    },
    // that of the second violation, at the second step
    Row {
        of: Subject::ViolatedTwice,
        err: Takes::Front(1, 3),
        ending: Ending::Stopped(Cause::Err),
        steps: 2,
        journal: &[VIOLATED, ENFORCED],
        written: b"",
        told: b"contract violation: pre predicate_false observe AB:4:13 #pre1: \ncon",
        ..PLAIN
    },
    // both would fail: the output isn't written any more
    Row {
        out: Takes::Front(0, 1),
        err: Takes::Front(0, 1),
        ending: Ending::Stopped(Cause::Err),
        steps: 4,
        journal: BEGUN,
        written: b"",
        told: b"c",
        ..PLAIN
    },
    // the output wants memory
    Row {
        out: Takes::WantsMemory,
        ending: Ending::Stopped(Cause::NoMemory),
        written: b"",
        ..PLAIN
    },
    // the output of violations does
    Row {
        err: Takes::WantsMemory,
        ending: Ending::Stopped(Cause::NoMemory),
        steps: 4,
        journal: BEGUN,
        written: b"",
        told: b"",
        ..PLAIN
    },
];

/// Whether a run comes to what a row says.
fn comes_to(alloc: Global, row: Row) -> Result<bool, Fail> {
    let image = row.of.image(alloc)?;
    let mut memory = BlockMap::new(alloc);
    let mut input = MemSource::new(alloc, row.input, row.unread)?;
    let mut out = Taker::new(alloc, row.out);
    let mut err = Taker::new(alloc, row.err);
    let run = run(
        alloc,
        &image,
        &mut memory,
        &mut input,
        &mut out,
        &mut err,
        row.limit,
    );
    Ok(
        run.ending == row.ending
            && run.steps == row.steps
            && run.journal.items() == row.journal
            && out.bytes.bytes() == row.written
            && err.bytes.bytes() == row.told,
    )
}

#[test]
fn a_run_stops_where_the_outside_fails(rt: HostRuntime) -> Result<(), Fail> {
    for (index, row) in ROWS.iter().enumerate() {
        assert!(rt; comes_to(rt.alloc(), *row)?, "{index}");
    }
    Ok(())
}
