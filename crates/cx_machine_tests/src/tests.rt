use crate::programs::{
    barred, counting, deep, dropper_throws, echo, forever, guarded, handled, rethrown, sum_of_3,
    through_frames, too_deep, violation,
};
use cx_code::{BlockMap, DetectionMode, Ending, Event, Kind, Semantic, Verdict};
use cx_image::{Valid, decode, encode, verify};
use cx_machine::run;
use cx_outside::{MemSink, MemSource};
use std::alloc::Global;
use std::test::Fail;

/// What a run is to come to.
#[derive(Clone, Copy)]
struct Want<'a> {
    steps: u32,
    ending: Ending,
    journal: &'a [Event],
    out: &'a [u8],
    err: &'a [u8],
}

/// An image as it is read back from its file.
fn read_back(alloc: Global, image: &Valid) -> Result<Valid, Fail> {
    let bytes = encode(alloc, image.image())?;
    let read = decode(alloc, bytes.bytes())?;
    Ok(verify(alloc, read)?)
}

/// Whether a run of an image that was written to its file and read back, on an input, in at most `limit` steps, comes to
/// what is wanted.
fn comes_to(
    alloc: Global,
    image: Valid,
    input: &[u8],
    limit: u32,
    want: Want<'_>,
) -> Result<bool, Fail> {
    let image = read_back(alloc, &image)?;
    let mut memory = BlockMap::new(alloc);
    let mut source = MemSource::new(alloc, input, &[])?;
    let mut out = MemSink::new(alloc, &[])?;
    let mut err = MemSink::new(alloc, &[])?;
    let run = run(
        alloc,
        &image,
        &mut memory,
        &mut source,
        &mut out,
        &mut err,
        limit,
    );
    Ok(
        run.ending == want.ending
            && run.steps == want.steps
            && run.journal.items() == want.journal
            && out.taken() == want.out
            && err.taken() == want.err,
    )
}

/// Counts to 100: four instructions, 100 turns of 12, five of the last test, and three.
fn counting_ends(alloc: Global) -> Result<bool, Fail> {
    let want = Want {
        steps: 1212,
        ending: Ending::Returned(100),
        journal: &[],
        out: b"",
        err: b"",
    };
    comes_to(alloc, counting(alloc)?, b"", 100_000, want)
}

fn sum_ends(alloc: Global) -> Result<bool, Fail> {
    let want = Want {
        steps: 34,
        ending: Ending::Returned(6),
        journal: &[],
        out: b"",
        err: b"",
    };
    comes_to(alloc, sum_of_3(alloc)?, b"", 34, want)
}

/// One step fewer.
fn sum_is_spent(alloc: Global) -> Result<bool, Fail> {
    let want = Want {
        steps: 33,
        ending: Ending::StepsSpent,
        journal: &[],
        out: b"",
        err: b"",
    };
    comes_to(alloc, sum_of_3(alloc)?, b"", 33, want)
}

fn forever_is_spent(alloc: Global) -> Result<bool, Fail> {
    let want = Want {
        steps: 5,
        ending: Ending::StepsSpent,
        journal: &[],
        out: b"",
        err: b"",
    };
    comes_to(alloc, forever(alloc)?, b"", 5, want)
}

fn nothing_is_spent(alloc: Global) -> Result<bool, Fail> {
    let want = Want {
        steps: 0,
        ending: Ending::StepsSpent,
        journal: &[],
        out: b"",
        err: b"",
    };
    comes_to(alloc, forever(alloc)?, b"", 0, want)
}

/// The 4,096th frame is entered.
fn deep_ends(alloc: Global) -> Result<bool, Fail> {
    let want = Want {
        steps: 28665,
        ending: Ending::Returned(0),
        journal: &[],
        out: b"",
        err: b"",
    };
    comes_to(alloc, deep(alloc)?, b"", 100_000, want)
}

/// The 4,097th frame is refused.
fn too_deep_ends(alloc: Global) -> Result<bool, Fail> {
    let want = Want {
        steps: 24572,
        ending: Ending::TooDeep,
        journal: &[],
        out: b"",
        err: b"",
    };
    comes_to(alloc, too_deep(alloc)?, b"", 100_000, want)
}

fn echo_of_a_byte(alloc: Global) -> Result<bool, Fail> {
    let want = Want {
        steps: 3,
        ending: Ending::Returned(66),
        journal: &[Event::In(66), Event::Out(66)],
        out: b"B",
        err: b"",
    };
    comes_to(alloc, echo(alloc)?, b"B!", 100, want)
}

fn echo_of_the_end(alloc: Global) -> Result<bool, Fail> {
    let want = Want {
        steps: 3,
        ending: Ending::Returned(255),
        journal: &[Event::InEnd, Event::Out(255)],
        out: b"\xff",
        err: b"",
    };
    comes_to(alloc, echo(alloc)?, b"", 100, want)
}

fn violation_is_reported(alloc: Global) -> Result<bool, Fail> {
    let want = Want {
        steps: 3,
        ending: Ending::Returned(5),
        journal: &[Event::Handler(0, DetectionMode::PredicateFalse, Semantic::Observe)],
        out: b"",
        err: b"contract violation: pre predicate_false observe AB:4:13 #pre1: \n",
    };
    comes_to(alloc, violation(alloc)?, b"", 100, want)
}

fn violation_is_handled(alloc: Global) -> Result<bool, Fail> {
    let want = Want {
        steps: 28,
        ending: Ending::Returned(5),
        journal: &[
            Event::Handler(0, DetectionMode::PredicateFalse, Semantic::Observe),
            Event::Out(1),
            Event::Out(2),
            Event::Out(1),
            Event::Out(4),
            Event::Out(13),
            Event::Out(1),
        ],
        out: b"\x01\x02\x01\x04\x0d\x01",
        err: b"",
    };
    comes_to(alloc, handled(alloc)?, b"", 100, want)
}

fn exception_goes_through_frames(alloc: Global) -> Result<bool, Fail> {
    let want = Want {
        steps: 41,
        ending: Ending::Returned(2),
        journal: &[
            Event::Throw(0),
            Event::Out(1),
            Event::Out(2),
            Event::Catch(0),
            Event::Destroyed(0, 3, 0),
        ],
        out: b"\x01\x02",
        err: b"",
    };
    comes_to(alloc, through_frames(alloc)?, b"", 100, want)
}

fn exception_is_rethrown(alloc: Global) -> Result<bool, Fail> {
    let want = Want {
        steps: 17,
        ending: Ending::Returned(3),
        journal: &[
            Event::Throw(0),
            Event::Catch(0),
            Event::Throw(0),
            Event::Catch(0),
            Event::Destroyed(0, 3, 0),
        ],
        out: b"",
        err: b"",
    };
    comes_to(alloc, rethrown(alloc)?, b"", 100, want)
}

fn dropper_throws_to_the_release(alloc: Global) -> Result<bool, Fail> {
    let want = Want {
        steps: 18,
        ending: Ending::Returned(2),
        journal: &[
            Event::Throw(1),
            Event::Catch(1),
            Event::Throw(0),
            Event::Catch(0),
            Event::Destroyed(0, 4, 0),
        ],
        out: b"",
        err: b"",
    };
    comes_to(alloc, dropper_throws(alloc)?, b"", 100, want)
}

fn barrier_terminates(alloc: Global) -> Result<bool, Fail> {
    let want = Want {
        steps: 4,
        ending: Ending::Terminated,
        journal: &[Event::Throw(0)],
        out: b"",
        err: b"",
    };
    comes_to(alloc, barred(alloc)?, b"", 100, want)
}

fn guard_tells_of_the_verdict(alloc: Global) -> Result<bool, Fail> {
    let want = Want {
        steps: 6,
        ending: Ending::Undefined(Kind::Unset),
        journal: &[Event::Throw(0), Event::Verdict(Verdict::Threw)],
        out: b"",
        err: b"",
    };
    comes_to(alloc, guarded(alloc)?, b"", 100, want)
}

#[test]
fn plain_runs_end_as_they_were_worked_out(rt: HostRuntime) -> Result<(), Fail> {
    let alloc = rt.alloc();
    assert!(rt; counting_ends(alloc)?);
    assert!(rt; sum_ends(alloc)?);
    assert!(rt; sum_is_spent(alloc)?);
    assert!(rt; forever_is_spent(alloc)?);
    assert!(rt; nothing_is_spent(alloc)?);
    Ok(())
}

#[test]
fn frames_are_at_most_4096(rt: HostRuntime) -> Result<(), Fail> {
    let alloc = rt.alloc();
    assert!(rt; deep_ends(alloc)?);
    assert!(rt; too_deep_ends(alloc)?);
    Ok(())
}

#[test]
fn runs_meet_the_outside_as_they_were_worked_out(rt: HostRuntime) -> Result<(), Fail> {
    let alloc = rt.alloc();
    assert!(rt; echo_of_a_byte(alloc)?);
    assert!(rt; echo_of_the_end(alloc)?);
    assert!(rt; violation_is_reported(alloc)?);
    assert!(rt; violation_is_handled(alloc)?);
    Ok(())
}

#[test]
fn exceptions_go_as_they_were_worked_out(rt: HostRuntime) -> Result<(), Fail> {
    let alloc = rt.alloc();
    assert!(rt; exception_goes_through_frames(alloc)?);
    assert!(rt; exception_is_rethrown(alloc)?);
    assert!(rt; dropper_throws_to_the_release(alloc)?);
    assert!(rt; barrier_terminates(alloc)?);
    assert!(rt; guard_tells_of_the_verdict(alloc)?);
    Ok(())
}
