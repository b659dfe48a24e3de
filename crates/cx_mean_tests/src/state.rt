//! What the state of a run does without any call.
use cx_plain_state::{Address, Answer, Event, Halt, State, Value};
use std::alloc::Global;

/// A value that is written is read again, and no longer once its object is removed.
fn written_value_is_read(alloc: Global) -> Result<bool, Halt> {
    let mut state = State::new(alloc, &[], &[], 9);
    let object = state.make(alloc, 2)?;
    let a = Address { object, leaf: 1 };
    state.write(a, Some(Value::Number(-5)))?;
    let is_read = matches!(state.read(a)?, Value::Number(-5));
    state.remove(object);
    Ok(is_read && state.read(a).is_err())
}

fn is_out(event: &Event<'_>, byte: u8) -> bool {
    match event {
        Event::Out(out) => *out == byte,
        _ => false,
    }
}

/// `puts` writes the bytes before the first 0, and a newline.
fn line_is_written(alloc: Global) -> Result<bool, Halt> {
    let mut state = State::new(alloc, &[], &[], 9);
    state.puts(b"a\0b")?;
    let trace = state.trace.as_slice();
    Ok(trace.len() == 2 && is_out(&trace[0], b'a') && is_out(&trace[1], b'\n'))
}

/// The last unit of the budget isn't spent.
fn budget_ends(alloc: Global) -> bool {
    let mut state = State::new(alloc, &[], &[], 2);
    state.spend().is_ok() && matches!(state.spend(), Err(Halt::Over(Answer::Going)))
}

#[test]
fn values(rt: HostRuntime) {
    assert!(rt; written_value_is_read(rt.alloc()).unwrap_or(false));
}

#[test]
fn lines(rt: HostRuntime) {
    assert!(rt; line_is_written(rt.alloc()).unwrap_or(false));
}

#[test]
fn budgets(rt: HostRuntime) {
    assert!(rt; budget_ends(rt.alloc()));
}
