//! What active calls do between their checks.
ghost use Rattle.std.specs.Prelude.{◌≡◌, ◌∷◌, map, IfOk, IfErr, OnOk};
ghost use Rattle.std.specs.Option.{option_map};
ghost use Rattle.cx_core.specs.Meaning.{numbered, reported, unit_of};
ghost use Rattle.cx_core.specs.Program as parts;
ghost use Rattle.cx_core.specs.Program.{Program};
ghost use Rattle.cx_core.specs.Leaving.{Call as CalledBy};
ghost use Rattle.cx_core.specs.Store.{null};
ghost use Rattle.cx_plain.specs.Step.{no_calls, site_of, step_acting, step_destructor};
ghost use Rattle.cx_plain.specs.Task as tasks;
ghost use Rattle.cx_plain_state.specs.declared.answer.Halt.TheVariants.{Want};
ghost use Rattle.cx_plain_state.specs.Ran.{Ran, unit_of as nothing_of, values_of};
ghost use Rattle.cx_plain_state.specs.Seen.{address_of, binding_of, state_of, violation_of};
ghost use Rattle.cx_mean_parts.specs.Seen.{Table, stmts_of, body_of, field_inits_of, function_of, table_of, program_of};
ghost use Rattle.cx_mean_parts.specs.Tasks.{call_of, level_of};
ghost use Rattle.cx_mean_parts.specs.Frames.{frames_of, waiting_of};
ghost use Rattle.cx_mean_parts.specs.CallParts.{active_frame, constructor_frames, copy_under, default_under, destructor_frames, entered, parameter_place};
ghost use Rattle.cx_mean_parts.specs.Steps.{Steps};

use crate::asked::{class_with, is_counted};
use cx_code::{Kind, Party};
use cx_core::{Body, FieldInitializer, Statement};
use cx_mean_parts::machine::Machine;
use cx_mean_parts::program::Function;
use cx_mean_parts::task::{Call, CallTask, CheckTask, Level, ObjectTask, Row, StatementTask, Task};
use cx_mean_parts::waiting::{CallFrame, FollowingFrame, Given, LeavingFrame, Next, Waiting};
use cx_plain_state::{Address, Binding, Event, Frame, Halt, Report, State, Value, undefined};
use std::alloc::{AllocError, Global};
use std::mem;

/// The place that a parameter denotes.
#[tactic(auto, unfolding(cx_core::specs::Outcome::either, cx_core::specs::Outcome::gives, cx_core::specs::Outcome::ends))]
fn parameter_place(state: &State<'_>, slot: u32) -> Result<Address, Halt>
    ensures { Ran address_of (parameter_place slot (state_of state.now)) result (state_of state.now) }
{
    match state.named(slot)? {
        Value::Address(a) => Ok(a),
        Value::Null => Err(undefined(Kind::Null)),
        _ => Err(undefined(Kind::Mixed)),
    }
}

/// The violation that makes a call of its handler is told.
#[tactic(auto, unfolding(cx_core::specs::Outcome::gives))]
pub(crate) fn reported<'p>(state: &mut State<'p>, reports: Option<Report<'p>>) -> Result<(), Halt>
    ensures { (p : Program) → Ran nothing_of (reported p no_calls (option_map violation_of reports.entry) (state_of state.old)) result (state_of state.new) }
{
    match reports {
        None => Ok(()),
        Some(report) => state.append(Event::Handler(report)),
    }
}

/// The checks before and after a body ask of its call what it calls and from where.
fn site<'p>(alloc: Global, c: &Call<'p>) -> Call<'p>
    ensures { call_of result ≡ site_of (call_of c.now) }
{
    Call {
        function: c.function,
        caller: c.caller,
        unit: c.unit,
        reports: c.reports,
        arguments: Vec::new(alloc),
        result: None,
    }
}

/// What an active call does.
#[tactic(auto, unfolding(cx_core::specs::Outcome::either, cx_core::specs::Outcome::gives, cx_core::specs::Outcome::ends, cx_core::specs::Outcome::throws))]
pub(crate) fn acting<'p>(
    machine: &Machine<'p>,
    state: &mut State<'p>,
    level: Level,
    f: &'p Function,
    c: Call<'p>,
    frames: Vec<Waiting<'p>>,
) -> Result<Next<'p>, Halt>
    ensures { let p = machine.now.program.now in let n = table_of p in Steps p (step_acting (program_of p) (level_of level) (body_of n f.now.body) (function_of n f.now) (call_of c.entry) (frames_of n frames.entry.items)) result state.old state.new }
{
    match &f.body {
        Body::Function(b) => acting_function(machine, state, level, f, b, c, frames),
        Body::Constructor(fields, b) => acting_constructor(
            machine, state, level, f, fields, b, c, frames,
        ),
        Body::Destructor(class, b) => destructor(machine, state, level, f, *class, b, frames),
        Body::ImplicitConstructor(class) => acting_default(machine, state, level, *class, frames),
        Body::ImplicitCopyConstructor(class) => acting_copy(machine, state, level, *class, frames),
        Body::ImplicitDestructor(class) => destructor(
            machine,
            state,
            level,
            f,
            *class,
            &[],
            frames,
        ),
    }
}

/// The edge of a function inside other frames, which no exception passes if it is `noexcept`.
#[tactic(auto, unfolding(cx_core::specs::Outcome::either, cx_core::specs::Outcome::gives, cx_core::specs::Outcome::ends, cx_core::specs::Outcome::throws))]
fn edged<'p>(
    machine: &Machine<'p>,
    frames: Vec<Waiting<'p>>,
    f: &Function,
) -> Result<Vec<Waiting<'p>>, AllocError>
    ensures { let n = table_of machine.now.program.now in IfOk result (λ all. frames_of n all.items ≡ tasks.edge_if f.now.noexcept ∷ frames_of n frames.entry.items) }
{
    machine.framed(frames, Waiting::Leaving(LeavingFrame::EdgeIf(f.noexcept)))
}

/// A function: its checks, its body, and its checks again.
#[tactic(auto, unfolding(cx_core::specs::Outcome::either, cx_core::specs::Outcome::gives, cx_core::specs::Outcome::ends, cx_core::specs::Outcome::throws))]
fn acting_function<'p>(
    machine: &Machine<'p>,
    state: &State<'p>,
    level: Level,
    f: &'p Function,
    b: &'p [Statement],
    c: Call<'p>,
    frames: Vec<Waiting<'p>>,
) -> Result<Next<'p>, Halt>
    ensures { let p = machine.now.program.now in let n = table_of p in Steps p (step_acting (program_of p) (level_of level) (parts.function (stmts_of n b.now)) (function_of n f.now) (call_of c.entry) (frames_of n frames.entry.items)) result state.now state.now }
{
    let before = CallTask::Before(level, f, site(machine.alloc, &c));
    let frames = edged(machine, frames, f)?;
    let mut call = site(machine.alloc, &c);
    call.result = c.result;
    let after = CallFrame::Postconditions(level, f, call);
    let frames = machine.framed(frames, Waiting::Call(after))?;
    let body = CallTask::Body(level, f.result, b);
    let frames = machine.followed(frames, Task::Call(body))?;
    machine.under_all(state, Task::Call(before), frames)
}

/// The frames of the parts of a constructor that follow its first checks.
#[tactic(auto, unfolding(cx_core::specs::Outcome::either, cx_core::specs::Outcome::gives, cx_core::specs::Outcome::ends, cx_core::specs::Outcome::throws))]
fn constructor_frames<'p>(
    machine: &Machine<'p>,
    level: Level,
    f: &'p Function,
    fields: &'p [FieldInitializer],
    b: &'p [Statement],
    c: &Call<'p>,
    constructing: Vec<Waiting<'p>>,
) -> Result<Vec<Waiting<'p>>, AllocError>
    ensures { let n = table_of machine.now.program.now in IfOk result (λ all. frames_of n all.items ≡ constructor_frames (level_of level) (function_of n f.now) (field_inits_of fields.now) (stmts_of n b.now) (call_of c.now) (frames_of n constructing.entry.items)) }
{
    let null = Waiting::Following(FollowingFrame::Replace(Given::Value(Value::Null)));
    let frames = machine.framed(constructing, null)?;
    let after = CallTask::After(level, f, site(machine.alloc, c));
    let frames = machine.followed(frames, Task::Call(after))?;
    let block = Box::new(machine.alloc, StatementTask::Block(level, b))?;
    let frames = machine.followed(frames, Task::Statement(block))?;
    machine.followed(frames, Task::Object(ObjectTask::FieldInits(level, fields)))
}

/// A constructor: its checks, its fields, its body, and its checks again.
#[tactic(auto, unfolding(cx_core::specs::Outcome::either, cx_core::specs::Outcome::gives, cx_core::specs::Outcome::ends, cx_core::specs::Outcome::throws))]
fn acting_constructor<'p>(
    machine: &Machine<'p>,
    state: &mut State<'p>,
    level: Level,
    f: &'p Function,
    fields: &'p [FieldInitializer],
    b: &'p [Statement],
    c: Call<'p>,
    frames: Vec<Waiting<'p>>,
) -> Result<Next<'p>, Halt>
    ensures { let p = machine.now.program.now in let n = table_of p in Steps p (step_acting (program_of p) (level_of level) (parts.constructor (field_inits_of fields.now) (stmts_of n b.now)) (function_of n f.now) (call_of c.entry) (frames_of n frames.entry.items)) result state.old state.new }
{
    let constructing = machine.enter_construction(state, level);
    let edged = edged(machine, frames, f)?;
    let outer = machine.framed(edged, constructing)?;
    let all = constructor_frames(machine, level, f, fields, b, &c, outer)?;
    let call = site(machine.alloc, &c);
    machine.under_all(state, Task::Call(CallTask::Before(level, f, call)), all)
}

/// The frames of the construction of an object by an implicit constructor.
#[tactic(auto, unfolding(cx_core::specs::Outcome::either, cx_core::specs::Outcome::gives, cx_core::specs::Outcome::ends, cx_core::specs::Outcome::throws))]
fn implicit_frames<'p>(
    machine: &Machine<'p>,
    constructing: Waiting<'p>,
    frames: Vec<Waiting<'p>>,
) -> Result<Vec<Waiting<'p>>, AllocError>
    ensures { let n = table_of machine.now.program.now in IfOk result (λ all. frames_of n all.items ≡ tasks.replace (tasks.value null) ∷ waiting_of n constructing.entry ∷ frames_of n frames.entry.items) }
{
    let frames = machine.framed(frames, constructing)?;
    let null = Waiting::Following(FollowingFrame::Replace(Given::Value(Value::Null)));
    machine.framed(frames, null)
}

/// The fields of class type are constructed under the frames of a construction.
#[tactic(auto, unfolding(cx_core::specs::Outcome::either, cx_core::specs::Outcome::gives, cx_core::specs::Outcome::ends, cx_core::specs::Outcome::throws))]
fn default_under<'p>(
    machine: &Machine<'p>,
    state: &State<'p>,
    level: Level,
    class: u32,
    constructing: Waiting<'p>,
    frames: Vec<Waiting<'p>>,
) -> Result<Next<'p>, Halt>
    ensures { let p = machine.now.program.now in let n = table_of p in Steps p (default_under (program_of p) (level_of level) class (waiting_of n constructing.entry) (frames_of n frames.entry.items)) result state.now state.now }
{
    let definition = class_with(machine, state, class)?;
    let frames = implicit_frames(machine, constructing, frames)?;
    let task = ObjectTask::DefaultFields(level, definition.definition.fields.items());
    machine.under_all(state, Task::Object(task), frames)
}

/// An implicit constructor without parameters: the fields of class type are constructed.
#[tactic(auto, unfolding(cx_core::specs::Outcome::either, cx_core::specs::Outcome::gives, cx_core::specs::Outcome::ends, cx_core::specs::Outcome::throws))]
fn acting_default<'p>(
    machine: &Machine<'p>,
    state: &mut State<'p>,
    level: Level,
    class: u32,
    frames: Vec<Waiting<'p>>,
) -> Result<Next<'p>, Halt>
    ensures { let p = machine.now.program.now in let n = table_of p in (f : parts.Function) (c : CalledBy) → Steps p (step_acting (program_of p) (level_of level) (parts.implicit_constructor class) f c (frames_of n frames.entry.items)) result state.old state.new }
{
    let constructing = machine.enter_construction(state, level);
    default_under(machine, state, level, class, constructing, frames)
}

/// The fields are copied under the frames of a construction.
#[tactic(auto, unfolding(cx_core::specs::Outcome::either, cx_core::specs::Outcome::gives, cx_core::specs::Outcome::ends, cx_core::specs::Outcome::throws))]
fn copy_under<'p>(
    machine: &Machine<'p>,
    state: &State<'p>,
    level: Level,
    class: u32,
    constructing: Waiting<'p>,
    frames: Vec<Waiting<'p>>,
) -> Result<Next<'p>, Halt>
    ensures { let p = machine.now.program.now in let n = table_of p in Steps p (copy_under (program_of p) (level_of level) class (waiting_of n constructing.entry) (frames_of n frames.entry.items)) result state.now state.now }
{
    let definition = class_with(machine, state, class)?;
    let to = parameter_place(state, 0)?;
    let source = parameter_place(state, 1)?;
    let frames = implicit_frames(machine, constructing, frames)?;
    let task = ObjectTask::CopyingMembers(level, definition.definition.fields.items(), source, to);
    machine.under_all(state, Task::Object(task), frames)
}

/// An implicit copy constructor: the fields are copied.
#[tactic(auto, unfolding(cx_core::specs::Outcome::either, cx_core::specs::Outcome::gives, cx_core::specs::Outcome::ends, cx_core::specs::Outcome::throws))]
fn acting_copy<'p>(
    machine: &Machine<'p>,
    state: &mut State<'p>,
    level: Level,
    class: u32,
    frames: Vec<Waiting<'p>>,
) -> Result<Next<'p>, Halt>
    ensures { let p = machine.now.program.now in let n = table_of p in (f : parts.Function) (c : CalledBy) → Steps p (step_acting (program_of p) (level_of level) (parts.implicit_copy_constructor class) f c (frames_of n frames.entry.items)) result state.old state.new }
{
    let constructing = machine.enter_construction(state, level);
    copy_under(machine, state, level, class, constructing, frames)
}

/// The frames of the parts of a destructor that follow its first checks.
#[tactic(auto, unfolding(cx_core::specs::Outcome::either, cx_core::specs::Outcome::gives, cx_core::specs::Outcome::ends, cx_core::specs::Outcome::throws))]
fn destructor_frames<'p>(
    machine: &Machine<'p>,
    level: Level,
    f: &'p Function,
    class: u32,
    b: &'p [Statement],
    a: Address,
    frames: Vec<Waiting<'p>>,
) -> Result<Vec<Waiting<'p>>, AllocError>
    ensures { let n = table_of machine.now.program.now in IfOk result (λ all. frames_of n all.items ≡ destructor_frames (level_of level) (function_of n f.now) class (stmts_of n b.now) (address_of a) (frames_of n frames.entry.items)) }
{
    let row = Row::Specifiers(&f.postconditions);
    let frames = machine.followed(frames, Task::Check(CheckTask::EdgedChecks(level, row)))?;
    let fields = ObjectTask::DestroyingFields(level, class, a);
    let frames = machine.followed(frames, Task::Object(fields))?;
    let frames = machine.framed(frames, Waiting::Leaving(LeavingFrame::EdgeIf(true)))?;
    let block = Box::new(machine.alloc, StatementTask::Block(level, b))?;
    machine.followed(frames, Task::Statement(block))
}

/// What a destructor does: its checks, its body, the end of the fields, and its checks again.
#[tactic(auto, unfolding(cx_core::specs::Outcome::either, cx_core::specs::Outcome::gives, cx_core::specs::Outcome::ends, cx_core::specs::Outcome::throws))]
pub(crate) fn destructor<'p>(
    machine: &Machine<'p>,
    state: &mut State<'p>,
    level: Level,
    f: &'p Function,
    class: u32,
    b: &'p [Statement],
    frames: Vec<Waiting<'p>>,
) -> Result<Next<'p>, Halt>
    ensures { let p = machine.now.program.now in let n = table_of p in Steps p (step_destructor (program_of p) (level_of level) (function_of n f.now) class (stmts_of n b.now) (frames_of n frames.entry.items)) result state.old state.new }
{
    let a = parameter_place(state, 0)?;
    let definition = class_with(machine, state, class)?;
    let told = CallFrame::Destroyed(definition.name.bytes(), a);
    let frames = machine.framed(frames, Waiting::Call(told))?;
    let frames = destructor_frames(machine, level, f, class, b, a, frames)?;
    let row = Row::Specifiers(&f.preconditions);
    let task = Task::Check(CheckTask::Checks(level, Party::Definer, row));
    machine.under_all(state, task, frames)
}

/// What the parameters of a call denote, by their slots from this one on.
fn numbered<'p>(alloc: Global, slot: u32, arguments: &[Value<'p>]) -> Result<Vec<Binding<'p>>, Halt>
    ensures variables { (p : Program) → IfOk result (λ variables. map binding_of variables.items ≡ numbered p no_calls slot (values_of arguments.now)) }
    ensures want { IfErr result (λ halt. halt ≡ Want) }
{
    let Some((value, rest)) = arguments.split_first() else {
        return Ok(Vec::new(alloc));
    };
    let Some(next) = slot.checked_add(1) else {
        return Err(Halt::Want);
    };
    let mut variables = numbered(alloc, next, rest)?;
    variables.insert(
        0,
        Binding {
            slot,
            value: *value,
        },
    )?;
    Ok(variables)
}

/// The unit whose code an active call runs.
fn unit_of(f: &Function, c: &Call<'_>) -> u32
    ensures { (p : Program) (n : Table) → result ≡ unit_of p no_calls (function_of n f.now) (call_of c.now) }
{
    if is_counted(&f.body) {
        f.definer
    } else {
        c.unit
    }
}

/// The frame of a call becomes the active one. The frame that goes back to the one before is given.
#[tactic(auto, unfolding(cx_plain_state::specs::Seen::state_of))]
fn enter_call<'p>(
    machine: &Machine<'p>,
    state: &mut State<'p>,
    f: &Function,
    c: &Call<'p>,
) -> Result<Waiting<'p>, Halt>
    ensures frame { IfOk result (λ w. waiting_of (table_of machine.now.program.now) w ≡ tasks.within (state_of state.old).frame) }
    ensures entered { let p = machine.now.program.now in OnOk result (state_of state.new ≡ record (state_of state.old) { frame = active_frame (program_of p) (function_of (table_of p) f.now) (call_of c.now) }) }
    ensures want { IfErr result (λ halt. halt ≡ Want) }
{
    let unit = unit_of(f, c);
    let variables = numbered(machine.alloc, 0, &c.arguments)?;
    let result = c.result;
    let outer = mem::replace(
        &mut state.frame,
        Frame {
            unit,
            variables,
            result,
        },
    );
    Ok(Waiting::Leaving(LeavingFrame::Within(outer)))
}

/// A call becomes active, and does what it does.
#[tactic(auto, unfolding(cx_core::specs::Outcome::either, cx_core::specs::Outcome::gives, cx_core::specs::Outcome::ends, cx_core::specs::Outcome::throws))]
pub(crate) fn enter<'p>(
    machine: &Machine<'p>,
    state: &mut State<'p>,
    level: Level,
    f: &'p Function,
    c: Call<'p>,
) -> Result<Next<'p>, Halt>
    ensures { let p = machine.now.program.now in let n = table_of p in Steps p (entered (program_of p) (level_of level) (function_of n f.now) (call_of c.entry)) result state.old state.new }
{
    let within = enter_call(machine, state, f, &c)?;
    let frames = vec![in machine.alloc; within]?;
    acting(machine, state, level, f, c, frames)
}
