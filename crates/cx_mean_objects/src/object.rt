//! Objects that are made and declared.
ghost use Rattle.cx_core.specs.View.{init_of};
ghost use Rattle.cx_plain.specs.Step.{keeps, bind_object, step_given, step_thrown, step_task};
ghost use Rattle.cx_plain_state.specs.Ran.{Ran, unit_of};
ghost use Rattle.cx_plain_state.specs.Seen.{state_of, value_of, exception_of, living_of, address_of, type_of};
ghost use Rattle.cx_mean_parts.specs.Seen.{program_of};
ghost use Rattle.cx_mean_parts.specs.Tasks.{level_of, keeper_of, object_task_of};
ghost use Rattle.cx_mean_parts.specs.Frames.{given_of, object_frame_of};
ghost use Rattle.cx_mean_parts.specs.Parts.{made_at, object_kept, field_kept, value_written, place_bound, exception_thrown};
ghost use Rattle.cx_mean_parts.specs.Steps.{Steps};
ghost use Rattle.cx_core.specs.Tree as trees;
ghost use Rattle.cx_plain.specs.Task as tasks;

use crate::ending::{destroying, destroying_each, destroying_fields, ending, ending_each};
use crate::field::{copying_fields, copying_members, copying_object, default_fields, field_inits};
use cx_code::Kind;
use cx_core::Initializer;
use cx_mean_parts::machine::Machine;
use cx_mean_parts::task::{ExpressionTask, Keeper, Level, ObjectTask, Task};
use cx_mean_parts::waiting::{FollowingFrame, Given, Next, ObjectFrame, Waiting};
use cx_plain_state::{
    Address, Event, Exception, Halt, Living, ObjectType, State, Value, undefined,
};

#[tactic(auto, unfolding(cx_core::specs::Outcome::gives))]
fn keep(state: &mut State<'_>, keeper: Keeper, living: Living) -> Result<(), Halt>
    ensures { Ran unit_of (keeps (keeper_of keeper) (living_of living) (state_of state.old)) result (state_of state.new) }
{
    match keeper {
        Keeper::InnermostScope => state.keep(living),
        Keeper::FullExpression => state.keep_temporary(living),
        Keeper::Nobody => Ok(()),
    }
}

#[tactic(auto, unfolding(cx_core::specs::Outcome::gives))]
fn bind_object(state: &mut State<'_>, slot: Option<u32>, object: u64) -> Result<(), Halt>
    ensures { Ran unit_of (bind_object slot (record { object = object; leaf = 0 }) (state_of state.old)) result (state_of state.new) }
{
    match slot {
        None => Ok(()),
        Some(slot) => state.bind(slot, Value::Address(Address { object, leaf: 0 })),
    }
}

/// A value is written at a place, and nothing is given.
#[tactic(auto, unfolding(cx_core::specs::Outcome::either, cx_core::specs::Outcome::gives, cx_core::specs::Outcome::ends, cx_core::specs::Outcome::throws))]
fn write_given<'p>(
    machine: &Machine<'p>,
    state: &mut State<'p>,
    a: Address,
    v: Value<'p>,
) -> Result<Next<'p>, Halt>
    ensures { Steps machine.now.program.now (value_written (address_of a) (value_of v.entry)) result state.old state.new }
{
    state.write(a, Some(v))?;
    Ok(Next::Give(Given::Nothing))
}

/// A name denotes a value, and nothing is given.
#[tactic(auto, unfolding(cx_core::specs::Outcome::either, cx_core::specs::Outcome::gives, cx_core::specs::Outcome::ends, cx_core::specs::Outcome::throws))]
fn bind_given<'p>(
    machine: &Machine<'p>,
    state: &mut State<'p>,
    slot: u32,
    v: Value<'p>,
) -> Result<Next<'p>, Halt>
    ensures { Steps machine.now.program.now (place_bound slot (value_of v.entry)) result state.old state.new }
{
    state.bind(slot, v)?;
    Ok(Next::Give(Given::Nothing))
}

/// An exception flies.
#[tactic(auto, unfolding(cx_core::specs::Outcome::either, cx_core::specs::Outcome::gives, cx_core::specs::Outcome::ends, cx_core::specs::Outcome::throws))]
fn throw<'p>(machine: &Machine<'p>, state: &mut State<'p>, e: Exception) -> Result<Next<'p>, Halt>
    ensures { let p = machine.now.program.now in Steps p (exception_thrown (program_of p) (exception_of e)) result state.old state.new }
{
    state.spend()?;
    state.append(Event::Throw(machine.type_name(e.of)))?;
    Err(Halt::Thrown(e))
}

/// A variable denotes an object, where it has a slot.
#[tactic(auto, unfolding(cx_core::specs::Outcome::either, cx_core::specs::Outcome::gives, cx_core::specs::Outcome::ends, cx_core::specs::Outcome::throws))]
fn make_at<'p>(
    machine: &Machine<'p>,
    state: &mut State<'p>,
    level: Level,
    keeper: Keeper,
    of: ObjectType,
    slot: Option<u32>,
    i: &'p Initializer,
    leaves: usize,
) -> Result<Next<'p>, Halt>
    ensures { let p = machine.now.program.now in Steps p (made_at (level_of level) (keeper_of keeper) (type_of of) slot (init_of i.now) leaves) result state.old state.new }
{
    let object = state.make(machine.alloc, leaves)?;
    bind_object(state, slot, object)?;
    let place = Address { object, leaf: 0 };
    let task = Task::Expression(ExpressionTask::Initialise(level, i, place));
    machine.under(
        state,
        task,
        Waiting::Object(ObjectFrame::Made(keeper, object, of)),
    )
}

/// An object is made.
#[tactic(auto, unfolding(cx_core::specs::Outcome::either, cx_core::specs::Outcome::gives, cx_core::specs::Outcome::ends, cx_core::specs::Outcome::throws))]
fn making<'p>(
    machine: &Machine<'p>,
    state: &mut State<'p>,
    level: Level,
    keeper: Keeper,
    of: ObjectType,
    slot: Option<u32>,
    i: &'p Initializer,
) -> Result<Next<'p>, Halt>
    ensures { let p = machine.now.program.now in Steps p (step_task (program_of p) (tasks.making (level_of level) (keeper_of keeper) (type_of of) slot (init_of i.now))) result state.old state.new }
{
    let leaves = machine.leaves_of(state, of)?;
    make_at(machine, state, level, keeper, of, slot, i, leaves)
}

/// A variable is declared.
#[tactic(auto, unfolding(cx_core::specs::Outcome::either, cx_core::specs::Outcome::current_temporaries, cx_core::specs::Outcome::set_temporaries))]
fn declaring<'p>(
    machine: &Machine<'p>,
    state: &mut State<'p>,
    level: Level,
    slot: u32,
    of: ObjectType,
    i: &'p Initializer,
) -> Result<Next<'p>, Halt>
    ensures { let p = machine.now.program.now in Steps p (step_task (program_of p) (tasks.declaring (level_of level) slot (type_of of) (init_of i.now))) result state.old state.new }
{
    let full = machine.enter_full_expression(state, level);
    let keeper = Keeper::InnermostScope;
    let task = Task::Object(ObjectTask::Making(level, keeper, of, Some(slot), i));
    machine.under_two(
        state,
        task,
        Waiting::Following(FollowingFrame::Discard),
        full,
    )
}

/// An object is kept once it is made.
#[tactic(auto, unfolding(cx_core::specs::Outcome::either, cx_core::specs::Outcome::gives, cx_core::specs::Outcome::ends, cx_core::specs::Outcome::throws))]
fn keep_object<'p>(
    machine: &Machine<'p>,
    state: &mut State<'p>,
    keeper: Keeper,
    object: u64,
    of: ObjectType,
) -> Result<Next<'p>, Halt>
    ensures { let p = machine.now.program.now in Steps p (object_kept (keeper_of keeper) object (type_of of)) result state.old state.new }
{
    keep(state, keeper, Living::Whole(object, of))?;
    Ok(Next::Give(Given::Number(object)))
}

/// A field of class type is kept once it is constructed.
#[tactic(auto, unfolding(cx_core::specs::Outcome::either, cx_core::specs::Outcome::gives, cx_core::specs::Outcome::ends, cx_core::specs::Outcome::throws))]
fn keep_class_field<'p>(
    machine: &Machine<'p>,
    state: &mut State<'p>,
    a: Address,
    class: u32,
) -> Result<Next<'p>, Halt>
    ensures { let p = machine.now.program.now in Steps p (field_kept (program_of p) (address_of a) (trees.class class)) result state.old state.new }
{
    state.keep(Living::Field(a, class))?;
    Ok(Next::Give(Given::Nothing))
}

/// A field is kept once it is constructed.
#[tactic(auto, unfolding(cx_core::specs::Outcome::either, cx_core::specs::Outcome::gives, cx_core::specs::Outcome::ends, cx_core::specs::Outcome::throws))]
fn keep_field<'p>(
    machine: &Machine<'p>,
    state: &mut State<'p>,
    a: Address,
    of: ObjectType,
) -> Result<Next<'p>, Halt>
    ensures { let p = machine.now.program.now in Steps p (field_kept (program_of p) (address_of a) (type_of of)) result state.old state.new }
{
    match of {
        ObjectType::Class(class) => keep_class_field(machine, state, a, class),
        ObjectType::Scalar(_) | ObjectType::Pointer(_) | ObjectType::FunctionPointer(_) => {
            Ok(Next::Give(Given::Nothing))
        }
    }
}

/// A value is written at a place.
#[tactic(auto, unfolding(cx_core::specs::Outcome::either, cx_core::specs::Outcome::gives, cx_core::specs::Outcome::ends, cx_core::specs::Outcome::throws))]
fn write_value<'p>(
    machine: &Machine<'p>,
    state: &mut State<'p>,
    a: Address,
    given: Given<'p>,
) -> Result<Next<'p>, Halt>
    ensures { let p = machine.now.program.now in Steps p (step_given (program_of p) (tasks.write_value (address_of a)) (given_of given.entry)) result state.old state.new }
{
    match given {
        Given::Value(v) => write_given(machine, state, a, v),
        _ => Err(undefined(Kind::Mixed)),
    }
}

/// A reference denotes a place.
#[tactic(auto, unfolding(cx_core::specs::Outcome::either, cx_core::specs::Outcome::gives, cx_core::specs::Outcome::ends, cx_core::specs::Outcome::throws))]
fn bound<'p>(
    machine: &Machine<'p>,
    state: &mut State<'p>,
    slot: u32,
    given: Given<'p>,
) -> Result<Next<'p>, Halt>
    ensures { let p = machine.now.program.now in Steps p (step_given (program_of p) (tasks.bound slot) (given_of given.entry)) result state.old state.new }
{
    match given {
        Given::Value(place) => bind_given(machine, state, slot, place),
        _ => Err(undefined(Kind::Mixed)),
    }
}

/// An exception object is made, and flies.
#[tactic(auto, unfolding(cx_core::specs::Outcome::either, cx_core::specs::Outcome::gives, cx_core::specs::Outcome::ends, cx_core::specs::Outcome::throws))]
fn throwing<'p>(
    machine: &Machine<'p>,
    state: &mut State<'p>,
    of: ObjectType,
    given: Given<'p>,
) -> Result<Next<'p>, Halt>
    ensures { let p = machine.now.program.now in Steps p (step_given (program_of p) (tasks.throwing (type_of of)) (given_of given.entry)) result state.old state.new }
{
    match given {
        Given::Number(object) => throw(machine, state, Exception { object, of }),
        _ => Err(undefined(Kind::Mixed)),
    }
}

/// What waits for the initialisation of an object is given something.
#[tactic(auto, unfolding(cx_core::specs::Outcome::either, cx_core::specs::Outcome::gives, cx_core::specs::Outcome::ends, cx_core::specs::Outcome::throws))]
pub fn object_given<'p>(
    machine: &Machine<'p>,
    state: &mut State<'p>,
    frame: ObjectFrame,
    given: Given<'p>,
) -> Result<Next<'p>, Halt>
    ensures { let p = machine.now.program.now in Steps p (step_given (program_of p) (object_frame_of frame) (given_of given.entry)) result state.old state.new }
{
    match frame {
        ObjectFrame::WriteValue(a) => write_value(machine, state, a, given),
        ObjectFrame::Made(keeper, object, of) => keep_object(machine, state, keeper, object, of),
        ObjectFrame::KeepingField(a, of) => keep_field(machine, state, a, of),
        ObjectFrame::Bound(slot) => bound(machine, state, slot, given),
        ObjectFrame::Throwing(of) => throwing(machine, state, of, given),
    }
}

/// An exception passes what waits for the initialisation of an object.
#[tactic(auto, unfolding(cx_core::specs::Outcome::either, cx_core::specs::Outcome::gives, cx_core::specs::Outcome::ends, cx_core::specs::Outcome::throws))]
pub fn object_thrown<'p>(
    machine: &Machine<'p>,
    state: &mut State<'p>,
    frame: ObjectFrame,
    e: Exception,
) -> Result<Next<'p>, Halt>
    ensures { let p = machine.now.program.now in Steps p (step_thrown (program_of p) (object_frame_of frame) (exception_of e)) result state.old state.new }
{
    match frame {
        ObjectFrame::Made(_, object, _) => machine.end_thrown(state, object, e),
        ObjectFrame::WriteValue(_) => Err(Halt::Thrown(e)),
        ObjectFrame::KeepingField(_, _) => Err(Halt::Thrown(e)),
        ObjectFrame::Bound(_) => Err(Halt::Thrown(e)),
        ObjectFrame::Throwing(_) => Err(Halt::Thrown(e)),
    }
}

/// An object is made, initialised, copied or ended.
#[tactic(auto, unfolding(cx_core::specs::Outcome::either, cx_core::specs::Outcome::gives, cx_core::specs::Outcome::ends, cx_core::specs::Outcome::throws))]
pub fn object_task<'p>(
    machine: &Machine<'p>,
    state: &mut State<'p>,
    task: ObjectTask<'p>,
) -> Result<Next<'p>, Halt>
    ensures { let p = machine.now.program.now in Steps p (step_task (program_of p) (object_task_of task.entry)) result state.old state.new }
{
    match task {
        ObjectTask::Destroying(level, class, a) => destroying(machine, state, level, class, a),
        ObjectTask::DestroyingEach(level, a, fields) => destroying_each(
            machine, state, level, a, fields,
        ),
        ObjectTask::DestroyingFields(level, class, a) => destroying_fields(
            machine, state, level, class, a,
        ),
        ObjectTask::Ending(level, living) => ending(machine, state, level, living),
        ObjectTask::EndingEach(level, living) => ending_each(machine, state, level, living),
        ObjectTask::Making(level, keeper, of, slot, i) => making(
            machine, state, level, keeper, of, slot, i,
        ),
        ObjectTask::Declaring(level, slot, of, i) => declaring(machine, state, level, slot, of, i),
        ObjectTask::FieldInits(level, fields) => field_inits(machine, state, level, fields),
        ObjectTask::DefaultFields(level, fields) => default_fields(machine, state, level, fields),
        ObjectTask::CopyingFields(level, source, fields) => copying_fields(
            machine, state, level, source, fields,
        ),
        ObjectTask::CopyingMembers(level, fields, source, to) => copying_members(
            machine, state, level, fields, source, to,
        ),
        ObjectTask::CopyingObject(level, of, source, to) => copying_object(
            machine, state, level, of, source, to,
        ),
    }
}
