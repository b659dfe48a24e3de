//! Objects that are ended and destroyed.
ghost use Rattle.std.specs.Prelude.{◌≡◌, [], ◌++◌, map, reverse, IfOk, OnOk};
ghost use Rattle.cx_plain.specs.Step.{step_task, step_ending, step_ending_each, step_destroying_each};
ghost use Rattle.cx_plain_state.specs.Seen.{living_of, livings_of, address_of};
ghost use Rattle.cx_mean_parts.specs.Seen.{program_of, class_of, fields_of};
ghost use Rattle.cx_mean_parts.specs.Tasks.{level_of, class_field_of};
ghost use Rattle.cx_mean_parts.specs.Parts.{object_gone, class_object_gone, first_ending, destroyed_by, first_destroying, fields_destroyed_by};
ghost use Rattle.cx_mean_parts.specs.Steps.{Steps};
ghost use Rattle.cx_core.specs.View.{object_type};
ghost use Rattle.cx_core.specs.Leaving.{class_fields, and_class_field};
ghost use Rattle.cx_plain.specs.Task as tasks;

use cx_code::Kind;
use cx_core::Field;
use cx_mean_parts::lifetime::end_lifetime;
use cx_mean_parts::machine::Machine;
use cx_mean_parts::program::Class;
use cx_mean_parts::task::{ClassField, Level, ObjectTask, Task};
use cx_mean_parts::values::place_in;
use cx_mean_parts::waiting::{ArgumentFrame, FollowingFrame, Given, Next, Waiting};
use cx_plain_state::{Address, Halt, Living, ObjectType, State, Value, undefined};
use std::alloc::AllocError;

/// The lifetime of a whole object ends, and nothing is given.
#[tactic(auto, unfolding(cx_core::specs::Outcome::either, cx_core::specs::Outcome::gives, cx_core::specs::Outcome::ends, cx_core::specs::Outcome::throws))]
fn end_whole<'p>(
    machine: &Machine<'p>,
    state: &mut State<'p>,
    object: u64,
) -> Result<Next<'p>, Halt>
    ensures { let p = machine.now.program.now in Steps p (object_gone object) result state.old state.new }
{
    end_lifetime(state, object)?;
    Ok(Next::Give(Given::Nothing))
}

/// A class object is destroyed, and then its lifetime ends.
#[tactic(auto, unfolding(cx_core::specs::Outcome::either, cx_core::specs::Outcome::gives, cx_core::specs::Outcome::ends, cx_core::specs::Outcome::throws))]
fn end_class_object<'p>(
    machine: &Machine<'p>,
    state: &State<'p>,
    level: Level,
    object: u64,
    class: u32,
) -> Result<Next<'p>, Halt>
    ensures { let p = machine.now.program.now in Steps p (class_object_gone (level_of level) object class) result state.now state.now }
{
    let a = Address { object, leaf: 0 };
    let task = Task::Object(ObjectTask::Destroying(level, class, a));
    machine.under(
        state,
        task,
        Waiting::Argument(ArgumentFrame::EndObject(object)),
    )
}

/// An object of a scope is ended.
#[tactic(auto, unfolding(cx_core::specs::Outcome::either, cx_core::specs::Outcome::gives, cx_core::specs::Outcome::ends, cx_core::specs::Outcome::throws))]
pub(crate) fn ending<'p>(
    machine: &Machine<'p>,
    state: &mut State<'p>,
    level: Level,
    living: Living,
) -> Result<Next<'p>, Halt>
    ensures { let p = machine.now.program.now in Steps p (step_ending (program_of p) (level_of level) (living_of living)) result state.old state.new }
{
    match living {
        Living::Whole(object, ObjectType::Class(class)) => end_class_object(
            machine, state, level, object, class,
        ),
        Living::Whole(object, ObjectType::Scalar(_)) => end_whole(machine, state, object),
        Living::Whole(object, ObjectType::Pointer(_)) => end_whole(machine, state, object),
        Living::Whole(object, ObjectType::FunctionPointer(_)) => end_whole(machine, state, object),
        Living::Field(a, class) => machine.doing(
            state,
            Task::Object(ObjectTask::Destroying(level, class, a)),
        ),
    }
}

/// An object is ended, then others.
#[tactic(auto, unfolding(cx_core::specs::Outcome::either, cx_core::specs::Outcome::gives, cx_core::specs::Outcome::ends, cx_core::specs::Outcome::throws))]
fn ending_first<'p>(
    machine: &Machine<'p>,
    state: &State<'p>,
    level: Level,
    first: Living,
    living: Vec<Living>,
) -> Result<Next<'p>, Halt>
    ensures { let p = machine.now.program.now in Steps p (first_ending (level_of level) (living_of first) (livings_of living)) result state.now state.now }
{
    let rest = machine.then_next(Task::Object(ObjectTask::EndingEach(level, living)))?;
    machine.under(state, Task::Object(ObjectTask::Ending(level, first)), rest)
}

/// Objects are ended, the first of them first.
#[tactic(auto, unfolding(cx_core::specs::Outcome::either, cx_core::specs::Outcome::gives, cx_core::specs::Outcome::ends, cx_core::specs::Outcome::throws))]
pub(crate) fn ending_each<'p>(
    machine: &Machine<'p>,
    state: &State<'p>,
    level: Level,
    mut living: Vec<Living>,
) -> Result<Next<'p>, Halt>
    ensures { let p = machine.now.program.now in Steps p (step_ending_each (program_of p) (level_of level) (livings_of living)) result state.now state.now }
{
    if living.is_empty() {
        return Ok(Next::Give(Given::Nothing));
    }
    let first = living.remove(0);
    ending_first(machine, state, level, first, living)
}

/// The destructor of a class is called on an object.
#[tactic(auto, unfolding(cx_core::specs::Outcome::either, cx_core::specs::Outcome::gives, cx_core::specs::Outcome::ends, cx_core::specs::Outcome::throws))]
fn destroy_by<'p>(
    machine: &Machine<'p>,
    state: &State<'p>,
    level: Level,
    class: &Class,
    a: Address,
) -> Result<Next<'p>, Halt>
    ensures { let p = machine.now.program.now in Steps p (destroyed_by (level_of level) (class_of class.now) (address_of a)) result state.now state.now }
{
    let arguments = vec![in machine.alloc; Value::Address(a)]?;
    let destructor = class.definition.destructor;
    let task = machine.call_here(state, level, destructor, false, arguments, None);
    machine.under(state, task, Waiting::Following(FollowingFrame::Discard))
}

/// The object of a class at a place is destroyed.
#[tactic(auto, unfolding(cx_core::specs::Outcome::either, cx_core::specs::Outcome::gives, cx_core::specs::Outcome::ends, cx_core::specs::Outcome::throws))]
pub(crate) fn destroying<'p>(
    machine: &Machine<'p>,
    state: &State<'p>,
    level: Level,
    class: u32,
    a: Address,
) -> Result<Next<'p>, Halt>
    ensures { let p = machine.now.program.now in Steps p (step_task (program_of p) (tasks.destroying (level_of level) class (address_of a))) result state.now state.now }
{
    match machine.class_at(class) {
        Some(definition) => destroy_by(machine, state, level, definition, a),
        None => Err(undefined(Kind::Mixed)),
    }
}

/// A field is destroyed, then others.
#[tactic(auto, unfolding(cx_core::specs::Outcome::either, cx_core::specs::Outcome::gives, cx_core::specs::Outcome::ends, cx_core::specs::Outcome::throws))]
fn destroying_first<'p>(
    machine: &Machine<'p>,
    state: &State<'p>,
    level: Level,
    a: Address,
    first: ClassField,
    fields: Vec<ClassField>,
) -> Result<Next<'p>, Halt>
    ensures { let p = machine.now.program.now in Steps p (first_destroying (level_of level) (address_of a) (class_field_of first) (reverse (map class_field_of fields.items))) result state.now state.now }
{
    let place = place_in(a, first.leaf)?;
    let rest = machine.then_next(Task::Object(ObjectTask::DestroyingEach(level, a, fields)))?;
    let task = Task::Object(ObjectTask::Destroying(level, first.class, place));
    machine.under(state, task, rest)
}

/// Fields are destroyed, the last of them first.
#[tactic(auto, unfolding(cx_core::specs::Outcome::either, cx_core::specs::Outcome::gives, cx_core::specs::Outcome::ends, cx_core::specs::Outcome::throws))]
pub(crate) fn destroying_each<'p>(
    machine: &Machine<'p>,
    state: &State<'p>,
    level: Level,
    a: Address,
    mut fields: Vec<ClassField>,
) -> Result<Next<'p>, Halt>
    ensures { let p = machine.now.program.now in Steps p (step_destroying_each (program_of p) (level_of level) (address_of a) (reverse (map class_field_of fields.items))) result state.now state.now }
{
    match fields.pop() {
        Some(first) => destroying_first(machine, state, level, a, first, fields),
        None => Ok(Next::Give(Given::Nothing)),
    }
}

/// A field is added to others, where it is a class object.
#[tactic(auto)]
fn add_class_field<'p>(
    machine: &Machine<'p>,
    found: &mut Vec<ClassField>,
    field: &Field,
) -> Result<(), AllocError>
    ensures { OnOk result (map class_field_of found.new.items ≡ map class_field_of found.old.items ++ and_class_field field.now.leaf (object_type field.now.of) []) }
{
    match machine.object_type(field.of) {
        ObjectType::Class(class) => {
            found.push(ClassField {
                leaf: field.leaf,
                class,
            })?;
            Ok(())
        }
        ObjectType::Scalar(_) | ObjectType::Pointer(_) | ObjectType::FunctionPointer(_) => Ok(()),
    }
}

/// The fields that are class objects are added to others, in order.
#[tactic(auto)]
fn add_class_fields<'p>(
    machine: &Machine<'p>,
    found: &mut Vec<ClassField>,
    fields: &[Field],
) -> Result<(), AllocError>
    ensures { OnOk result (map class_field_of found.new.items ≡ map class_field_of found.old.items ++ class_fields (fields_of fields.now)) }
{
    match fields.split_first() {
        None => Ok(()),
        Some((field, rest)) => {
            add_class_field(machine, found, field)?;
            add_class_fields(machine, found, rest)
        }
    }
}

/// The fields that are class objects, in order.
#[tactic(auto)]
fn class_fields<'p>(machine: &Machine<'p>, fields: &[Field]) -> Result<Vec<ClassField>, AllocError>
    ensures { IfOk result (λ found. map class_field_of found.items ≡ class_fields (fields_of fields.now)) }
{
    let mut found = Vec::new(machine.alloc);
    add_class_fields(machine, &mut found, fields)?;
    Ok(found)
}

/// The fields of an object are destroyed, the last of them first.
#[tactic(auto, unfolding(cx_core::specs::Outcome::either, cx_core::specs::Outcome::gives, cx_core::specs::Outcome::ends, cx_core::specs::Outcome::throws))]
fn destroy_fields_by<'p>(
    machine: &Machine<'p>,
    state: &State<'p>,
    level: Level,
    class: &Class,
    a: Address,
) -> Result<Next<'p>, Halt>
    ensures { let p = machine.now.program.now in Steps p (fields_destroyed_by (level_of level) (class_of class.now) (address_of a)) result state.now state.now }
{
    let fields = class_fields(machine, class.definition.fields.items())?;
    machine.doing(
        state,
        Task::Object(ObjectTask::DestroyingEach(level, a, fields)),
    )
}

/// The fields of the object of a class at a place are destroyed.
#[tactic(auto, unfolding(cx_core::specs::Outcome::either, cx_core::specs::Outcome::gives, cx_core::specs::Outcome::ends, cx_core::specs::Outcome::throws))]
pub(crate) fn destroying_fields<'p>(
    machine: &Machine<'p>,
    state: &State<'p>,
    level: Level,
    class: u32,
    a: Address,
) -> Result<Next<'p>, Halt>
    ensures { let p = machine.now.program.now in Steps p (step_task (program_of p) (tasks.destroying_fields (level_of level) class (address_of a))) result state.now state.now }
{
    match machine.class_at(class) {
        Some(definition) => destroy_fields_by(machine, state, level, definition, a),
        None => Err(undefined(Kind::Mixed)),
    }
}
