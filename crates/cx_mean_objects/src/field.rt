//! The fields of an object under construction.
ghost use Rattle.std.specs.Prelude.{◌∷◌};
ghost use Rattle.cx_plain.specs.Step.{step_field_inits, step_default_field, step_default_fields, step_copying_fields, step_copying_members, step_copying_object};
ghost use Rattle.cx_plain_state.specs.Ran.{Ran, unit_of};
ghost use Rattle.cx_plain_state.specs.Seen.{state_of, address_of, type_of};
ghost use Rattle.cx_core.specs.View.{field_of, field_init_of};
ghost use Rattle.cx_mean_parts.specs.Seen.{table_of, program_of, class_of, fields_of, field_inits_of};
ghost use Rattle.cx_mean_parts.specs.Tasks.{level_of, task_of};
ghost use Rattle.cx_mean_parts.specs.Parts.{field_started, default_started, copied_leaf, copied_by, this_place_of, leaf_copied};
ghost use Rattle.cx_mean_parts.specs.Steps.{Steps};
ghost use Rattle.cx_core.specs.Tree as trees;

use cx_code::Kind;
use cx_core::{Field, FieldInitializer};
use cx_mean_parts::machine::Machine;
use cx_mean_parts::program::Class;
use cx_mean_parts::task::{CallTask, ExpressionTask, Level, ObjectTask, Task};
use cx_mean_parts::values::place_in;
use cx_mean_parts::waiting::{Given, Next, ObjectFrame, Waiting};
use cx_plain_state::{Address, Halt, ObjectType, State, Value, undefined};

/// The object that the active call is a member call of.
#[tactic(auto, unfolding(cx_core::specs::Outcome::either))]
fn this_place(state: &State<'_>) -> Result<Address, Halt>
    ensures { Ran address_of (this_place_of (state_of state.now)) result (state_of state.now) }
{
    let this = state.named(0)?;
    state.place_of(this)
}

/// A leaf is copied as it is, set or unset.
#[tactic(auto, unfolding(cx_core::specs::Outcome::either))]
fn copy_leaf(state: &mut State<'_>, source: Address, to: Address) -> Result<(), Halt>
    ensures { Ran unit_of (leaf_copied (address_of source) (address_of to) (state_of state.old)) result (state_of state.new) }
{
    state.spend()?;
    let leaf = state.read_leaf(source)?;
    state.write(to, leaf)
}

/// A field is initialised at its place, then others.
#[tactic(auto, unfolding(cx_core::specs::Outcome::either, cx_core::specs::Outcome::current_temporaries, cx_core::specs::Outcome::set_temporaries))]
fn field_entered<'p>(
    machine: &Machine<'p>,
    state: &mut State<'p>,
    level: Level,
    place: Address,
    of: ObjectType,
    task: Task<'p>,
    rest: Task<'p>,
) -> Result<Next<'p>, Halt>
    ensures { let p = machine.now.program.now in let n = table_of p in Steps p (field_started (level_of level) (address_of place) (type_of of) (task_of n task.entry) (task_of n rest.entry)) result state.old state.new }
{
    let rest = machine.then_next(rest)?;
    let full = machine.enter_full_expression(state, level);
    let keeping = Waiting::Object(ObjectFrame::KeepingField(place, of));
    machine.under_three(state, task, full, keeping, rest)
}

/// A field is initialised, then others.
#[tactic(auto, unfolding(cx_core::specs::Outcome::either, cx_core::specs::Outcome::gives, cx_core::specs::Outcome::ends, cx_core::specs::Outcome::throws))]
fn field_init<'p>(
    machine: &Machine<'p>,
    state: &mut State<'p>,
    level: Level,
    f: &'p FieldInitializer,
    rest: &'p [FieldInitializer],
) -> Result<Next<'p>, Halt>
    ensures { let p = machine.now.program.now in Steps p (step_field_inits (program_of p) (level_of level) (field_init_of f.now ∷ field_inits_of rest.now)) result state.old state.new }
{
    let this = this_place(state)?;
    let place = place_in(this, f.leaf)?;
    let task = Task::Expression(ExpressionTask::Initialise(level, &f.init, place));
    let rest = Task::Object(ObjectTask::FieldInits(level, rest));
    field_entered(
        machine,
        state,
        level,
        place,
        machine.object_type(f.of),
        task,
        rest,
    )
}

/// Fields are initialised in order.
#[tactic(auto, unfolding(cx_core::specs::Outcome::either, cx_core::specs::Outcome::gives, cx_core::specs::Outcome::ends, cx_core::specs::Outcome::throws))]
pub(crate) fn field_inits<'p>(
    machine: &Machine<'p>,
    state: &mut State<'p>,
    level: Level,
    fields: &'p [FieldInitializer],
) -> Result<Next<'p>, Halt>
    ensures { let p = machine.now.program.now in Steps p (step_field_inits (program_of p) (level_of level) (field_inits_of fields.now)) result state.old state.new }
{
    match fields.split_first() {
        None => Ok(Next::Give(Given::Nothing)),
        Some((f, rest)) => field_init(machine, state, level, f, rest),
    }
}

/// A field of class type is constructed without arguments, then the other fields are.
#[tactic(auto, unfolding(cx_core::specs::Outcome::either, cx_core::specs::Outcome::gives, cx_core::specs::Outcome::ends, cx_core::specs::Outcome::throws))]
fn default_by<'p>(
    machine: &Machine<'p>,
    state: &mut State<'p>,
    level: Level,
    leaf: u32,
    class: u32,
    constructor: u32,
    fields: &'p [Field],
) -> Result<Next<'p>, Halt>
    ensures { let p = machine.now.program.now in Steps p (default_started (program_of p) (level_of level) leaf class constructor (fields_of fields.now)) result state.old state.new }
{
    let this = this_place(state)?;
    let place = place_in(this, leaf)?;
    let arguments = Vec::new(machine.alloc);
    let task = Task::Call(CallTask::ConstructAt(level, constructor, place, arguments));
    let rest = Task::Object(ObjectTask::DefaultFields(level, fields));
    field_entered(
        machine,
        state,
        level,
        place,
        ObjectType::Class(class),
        task,
        rest,
    )
}

/// A field of a class is constructed without arguments, then the other fields are.
#[tactic(auto, unfolding(cx_core::specs::Outcome::either, cx_core::specs::Outcome::gives, cx_core::specs::Outcome::ends, cx_core::specs::Outcome::throws))]
fn default_class<'p>(
    machine: &Machine<'p>,
    state: &mut State<'p>,
    level: Level,
    leaf: u32,
    class: u32,
    fields: &'p [Field],
) -> Result<Next<'p>, Halt>
    ensures { let p = machine.now.program.now in Steps p (step_default_field (program_of p) (level_of level) leaf (trees.class class) (fields_of fields.now)) result state.old state.new }
{
    match machine.class_at(class) {
        Some(definition) => match definition.definition.default_constructor {
            Some(constructor) => default_by(
                machine,
                state,
                level,
                leaf,
                class,
                constructor,
                fields,
            ),
            None => Err(undefined(Kind::Mixed)),
        },
        None => Err(undefined(Kind::Mixed)),
    }
}

/// A field is constructed without arguments, where it is a class object; then the other fields are.
#[tactic(auto, unfolding(cx_core::specs::Outcome::either, cx_core::specs::Outcome::gives, cx_core::specs::Outcome::ends, cx_core::specs::Outcome::throws))]
fn default_field<'p>(
    machine: &Machine<'p>,
    state: &mut State<'p>,
    level: Level,
    leaf: u32,
    of: ObjectType,
    fields: &'p [Field],
) -> Result<Next<'p>, Halt>
    ensures { let p = machine.now.program.now in Steps p (step_default_field (program_of p) (level_of level) leaf (type_of of) (fields_of fields.now)) result state.old state.new }
{
    match of {
        ObjectType::Class(class) => default_class(machine, state, level, leaf, class, fields),
        ObjectType::Scalar(_) | ObjectType::Pointer(_) | ObjectType::FunctionPointer(_) => {
            machine.doing(
                state,
                Task::Object(ObjectTask::DefaultFields(level, fields)),
            )
        }
    }
}

/// Fields are constructed without arguments, in order.
#[tactic(auto, unfolding(cx_core::specs::Outcome::either, cx_core::specs::Outcome::gives, cx_core::specs::Outcome::ends, cx_core::specs::Outcome::throws))]
pub(crate) fn default_fields<'p>(
    machine: &Machine<'p>,
    state: &mut State<'p>,
    level: Level,
    fields: &'p [Field],
) -> Result<Next<'p>, Halt>
    ensures { let p = machine.now.program.now in Steps p (step_default_fields (program_of p) (level_of level) (fields_of fields.now)) result state.old state.new }
{
    match fields.split_first() {
        None => Ok(Next::Give(Given::Nothing)),
        Some((f, rest)) => default_field(
            machine,
            state,
            level,
            f.leaf,
            machine.object_type(f.of),
            rest,
        ),
    }
}

/// A field is copied, then others.
#[tactic(auto, unfolding(cx_core::specs::Outcome::either, cx_core::specs::Outcome::gives, cx_core::specs::Outcome::ends, cx_core::specs::Outcome::throws))]
fn copying_first<'p>(
    machine: &Machine<'p>,
    state: &mut State<'p>,
    level: Level,
    source: Address,
    f: &'p Field,
    rest: &'p [Field],
) -> Result<Next<'p>, Halt>
    ensures { let p = machine.now.program.now in Steps p (step_copying_fields (program_of p) (level_of level) (address_of source) (field_of f.now ∷ fields_of rest.now)) result state.old state.new }
{
    let this = this_place(state)?;
    let from = place_in(source, f.leaf)?;
    let place = place_in(this, f.leaf)?;
    let of = machine.object_type(f.of);
    let task = Task::Object(ObjectTask::CopyingObject(level, of, from, place));
    let rest = Task::Object(ObjectTask::CopyingFields(level, source, rest));
    field_entered(machine, state, level, place, of, task, rest)
}

/// Fields are copied in order.
#[tactic(auto, unfolding(cx_core::specs::Outcome::either, cx_core::specs::Outcome::gives, cx_core::specs::Outcome::ends, cx_core::specs::Outcome::throws))]
pub(crate) fn copying_fields<'p>(
    machine: &Machine<'p>,
    state: &mut State<'p>,
    level: Level,
    source: Address,
    fields: &'p [Field],
) -> Result<Next<'p>, Halt>
    ensures { let p = machine.now.program.now in Steps p (step_copying_fields (program_of p) (level_of level) (address_of source) (fields_of fields.now)) result state.old state.new }
{
    match fields.split_first() {
        None => Ok(Next::Give(Given::Nothing)),
        Some((f, rest)) => copying_first(machine, state, level, source, f, rest),
    }
}

/// A leaf is copied as it is.
#[tactic(auto, unfolding(cx_core::specs::Outcome::either, cx_core::specs::Outcome::gives, cx_core::specs::Outcome::ends, cx_core::specs::Outcome::throws))]
fn leaf_copied<'p>(
    machine: &Machine<'p>,
    state: &mut State<'p>,
    source: Address,
    to: Address,
) -> Result<Next<'p>, Halt>
    ensures { let p = machine.now.program.now in Steps p (copied_leaf (program_of p) (address_of source) (address_of to)) result state.old state.new }
{
    copy_leaf(state, source, to)?;
    Ok(Next::Give(Given::Nothing))
}

/// The fields of a class are copied, or the leaf of one without fields.
#[tactic(auto, unfolding(cx_core::specs::Outcome::either, cx_core::specs::Outcome::gives, cx_core::specs::Outcome::ends, cx_core::specs::Outcome::throws))]
pub(crate) fn copying_members<'p>(
    machine: &Machine<'p>,
    state: &mut State<'p>,
    level: Level,
    fields: &'p [Field],
    source: Address,
    to: Address,
) -> Result<Next<'p>, Halt>
    ensures { let p = machine.now.program.now in Steps p (step_copying_members (program_of p) (level_of level) (fields_of fields.now) (address_of source) (address_of to)) result state.old state.new }
{
    if fields.is_empty() {
        return leaf_copied(machine, state, source, to);
    }
    machine.doing(
        state,
        Task::Object(ObjectTask::CopyingFields(level, source, fields)),
    )
}

/// An object of a class is copied by its copy constructor.
#[tactic(auto, unfolding(cx_core::specs::Outcome::either, cx_core::specs::Outcome::gives, cx_core::specs::Outcome::ends, cx_core::specs::Outcome::throws))]
fn copy_by<'p>(
    machine: &Machine<'p>,
    state: &State<'p>,
    level: Level,
    class: &Class,
    source: Address,
    to: Address,
) -> Result<Next<'p>, Halt>
    ensures { let p = machine.now.program.now in Steps p (copied_by (level_of level) (class_of class.now) (address_of source) (address_of to)) result state.now state.now }
{
    let arguments = vec![in machine.alloc; Value::Address(source)]?;
    let task = CallTask::ConstructAt(level, class.definition.copy_constructor, to, arguments);
    machine.doing(state, Task::Call(task))
}

/// An object of a class is copied.
#[tactic(auto, unfolding(cx_core::specs::Outcome::either, cx_core::specs::Outcome::gives, cx_core::specs::Outcome::ends, cx_core::specs::Outcome::throws))]
fn copying_class<'p>(
    machine: &Machine<'p>,
    state: &State<'p>,
    level: Level,
    class: u32,
    source: Address,
    to: Address,
) -> Result<Next<'p>, Halt>
    ensures { let p = machine.now.program.now in Steps p (step_copying_object (program_of p) (level_of level) (trees.class class) (address_of source) (address_of to)) result state.now state.now }
{
    match machine.class_at(class) {
        Some(definition) => copy_by(machine, state, level, definition, source, to),
        None => Err(undefined(Kind::Mixed)),
    }
}

/// An object is copied.
#[tactic(auto, unfolding(cx_core::specs::Outcome::either, cx_core::specs::Outcome::gives, cx_core::specs::Outcome::ends, cx_core::specs::Outcome::throws))]
pub(crate) fn copying_object<'p>(
    machine: &Machine<'p>,
    state: &mut State<'p>,
    level: Level,
    of: ObjectType,
    source: Address,
    to: Address,
) -> Result<Next<'p>, Halt>
    ensures { let p = machine.now.program.now in Steps p (step_copying_object (program_of p) (level_of level) (type_of of) (address_of source) (address_of to)) result state.old state.new }
{
    match of {
        ObjectType::Class(class) => copying_class(machine, state, level, class, source, to),
        ObjectType::Scalar(_) => leaf_copied(machine, state, source, to),
        ObjectType::Pointer(_) => leaf_copied(machine, state, source, to),
        ObjectType::FunctionPointer(_) => leaf_copied(machine, state, source, to),
    }
}
