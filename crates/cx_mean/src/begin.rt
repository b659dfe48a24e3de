//! The state in which a run has not begun.
ghost use Rattle.std.specs.Prelude.{◌≡◌, [], ◌∷◌, ◌++◌, ◌+◌, suc, length, map, IfOk, OnOk, Some};
ghost use Rattle.cx_core.specs.Meaning.{start, globals_from};
ghost use Rattle.cx_core.specs.View.{constant};
ghost use Rattle.cx_core.specs.Operators as operators;
ghost use Rattle.cx_plain_state.specs.Seen.{state_of, value_of, evaluation_of};
ghost use Rattle.cx_mean_parts.specs.Seen.{program_of};

use crate::run::Want;
use cx_core::Constant;
use cx_mean_parts::machine::Machine;
use cx_plain_state::{Evaluation, Object, State, Value};
use std::alloc::Global;

/// The value of a literal, an enumerator or the first value of a global.
pub(crate) fn constant_value<'p>(c: Constant) -> Value<'p>
    ensures { value_of result ≡ operators.constant (constant c) }
{
    match c {
        Constant::Number(n) => Value::Number(n),
        Constant::Nullptr => Value::Null,
    }
}

/// The object of a global is made, after those of others.
#[tactic(auto, unfolding(cx_plain_state::specs::Seen::state_of))]
fn add_global(alloc: Global, state: &mut State<'_>, c: Constant) -> Result<(), Want>
    ensures { OnOk result (state_of state.new ≡ record (state_of state.old) { store = (state_of state.old).store ++ record { number = (state_of state.old).next; leaves = Some (operators.constant (constant c)) ∷ [] } ∷ []; next = suc (state_of state.old).next }) }
{
    let number = state.next;
    let Some(next) = number.checked_add(1) else {
        return Err(Want::Means);
    };
    let leaves = vec![in alloc; Some(constant_value(c))]?;
    state.objects.push(Object { number, leaves })?;
    state.next = next;
    Ok(())
}

/// The objects of globals are made, in order.
fn add_globals(alloc: Global, state: &mut State<'_>, globals: &[Constant]) -> Result<(), Want>
    ensures { OnOk result (state_of state.new ≡ record (state_of state.old) { store = (state_of state.old).store ++ globals_from (state_of state.old).next (map constant globals.now); next = length globals.now + (state_of state.old).next }) }
{
    match globals.split_first() {
        None => Ok(()),
        Some((first, rest)) => {
            add_global(alloc, state, *first)?;
            add_globals(alloc, state, rest)
        }
    }
}

/// A run that has not begun: each global has its first value.
pub(crate) fn begin<'p>(
    machine: &Machine<'p>,
    begins: &'p [Evaluation],
    input: &'p [u8],
    budget: u64,
) -> Result<State<'p>, Want>
    ensures { IfOk result (λ state. state_of state ≡ start (program_of machine.now.program.now) (map evaluation_of begins.now) input.now budget) }
{
    let mut state = State::new(machine.alloc, begins, input, budget);
    add_globals(machine.alloc, &mut state, &machine.program.globals)?;
    Ok(state)
}
