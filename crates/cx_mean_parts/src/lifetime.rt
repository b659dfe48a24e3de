//! How many leaves an object has, and the end of its lifetime.
ghost use Rattle.cx_core.specs.Outcome.{end_lifetime};
ghost use Rattle.cx_plain.specs.Step.{no_calls};
ghost use Rattle.cx_plain_state.specs.Ran.{Ran, itself, unit_of};
ghost use Rattle.cx_plain_state.specs.Seen.{state_of, exception_of, type_of};
ghost use Rattle.cx_mean_parts.specs.Seen.{program_of};
ghost use Rattle.cx_mean_parts.specs.Parts.{ended_by};
ghost use Rattle.cx_mean_parts.specs.Steps.{Steps};
ghost use Rattle.cx_core.specs.Leaving.{leaves_of_type};

use crate::machine::Machine;
use crate::waiting::Next;
use cx_code::Kind;
use cx_plain_state::{Exception, Halt, ObjectType, State, undefined};

/// The lifetime of an object ends.
#[tactic(auto, unfolding(cx_core::specs::Outcome::either))]
pub fn end_lifetime(state: &mut State<'_>, object: u64) -> Result<(), Halt>
    ensures { Ran unit_of (end_lifetime object (state_of state.old)) result (state_of state.new) }
{
    state.spend()?;
    state.remove(object);
    Ok(())
}

#[tactic(auto, unfolding(cx_core::specs::Outcome::either, cx_core::specs::Outcome::gives, cx_core::specs::Outcome::ends, cx_core::specs::Outcome::throws))]
impl<'p> Machine<'p> {
    /// The lifetime of an object ends, and an exception flies on.
    pub fn end_thrown(
        &self,
        state: &mut State<'p>,
        object: u64,
        e: Exception,
    ) -> Result<Next<'p>, Halt>
        ensures { let p = self.now.program.now in Steps p (ended_by object (exception_of e)) result state.old state.new }
    {
        end_lifetime(state, object)?;
        Err(Halt::Thrown(e))
    }

    /// How many leaves an object of a type has.
    pub fn leaves_of(&self, state: &State<'p>, of: ObjectType) -> Result<usize, Halt>
        ensures { Ran itself (leaves_of_type (program_of self.now.program.now) no_calls (type_of of) (state_of state.now)) result (state_of state.now) }
    {
        match of {
            ObjectType::Scalar(_) => Ok(1),
            ObjectType::Pointer(_) => Ok(1),
            ObjectType::FunctionPointer(_) => Ok(1),
            ObjectType::Class(class) => match self.class_at(class) {
                Some(definition) => Ok(definition.definition.leaves.items().len()),
                None => Err(undefined(Kind::Mixed)),
            },
        }
    }
}
