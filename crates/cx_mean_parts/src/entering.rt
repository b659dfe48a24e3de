//! How scopes, full-expressions, constructions, handlers and the code of other units are entered, and calls made.
ghost use Rattle.std.specs.Prelude.{◌≡◌, ◌∷◌, IfOk, OnOk, IfErr, [], Some};
ghost use Rattle.cx_plain.specs.Task as tasks;
ghost use Rattle.cx_plain.specs.Step.{calls};
ghost use Rattle.cx_plain_state.specs.declared.answer.Halt.TheVariants.{Want};
ghost use Rattle.cx_plain_state.specs.Ran.{values_of};
ghost use Rattle.cx_plain_state.specs.Seen.{state_of, exception_of, value_of};
ghost use Rattle.cx_mean_parts.specs.Seen.{table_of, program_of};
ghost use Rattle.cx_mean_parts.specs.Tasks.{level_of, task_of};
ghost use Rattle.cx_mean_parts.specs.Frames.{waiting_of};
ghost use Rattle.cx_mean_parts.specs.Parts.{call_here};
ghost use Rattle.std.specs.Option.{option_map};

use crate::machine::Machine;
use crate::task::{Call, CallTask, Level, Task};
use crate::waiting::{LeavingFrame, Waiting};
use cx_plain_state::{Exception, Frame, Halt, State, Value};
use std::mem;

#[tactic(auto, unfolding(cx_core::specs::Outcome::either, cx_core::specs::Outcome::gives, cx_core::specs::Outcome::ends, cx_core::specs::Outcome::throws))]
impl<'p> Machine<'p> {
    /// A handler holds an exception. The frame that lets go of it is given.
    #[tactic(auto, unfolding(cx_plain_state::specs::Seen::state_of))]
    pub fn enter_handler(
        &self,
        state: &mut State<'p>,
        level: Level,
        e: Exception,
    ) -> Result<Waiting<'p>, Halt>
        ensures frame { IfOk result (λ frame. waiting_of (table_of self.now.program.now) frame ≡ tasks.holding (level_of level) (exception_of e) (state_of state.old).held) }
        ensures entered { OnOk result (state_of state.new ≡ record (state_of state.old) { held = exception_of e ∷ (state_of state.old).held }) }
        ensures want { IfErr result (λ halt. halt ≡ Want) }
    {
        let mut held = Vec::from_slice(self.alloc, &state.held)?;
        held.insert(0, e)?;
        let others = mem::replace(&mut state.held, held);
        Ok(Waiting::Leaving(LeavingFrame::Holding(level, e, others)))
    }
}

#[tactic(auto, unfolding(cx_plain_state::specs::Seen::state_of))]
impl<'p> Machine<'p> {
    /// A scope is entered. The frame that leaves it is given.
    pub fn enter_scope(&self, state: &mut State<'p>, level: Level) -> Waiting<'p>
        ensures frame { waiting_of (table_of self.now.program.now) result ≡ tasks.leaving_scope (level_of level) (state_of state.old).living }
        ensures entered { state_of state.new ≡ record (state_of state.old) { living = [] } }
    {
        let outer = mem::replace(&mut state.living, Vec::new(self.alloc));
        Waiting::Leaving(LeavingFrame::LeavingScope(level, outer))
    }

    /// A full-expression is entered. The frame that leaves it is given.
    pub fn enter_full_expression(&self, state: &mut State<'p>, level: Level) -> Waiting<'p>
        ensures frame { waiting_of (table_of self.now.program.now) result ≡ tasks.leaving_full (level_of level) (state_of state.old).temporaries }
        ensures entered { state_of state.new ≡ record (state_of state.old) { temporaries = [] } }
    {
        let outer = mem::replace(&mut state.temporaries, Vec::new(self.alloc));
        Waiting::Leaving(LeavingFrame::LeavingFull(level, outer))
    }

    /// The construction of an object is entered. The frame that leaves it is given.
    pub fn enter_construction(&self, state: &mut State<'p>, level: Level) -> Waiting<'p>
        ensures frame { waiting_of (table_of self.now.program.now) result ≡ tasks.constructing (level_of level) (state_of state.old).living }
        ensures entered { state_of state.new ≡ record (state_of state.old) { living = [] } }
    {
        let outer = mem::replace(&mut state.living, Vec::new(self.alloc));
        Waiting::Leaving(LeavingFrame::Constructing(level, outer))
    }

    /// The code of a unit is entered, in the frame of the active call. The frame that goes back is given.
    pub fn enter_unit(&self, state: &mut State<'p>, unit: u32) -> Result<Waiting<'p>, Halt>
        ensures frame { IfOk result (λ w. waiting_of (table_of self.now.program.now) w ≡ tasks.within (state_of state.old).frame) }
        ensures entered { OnOk result (state_of state.new ≡ record (state_of state.old) { frame = record ((state_of state.old).frame) { unit = unit } }) }
        ensures want { IfErr result (λ halt. halt ≡ Want) }
    {
        let variables = Vec::from_slice(self.alloc, &state.frame.variables)?;
        let result = state.frame.result;
        let outer = mem::replace(
            &mut state.frame,
            Frame {
                unit,
                variables,
                result,
            },
        );
        Ok(Waiting::Leaving(LeavingFrame::Within(outer)))
    }

    /// The call of a function from the unit whose code runs, by its name or otherwise.
    pub fn call_here(
        &self,
        state: &State<'p>,
        level: Level,
        function: u32,
        named: bool,
        arguments: Vec<Value<'p>>,
        place: Option<Value<'p>>,
    ) -> Task<'p>
        ensures { let p = self.now.program.now in task_of (table_of p) result ≡ calls (program_of p) (level_of level) (call_here named function (values_of arguments.entry.items) (option_map value_of place.entry) (state_of state.now).frame) }
    {
        let unit = state.frame.unit;
        let call = Call {
            function,
            caller: if named { Some(unit) } else { None },
            unit,
            reports: None,
            arguments,
            result: place,
        };
        Task::Call(CallTask::Calling(level.implicit, level.counted, call))
    }
}
