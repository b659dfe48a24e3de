ghost use Rattle.std.specs.Prelude.{◌≡◌, ◌==◌, Some, Ok, map, find};
ghost use Rattle.std.specs.Option.{option_copied};
ghost use Rattle.cx_core.specs.Outcome.{spend, append, current_frame, set_frame, current_living, set_living, current_temporaries, set_temporaries, current_held, set_held, keep, keep_temporary, make, remove};
ghost use Rattle.cx_core.specs.Operators.{named, bind};
ghost use Rattle.cx_plain_state.specs.Seen.{state_of, frame_of, event_of, value_of, living_of, livings_of, exception_of, exceptions_of, held_of, evaluation_of, not_begun};
ghost use Rattle.cx_plain_state.specs.Ran.{Ran, unit_of, itself};

use crate::{Answer, Evaluation, Event, Exception, Halt, Living, Value};
use cx_code::{Ending, Kind};
use std::alloc::Global;
use std::mem;

/// An object that lives [basic.life], by its number; a leaf without a value is unset.
#[derive(Drop)]
pub struct Object<'p> {
    pub number: u64,
    pub leaves: Vec<Option<Value<'p>>>,
}

/// What a variable or parameter denotes, by its slot. (This project's own.)
#[derive(Clone, Copy)]
pub struct Binding<'p> {
    pub slot: u32,
    pub value: Value<'p>,
}

/// The call that is active. (This project's own.)
#[derive(Drop)]
pub struct Frame<'p> {
    /// The unit whose code runs.
    pub unit: u32,
    /// The latest first.
    pub variables: Vec<Binding<'p>>,
    /// The place of the result object, or what a reference result refers to.
    pub result: Option<Value<'p>>,
}

/// A run as far as it has come. (This project's own.)
#[derive(Drop)]
pub struct State<'p> {
    /// The latest first.
    pub objects: Vec<Object<'p>>,
    /// The number of the next object.
    pub next: u64,
    pub frame: Frame<'p>,
    /// The live objects of the innermost scope, the latest first.
    pub living: Vec<Living>,
    /// The temporaries of the innermost full-expression, the latest first.
    pub temporaries: Vec<Living>,
    /// The exceptions that handlers hold, the innermost first.
    pub held: Vec<Exception>,
    /// The evaluations that are told, from the next one on.
    pub begins: &'p [Evaluation],
    /// The bytes of the input that aren't read yet.
    pub input: &'p [u8],
    /// The units of the budget that are left.
    pub budget: u64,
    /// The events so far, the latest last.
    pub trace: Vec<Event<'p>>,
}

#[tactic(auto, unfolding(crate::specs::Seen::state_of, cx_core::specs::Outcome::append, cx_core::specs::Outcome::current_frame, cx_core::specs::Outcome::set_frame, cx_core::specs::Outcome::current_living, cx_core::specs::Outcome::set_living, cx_core::specs::Outcome::current_temporaries, cx_core::specs::Outcome::set_temporaries, cx_core::specs::Outcome::current_held, cx_core::specs::Outcome::set_held, cx_core::specs::Outcome::either, cx_core::specs::Outcome::gives, cx_core::specs::Outcome::ends, cx_core::specs::Outcome::throws))]
impl<'p> State<'p> {
    /// A run that has not begun, with no objects: the evaluations that it is told, its input, and its budget. Takes no
    /// memory; its lists grow on the allocator.
    pub fn new(alloc: Global, begins: &'p [Evaluation], input: &'p [u8], budget: u64) -> Self
        ensures { state_of result ≡ not_begun (map evaluation_of begins.now) input.now budget }
    {
        State {
            objects: Vec::new(alloc),
            next: 1,
            frame: Frame {
                unit: 0,
                variables: Vec::new(alloc),
                result: None,
            },
            living: Vec::new(alloc),
            temporaries: Vec::new(alloc),
            held: Vec::new(alloc),
            begins,
            input,
            budget,
            trace: Vec::new(alloc),
        }
    }

    /// One unit of the budget is spent; the last one ends what is said of the run.
    pub fn spend(&mut self) -> Result<(), Halt>
        ensures { Ran unit_of (spend (state_of self.old)) result (state_of self.new) }
    {
        if self.budget < 2 {
            return Err(Halt::Over(Answer::Going));
        }
        self.budget -= 1;
        Ok(())
    }

    /// An event is added to the trace.
    pub fn append(&mut self, event: Event<'p>) -> Result<(), Halt>
        ensures { Ran unit_of (append (event_of event.entry) (state_of self.old)) result (state_of self.new) }
    {
        self.trace.push(event)?;
        Ok(())
    }

    /// The frame of the call that is active.
    pub fn frame(&self) -> &Frame<'p>
        ensures { Ran frame_of (current_frame (state_of self.now)) (Ok result.now) (state_of self.now) }
    {
        &self.frame
    }

    /// Another frame is set, and the one before is given.
    pub fn replace_frame(&mut self, frame: Frame<'p>) -> Frame<'p>
        ensures was { Ran frame_of (current_frame (state_of self.old)) (Ok result) (state_of self.old) }
        ensures is { Ran unit_of (set_frame (frame_of frame.entry) (state_of self.old)) (Ok result) (state_of self.new) }
    {
        mem::replace(&mut self.frame, frame)
    }

    /// What a name denotes, by its slot.
    pub fn named(&self, slot: u32) -> Result<Value<'p>, Halt>
        ensures { Ran value_of (named slot (state_of self.now)) result (state_of self.now) }
    {
        match binding_at(&self.frame.variables, slot) {
            Some(binding) => Ok(binding.value),
            None => Err(Halt::Over(Answer::Ended(Ending::Undefined(Kind::Mixed)))),
        }
    }

    /// A name denotes a value from here on.
    pub fn bind(&mut self, slot: u32, value: Value<'p>) -> Result<(), Halt>
        ensures { Ran unit_of (bind slot (value_of value.entry) (state_of self.old)) result (state_of self.new) }
    {
        self.frame.variables.insert(0, Binding { slot, value })?;
        Ok(())
    }

    /// Other objects are those of the innermost scope, and those before are given.
    pub fn replace_living(&mut self, living: Vec<Living>) -> Vec<Living>
        ensures was { Ran livings_of (current_living (state_of self.old)) (Ok result) (state_of self.old) }
        ensures is { Ran unit_of (set_living (livings_of living) (state_of self.old)) (Ok result) (state_of self.new) }
    {
        mem::replace(&mut self.living, living)
    }

    /// An object is kept by the innermost scope.
    pub fn keep(&mut self, living: Living) -> Result<(), Halt>
        ensures { Ran unit_of (keep (living_of living) (state_of self.old)) result (state_of self.new) }
    {
        self.living.insert(0, living)?;
        Ok(())
    }

    /// Other temporaries are those of the innermost full-expression, and those before are given.
    pub fn replace_temporaries(&mut self, temporaries: Vec<Living>) -> Vec<Living>
        ensures was { Ran livings_of (current_temporaries (state_of self.old)) (Ok result) (state_of self.old) }
        ensures is { Ran unit_of (set_temporaries (livings_of temporaries) (state_of self.old)) (Ok result) (state_of self.new) }
    {
        mem::replace(&mut self.temporaries, temporaries)
    }

    /// An object is kept by the innermost full-expression.
    pub fn keep_temporary(&mut self, living: Living) -> Result<(), Halt>
        ensures { Ran unit_of (keep_temporary (living_of living) (state_of self.old)) result (state_of self.new) }
    {
        self.temporaries.insert(0, living)?;
        Ok(())
    }

    /// Other exceptions are those that handlers hold, and those before are given.
    pub fn replace_held(&mut self, held: Vec<Exception>) -> Vec<Exception>
        ensures was { Ran exceptions_of (current_held (state_of self.old)) (Ok result) (state_of self.old) }
        ensures is { Ran unit_of (set_held (exceptions_of held) (state_of self.old)) (Ok result) (state_of self.new) }
    {
        mem::replace(&mut self.held, held)
    }

    /// The exceptions that handlers hold, the innermost first.
    pub fn held(&self) -> &[Exception]
        ensures { Ran held_of (current_held (state_of self.now)) (Ok result.now) (state_of self.now) }
    {
        &self.held
    }
}

fn binding_at<'a, 'p>(variables: &'a [Binding<'p>], slot: u32) -> Option<&'a Binding<'p>>
    ensures { option_copied result ≡ find (λ b. b.slot == slot) variables.now }
{
    variables.iter().find(|b| b.slot == slot)
}
