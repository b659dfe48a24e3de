ghost use Rattle.std.specs.Prelude.{◌≡◌, ◌+◌, ◌≤◌, ◌<◌, ◌^◌, length, IfOk, IfErr, OnOk, None, Some, IfSome, slice_get, ◌∷◌, ◌-◌, pos};
ghost use Rattle.cx_code.specs.declared.image.Image.{Image};
ghost use Rattle.cx_code.specs.declared.operation.Operation.TheVariants as does;
ghost use Rattle.cx_code.specs.Store.{Store};
ghost use Rattle.cx_code.specs.Act.{act, field_value, semantic_code, mode_code};
ghost use Rattle.cx_frame.specs.Made.{IsMade, IsStop};
ghost use Rattle.cx_machine.specs.States.{state_of, IsCounted, Keeps};
ghost use Rattle.cx_code.specs.declared.image.Function.{Function};
ghost use Rattle.cx_code.specs.State.{Violated as Asked};
ghost use Rattle.std.specs.List.{All};
ghost use Rattle.cx_code.specs.declared.run.Value.TheVariants.{Number};
ghost use Rattle.cx_code.specs.Spelling.{kind_code};

use crate::numbered::numbered;
use crate::state::{Machine, Violated};
use cx_code::{
    Assertion, AssertionKind, DetectionMode, Event, Image, Semantic, Value, ViolationField,
};
use cx_frame::{Acted, Stop, take_number};
use std::alloc::Global;

// Codes 46 and 47.
impl Machine {
    /// An assertion is violated: the handler is called with the violation's number. The default handler needs no frame.
    #[inline(always)]
    pub fn violate(
        &mut self,
        alloc: Global,
        image: &Image,
        assertion: u32,
        mode: DetectionMode,
        semantic: Semantic,
    ) -> Acted
        requires room { self.old.frame.place + 1 < 2 ^ 32 }
        requires counted { IsCounted image.now self.old }
        requires within { 1 ≤ image.now.handler → image.now.handler - 1 < length image.now.functions }
        requires slots { 1 ≤ image.now.handler → IfSome (slice_get image.now.functions (image.now.handler - 1)) (λ (handler : Function). 1 ≤ handler.slots) }
        ensures ok { (store : Store) → IfOk result (λ event. IsMade (act image.now (does.Violate assertion mode semantic) (state_of self.old store)) (state_of self.new store) event) }
        ensures err { (store : Store) → IfErr result (λ stop. IsStop stop (act image.now (does.Violate assertion mode semantic) (state_of self.old store))) }
        ensures keeps { OnOk result (Keeps image.now self.old self.new) }
    {
        let argument = number_after(self.violations.items());
        self.violations.push(Violated {
            assertion,
            mode,
            semantic,
        })?;
        let event = Event::Handler(assertion, mode, semantic);
        if image.handler == 0 {
            self.frame.place += 1;
            return Ok(Some(event));
        }
        self.enter_with(alloc, image, image.handler - 1, argument, Some(event))
    }

    /// Takes the number of a violation, and gives what a handler asks of it.
    #[inline(always)]
    pub fn ask(&mut self, image: &Image, field: ViolationField) -> Acted
        requires room { self.old.frame.place + 1 < 2 ^ 32 }
        requires some { 1 ≤ length self.old.frame.operands }
        requires assertions { All (λ (asked : Asked). asked.assertion < length image.now.assertions) self.old.violations }
        ensures ok { (store : Store) → IfOk result (λ event. IsMade (act image.now (does.Field field) (state_of self.old store)) (state_of self.new store) event) }
        ensures err { (store : Store) → IfErr result (λ stop. IsStop stop (act image.now (does.Field field) (state_of self.old store))) }
        ensures keeps { OnOk result (Keeps image.now self.old self.new) }
    {
        let Some(number) = take_number(&mut self.frame.operands) else {
            return Err(Stop::MIXED);
        };
        let Some(violated) = numbered(self.violations.items(), number) else {
            return Err(Stop::MIXED);
        };
        let assertion = assertion_at(image, violated.assertion);
        let value = field_value(field, *violated, assertion);
        self.frame.give(Value::Number(i128::from(value)))
    }
}

/// The number of the next violation.
fn number_after(violations: &[Violated]) -> Value
    ensures { result ≡ Number (pos (length violations.now)) }
{
    Value::Number(violations.len() as i128)
}

/// The assertion of this index.
fn assertion_at(image: &Image, index: u32) -> &Assertion
    requires { index < length image.now.assertions }
    ensures { slice_get image.now.assertions index ≡ Some result.now }
{
    &image.assertions.items()[index as usize]
}

fn field_value(field: ViolationField, violated: Violated, assertion: &Assertion) -> u32
    ensures { result ≡ field_value field violated assertion.now }
{
    match field {
        ViolationField::Kind => kind_code(assertion.kind),
        ViolationField::Semantic => semantic_code(violated.semantic),
        ViolationField::Mode => mode_code(violated.mode),
        ViolationField::Line => assertion.line,
        ViolationField::Column => assertion.column,
        ViolationField::Comment => assertion.comment,
    }
}

fn kind_code(kind: AssertionKind) -> u32
    ensures { result ≡ kind_code kind }
{
    match kind {
        AssertionKind::Pre => 1,
        AssertionKind::Post => 2,
        AssertionKind::Assert => 3,
    }
}

fn semantic_code(semantic: Semantic) -> u32
    ensures { result ≡ semantic_code semantic }
{
    match semantic {
        Semantic::Ignore => 1,
        Semantic::Observe => 2,
        Semantic::Enforce => 3,
        Semantic::QuickEnforce => 4,
    }
}

fn mode_code(mode: DetectionMode) -> u32
    ensures { result ≡ mode_code mode }
{
    match mode {
        DetectionMode::PredicateFalse => 1,
        DetectionMode::EvaluationException => 2,
    }
}
