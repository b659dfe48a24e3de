ghost use Rattle.std.specs.Prelude.{◌≡◌, ◌≤◌, [], ◌∷◌, ◌++◌, length, take, drop, reverse, IfOk, OnOk, OnErr};
ghost use Rattle.std.specs.Bool.{OnTrue, OnFalse};
ghost use Rattle.cx_code.specs.declared.run.Value.TheVariants.{Null};
ghost use Rattle.cx_code.specs.State.{slots_of};
ghost use Rattle.cx_code.specs.Unwind.{cut};

use cx_code::Value;
use cx_outside::NoMemory;
use std::alloc::Global;
use std::marker::Model;

/// The operands of a frame, which contracts see with the last one first. (This project's own.)
///
/// The list of values only grows: those up to `top` are operands, and the others are left from before. So an operand is
/// mostly given and taken without a call.
#[derive(Debug, Drop)]
pub struct Operands {
    values: Vec<Value>,
    top: usize,
}

impl Model for Operands {
    ghost use Rattle.std.specs.Prelude.{List, reverse, take, vec_len, ◌≤◌};
    ghost use Rattle.cx_code.specs.declared.run.Value.{Value as Operand};

    ghost Value = { List Operand };

    ghost view = { λ operands. reverse (take operands.top operands.values.items) };

    ghost invariant = { λ operands. operands.top ≤ vec_len operands.values };
}

impl Operands {
    /// No operands. Takes no memory.
    pub fn new(alloc: Global) -> Self
        ensures { result ≡ [] }
    {
        Operands {
            values: Vec::new(alloc),
            top: 0,
        }
    }

    /// Adds an operand, which is the last one then. After `NoMemory` they are as before.
    #[inline(always)]
    pub fn push(&mut self, value: Value) -> Result<(), NoMemory>
        ensures ok { OnOk result (self.new ≡ value ∷ self.old) }
        ensures err { OnErr result (self.new ≡ self.old) }
    {
        if self.top == self.values.len() && !has_grown(&mut self.values) {
            return Err(NoMemory);
        }
        self.values[self.top] = value;
        self.top += 1;
        Ok(())
    }

    /// Takes the last operand.
    #[inline(always)]
    pub fn pop(&mut self) -> Value
        requires { 1 ≤ length self.old }
        ensures { self.old ≡ result ∷ self.new }
    {
        self.top -= 1;
        self.values[self.top]
    }

    /// The last operand.
    #[inline(always)]
    pub fn last(&self) -> Value
        requires { 1 ≤ length self.now }
        ensures { self.now ≡ result ∷ drop 1 self.now }
    {
        self.values[self.top - 1]
    }

    /// Keeps the lowest operands, so many.
    pub fn cut(&mut self, depth: u32)
        ensures { self.new ≡ cut depth self.old }
    {
        if (depth as usize) < self.top {
            self.top = depth as usize;
        }
    }

    /// Takes the last operands, so many, into the first of some slots, in their order; the other slots are empty.
    /// After `NoMemory` they are as before.
    pub fn take_arguments(
        &mut self,
        alloc: Global,
        count: u32,
        slots: u32,
    ) -> Result<Vec<Option<Value>>, NoMemory>
        requires enough { count ≤ length self.old }
        requires room { count ≤ slots }
        ensures slots { IfOk result (λ made. made.items ≡ slots_of slots (reverse (take count self.old))) }
        ensures rest { OnOk result (self.new ≡ drop count self.old) }
    {
        let start = self.top - count as usize;
        let made = slots_with(alloc, &self.values[start..self.top], slots as usize)?;
        self.top = start;
        Ok(made)
    }
}

/// Makes a list of values longer by one. The answer is false, and nothing is changed, where there is no memory.
#[cold]
#[inline(never)]
fn has_grown(values: &mut Vec<Value>) -> bool
    ensures longer { OnTrue result (values.new.items ≡ values.old.items ++ Null ∷ []) }
    ensures same { OnFalse result (values.new.items ≡ values.old.items) }
{
    match values.push(Value::Null) {
        Ok(()) => true,
        Err(_) => false,
    }
}

/// The arguments, and then empty slots.
fn slots_with(
    alloc: Global,
    arguments: &[Value],
    slots: usize,
) -> Result<Vec<Option<Value>>, NoMemory>
    requires { length arguments.now ≤ slots }
    ensures { IfOk result (λ made. made.items ≡ slots_of slots arguments.now) }
{
    let mut made = Vec::with_capacity(alloc, slots)?;
    for value in arguments {
        made.push(Some(*value))?;
    }
    for _empty in arguments.len()..slots {
        made.push(None)?;
    }
    Ok(made)
}
