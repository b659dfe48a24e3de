ghost use Rattle.std.specs.Prelude.{◌≡◌, ◌+◌, ◌<◌, ◌≤◌, ◌^◌, ◌∷◌, ℕ, List, sum, OnOk};

use crate::shape::Shape;
use crate::stack::Stack;
use cx_outside::NoMemory;
use std::alloc::Global;

/// The counts of the constructs that are open.
#[derive(Drop)]
pub struct Counting {
    /// Of the innermost construct.
    pub innermost: u32,
    /// Of those around it, the innermost one last.
    pub outer: Stack,
    /// How many `(` stand behind the last `{`.
    pub opened: u32,
    /// How many `)` stand behind the last `{`.
    pub closed: u32,
    /// All counts together.
    pub total: u32,
    ghost summed: { total ≡ innermost + sum outer },
}

impl Counting {
    ghost use Rattle.cx_includes.specs.declared.shape.Shape.{Shape as Kind};
    ghost use Rattle.cx_includes.specs.OpenTokens.{Counts, no_counts, with_one, closed, behind};
    ghost use Rattle.cx_includes.specs.Counting.{counts_of, ended_unless, is_else_next, CountsUpTo};

    /// No construct is open.
    pub fn new(alloc: Global) -> Self
        ensures counts { counts_of result ≡ no_counts }
        ensures few { CountsUpTo result 0 }
    {
        Counting {
            innermost: 0,
            outer: Stack::new(alloc),
            opened: 0,
            closed: 0,
            total: 0,
        }
    }

    /// One more token stands in the innermost construct.
    fn add(&mut self)
        requires { self.old.total + 1 < 2 ^ 32 }
        ensures counts { counts_of self.new ≡ with_one (counts_of self.old) }
        ensures total { self.new.total ≡ self.old.total + 1 }
    {
        self.innermost += 1;
        self.total += 1;
    }

    /// A `{` opens a construct.
    fn enter(&mut self) -> Result<(), NoMemory>
        ensures counts { OnOk result (counts_of self.new ≡ record { innermost = 0; outer = self.old.innermost ∷ self.old.outer; opened = 0; closed = 0 }) }
        ensures total { OnOk result (self.new.total ≡ self.old.total) }
    {
        self.outer.push(self.innermost)?;
        self.innermost = 0;
        self.opened = 0;
        self.closed = 0;
        Ok(())
    }

    /// A `}` closes the innermost braces, if there are any.
    fn leave(&mut self)
        ensures counts { counts_of self.new ≡ closed (counts_of self.old) self.old.outer }
        ensures total { self.new.total ≤ self.old.total }
    {
        if let Some(count) = self.outer.pop() {
            self.total -= self.innermost;
            self.innermost = count;
        }
    }

    /// The innermost construct ends, unless it goes on.
    fn end(&mut self, goes_on: bool)
        ensures counts { counts_of self.new ≡ ended_unless goes_on (counts_of self.old) }
        ensures total { self.new.total ≤ self.old.total }
    {
        if !goes_on {
            self.total -= self.innermost;
            self.innermost = 0;
        }
    }

    /// Counts a token. `else_follows` says that the next one is an `else`.
    pub fn pass(&mut self, shape: Shape, else_follows: bool) -> Result<(), NoMemory>
        requires total { self.old.total + 1 < 2 ^ 32 }
        requires opened { self.old.opened + 1 < 2 ^ 32 }
        requires closed { self.old.closed + 1 < 2 ^ 32 }
        ensures counts { (next : List Kind) → else_follows ≡ is_else_next next → OnOk result (counts_of self.new ≡ behind shape next (with_one (counts_of self.old))) }
        ensures few { (tokens : ℕ) → CountsUpTo self.old tokens → OnOk result (CountsUpTo self.new (tokens + 1)) }
    {
        self.add();
        match shape {
            Shape::OpenBrace => self.enter()?,
            Shape::CloseBrace => {
                self.leave();
                self.end(else_follows);
            }
            Shape::OpenParen => self.opened += 1,
            Shape::CloseParen => self.closed += 1,
            Shape::Semicolon => {
                if self.opened <= self.closed {
                    self.end(else_follows);
                }
            }
            Shape::Else | Shape::Other => {}
        }
        Ok(())
    }
}
