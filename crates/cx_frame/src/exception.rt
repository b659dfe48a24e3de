ghost use Rattle.std.specs.Prelude.{◌≡◌, ◌≢◌, [], ◌∷◌, OnOk, OnErr, MatchOption};
ghost use Rattle.std.specs.Bool.{OnTrue, OnFalse};

use cx_outside::NoMemory;
use std::alloc::Global;
use std::marker::Model;

/// An exception ([except.throw]): which throw of the run it is, its type, and the address of its object. (This
/// project's own.)
#[derive(Clone, Copy, Debug)]
pub struct Exception {
    /// Which throw it is, counted from 0.
    pub number: u64,
    /// The index of its type.
    pub of: u32,
    /// The number of its object.
    pub object: u64,
    /// The leaf of its address.
    pub leaf: u32,
}

impl Model for Exception {
    ghost use Rattle.cx_code.specs.State.{Exception as Thrown};

    ghost Value = { Thrown };

    ghost view = { λ it. record { number = it.number; of = it.of; object = it.object; leaf = it.leaf } };

    ghost inverse = { λ it. record { number = it.number; of = it.of; object = it.object; leaf = it.leaf } };
}

/// Exceptions that are held or pending, which contracts see with the last one first. (This project's own.)
#[derive(Debug, Drop)]
pub struct Exceptions {
    exceptions: Vec<Exception>,
}

impl Model for Exceptions {
    ghost use Rattle.std.specs.Prelude.{List, reverse};
    ghost use Rattle.cx_code.specs.State.{Exception as Thrown};

    ghost Value = { List Thrown };

    ghost view = { λ it. reverse it.exceptions.items };
}

impl Exceptions {
    /// No exceptions. Takes no memory.
    pub fn new(alloc: Global) -> Self
        ensures { result ≡ [] }
    {
        Exceptions {
            exceptions: Vec::new(alloc),
        }
    }

    /// Adds an exception, which is the last one then. After `NoMemory` they are as before.
    pub fn push(&mut self, exception: Exception) -> Result<(), NoMemory>
        ensures ok { OnOk result (self.new ≡ exception ∷ self.old) }
        ensures err { OnErr result (self.new ≡ self.old) }
    {
        self.exceptions.push(exception)?;
        Ok(())
    }

    /// Takes the last exception, if there is one.
    pub fn pop(&mut self) -> Option<Exception>
        ensures { MatchOption result ((self.old ≡ []) × (self.new ≡ [])) (λ exception. self.old ≡ exception ∷ self.new) }
    {
        self.exceptions.pop()
    }

    /// The last exception, if there is one.
    pub fn last(&self) -> Option<Exception>
        ensures { MatchOption result (self.now ≡ []) (λ exception. (below : _) × (self.now ≡ exception ∷ below)) }
    {
        self.exceptions.last().copied()
    }

    /// Takes the last exception.
    pub fn take(&mut self) -> Exception
        requires { self.old ≢ [] }
        ensures { self.old ≡ result ∷ self.new }
    {
        self.exceptions.pop().unwrap()
    }

    /// Whether there is none.
    #[inline(always)]
    pub fn is_empty(&self) -> bool
        ensures none { OnTrue result (self.now ≡ []) }
        ensures some { OnFalse result (self.now ≢ []) }
    {
        self.exceptions.is_empty()
    }
}
