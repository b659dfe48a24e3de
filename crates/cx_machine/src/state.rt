ghost use Rattle.std.specs.Prelude.{◌≡◌, ◌++◌, [], ◌∷◌, OnOk, OnErr, MatchOption};
ghost use Rattle.cx_frame.specs.Frames.{frame_in};

use crate::kept::Kept;
use cx_code::{DetectionMode, Semantic};
use cx_frame::{Exception, Exceptions, Frame};
use cx_outside::{Items, NoMemory};
use std::alloc::Global;
use std::marker::Model;

/// A run between two steps, but for its memory.
#[derive(Debug, Drop)]
pub struct Machine {
    /// The last frame.
    pub frame: Frame,
    /// The frames below it.
    pub below: Frames,
    /// The exceptions that are held.
    pub held: Exceptions,
    /// How often each exception is held, or pending in a frame.
    pub kept: Kept,
    /// The violations that a handler can ask about, in the order in which they were made.
    pub violations: Items<Violated>,
    /// How many exceptions were thrown.
    pub thrown: u64,
    /// What is left of the input.
    pub input: Input,
    /// The exception that is unwound, if one is; otherwise the last frame runs.
    pub unwinding: Option<Exception>,
    /// Of the regions of the last frame the one that was tried last, if there is one.
    pub after: Option<u32>,
    /// How many frames count for the depth.
    pub counted: u32,
}

/// A violation that a handler can ask about.
#[derive(Clone, Copy, Debug)]
pub struct Violated {
    pub assertion: u32,
    pub mode: DetectionMode,
    pub semantic: Semantic,
}

impl Model for Violated {
    ghost use Rattle.cx_code.specs.State.{Violated as Asked};

    ghost Value = { Asked };

    ghost view = { λ it. record { assertion = it.assertion; mode = it.mode; semantic = it.semantic } };

    ghost inverse = { λ it. record { assertion = it.assertion; mode = it.mode; semantic = it.semantic } };
}

/// The frames that wait, which contracts see with the next one first.
#[derive(Debug, Drop)]
pub struct Frames {
    frames: Vec<Frame>,
}

impl Model for Frames {
    ghost use Rattle.std.specs.Prelude.{List, map, reverse};
    ghost use Rattle.cx_code.specs.State.{Frame as Waiting};

    ghost Value = { List Waiting };

    ghost use Rattle.cx_frame.specs.Frames.{frame_in};

    ghost view = { λ it. map frame_in (reverse it.frames.items) };
}

impl Frames {
    pub fn new(alloc: Global) -> Self
        ensures { result ≡ [] }
    {
        Frames {
            frames: Vec::new(alloc),
        }
    }

    // Kept out of the machine's loop, as the frames' other calls are.
    #[inline(never)]
    pub fn push(&mut self, frame: Frame) -> Result<(), NoMemory>
        ensures { OnOk result (self.new ≡ frame_in frame ∷ self.old) }
    {
        self.frames.push(frame)?;
        Ok(())
    }

    #[inline(never)]
    pub fn pop(&mut self) -> Option<Frame>
        ensures { MatchOption result ((self.old ≡ []) × (self.new ≡ [])) (λ frame. self.old ≡ frame_in frame ∷ self.new) }
    {
        self.frames.pop()
    }
}

/// The input, which contracts see as what is left of it.
#[derive(Debug, Drop)]
pub struct Input {
    bytes: Vec<u8>,
    place: usize,
}

impl Model for Input {
    ghost use Rattle.std.specs.Prelude.{List, ℕ, drop};

    ghost Value = { List ℕ };

    ghost view = { λ it. drop it.place it.bytes.items };
}

impl Input {
    pub fn new(bytes: Vec<u8>) -> Self
        ensures { result ≡ bytes.items }
    {
        Input { bytes, place: 0 }
    }

    /// The next byte, which is taken, if one is left.
    #[inline(always)]
    pub fn take(&mut self) -> Option<u8>
        ensures { MatchOption result ((self.old ≡ []) × (self.new ≡ [])) (λ byte. self.old ≡ byte ∷ self.new) }
    {
        if self.place < self.bytes.len() {
            let byte = self.bytes[self.place];
            self.place += 1;
            Some(byte)
        } else {
            None
        }
    }
}
