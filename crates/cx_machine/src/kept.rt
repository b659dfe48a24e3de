ghost use Rattle.std.specs.Prelude.{◌≡◌, None, OnOk, is_some};
ghost use Rattle.std.specs.Map.{count_at};
ghost use Rattle.cx_machine.specs.Kept.{counts_in, one_more, one_less, less};

use cx_frame::{Exception, Exceptions};
use cx_outside::NoMemory;
use std::alloc::Global;
use std::collections::BTreeMap;

/// How often each exception, by its number, is held or pending, so that no exceptions and no frames
/// are searched for one. To note or to drop one takes logarithmic time in the number of those that are.
#[derive(Debug, Drop)]
pub struct Kept {
    /// The counts, without those that are zero.
    counts: BTreeMap<u64, u64>,
}

impl Kept {
    /// Nothing is held or pending. Takes no memory.
    #[tactic(auto, unfolding(crate::specs::Kept::counts_in))]
    pub fn new(alloc: Global) -> Self
        ensures { (number : _) → counts_in result number ≡ None }
    {
        Kept {
            counts: BTreeMap::new(alloc),
        }
    }

    /// An exception is held or pending once more.
    pub fn note(&mut self, exception: Exception) -> Result<(), NoMemory>
        ensures { OnOk result (counts_in self.new ≡ one_more (counts_in self.old) exception.number) }
    {
        let number = exception.number;
        let count = self.count(number);
        // Each one that is counted is in memory, so that the count never gets there.
        let Some(more) = count.checked_add(1) else {
            return Err(NoMemory);
        };
        self.counts.insert(number, more)?;
        Ok(())
    }

    /// An exception is held or pending once less. The answer is whether it still is.
    pub fn drop_one(&mut self, exception: Exception) -> bool
        ensures less { counts_in self.new ≡ one_less (counts_in self.old) exception.number }
        ensures left { result ≡ is_some (counts_in self.new exception.number) }
    {
        let number = exception.number;
        let count = self.count(number);
        if count <= 1 {
            self.counts.remove(&number);
            return false;
        }
        match self.counts.insert(number, count - 1) {
            Ok(_) => true,
            // A count that is there already is changed in its place.
            Err(_) => unreachable!(),
        }
    }

    /// Takes the exceptions that are pending in a frame, mostly none: each is pending once less.
    #[inline(always)]
    pub fn drop_all(&mut self, pending: &mut Exceptions)
        ensures { counts_in self.new ≡ less (counts_in self.old) pending.old }
    {
        if !pending.is_empty() {
            self.drop_each(pending);
        }
    }

    // Kept out of the machine's loop.
    #[cold]
    #[inline(never)]
    fn drop_each(&mut self, pending: &mut Exceptions)
        ensures { counts_in self.new ≡ less (counts_in self.old) pending.old }
    {
        'exceptions: while let Some(exception) = pending.pop() {
            self.drop_one(exception);
        }
    }

    /// How often the exception with this number is held or pending.
    #[tactic(auto, unfolding(crate::specs::Kept::counts_in))]
    fn count(&self, number: u64) -> u64
        ensures { result ≡ count_at (counts_in self.now) number }
    {
        self.counts.get(&number).copied().unwrap_or(0)
    }
}
