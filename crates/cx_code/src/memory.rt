ghost use Rattle.std.specs.Prelude.{◌≡◌, ◌<◌, ◌≤◌, ◌^◌, Some, None, if◌then◌else◌, is_some, IfOk, OnOk, OnErr, IsSome, IsTrue};
ghost use Rattle.std.specs.Bool.{OnTrue, OnFalse};
ghost use Rattle.cx_code.specs.Store.{Store, made, ended, loaded, stored, copied};

use crate::Value;
use cx_outside::NoMemory;

/// The objects of a run, by their numbers. (This project's own; [intro.object] and [basic.life] are
/// what it stands for.)
pub trait Memory {
    /// The live objects with their leaves, and the number of the next one.
    ghost store: { Self → Store };

    /// Makes an object.
    ///
    /// `leaves` is how many leaves it has, from 1 to 256; they are unset. The result is its number,
    /// which was never used before. `NoMemory` comes for want of memory alone, and changes nothing.
    fn make(&mut self, leaves: u32) -> Result<u64, NoMemory>
        requires some { 1 ≤ leaves }
        requires few { leaves ≤ 256 }
        requires room { (store self.old).next < 2 ^ 63 }
        ensures number { IfOk result (λ number. number ≡ (store self.old).next) }
        ensures made { OnOk result (store self.new ≡ made (store self.old) leaves) }
        ensures err { OnErr result (store self.new ≡ store self.old) };

    /// Ends an object. The answer is false, and nothing is changed, exactly where no live object
    /// has this number.
    fn end(&mut self, number: u64) -> bool
        ensures live { result ≡ is_some ((store self.old).leaves number) }
        ensures ended { OnTrue result (store self.new ≡ ended (store self.old) number) }
        ensures dead { OnFalse result (store self.new ≡ store self.old) };

    /// What a leaf of an object holds.
    fn load(&self, number: u64, leaf: u32) -> Loaded
        ensures { result ≡ loaded (store self.now) number leaf };

    /// Writes a leaf of an object. The answer is false, and nothing is changed, exactly where no
    /// live object has this leaf.
    fn store(&mut self, number: u64, leaf: u32, value: Value) -> bool
        ensures stored { stored (store self.old) number leaf value ≡ (if result then Some (store self.new) else None) }
        ensures dead { OnFalse result (store self.new ≡ store self.old) };

    /// Copies a leaf to another, set or unset. The answer is false, and nothing is changed, exactly
    /// where no live object has one of them.
    fn copy(&mut self, from: (u64, u32), to: (u64, u32)) -> bool
        ensures copied { copied (store self.old) from to ≡ (if result then Some (store self.new) else None) }
        ensures dead { OnFalse result (store self.new ≡ store self.old) };
}

/// What a leaf of an object holds. (This project's own.)
#[derive(Clone, Copy, Debug, PartialEq, Eq)]
pub enum Loaded {
    /// A value.
    Value(Value),
    /// The leaf was never written.
    Unset,
    /// No live object has this leaf.
    Dead,
}
