ghost use Rattle.std.specs.Prelude.{◌≡◌, ◌<◌, ◌≤◌, ◌-◌, ℕ, Some, None, if◌then◌else◌, replicate, slice_get, slice_set, length, IfOk, MatchOption};
ghost use Rattle.std.specs.Bool.{OnTrue, OnFalse};
ghost use Rattle.cx_code.specs.Blocks.{leaves_at};
ghost use Rattle.cx_code.specs.Store.{put_leaf};

use crate::{Loaded, Memory, Value};
use cx_outside::NoMemory;
use std::alloc::Global;

/// A memory that keeps each object in a block of its own, and finds it by its number at once. (This project's own.)
///
/// An object that has ended leaves its place in the list behind, as no number is used again, and so the list is as long
/// as objects were made.
#[derive(Debug, Drop)]
pub struct BlockMap {
    /// The leaves of each object that was made, that of number 1 first. One that is `None` has ended.
    objects: Vec<Option<Vec<Option<Value>>>>,
    alloc: Global,
}

impl BlockMap {
    ghost use Rattle.cx_code.specs.Store.{nothing_made, stored_leaf, leaf_at};
    ghost use Rattle.cx_code.specs.Blocks.{store_of};

    /// A memory with nothing made, whose next number is 1. It takes no memory from `alloc` until an
    /// object is made.
    pub fn new(alloc: Global) -> Self
        ensures { store_of result ≡ nothing_made }
    {
        BlockMap {
            objects: Vec::new(alloc),
            alloc,
        }
    }

    /// A leaf of a live object, set or unset.
    #[inline(always)]
    fn leaf(&self, number: u64, leaf: u32) -> Option<Option<Value>>
        ensures { result ≡ leaf_at (store_of self.now) number leaf }
    {
        let Some(leaves) = block_at(&self.objects, number) else {
            return None;
        };
        leaves.get(leaf as usize).copied()
    }

    /// Writes a leaf, if a live object has it.
    #[inline(always)]
    fn put(&mut self, number: u64, leaf: u32, value: Option<Value>) -> bool
        ensures stored { stored_leaf (store_of self.old) number leaf value ≡ (if result then Some (store_of self.new) else None) }
        ensures dead { OnFalse result (store_of self.new ≡ store_of self.old) }
    {
        if number == 0 || number > self.objects.len() as u64 {
            return false;
        }
        match &mut self.objects[(number - 1) as usize] {
            Some(leaves) => write_leaf(leaves, leaf, value),
            None => false,
        }
    }
}

/// Writes a leaf, if it is one of these.
#[inline(always)]
fn write_leaf(leaves: &mut [Option<Value>], leaf: u32, value: Option<Value>) -> bool
    ensures written { put_leaf (Some leaves.old) leaf value ≡ (if result then Some leaves.new else None) }
    ensures outside { OnFalse result (leaves.new ≡ leaves.old) }
{
    if (leaf as usize) < leaves.len() {
        leaves[leaf as usize] = value;
        true
    } else {
        false
    }
}

/// The leaves of the object of a number, if it is live.
#[inline(always)]
fn block_at(objects: &[Option<Vec<Option<Value>>>], number: u64) -> Option<&[Option<Value>]>
    ensures { MatchOption result (leaves_at objects.now number ≡ None) (λ leaves. leaves_at objects.now number ≡ Some leaves.now) }
{
    if number == 0 {
        return None;
    }
    match objects.get((number - 1) as usize) {
        Some(Some(leaves)) => Some(leaves),
        _ => None,
    }
}

fn unset(alloc: Global, count: u32) -> Result<Vec<Option<Value>>, NoMemory>
    ensures { IfOk result (λ leaves. leaves.items ≡ replicate count None) }
{
    Ok(vec![in alloc; None; count as usize]?)
}

impl Memory for BlockMap {
    ghost use Rattle.cx_code.specs.Blocks.{store_of};

    ghost store = { store_of };

    fn make(&mut self, leaves: u32) -> Result<u64, NoMemory> {
        let object = unset(self.alloc, leaves)?;
        self.objects.push(Some(object))?;
        Ok(self.objects.len() as u64)
    }

    fn end(&mut self, number: u64) -> bool {
        if number == 0 {
            return false;
        }
        match self.objects.get_mut((number - 1) as usize) {
            Some(object) => object.take().is_some(),
            None => false,
        }
    }

    #[inline(always)]
    fn load(&self, number: u64, leaf: u32) -> Loaded {
        match self.leaf(number, leaf) {
            Some(Some(value)) => Loaded::Value(value),
            Some(None) => Loaded::Unset,
            None => Loaded::Dead,
        }
    }

    #[inline(always)]
    fn store(&mut self, number: u64, leaf: u32, value: Value) -> bool {
        self.put(number, leaf, Some(value))
    }

    fn copy(&mut self, from: (u64, u32), to: (u64, u32)) -> bool {
        match self.leaf(from.0, from.1) {
            Some(value) => self.put(to.0, to.1, value),
            None => false,
        }
    }
}
