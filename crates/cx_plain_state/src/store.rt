ghost use Rattle.std.specs.Prelude.{◌≡◌, ◌<◌, ◌≤◌, length, map, IfSome, IfOk, MatchResult, Ok, Err, None, replicate, slice_get, slice_set};
ghost use Rattle.std.specs.Bool.{OnTrue, OnFalse};
ghost use Rattle.std.specs.Option.{option_map};
ghost use Rattle.cx_core.specs.Outcome.{add, make, remove, read_leaf, read, write};
ghost use Rattle.cx_core.specs.Store.{leaf_at, written};
ghost use Rattle.cx_plain_state.specs.Place.{index_of, leaf_read};
ghost use Rattle.cx_plain_state.specs.Seen.{state_of, value_of, leaf_of, leaves_seen, object_of, address_of};
ghost use Rattle.cx_plain_state.specs.Ran.{Ran, unit_of, itself};

use crate::operators::undefined;
use crate::{Address, Halt, Object, State, Value};
use cx_code::Kind;
use std::alloc::{AllocError, Global};

/// The place of the first object with a number.
fn index_of(objects: &[Object<'_>], number: u64) -> Option<usize>
    ensures value { result ≡ index_of objects.now number }
    ensures within { IfSome result (λ i. i < length objects.now) }
{
    let (first, rest) = objects.split_first()?;
    if first.number == number {
        return Some(0);
    }
    Some(index_of(rest, number)? + 1)
}

/// A leaf of an object is set, where it has that leaf; the answer is whether it has.
fn set_leaf<'p>(object: &mut Object<'p>, index: u64, leaf: Option<Value<'p>>) -> bool
    ensures written { OnTrue result (object_of object.new ≡ record (object_of object.old) { leaves = slice_set (leaves_seen object.old.leaves.items) index (leaf_of leaf.entry) }) }
    ensures within { OnTrue result (index < length object.old.leaves.items) }
    ensures past { OnFalse result (length object.old.leaves.items ≤ index) }
{
    let index = index as usize;
    if index >= object.leaves.len() {
        return false;
    }
    object.leaves[index] = leaf;
    true
}

fn none_of<'p>(alloc: Global, count: usize) -> Result<Vec<Option<Value<'p>>>, AllocError>
    ensures { IfOk result (λ leaves. leaves.items ≡ replicate count None) }
{
    vec![in alloc; None; count]
}

fn unset<'p>(alloc: Global, count: usize) -> Result<Vec<Option<Value<'p>>>, AllocError>
    ensures { IfOk result (λ leaves. leaves_seen leaves.items ≡ replicate count None) }
{
    Ok(none_of(alloc, count)?)
}

fn nth<'p>(leaves: &[Option<Value<'p>>], index: u64) -> Option<Option<Value<'p>>>
    ensures { result ≡ slice_get leaves.now index }
{
    leaves.get(index as usize).copied()
}

/// The leaf at an address, set or unset, or the kind of what is undefined.
fn leaf_at<'p>(objects: &[Object<'p>], a: Address) -> Result<Option<Value<'p>>, Kind>
    ensures { leaf_read result ≡ leaf_at (map object_of objects.now) (address_of a) }
{
    match index_of(objects, a.object) {
        None => Err(Kind::Dead),
        Some(i) => match nth(&objects[i].leaves, a.leaf) {
            None => Err(Kind::Dead),
            Some(leaf) => Ok(leaf),
        },
    }
}

/// The leaf at an address is written, or the answer is the kind of what is undefined.
fn written<'p>(objects: &mut [Object<'p>], a: Address, leaf: Option<Value<'p>>) -> Result<(), Kind>
    ensures { MatchResult result (λ _. written (map object_of objects.old) (address_of a) (leaf_of leaf.entry) ≡ Ok (map object_of objects.new)) (λ kind. written (map object_of objects.old) (address_of a) (leaf_of leaf.entry) ≡ Err kind) }
{
    match index_of(objects, a.object) {
        None => Err(Kind::Dead),
        Some(i) => {
            if set_leaf(&mut objects[i], a.leaf, leaf) {
                Ok(())
            } else {
                Err(Kind::Dead)
            }
        }
    }
}

#[tactic(auto, unfolding(crate::specs::Seen::state_of, cx_core::specs::Outcome::either, cx_core::specs::Outcome::current_store, cx_core::specs::Outcome::gives, cx_core::specs::Outcome::ends, cx_core::specs::Outcome::write, cx_core::specs::Outcome::remove))]
impl<'p> State<'p> {
    /// A leaf, set or unset, at an address.
    pub fn read_leaf(&self, a: Address) -> Result<Option<Value<'p>>, Halt>
        ensures { Ran leaf_of (read_leaf (address_of a) (state_of self.now)) result (state_of self.now) }
    {
        match leaf_at(&self.objects, a) {
            Ok(leaf) => Ok(leaf),
            Err(kind) => Err(undefined(kind)),
        }
    }

    /// The value of the leaf at an address.
    pub fn read(&self, a: Address) -> Result<Value<'p>, Halt>
        ensures { Ran value_of (read (address_of a) (state_of self.now)) result (state_of self.now) }
    {
        match leaf_at(&self.objects, a) {
            Ok(Some(value)) => Ok(value),
            Ok(None) => Err(undefined(Kind::Unset)),
            Err(kind) => Err(undefined(kind)),
        }
    }

    /// The leaf at an address is written.
    pub fn write(&mut self, a: Address, leaf: Option<Value<'p>>) -> Result<(), Halt>
        ensures { Ran unit_of (write (address_of a) (leaf_of leaf.entry) (state_of self.old)) result (state_of self.new) }
    {
        match written(&mut self.objects, a, leaf) {
            Ok(()) => Ok(()),
            Err(kind) => Err(undefined(kind)),
        }
    }

    /// An object of so many leaves, all unset, is added under the next number.
    fn add(&mut self, alloc: Global, leaves: usize) -> Result<u64, Halt>
        ensures { Ran itself (add leaves (state_of self.old)) result (state_of self.new) }
    {
        let number = self.next;
        let Some(next) = number.checked_add(1) else {
            return Err(Halt::Want);
        };
        let leaves = unset(alloc, leaves)?;
        self.objects.insert(0, Object { number, leaves })?;
        self.next = next;
        Ok(number)
    }

    /// The object with a number is no longer in the store.
    pub fn remove(&mut self, number: u64)
        ensures { Ran unit_of (remove number (state_of self.old)) (Ok result) (state_of self.new) }
    {
        match index_of(&self.objects, number) {
            None => (),
            Some(i) => drop(self.objects.remove(i)),
        }
    }
}

#[tactic(auto, unfolding(cx_core::specs::Outcome::either, cx_core::specs::Outcome::gives, cx_core::specs::Outcome::ends))]
impl<'p> State<'p> {
    /// An object of so many leaves, all unset, is made under the next number; its unit is spent before there is one.
    pub fn make(&mut self, alloc: Global, leaves: usize) -> Result<u64, Halt>
        ensures { Ran itself (make leaves (state_of self.old)) result (state_of self.new) }
    {
        self.spend()?;
        self.add(alloc, leaves)
    }
}
