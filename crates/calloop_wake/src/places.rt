//! The open places of a board, found by their keys.
ghost use Rattle.std.specs.Prelude.{◌≡◌, ◌+◌, ◌-◌, ◌<◌, ◌≤◌, ◌^◌, [], ℕ, None, Some, is_some, IsSome, true, false, length, OnOk, IfErr, slice_set, slice_index_or};
ghost use Rattle.std.specs.Ordering.{nat_cmp};
ghost use Rattle.std.specs.BTreeMap.{insert_entry, is_at};
ghost use Rattle.std.specs.Map.{remove_entry, keys_of};
ghost use Rattle.calloop_wake.specs.Posts.{standing_at, is_quiet, posted_at, by_slot_at, IsFree, Changes};
ghost use Rattle.calloop_slots.specs.Tokens.{slot_of_key};
ghost use Rattle.calloop_wake.specs.declared.board.OpenRefusal.TheVariants.{OutOfMemory};

use super::board::OpenRefusal;
use calloop_slots::steps::Steps;
use calloop_slots::token::slot_of_key;
use std::alloc::{AllocError, Global};
use std::collections::BTreeMap;
use std::marker::Model;

// An open key, and its position among the posted ones, if it is posted.
#[derive(Clone, Copy, Debug)]
struct SlotKey {
    key: u64,
    at: Option<usize>,
}

/// For each open key, its position among the posted keys, if it is posted. No call walks them, and each that finds one without a
/// change of the open keys ticks. One key of each slot is stored by its slot, and found without a search.
#[derive(Drop)]
pub(crate) struct Places {
    by_key: BTreeMap<u64, Option<usize>>,
    // Up to the highest slot that had an open key so far. The entry here counts, and not the map's.
    by_slot: Vec<Option<SlotKey>>,
}

impl Model for Places {
    ghost use Rattle.std.specs.Prelude.{ℕ, List, Option};
    ghost use Rattle.calloop_wake.specs.Posts.{with_slots, AreOpen};

    ghost Value = { List (ℕ × Option ℕ) };

    ghost view = { λ p. with_slots p.by_slot.items p.by_key.entries };

    ghost invariant = { λ p. AreOpen p.by_slot.items p.by_key.entries };
}

// The entry of a key at its slot.
fn by_slot_at(by_slot: &Vec<Option<SlotKey>>, key: u64) -> Option<Option<usize>>
    ensures { result ≡ by_slot_at key by_slot.now.items }
{
    match by_slot.get(slot_of_key(key)) {
        Some(Some(here)) if here.key == key => Some(here.at),
        _ => None,
    }
}

// Writes this at the slot of a key, if the slots reach that far.
fn put(by_slot: &mut Vec<Option<SlotKey>>, key: u64, here: Option<SlotKey>)
    ensures { by_slot.new.items ≡ slice_set by_slot.old.items (slot_of_key key) here }
{
    let slot = slot_of_key(key);
    if slot < by_slot.len() {
        by_slot[slot] = here;
    }
}

// Makes the slots reach as far as that of a key.
fn reach(by_slot: &mut Vec<Option<SlotKey>>, key: u64) -> Result<(), AllocError>
    ensures { (slot : ℕ) → slice_index_or by_slot.new.items slot None
        ≡ slice_index_or by_slot.old.items slot None }
{
    let slot = slot_of_key(key);
    if slot >= by_slot.len() {
        by_slot.resize(slot.saturating_add(1), None)?;
    }
    Ok(())
}

// True if the slot of a key stores no other one.
fn is_free(by_slot: &Vec<Option<SlotKey>>, key: u64) -> bool
    ensures free { result ≡ true → IsFree key by_slot.now.items }
    ensures taken { result ≡ false → by_slot_at key by_slot.now.items ≡ None }
{
    match by_slot.get(slot_of_key(key)) {
        Some(Some(here)) => here.key == key,
        _ => true,
    }
}

impl Places {
    pub(crate) fn new(alloc: Global) -> Places
        ensures { result ≡ [] }
    {
        Places {
            by_key: BTreeMap::new(alloc),
            by_slot: Vec::new(alloc),
        }
    }

    pub(crate) fn len(&self) -> usize
        ensures len { result ≡ length self.now }
        ensures small { result < 2 ^ 63 }
    {
        self.by_key.len()
    }

    /// Opens a place for a key that has none. Without memory all is unchanged.
    pub(crate) fn open(&mut self, key: u64) -> Result<(), OpenRefusal>
        ensures ok { OnOk result ((self.new ≡ insert_entry nat_cmp self.old key None)
            × Changes key (Some None) self.old self.new) }
        ensures len { length self.new ≤ length self.old + 1 }
        ensures err { IfErr result (λ e. (e ≡ OutOfMemory) × (self.new ≡ self.old)) }
    {
        let Ok(()) = reach(&mut self.by_slot, key) else {
            return Err(OpenRefusal::OutOfMemory);
        };
        let Ok(_) = self.by_key.insert(key, None) else {
            return Err(OpenRefusal::OutOfMemory);
        };
        if is_free(&self.by_slot, key) {
            put(&mut self.by_slot, key, Some(SlotKey { key, at: None }));
        }
        Ok(())
    }

    /// Closes the place of a key, and returns its position among the posted keys.
    pub(crate) fn close(&mut self, key: u64) -> Option<usize>
        ensures value { result ≡ posted_at (standing_at key self.old) }
        ensures entries { self.new ≡ remove_entry (is_at (nat_cmp key)) self.old }
        ensures updates { Changes key None self.old self.new }
        ensures len { length self.new ≤ length self.old }
    {
        // Its contract says that the keys ascend.
        let _ = self.by_key.len();
        let stood = self.by_key.remove(&key)?;
        match by_slot_at(&self.by_slot, key) {
            Some(at) => {
                put(&mut self.by_slot, key, None);
                at
            }
            None => stood,
        }
    }

    /// True if a key has a place.
    pub(crate) fn is_open(&self, key: u64, steps: &mut Steps) -> bool
        requires { steps.old < 2 ^ 64 - 1 }
        ensures value { result ≡ is_some (standing_at key self.now) }
        ensures steps { steps.new ≡ steps.old + 1 }
    {
        steps.tick();
        by_slot_at(&self.by_slot, key).is_some() || self.by_key.contains_key(&key)
    }

    /// True if a key has a place and isn't posted.
    pub(crate) fn is_quiet(&self, key: u64, steps: &mut Steps) -> bool
        requires { steps.old < 2 ^ 64 - 1 }
        ensures value { result ≡ is_quiet (standing_at key self.now) }
        ensures steps { steps.new ≡ steps.old + 1 }
    {
        steps.tick();
        if let Some(at) = by_slot_at(&self.by_slot, key) {
            return at.is_none();
        }
        match self.by_key.get(&key) {
            Some(at) => at.is_none(),
            None => false,
        }
    }

    /// Notes the position of a key among the posted ones at its place.
    pub(crate) fn note(&mut self, key: u64, at: Option<usize>, steps: &mut Steps)
        requires { steps.old < 2 ^ 64 - 1 }
        ensures updates { IsSome (standing_at key self.old)
            → Changes key (Some at) self.old self.new }
        ensures keys { keys_of self.new ≡ keys_of self.old }
        ensures len { length self.new ≡ length self.old }
        ensures steps { steps.new ≡ steps.old + 1 }
    {
        steps.tick();
        if by_slot_at(&self.by_slot, key).is_some() {
            put(&mut self.by_slot, key, Some(SlotKey { key, at }));
        } else if let Some(place) = self.by_key.get_mut(&key) {
            *place = at;
        }
    }
}
