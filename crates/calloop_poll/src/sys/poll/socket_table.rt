//! What is waited for under each key.
ghost use Rattle.std.specs.Prelude.{◌≡◌, [], ℕ, Some, OnOk, OnErr, slice_set, true};
ghost use Rattle.calloop_poll.specs.sys.Tables.{watched_at, is_in, with_key, without_key, indexed_at};
ghost use Rattle.calloop_slots.specs.Tokens.{slot_of_key};

use crate::sys::Watched;
use calloop_slots::token::slot_of_key;
use std::alloc::{AllocError, Global};
use std::collections::BTreeMap;
use std::marker::Model;

// The entry of a key.
#[derive(Clone, Copy, Debug)]
struct Indexed {
    key: u64,
    watched: Watched,
}

/// What is waited for under each key, in the order of the keys. The newest entry of each slot is found without a search, by an
/// index up to the highest slot that had a socket so far. The index never shrinks.
#[derive(Drop)]
pub struct SocketTable {
    by_key: BTreeMap<u64, Watched>,
    by_slot: Vec<Option<Indexed>>,
}

impl Model for SocketTable {
    ghost use Rattle.calloop_poll.specs.sys.Tables.{Table, IsIndexOf};

    ghost Value = { Table };

    ghost view = { λ t. t.by_key.entries };

    ghost invariant = { λ t. IsIndexOf t.by_slot.items t.by_key.entries };
}

// Puts this at the slot, if the index reaches so far.
fn put(by_slot: &mut Vec<Option<Indexed>>, slot: usize, indexed: Option<Indexed>)
    ensures { by_slot.new.items ≡ slice_set by_slot.old.items slot indexed }
{
    if slot < by_slot.len() {
        by_slot[slot] = indexed;
    }
}

// Makes the index reach up to this slot.
fn reach(by_slot: &mut Vec<Option<Indexed>>, slot: usize) -> Result<(), AllocError>
    ensures same { (other : ℕ)
        → indexed_at other by_slot.new.items ≡ indexed_at other by_slot.old.items }
{
    if slot >= by_slot.len() {
        by_slot.resize(slot.saturating_add(1), None)?;
    }
    Ok(())
}

impl SocketTable {
    /// Makes an empty table. It allocates nothing yet.
    pub fn new(alloc: Global) -> SocketTable
        ensures { result ≡ [] }
    {
        SocketTable {
            by_key: BTreeMap::new(alloc),
            by_slot: Vec::new(alloc),
        }
    }

    /// Returns what is waited for under this key.
    pub fn get(&self, key: u64) -> Option<Watched>
        ensures { result ≡ watched_at key self.now }
    {
        match self.by_slot.get(slot_of_key(key)) {
            Some(Some(indexed)) if indexed.key == key => Some(indexed.watched),
            _ => self.by_key.get(&key).copied(),
        }
    }

    /// True if exactly this is known to be waited for under the key, by a look at the index alone.
    #[inline(always)]
    pub fn has(&self, key: u64, watched: Watched) -> bool
        ensures there { result ≡ true → watched_at key self.now ≡ Some watched }
        ensures same { result ≡ true → with_key key watched self.now ≡ self.now }
    {
        // Its contract says that the keys ascend.
        let _ = self.by_key.len();
        match self.by_slot.get(slot_of_key(key)) {
            Some(Some(indexed)) => indexed.key == key && indexed.watched == watched,
            _ => false,
        }
    }

    /// Takes the key out of the index, so that `has` is false until its entry is next replaced by another. The table is unchanged.
    pub fn doubt(&mut self, key: u64)
        ensures { self.new ≡ self.old }
    {
        let slot = slot_of_key(key);
        put(&mut self.by_slot, slot, None);
    }

    /// True if anything is waited for under this key.
    pub fn contains_key(&self, key: u64) -> bool
        ensures { result ≡ is_in key self.now }
    {
        self.get(key).is_some()
    }

    /// Enters this under the key. Running out of memory leaves the table unchanged.
    pub fn insert(&mut self, key: u64, watched: Watched) -> Result<(), AllocError>
        ensures ok { OnOk result (self.new ≡ with_key key watched self.old) }
        ensures err { OnErr result (self.new ≡ self.old) }
    {
        let slot = slot_of_key(key);
        reach(&mut self.by_slot, slot)?;
        self.by_key.insert(key, watched)?;
        put(&mut self.by_slot, slot, Some(Indexed { key, watched }));
        Ok(())
    }

    /// Puts `watched` in place of `stood`, the key's entry so far. It takes no memory, and an equal entry isn't entered again.
    pub fn replace(&mut self, key: u64, stood: Watched, watched: Watched)
        requires { watched_at key self.old ≡ Some stood }
        ensures { self.new ≡ with_key key watched self.old }
    {
        // Its contract says that the keys ascend.
        let _ = self.by_key.len();
        if stood == watched {
            return;
        }
        if let Ok(_) = self.by_key.insert(key, watched) {
            put(
                &mut self.by_slot,
                slot_of_key(key),
                Some(Indexed { key, watched }),
            );
        }
    }

    /// Removes the entry of this key.
    pub fn remove(&mut self, key: u64)
        ensures { self.new ≡ without_key key self.old }
    {
        put(&mut self.by_slot, slot_of_key(key), None);
        self.by_key.remove(&key);
    }
}
