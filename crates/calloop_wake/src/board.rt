//! The board: one place for each open key, marked while the key is posted. Its watch notes each look at it and each taking of
//! its keys.
ghost use Rattle.std.specs.Prelude.{ℕ, nat_eq, IsSome, drop, ◌≡◌, ◌≤◌, ◌+◌, ◌++◌, ◌∷◌, ◌<◌, ◌-◌, ◌^◌, [], false, true, not, map, length, is_ok, is_some, Err, OnOk, IfErr, MatchResult, if◌then◌else◌};
ghost use Rattle.std.specs.VecDeque.{deque_len, deque_capacity};
ghost use Rattle.std.specs.Vec.{vec_capacity};
ghost use Rattle.calloop_wake.specs.Posts.{places_of, posted_keys, standing_at, index_of, place_after, IsBoard};
ghost use Rattle.std.specs.List.{list_any, IsDistinct};
ghost use Rattle.std.specs.Map.{keys_of};
ghost use Rattle.calloop_wake.specs.Boards.{is_open, any_marked, wakes, after_open_place, after_close_place, after_post, after_unpost, bound, keys_within, fresh_pass, IsRising};
ghost use Rattle.calloop_wake.specs.Watches.{with_note, with_places};
ghost use Rattle.calloop_wake.specs.declared.board.OpenRefusal.TheVariants.{AlreadyExists, OutOfMemory};
ghost use Rattle.calloop_wake.specs.declared.notes.Note.TheVariants.{Looked, Unposted};

use super::ghosts::{Name, Notes};
use super::locked::Core;
use super::marking::MarkingRight;
use super::notes::LentBoardNote;
use super::places::Places;
use super::watch::{OpenPlaces, Watch};
use super::{ClosePermit, Debt, Last, OpenedPass, SleepPermit, TakenPass, Wakeup};
use calloop_slots::steps::Steps;
use counted_slot::Fits;
use std::alloc::Global;
use std::collections::VecDeque;
use std::marker::Model;

/// The place of a key on the board.
#[derive(Clone, Copy, Debug, PartialEq, Eq)]
pub struct Place {
    /// The key.
    pub key: u64,
    /// True if the key is posted.
    pub marked: bool,
}

/// Why a place couldn't be opened.
#[derive(Clone, Copy, Debug, PartialEq, Eq)]
pub enum OpenRefusal {
    /// The key has a place already.
    AlreadyExists,
    /// There was no memory left for a place.
    OutOfMemory,
}

/// The open places and the posted keys, under the name that the board shares with its watch. In calloop the kernel's poller keeps
/// such a table. Has no `Drop`: the lock around a board ends it at its last drop.
pub struct Board {
    places: Places,
    // Unordered, with room for all keys that have a place.
    posted: Vec<u64>,
    name: Name,
}

impl Model for Board {
    ghost use Rattle.std.specs.Vec.{vec_capacity};
    ghost use Rattle.calloop_wake.specs.Posts.{places_of, IsBoard};
    ghost use Rattle.calloop_wake.specs.Watches.{Watched};

    ghost Value = { Watched };

    ghost view = { λ b. record { places = places_of b.places; name = b.name } };

    ghost invariant = { λ b. IsBoard b.places b.posted.items (vec_capacity b.posted) };
}

impl Fits for Board {
    ghost use Rattle.std.specs.Prelude.{◌≡◌};

    type Tag = Name;

    ghost fits = { λ tag board. board.name ≡ tag };
}

impl Core for Board {
    fn dissolve(self, last: Last) {
        let Last { of_wake: _ } = last;
        let Board {
            places: _,
            posted: _,
            name: _,
        } = self;
    }
}

// Makes room for this many posted keys.
fn make_room(posted: &mut Vec<u64>, keys: usize) -> Result<(), OpenRefusal>
    ensures items { posted.new.items ≡ posted.old.items }
    ensures capacity { vec_capacity posted.old ≤ vec_capacity posted.new }
    ensures ok { OnOk result (keys ≤ vec_capacity posted.new) }
    ensures err { IfErr result (λ e. e ≡ OutOfMemory) }
{
    match posted.reserve(keys.saturating_sub(posted.len())) {
        Ok(()) => Ok(()),
        Err(_) => Err(OpenRefusal::OutOfMemory),
    }
}

// Closes the place of a key.
fn close(places: &mut Places, posted: &mut Vec<u64>, key: u64)
    requires { IsBoard places.old posted.old.items (vec_capacity posted.old) }
    ensures places { places_of places.new ≡ after_close_place key (places_of places.old) }
    ensures board { IsBoard places.new posted.new.items (vec_capacity posted.new) }
{
    if let Some(at) = places.close(key) {
        posted.swap_remove(at);
        if at < posted.len() {
            places.note(posted[at], Some(at), &mut Steps::new());
        }
    }
}

// Marks the place of a key, if it has one, and takes no memory. True if that set a new mark.
fn mark(places: &mut Places, posted: &mut Vec<u64>, key: u64) -> bool
    requires { IsBoard places.old posted.old.items (vec_capacity posted.old) }
    ensures wakes { result ≡ wakes key (places_of places.old) }
    ensures places { places_of places.new ≡ after_post key (places_of places.old) }
    ensures board { IsBoard places.new posted.new.items (vec_capacity posted.new) }
    ensures room { vec_capacity posted.new ≡ vec_capacity posted.old }
{
    let mut steps = Steps::new();
    if !places.is_quiet(key, &mut steps) {
        return false;
    }
    places.note(key, Some(posted.len()), &mut steps);
    posted.push_reserved(key);
    true
}

// Notes the new position of each posted key once so many of the first are gone, with one look-up each.
fn renumber(places: &mut Places, posted: &[u64], gone: usize, steps: &mut Steps)
    requires fresh { steps.old ≡ 0 }
    requires open { (key : ℕ) → list_any (nat_eq key) posted.now ≡ true
        → IsSome (standing_at key places.old) }
    requires once { IsDistinct nat_eq posted.now }
    ensures standing { (key : ℕ) → standing_at key places.new
        ≡ place_after gone (index_of key posted.now) (standing_at key places.old) }
    ensures keys { keys_of places.new ≡ keys_of places.old }
    ensures steps { steps.new ≡ length posted.now }
{
    for (i, key) in posted.iter().enumerate() {
        places.note(*key, i.checked_sub(gone), steps);
    }
}

// Appends a pass of the board of this name for each key.
fn give(keys: &[u64], name: &Name, passes: &mut VecDeque<TakenPass>)
    requires { deque_len passes.old + length keys.now ≤ deque_capacity passes.old }
    ensures items { passes.new.items ≡ passes.old.items ++ map (fresh_pass name.now) keys.now }
    ensures len { deque_len passes.new ≡ deque_len passes.old + length keys.now }
    ensures capacity { deque_capacity passes.new ≡ deque_capacity passes.old }
{
    for key in keys {
        let pass = TakenPass {
            key: *key,
            board: name.again(),
            refused: None,
        };
        match passes.push_back(pass) {
            Ok(()) => {}
            Err(_) => unreachable!(),
        }
    }
}

// Takes out this many of the first.
fn drop_first(posted: &mut Vec<u64>, gone: usize)
    requires { gone ≤ length posted.old.items }
    ensures items { posted.new.items ≡ drop gone posted.old.items }
    ensures capacity { vec_capacity posted.new ≡ vec_capacity posted.old }
{
    posted.drain(..gone);
}

impl Board {
    /// A board with no place, its watch, the name of both, and the right to the marks under that name. Allocates nothing yet.
    pub fn new(alloc: Global) -> (Board, Watch, Name, MarkingRight)
        ensures board { result.0 ≡ record { places = []; name = result.2 } }
        ensures watch { result.1 ≡ record { name = result.2; notes = [] } }
        ensures marks { result.3.name ≡ result.2 }
    {
        let name = Name::fresh();
        let board = Board {
            places: Places::new(alloc),
            posted: Vec::new(alloc),
            name: name.again(),
        };
        let watch = Watch {
            name: name.again(),
            notes: Notes::none(),
        };
        let right = MarkingRight { name: name.again() };
        (board, watch, name, right)
    }

    /// The number of open places.
    pub fn places(&self) -> OpenPlaces
        ensures { result ≡ record { number = length self.now.places; name = self.now.name } }
    {
        OpenPlaces {
            number: self.places.len(),
            name: self.name.again(),
        }
    }

    /// Opens a place for the key of a token, not marked, as calloop adds a descriptor to the poller.
    ///
    /// Fails with `AlreadyExists` exactly if the key has a place, and with `OutOfMemory` if there is no memory for one. On
    /// failure the board is unchanged.
    pub fn open_place(&mut self, key: u64) -> Result<OpenedPass, OpenRefusal>
        requires { key < 2 ^ 64 - 1 }
        ensures board { self.new ≡ with_places
            (if is_ok result then after_open_place key self.old.places else self.old.places)
            self.old }
        ensures open { is_open key self.old.places ≡ true → result ≡ Err AlreadyExists }
        ensures shut { is_open key self.old.places ≡ false → MatchResult result
            (λ pass. pass ≡ record { key = key; board = self.old.name })
            (λ e. e ≡ OutOfMemory) }
    {
        if self.places.is_open(key, &mut Steps::new()) {
            return Err(OpenRefusal::AlreadyExists);
        }
        make_room(&mut self.posted, self.places.len() + 1)?;
        self.places.open(key)?;
        Ok(OpenedPass {
            key,
            board: self.name.again(),
        })
    }

    /// Closes the place of a key of this board that no cell has any more, and removes its mark.
    pub fn close_place(&mut self, permit: ClosePermit)
        requires { permit.board ≡ self.old.name }
        ensures { self.new ≡ with_places (after_close_place permit.key self.old.places) self.old }
    {
        let ClosePermit { key, board: _ } = permit;
        close(&mut self.places, &mut self.posted, key);
    }

    /// Marks the key of a debt to this board if its place is open, and returns a wakeup exactly if that set a new mark. The debt
    /// of a key without a place is spent all the same.
    pub fn post(&mut self, debt: Debt) -> Option<Wakeup>
        requires { debt.board ≡ self.old.name }
        ensures board { self.new ≡ with_places (after_post debt.key self.old.places) self.old }
        ensures wakeups { is_some result ≡ wakes debt.key self.old.places }
    {
        let Debt { key, board: _ } = debt;
        if mark(&mut self.places, &mut self.posted, key) {
            Some(Wakeup { of_wake: () })
        } else {
            None
        }
    }

    // True if some key is marked.
    fn any_marked(&self) -> bool
        ensures { result ≡ any_marked self.now.places }
    {
        !self.posted.is_empty()
    }

    /// Looks whether a key is marked, which the watch notes. Returns the permit to sleep if none is.
    pub fn look(&self, watch: &mut Watch) -> Option<SleepPermit>
        requires { watch.old.name ≡ self.now.name }
        ensures gives { is_some result ≡ not (any_marked self.now.places) }
        ensures watch { watch.new ≡ with_note (Looked (any_marked self.now.places)) watch.old }
    {
        watch.notes = watch.notes.and(LentBoardNote::Looked(self));
        if self.any_marked() {
            None
        } else {
            Some(SleepPermit { of_wake: () })
        }
    }

    /// If no key is marked, has the watch note that none was taken, with this much room. Otherwise changes nothing.
    pub fn unpost_none(&self, room: usize, watch: &mut Watch) -> bool
        requires { watch.old.name ≡ self.now.name }
        ensures gives { result ≡ not (any_marked self.now.places) }
        ensures watch { watch.new
            ≡ (if result then with_note (Unposted room []) watch.old else watch.old) }
    {
        let none = !self.any_marked();
        if none {
            watch.notes = watch.notes.and(LentBoardNote::Unposted(room, self));
        }
        none
    }

    /// Takes the marked keys, ascending, as many as there is room for, appends a pass for each, and has the watch note them. Looks
    /// up one place for each marked key.
    pub fn unpost(
        &mut self,
        room: usize,
        watch: &mut Watch,
        passes: &mut VecDeque<TakenPass>,
        steps: &mut Steps,
    )
        requires name { watch.old.name ≡ self.old.name }
        requires room { deque_len passes.old + room ≤ deque_capacity passes.old }
        requires fresh { steps.old ≡ 0 }
        ensures board { self.new
            ≡ with_places (after_unpost (bound room self.old.places) self.old.places) self.old }
        ensures watch { watch.new
            ≡ with_note (Unposted room (keys_within room self.old.places)) watch.old }
        ensures gives { passes.new.items
            ≡ passes.old.items
            ++ map (fresh_pass self.old.name) (keys_within room self.old.places) }
        ensures len { deque_len passes.new
            ≡ deque_len passes.old + length (keys_within room self.old.places) }
        ensures capacity { deque_capacity passes.new ≡ deque_capacity passes.old }
        ensures rising { IsRising (keys_within room self.old.places) }
        ensures few { length (keys_within room self.old.places) ≤ room }
        ensures steps { steps.new ≡ length (posted_keys self.old.places) }
    {
        watch.notes = watch.notes.and(LentBoardNote::Unposted(room, self));
        self.posted.sort_unstable();
        let gone = room.min(self.posted.len());
        renumber(&mut self.places, &self.posted, gone, steps);
        give(&self.posted[..gone], &self.name, passes);
        drop_first(&mut self.posted, gone);
    }
}
