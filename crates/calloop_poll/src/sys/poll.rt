//! What sources register with: the poller, the hub of pings, the deadlines of timers, and the batch of events.
ghost use Rattle.std.specs.Prelude.{drop, ◌≡◌, ℕ, ◌+◌, ◌≤◌, [], List, None, length, vec_len, vec_capacity, OnOk, OnErr, IfOk, IfErr, IfSome, IfNone, IsPermutation};
ghost use Rattle.std.specs.Borrow.{Lends, sem};
ghost use Rattle.calloop_slots.specs.declared.error.Error.TheVariants.{OutOfMemory};
ghost use Rattle.calloop_poll.specs.sys.Batches.{ArePosted};
ghost use Rattle.calloop_poll.specs.sys.Pollers.{events_per_wait};
ghost use Rattle.calloop_poll.specs.sys.Polls.{PollView, PollStep, TakePass, PutBack, poll_view, poll_after, with_pass, IsPassOf, IsReady, after_cut, head_of, after_gather, after_count, with_events, marks_taken};
ghost use Rattle.calloop_poll.specs.sys.Events.{events_left, events_of};
ghost use Rattle.calloop_poll.specs.sys.TakenMarks.{HasTaken};
ghost use Rattle.calloop_poll.specs.sys.SlotOrder.{IsInSlotOrder};
ghost use Rattle.std.specs.Arc.{arc_value};
ghost use Rattle.calloop_poll.specs.Lending.{with_poller};
ghost use Rattle.calloop_poll.specs.contracts.sys.poll.Poll.{the_row};

use super::events::EventIterator;
use super::hub::{SharedHub, WatchedHub};
use super::{EVENTS_PER_WAIT, Poller, Readiness};
use batch::Batch;
use calloop_slots::error::Result;
use calloop_slots::token::{RegistrationToken, Token};
use calloop_slots::wheel::{Instant, TimerWheel};
use calloop_wake::TakenPass;
use socket_table::SocketTable;
use std::alloc::{AllocError, Global};
use std::sync::{Arc, Wait};

mod batch;
mod socket_table;
pub mod table;
mod timers;
mod waiting;

/// An event that waits for its turn.
#[derive(Clone, Copy, Debug)]
pub struct Pending {
    pub readiness: Readiness,
    pub token: Token,
    /// True if the event came from the board, so it has a pass.
    pub posted: bool,
}

/// What sources register with. It owns the poller, the table of sockets, the deadlines of timers, and the events that wait for
/// their turn, and shares the hub of posted keys with the ends of pings.
pub struct Poll<P, C, R: Wait + Drop> {
    rt: R,
    poller: P,
    clock: C,
    table: SocketTable,
    batch: Batch,
    wheel: TimerWheel,
    // How many keys had places at the last count, to reserve room for their events.
    places: usize,
    events: Vec<(u64, Readiness)>,
}

impl<P: Drop, C: Drop, R: Wait + Drop> Drop for Poll<P, C, R> {
    fn drop(self) {
        let Poll {
            rt,
            poller: _,
            clock: _,
            table: _,
            batch,
            wheel: _,
            places: _,
            events: _,
        } = self;
        batch.give_back(&rt);
    }
}

// Sorts the marks by slot.
fn by_slot(marked: Vec<RegistrationToken>) -> Vec<RegistrationToken>
    ensures same { IsPermutation marked.items result.items }
    ensures order { IsInSlotOrder result.items }
{
    let mut marked = marked;
    marked.sort_unstable();
    marked
}

impl<P: Poller, C: Drop, R: Wait + Drop> Poll<P, C, R> {
    /// A `Poll` over this poller: no socket or deadline, empty board and batch. Running out of memory is `OutOfMemory`.
    pub fn new(rt: R, alloc: Global, poller: P, clock: C) -> Result<Poll<P, C, R>>
        ensures ok { IfOk result (λ made. poll_view made ≡ record {
          poller = poller;
          table = [];
          deadlines = record { entries = []; next = 0 };
          batch = [];
          passes = [];
          pass = None;
          places = 0;
          watch = record { name = (poll_view made).watch.name; notes = [] };
        }) }
        ensures clock { IfOk result (λ made. made.clock ≡ clock) }
        ensures err { IfErr result (λ e. e ≡ OutOfMemory) }
    {
        let hub = WatchedHub::new(alloc, poller.notifier()?)?;
        Ok(Poll {
            rt,
            poller,
            clock,
            table: SocketTable::new(alloc),
            batch: Batch::new(alloc, hub),
            wheel: TimerWheel::new(alloc),
            places: 0,
            events: Vec::new(alloc),
        })
    }
}

impl<P: Poller, C, R: Wait + Drop> Poll<P, C, R> {
    /// The clock, for callers that tell time.
    pub fn clock(&self) -> &C
        ensures { result.now ≡ self.now.clock }
    {
        &self.clock
    }

    /// The poller itself, e.g. to give a scripted one its answers. Pings wake the poller that `new` got: another one put in its
    /// place learns of them only at its next wait.
    pub fn poller_mut(&mut self) -> &mut P
        ensures* writes_back { sem 𝓛 (Lends (the_row P.row C.row R.row) P.row self.entry result
            (λ w. with_poller w self.old)) }
        ensures value { result.now ≡ self.old.poller }
    {
        &mut self.poller
    }

    /// The board of posted keys, on which a ping opens the place of its key.
    pub fn hub(&self) -> &SharedHub
        ensures { arc_value result.now ≡ (poll_view self.now).watch.name }
    {
        self.batch.hub()
    }

    /// Takes the marks of the adapters that are to be settled, in the order of their slots, and has the watch note them.
    pub fn take_marks(&mut self) -> Option<Vec<RegistrationToken>>
        ensures none { IfNone result (poll_view self.new ≡ marks_taken [] (poll_view self.old)) }
        ensures some { IfSome result (λ marked.
            HasTaken marked.items (poll_view self.old) (poll_view self.new)) }
        ensures ready { (more : ℕ) → IsReady more self.old → IsReady more self.new }
    {
        let Some(taken) = self.batch.take_marks(&self.rt) else {
            return None;
        };
        Some(by_slot(taken))
    }

    /// Takes a list of marks back once it was settled, to reuse its memory.
    pub fn give_marks_back(&self, settled: Vec<RegistrationToken>) {
        self.batch.hub().give_marks_back(&self.rt, settled);
    }

    /// Takes the pass of the event whose turn it is, if it has one that wasn't taken yet.
    pub fn take_pass(&mut self) -> Option<TakenPass>
        ensures pass { result ≡ (poll_view self.old).pass }
        ensures own { IfSome result (λ pass. pass.board ≡ (poll_view self.old).watch.name) }
        ensures view { poll_view self.new ≡ poll_after (poll_view self.old) TakePass }
    {
        self.batch.take_pass()
    }

    /// Puts back a pass of the loop's board that a cell refused. A pass that is there already goes back to the board.
    pub fn put_back(&mut self, pass: TakenPass)
        requires { pass.board ≡ (poll_view self.old).watch.name }
        ensures { poll_view self.new ≡ poll_after (poll_view self.old) (PutBack pass) }
    {
        self.batch.replace_pass(&self.rt, Some(pass));
    }

    // The most events that one `poll` can gather with this many posted keys, plus `more`. `None` if that overflows.
    fn room(&self, places: usize, more: usize) -> Option<usize>
        ensures { IfSome result (λ n.
            n ≡ more + (places + (events_per_wait + length self.now.wheel.entries))) }
    {
        EVENTS_PER_WAIT
            .checked_add(self.wheel.len())?
            .checked_add(places)?
            .checked_add(more)
    }

    /// Counts the places on the board, and reserves room for what one `poll` can gather, and for `more` further events. Running
    /// out of memory changes nothing.
    pub fn reserve(&mut self, more: usize) -> std::result::Result<(), AllocError>
        ensures ok { OnOk result ((places : ℕ)
            × (poll_view self.new ≡ after_count places (poll_view self.old))) }
        ensures ready { OnOk result (IsReady more self.new) }
        ensures err { OnErr result (poll_view self.new ≡ poll_view self.old) }
    {
        let places = self.batch.places(&self.rt);
        let number = places.number();
        let Some(room) = self.room(number, more) else {
            return Err(AllocError);
        };
        self.events.clear();
        self.batch.reserve(room, number)?;
        self.events.reserve(EVENTS_PER_WAIT)?;
        self.batch.note_count(places);
        self.places = number;
        Ok(())
    }

    /// Appends the events that a source asks for before a wait to the batch in their order, in the room reserved by `more`.
    pub fn join(&mut self, given: &[(Readiness, Token)])
        requires { IsReady (length given.now) self.old }
        ensures view { poll_view self.new ≡ with_events given.now (poll_view self.old) }
        ensures ready { (more : ℕ) → IsReady (length given.now + more) self.old
            → IsReady more self.new }
    {
        self.batch.join(given);
    }

    /// Returns how many events wait for their turn.
    pub fn events_waiting(&self) -> usize
        ensures { result ≡ length (poll_view self.now).batch }
    {
        self.batch.len()
    }

    /// Yields the events of one registration among those that wait, without the first `from` of all.
    pub fn events(&self, from: usize, registration: RegistrationToken) -> EventIterator<'_>
        ensures { events_left result
            ≡ events_of registration (drop from (poll_view self.now).batch) }
    {
        self.batch.events(from, registration)
    }

    /// Takes the first event out of the batch for its turn, a posted one with its pass, which is of the key of its token.
    pub fn next_event(&mut self) -> Option<Pending>
        ensures event { result ≡ head_of (poll_view self.old).batch }
        ensures pass { IfSome result (λ e. IsPassOf e (poll_view self.new).pass) }
        ensures view { poll_view self.new ≡ after_cut (poll_view self.old) }
    {
        self.batch.next_event(&self.rt)
    }

    /// Ends the turn of an event: an unspent pass goes back, and its key is posted again.
    pub fn end_event(&mut self)
        ensures { poll_view self.new ≡ with_pass None (poll_view self.old) }
    {
        self.batch.replace_pass(&self.rt, None);
    }

    fn gather(&mut self, now: Instant)
        requires batch { self.old.places + (events_per_wait + length self.old.wheel.entries)
            ≤ self.old.batch.room }
        requires passes { self.old.places ≤ self.old.batch.pass_room }
        requires events { vec_len self.old.events ≤ events_per_wait }
        ensures { (posted : List ℕ) × ArePosted self.old.places posted
            × (poll_view self.new
            ≡ after_gather posted self.old.events.items now.nanos (poll_view self.old)) }
    {
        self.batch
            .gather(&self.rt, self.places, &self.events, &mut self.wheel, now);
    }
}
