//! The events that wait for their turn, and the passes of those that the board gave.
ghost use Rattle.std.specs.Prelude.{◌≡◌, ℕ, ◌+◌, ◌-◌, ◌≤◌, ◌++◌, [], ◌∷◌, List, Some, None, not, map, drop, length, OnOk, IfSome, IfNone, MatchOption, is_none, true, if◌then◌else◌};
ghost use Rattle.std.specs.VecDeque.{deque_len, deque_capacity};
ghost use Rattle.std.specs.Arc.{arc_value};
ghost use Rattle.calloop_wake.specs.Boards.{IsRising, fresh_pass};
ghost use Rattle.calloop_wake.specs.Passes.{AreOf};
ghost use Rattle.calloop_slots.specs.Deadlines.{due, not_due, with_entries};
ghost use Rattle.calloop_wake.specs.Watches.{with_note};
ghost use Rattle.calloop_wake.specs.declared.notes.Note.TheVariants.{Counted, Looked, Unposted, Marked};
ghost use Rattle.calloop_poll.specs.sys.Batches.{key_of_pass, last_polled, ArePosted};
ghost use Rattle.calloop_poll.specs.sys.Events.{events_left, events_of};
ghost use Rattle.calloop_poll.specs.sys.Polls.{posted_event, posted_events, polled_event, polled_events, timer_event, timer_events, own_events, IsPassOf, head_of, tail_of, is_filled, own_key};

use super::Pending;
use crate::sys::Readiness;
use crate::sys::events::EventIterator;
use crate::sys::hub::{SharedHub, WatchedHub};
use calloop_slots::token::{RegistrationToken, Token};
use calloop_slots::wheel::{Entry, Instant, TimerWheel};
use calloop_wake::watch::OpenPlaces;
use calloop_wake::{SleepPermit, TakenPass};
use std::alloc::{AllocError, Global};
use std::collections::VecDeque;
use std::marker::Model;
use std::mem;
use std::sync::Wait;

/// The poller's own key, which no token has.
const OWN_KEY: u64 = u64::MAX;

/// The events that wait for their turn, a pass for each posted one among them, and the pass of the event whose turn it is,
/// with the hub of the board that they came from.
pub struct Batch {
    hub: WatchedHub,
    events: VecDeque<Pending>,
    passes: VecDeque<TakenPass>,
    pass: Option<TakenPass>,
    // How many events wait, up to the poller's last one.
    polled: usize,
}

impl Model for Batch {
    ghost use Rattle.std.specs.Prelude.{◌-◌};
    ghost use Rattle.std.specs.VecDeque.{deque_len, deque_capacity};
    ghost use Rattle.calloop_poll.specs.sys.Batches.{BatchView, IsBatchOf};

    ghost Value = { BatchView };

    ghost view = { λ b. record {
      events = b.events.items;
      passes = b.passes.items;
      pass = b.pass;
      polled = b.polled;
      watch = b.hub;
      room = deque_capacity b.events - deque_len b.events;
      pass_room = deque_capacity b.passes - deque_len b.passes;
    } };

    ghost invariant = { λ b. IsBatchOf b.hub.name b.events.items b.passes.items b.pass
        b.polled };
}

// Posts the keys of these passes again.
fn give_all_back<R: Wait>(rt: &R, hub: &SharedHub, mut passes: VecDeque<TakenPass>)
    requires { AreOf (arc_value hub.now) passes.items }
{
    while let Some(pass) = passes.pop_front() {
        hub.post(rt, pass.back());
    }
    passes.destroy_empty();
}

fn posted_event(key: u64) -> Pending
    requires { ¬ (key ≡ own_key) }
    ensures { result ≡ posted_event key }
{
    Pending {
        readiness: Readiness::READ,
        token: Token::from_key(key),
        posted: true,
    }
}

fn polled_event(key: u64, readiness: Readiness) -> Pending
    requires { ¬ (key ≡ own_key) }
    ensures { result ≡ polled_event (key, readiness) }
{
    Pending {
        readiness,
        token: Token::from_key(key),
        posted: false,
    }
}

fn timer_event(entry: Entry) -> Pending
    ensures { result ≡ timer_event entry }
{
    Pending {
        readiness: Readiness::READ,
        token: entry.token,
        posted: false,
    }
}

// Appends the events of the passes from the first new one on.
fn append_posted(batch: &mut VecDeque<Pending>, passes: &VecDeque<TakenPass>, first: usize)
    requires first { first ≤ deque_len passes.now }
    requires tokens { IsRising (map key_of_pass (drop first passes.now.items)) }
    requires room { deque_len batch.old + deque_len passes.now ≤ deque_capacity batch.old + first }
    ensures items { batch.new.items ≡ batch.old.items
        ++ posted_events (map key_of_pass (drop first passes.now.items)) }
    ensures len { deque_len batch.new + first ≤ deque_len batch.old + deque_len passes.now }
    ensures capacity { deque_capacity batch.new ≡ deque_capacity batch.old }
{
    for i in first..passes.len() {
        batch.push_back_reserved(posted_event(passes[i].key()));
    }
}

// Appends the events that a source asks for before a wait.
fn append_own(batch: &mut VecDeque<Pending>, given: &[(Readiness, Token)])
    requires { deque_len batch.old + length given.now ≤ deque_capacity batch.old }
    ensures items { batch.new.items ≡ batch.old.items ++ own_events given.now }
    ensures len { deque_len batch.new ≡ deque_len batch.old + length given.now }
    ensures capacity { deque_capacity batch.new ≡ deque_capacity batch.old }
{
    for event in given {
        let (readiness, token) = *event;
        batch.push_back_reserved(Pending {
            readiness,
            token,
            posted: false,
        });
    }
}

// Appends the poller's events.
fn append_polled(batch: &mut VecDeque<Pending>, events: &[(u64, Readiness)])
    requires { deque_len batch.old + length events.now ≤ deque_capacity batch.old }
    ensures items { batch.new.items ≡ batch.old.items ++ polled_events events.now }
    ensures len { deque_len batch.new ≤ deque_len batch.old + length events.now }
    ensures capacity { deque_capacity batch.new ≡ deque_capacity batch.old }
{
    for event in events {
        let (key, readiness) = *event;
        if key != OWN_KEY {
            batch.push_back_reserved(polled_event(key, readiness));
        }
    }
}

// Takes the due deadlines off the wheel, and appends their events.
fn append_due(batch: &mut VecDeque<Pending>, wheel: &mut TimerWheel, now: Instant)
    requires { deque_len batch.old + length wheel.old.entries ≤ deque_capacity batch.old }
    ensures items { batch.new.items ≡ batch.old.items
        ++ timer_events (due now.nanos wheel.old.entries) }
    ensures wheel { wheel.new ≡ with_entries (not_due now.nanos wheel.old.entries) wheel.old }
{
    while let Some(entry) = wheel.next_expired(now) {
        batch.push_back_reserved(timer_event(entry));
    }
}

// Up to which place the poller's events go, once these are in the batch.
fn last_polled(before: usize, given: &[(u64, Readiness)], batch: &VecDeque<Pending>) -> usize
    ensures { result ≡ last_polled before given.now (length batch.now.items) }
{
    if given.is_empty() {
        before
    } else {
        batch.len()
    }
}

impl Batch {
    /// Makes an empty batch over this hub. It allocates nothing yet.
    pub fn new(alloc: Global, hub: WatchedHub) -> Batch
        ensures { result ≡ record {
          events = [];
          passes = [];
          pass = None;
          polled = 0;
          watch = hub;
          room = result.room;
          pass_room = result.pass_room;
        } }
    {
        Batch {
            hub,
            events: VecDeque::new(alloc),
            passes: VecDeque::new(alloc),
            pass: None,
            polled: 0,
        }
    }

    /// Posts the keys of all passes again.
    pub fn give_back<R: Wait>(self, rt: &R) {
        let Batch {
            hub,
            events: _,
            passes,
            pass,
            polled: _,
        } = self;
        if let Some(pass) = pass {
            hub.hub().post(rt, pass.back());
        }
        give_all_back(rt, hub.hub(), passes);
    }

    /// Returns the hub, to share.
    pub fn hub(&self) -> &SharedHub
        ensures { arc_value result.now ≡ self.now.watch.name }
    {
        self.hub.hub()
    }

    /// Returns how many events wait, up to the poller's last one.
    pub fn polled_end(&self) -> usize
        ensures value { result ≡ self.now.polled }
        ensures within { result ≤ length self.now.events }
    {
        self.polled
    }

    /// Returns how many events wait.
    pub fn len(&self) -> usize
        ensures { result ≡ length self.now.events }
    {
        self.events.len()
    }

    /// Yields the events of one registration, without the first `from` of all.
    pub fn events(&self, from: usize, registration: RegistrationToken) -> EventIterator<'_>
        ensures { events_left result ≡ events_of registration (drop from self.now.events) }
    {
        EventIterator::new(&self.events, from, registration)
    }

    /// Appends events that aren't posted, in their order.
    pub fn join(&mut self, given: &[(Readiness, Token)])
        requires { length given.now ≤ self.old.room }
        ensures others { self.new ≡ record self.old {
          events = self.old.events ++ own_events given.now;
          room = self.new.room;
        } }
        ensures room { self.old.room ≤ self.new.room + length given.now }
    {
        append_own(&mut self.events, given);
    }

    /// True if no event waits.
    pub fn is_empty(&self) -> bool
        ensures { result ≡ not (is_filled self.now.events) }
    {
        self.events.is_empty()
    }

    /// Looks whether a key is posted. Returns the permit to sleep if none is.
    pub fn look<R: Wait>(&mut self, rt: &R) -> Option<SleepPermit>
        ensures watch { self.new.watch ≡ with_note (Looked (is_none result)) self.old.watch }
        ensures others { self.new ≡ record self.old { watch = self.new.watch } }
    {
        self.hub.look(rt)
    }

    /// Returns how many places are open now.
    pub fn places<R: Wait>(&self, rt: &R) -> OpenPlaces
        ensures { result.name ≡ self.now.watch.name }
    {
        self.hub.places(rt)
    }

    /// Notes a count of the places.
    pub fn note_count(&mut self, places: OpenPlaces)
        requires { places.name ≡ self.old.watch.name }
        ensures { self.new ≡ record self.old {
          watch = with_note (Counted places.number) self.old.watch;
        } }
    {
        self.hub.note_count(places);
    }

    /// Takes the marks, in the order in which they were set.
    pub fn take_marks<R: Wait>(&mut self, rt: &R) -> Option<Vec<RegistrationToken>>
        ensures none { IfNone result
            (self.new ≡ record self.old { watch = with_note (Marked []) self.old.watch }) }
        ensures some { IfSome result (λ taken.
            self.new ≡ record self.old { watch = with_note (Marked taken.items) self.old.watch }) }
    {
        self.hub.take_marks(rt)
    }

    /// Makes room for so many further events and passes. Running out of memory leaves the events and the passes unchanged.
    pub fn reserve(&mut self, events: usize, passes: usize) -> Result<(), AllocError>
        ensures room { OnOk result (events ≤ self.new.room) }
        ensures pass_room { OnOk result (passes ≤ self.new.pass_room) }
        ensures others { self.new ≡ record self.old {
          room = self.new.room;
          pass_room = self.new.pass_room;
        } }
    {
        self.events.reserve(events)?;
        self.passes.reserve(passes)
    }

    /// Gives the event whose turn it is this pass, or none. The pass before goes back to the board.
    pub fn replace_pass<R: Wait>(&mut self, rt: &R, pass: Option<TakenPass>)
        requires { IfSome pass (λ p. p.board ≡ self.old.watch.name) }
        ensures { self.new ≡ record self.old { pass = pass } }
    {
        let before = match pass {
            Some(pass) => mem::replace(&mut self.pass, Some(pass)),
            None if self.pass.is_none() => return,
            None => self.pass.take(),
        };
        if let Some(other) = before {
            self.hub.hub().post(rt, other.back());
        }
    }

    /// Takes the pass of the event whose turn it is.
    pub fn take_pass(&mut self) -> Option<TakenPass>
        ensures pass { result ≡ self.old.pass }
        ensures own { IfSome result (λ p. p.board ≡ self.old.watch.name) }
        ensures others { self.new ≡ record self.old { pass = None } }
    {
        self.pass.take()
    }

    /// Takes out the first event for its turn, a posted one with its pass.
    pub fn next_event<R: Wait>(&mut self, rt: &R) -> Option<Pending>
        ensures event { result ≡ head_of self.old.events }
        ensures pass { IfSome result (λ e. IsPassOf e self.new.pass) }
        ensures others { MatchOption result (self.new ≡ self.old) (λ e. self.new ≡ record self.old {
          events = tail_of self.old.events;
          passes = if e.posted then tail_of self.old.passes else self.old.passes;
          pass = if e.posted then head_of self.old.passes else None;
          polled = self.old.polled - 1;
          room = self.new.room;
          pass_room = self.new.pass_room;
        }) }
    {
        let event = self.events.pop_front()?;
        self.polled = self.polled.saturating_sub(1);
        let pass = if event.posted {
            match self.passes.pop_front() {
                Some(pass) => Some(pass),
                None => unreachable!(),
            }
        } else {
            None
        };
        self.replace_pass(rt, pass);
        Some(event)
    }

    /// Takes the posted keys, and appends their events, the poller's events, and those of the due deadlines.
    pub fn gather<R: Wait>(
        &mut self,
        rt: &R,
        places: usize,
        given: &[(u64, Readiness)],
        wheel: &mut TimerWheel,
        now: Instant,
    )
        requires room { places + (length given.now + length wheel.old.entries) ≤ self.old.room }
        requires passes { places ≤ self.old.pass_room }
        ensures batch { (posted : List ℕ) × ArePosted places posted × (self.new ≡ record self.old {
          events = ((self.old.events ++ posted_events posted) ++ polled_events given.now)
              ++ timer_events (due now.nanos wheel.old.entries);
          passes = self.old.passes ++ map (fresh_pass self.old.watch.name) posted;
          polled = last_polled self.old.polled given.now
              (length ((self.old.events ++ posted_events posted) ++ polled_events given.now));
          watch = with_note (Unposted places posted) self.old.watch;
          room = self.new.room;
          pass_room = self.new.pass_room;
        }) }
        ensures wheel { wheel.new ≡ with_entries (not_due now.nanos wheel.old.entries) wheel.old }
    {
        let first = self.passes.len();
        self.hub.unpost(rt, places, &mut self.passes);
        append_posted(&mut self.events, &self.passes, first);
        append_polled(&mut self.events, given);
        self.polled = last_polled(self.polled, given, &self.events);
        append_due(&mut self.events, wheel, now);
    }
}
