//! Moments of the loop's clock, and the armed deadlines. From calloop's `TimerWheel` in `timer.rs`.
ghost use Rattle.std.specs.Prelude.{◌≡◌, ◌↔◌, ◌+◌, ◌-◌, ◌*◌, ◌^◌, ◌≤◌, ◌<◌, min, [], ◌∷◌, false, true, length, IfSome, IfNone, IfOk, IfErr, OnOk, OnErr, IsErrOf};
ghost use Rattle.std.specs.Duration.{as_nanos};
ghost use Rattle.calloop_slots.specs.Deadlines.{moment_after, after_insert, has_counter, without_counter, with_new, with_again, after_cancel, is_armed, first_deadline, first_due, after_first_due, with_entries, IsOrdered, IsSorted, arm_error, CannotArm, CannotArmAgain};
ghost use Rattle.calloop_slots.specs.Wheels.{entry_at, entries_of, first_key, NameTheSame, HaveTheSame};
ghost use Rattle.calloop_slots.specs.declared.wheel.ArmRefusal.TheVariants.{TooManyTimers};

use crate::error::Error;
use crate::token::Token;
use std::alloc::{AllocError, Global};
use std::collections::{BTreeMap, HashMap};
use std::marker::Model;
use std::time::Duration;

/// A moment of a clock, in nanoseconds since the clock's start.
#[derive(Clone, Copy, Debug, PartialEq, Eq, PartialOrd, Ord)]
pub struct Instant {
    pub nanos: u64,
}

impl Instant {
    /// The moment after this many nanoseconds.
    pub fn from_nanos(nanos: u64) -> Instant
        ensures { result.nanos ≡ nanos }
    {
        Instant { nanos }
    }

    /// The moment after this many milliseconds, at most 2^64 - 1 nanoseconds.
    pub fn from_millis(millis: u64) -> Instant
        ensures { result.nanos ≡ min (millis * 1000000) (2 ^ 64 - 1) }
    {
        Instant {
            nanos: millis.saturating_mul(1_000_000),
        }
    }

    /// The moment that much later, at most 2^64 - 1 nanoseconds.
    pub fn after(self, time: Duration) -> Instant
        ensures { result.nanos ≡ min (self.nanos + as_nanos time) (2 ^ 64 - 1) }
    {
        let nanos = time.as_nanos();
        if nanos > 0xffff_ffff_ffff_ffff {
            return Instant { nanos: u64::MAX };
        }
        Instant {
            nanos: self.nanos.saturating_add(nanos as u64),
        }
    }

    /// The moment that much later, or `None` past 2^64 - 1 nanoseconds.
    pub fn checked_add(self, time: Duration) -> Option<Instant>
        ensures { result ≡ moment_after self time }
    {
        let nanos = u64::try_from(time.as_nanos()).ok()?;
        let nanos = self.nanos.checked_add(nanos)?;
        Some(Instant { nanos })
    }
}

/// An armed deadline.
#[derive(Clone, Copy, Debug, PartialEq, Eq)]
pub struct Entry {
    pub deadline: Instant,
    /// The counter under which it was armed.
    pub counter: u64,
    /// The token of its source.
    pub token: Token,
}

/// Why a deadline could not be armed.
#[derive(Clone, Copy, Debug, PartialEq, Eq)]
pub enum ArmRefusal {
    /// All 2^64 - 1 counters were given out.
    TooManyTimers,
    /// The counter to arm again was never given out.
    UnknownCounter,
    /// There was no memory left for an entry.
    OutOfMemory,
}

impl From<AllocError> for ArmRefusal {
    ghost use Rattle.std.specs.Prelude.{◌≡◌};
    ghost use Rattle.calloop_slots.specs.declared.wheel.ArmRefusal.TheVariants.{OutOfMemory};

    ghost from_gives = { λ _ made. made ≡ OutOfMemory };

    /// Always `OutOfMemory`.
    fn from(_cause: AllocError) -> ArmRefusal {
        ArmRefusal::OutOfMemory
    }
}

impl From<ArmRefusal> for Error {
    ghost use Rattle.std.specs.Prelude.{◌≡◌};
    ghost use Rattle.calloop_slots.specs.Deadlines.{arm_error};

    ghost from_gives = { λ refusal made. made ≡ arm_error refusal };

    /// The error of the same name; `InvalidToken` for a counter that was never given out.
    fn from(refusal: ArmRefusal) -> Error {
        match refusal {
            ArmRefusal::TooManyTimers => Error::TooManyTimers,
            ArmRefusal::UnknownCounter => Error::InvalidToken,
            ArmRefusal::OutOfMemory => Error::OutOfMemory,
        }
    }
}

/// The place of a deadline in the order: by deadline, then by counter.
#[derive(Clone, Copy, Debug, PartialEq, Eq, PartialOrd, Ord)]
struct Due {
    pub deadline: Instant,
    /// The counter under which it was armed.
    pub counter: u64,
}

/// The armed deadlines, in the order in which they come due: by deadline, then by counter. Calloop keeps a heap, which
/// leaves the order of equal deadlines open, and counters of 32 bits, which wrap silently.
#[derive(Drop)]
pub struct TimerWheel {
    by_due: BTreeMap<Due, Token>,
    // The deadline of each counter that has one.
    by_counter: HashMap<u64, Instant>,
    counter: u64,
}

impl Model for TimerWheel {
    ghost use Rattle.calloop_slots.specs.Deadlines.{Deadlines};
    ghost use Rattle.calloop_slots.specs.Wheels.{entries_of, IsWheel};

    ghost Value = { Deadlines };

    ghost view = { λ w. record { entries = entries_of w.by_due.entries; next = w.counter } };

    ghost invariant = { λ w. IsWheel w.by_due.entries w.by_counter.entries w.counter };
}

// Adds a deadline to both maps, or to neither if there is no memory.
fn enter(
    by_due: &mut BTreeMap<Due, Token>,
    by_counter: &mut HashMap<u64, Instant>,
    due: Due,
    token: Token,
) -> Result<(), AllocError>
    requires free { has_counter due.counter (entries_of by_due.old.entries) ≡ false }
    requires same { NameTheSame (entries_of by_due.old.entries) by_counter.old.entries }
    ensures ok { OnOk result (entries_of by_due.new.entries
        ≡ after_insert (entry_at (due, token)) (entries_of by_due.old.entries)) }
    ensures err { OnErr result (by_due.new.entries ≡ by_due.old.entries) }
    ensures same { NameTheSame (entries_of by_due.new.entries) by_counter.new.entries }
{
    by_counter.insert(due.counter, due.deadline)?;
    match by_due.insert(due, token) {
        Ok(_) => Ok(()),
        Err(_) => {
            by_counter.remove(&due.counter);
            Err(AllocError)
        }
    }
}

// Frees memory if the table holds few deadlines for its size.
fn trim(by_counter: &mut HashMap<u64, Instant>)
    ensures { HaveTheSame by_counter.old.entries by_counter.new.entries }
{
    let len = by_counter.len();
    if len + 16 < by_counter.capacity() / 16 {
        by_counter.shrink_to(2 * len);
    }
}

// Takes the deadline of this counter out of both maps.
fn leave(by_due: &mut BTreeMap<Due, Token>, by_counter: &mut HashMap<u64, Instant>, counter: u64)
    requires sorted { IsSorted (entries_of by_due.old.entries) }
    requires same { NameTheSame (entries_of by_due.old.entries) by_counter.old.entries }
    ensures entries { entries_of by_due.new.entries
        ≡ without_counter counter (entries_of by_due.old.entries) }
    ensures same { NameTheSame (entries_of by_due.new.entries) by_counter.new.entries }
{
    if let Some(deadline) = by_counter.remove(&counter) {
        by_due.remove(&Due { deadline, counter });
        trim(by_counter);
    }
}

// The place in the order of the first deadline.
fn next_due(by_due: &BTreeMap<Due, Token>) -> Option<Due>
    ensures { result ≡ first_key by_due.now.entries }
{
    let (due, _) = by_due.first_key_value()?;
    Some(*due)
}

// Takes the first deadline out of both maps.
fn take_first(
    by_due: &mut BTreeMap<Due, Token>,
    by_counter: &mut HashMap<u64, Instant>,
) -> Option<Entry>
    requires sorted { IsSorted (entries_of by_due.old.entries) }
    requires same { NameTheSame (entries_of by_due.old.entries) by_counter.old.entries }
    ensures first { IfSome result (λ e.
        entries_of by_due.old.entries ≡ e ∷ entries_of by_due.new.entries) }
    ensures none { IfNone result ((by_due.old.entries ≡ []) × (by_due.new.entries ≡ [])) }
    ensures same { NameTheSame (entries_of by_due.new.entries) by_counter.new.entries }
{
    let (due, token) = by_due.pop_first()?;
    by_counter.remove(&due.counter);
    trim(by_counter);
    Some(Entry {
        deadline: due.deadline,
        counter: due.counter,
        token,
    })
}

impl TimerWheel {
    /// No deadline, and all counters from 0 unused. Allocates nothing yet.
    pub fn new(alloc: Global) -> TimerWheel
        ensures { result ≡ record { entries = []; next = 0 } }
    {
        TimerWheel {
            by_due: BTreeMap::new(alloc),
            by_counter: HashMap::new(alloc),
            counter: 0,
        }
    }

    /// The number of armed deadlines.
    pub fn len(&self) -> usize
        ensures { result ≡ length self.now.entries }
    {
        self.by_due.len()
    }

    /// Shows that the deadlines are sorted, that every counter stands at most once, and that the next one is above all.
    pub fn keeps_order(&self)
        ensures { IsOrdered self.now }
    {
        let _ = &self.by_due;
    }

    /// Arms a deadline under the next counter, and returns the counter.
    ///
    /// Fails with `TooManyTimers` exactly if the counter would be 2^64 - 1, and otherwise with `OutOfMemory` if there is no
    /// memory for an entry. On failure the wheel is unchanged.
    pub fn insert(&mut self, deadline: Instant, token: Token) -> Result<u64, ArmRefusal>
        ensures ok { IfOk result (λ c. (c ≡ self.old.next)
            × (self.new ≡ with_new deadline token self.old)) }
        ensures full { IsErrOf result TooManyTimers ↔ (self.old.next ≡ 2 ^ 64 - 1) }
        ensures err { IfErr result (λ e. CannotArm self.old.next (arm_error e)
            × (self.new ≡ self.old)) }
    {
        let counter = self.counter;
        if counter == u64::MAX {
            return Err(ArmRefusal::TooManyTimers);
        }
        let due = Due { deadline, counter };
        enter(&mut self.by_due, &mut self.by_counter, due, token)?;
        self.counter = counter + 1;
        Ok(counter)
    }

    /// Arms a deadline under a counter that has none now.
    ///
    /// Fails with `UnknownCounter` exactly if this wheel never gave out that counter, and otherwise with `OutOfMemory` if
    /// there is no memory for an entry. On failure the wheel is unchanged.
    pub fn insert_reuse(
        &mut self,
        counter: u64,
        deadline: Instant,
        token: Token,
    ) -> Result<(), ArmRefusal>
        requires { is_armed counter self.old ≡ false }
        ensures ok { OnOk result ((counter < self.old.next)
            × (self.new ≡ with_again counter deadline token self.old)) }
        ensures err { IfErr result (λ e. CannotArmAgain counter self.old (arm_error e)
            × (self.new ≡ self.old)) }
    {
        if counter >= self.counter {
            return Err(ArmRefusal::UnknownCounter);
        }
        let due = Due { deadline, counter };
        enter(&mut self.by_due, &mut self.by_counter, due, token)?;
        Ok(())
    }

    /// Takes out the deadline of this counter, if it has one.
    pub fn cancel(&mut self, counter: u64)
        ensures { self.new ≡ after_cancel counter self.old }
    {
        leave(&mut self.by_due, &mut self.by_counter, counter);
    }

    /// True if the counter has a deadline now.
    pub fn is_armed(&self, counter: u64) -> bool
        ensures { result ≡ is_armed counter self.now }
    {
        self.by_counter.contains_key(&counter)
    }

    /// The first deadline.
    pub fn next_deadline(&self) -> Option<Instant>
        ensures { result ≡ first_deadline self.now.entries }
    {
        let due = next_due(&self.by_due)?;
        Some(due.deadline)
    }

    /// Takes out the first deadline if it isn't later than `now`.
    pub fn next_expired(&mut self, now: Instant) -> Option<Entry>
        ensures first { result ≡ first_due now.nanos self.old.entries }
        ensures rest { self.new
            ≡ with_entries (after_first_due now.nanos self.old.entries) self.old }
    {
        let due = next_due(&self.by_due)?;
        if due.deadline.nanos > now.nanos {
            return None;
        }
        take_first(&mut self.by_due, &mut self.by_counter)
    }
}
