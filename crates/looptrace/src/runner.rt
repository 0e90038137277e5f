//! The loop of a script, and what each command does with it.
ghost use Rattle.std.specs.Prelude.{◌≡◌, ℕ, List, [], ◌∷◌, ◌++◌, Option, Some, None, IfOk, IfErr, OnOk, MatchBool, true, false};
ghost use Rattle.std.specs.Prelude.{nat_le, length, option_to_list};
ghost use Rattle.std.specs.Option.{option_map};
ghost use Rattle.std.specs.IoError.{error_kind};
ghost use Rattle.std.specs.declared.io.ErrorKind.TheVariants.{OutOfMemory};
ghost use Rattle.calloop_poll.specs.sys.Pollers.{nanos_of, events_per_wait};
ghost use Rattle.calloop_poll.specs.sys.Polls.{is_filled};
ghost use Rattle.looptrace.specs.Runs.{token_with, removed_text, RemoveLine, Pending, pending_of, events_of, AnswerLine, NextAnswer, fault_after, pending_after, IsTakenBack, word_of, waits_text, answer_text, nanos_in, IsStart, state_of, InsertSays, InsertLine, RingLine, CloseLine, ClockLine, IsPrepared, DispatchLine, Carried, IsNewPing, IsNewTimer};

use crate::command::{Command, parse};
use crate::driver::Runner;
use crate::name::SourceName;
use crate::named::Names;
use crate::source::{Alarm, Said, Source, Teller};
use crate::text::{append_insert, append_refused, append_wait};
use crate::warnings::log_warnings;
use calloop::loop_logic::EventLoop;
use calloop::ping::{Ping, make_ping};
use calloop::{Error, InsertError, Instant, Readiness, RegistrationToken, Timer};
use calloop_script::{ScriptAnswer, ScriptClock, ScriptEnd, ScriptEvents, ScriptPoller};
use calloop_slots::widths::{MOST_SLOTS, VERSIONS};
use log::Log;
use std::alloc::{AllocError, Global};
use std::io;
use std::sync::Wait;
use std::time::Duration;

/// The answer for the next wait: what the clock showed at its last event, and its events.
#[derive(Drop)]
pub struct PendingAnswer {
    pub moment: Instant,
    pub events: ScriptEvents,
}

/// A loop over a scripted poller, with the sources that the script made, a flag that makes the next wait fail, and the pending
/// answer.
#[derive(Drop)]
pub struct ScriptLoop<R: Wait + Drop> {
    rt: R,
    alloc: Global,
    event_loop: EventLoop<Source<R>, ScriptPoller, ScriptClock, R>,
    sources: Names<R>,
    fault: bool,
    pending: Option<PendingAnswer>,
}

// The token of these numbers, if a token can hold them.
fn token_with(slot: u64, version: u64) -> Option<RegistrationToken>
    ensures { result ≡ token_with slot version }
{
    if slot >= MOST_SLOTS || version >= VERSIONS {
        return None;
    }
    Some(RegistrationToken::new(slot as u32, version as u32))
}

// The name of the error.
fn word_of(error: &Error) -> &'static str
    ensures { result.now ≡ word_of error.now }
{
    match error {
        Error::InvalidToken => "InvalidToken",
        Error::IoError(_) => "IoError",
        Error::OtherError(_) => "OtherError",
        Error::OutOfMemory => "OutOfMemory",
        Error::TooManySources => "TooManySources",
        Error::TooManyTokens => "TooManyTokens",
        Error::TooManyTimers => "TooManyTimers",
        Error::TooManyTickets => "TooManyTickets",
        Error::OwnTurn => "OwnTurn",
        Error::NoRendezvous => "NoRendezvous",
    }
}

// The nanoseconds of a requested wait, at most 2^64 - 1.
fn nanos_in(asked: Option<Duration>) -> Option<u64>
    ensures { result ≡ nanos_in asked }
{
    match asked {
        Some(time) => {
            let nanos = time.as_nanos();
            if nanos > 0xffff_ffff_ffff_ffff {
                Some(u64::MAX)
            } else {
                Some(nanos as u64)
            }
        }
        None => None,
    }
}

fn append_waits(text: &mut Vec<u8>, waits: &[Option<Duration>]) -> Result<(), AllocError>
    ensures { OnOk result (text.new.items ≡ text.old.items ++ waits_text waits.now) }
{
    for asked in waits {
        append_wait(text, nanos_in(*asked))?;
    }
    Ok(())
}

// Prints the error, if there is one.
fn append_answer(text: &mut Vec<u8>, answer: &calloop::Result<()>) -> Result<(), AllocError>
    ensures { OnOk result (text.new.items ≡ text.old.items ++ answer_text answer.now) }
{
    match answer {
        Ok(()) => Ok(()),
        Err(error) => append_refused(text, word_of(error)),
    }
}

// Prints that there was nothing to remove, if there was nothing.
fn append_removed<R: Wait + Drop>(
    text: &mut Vec<u8>,
    removed: &Option<Source<R>>,
) -> Result<(), AllocError>
    ensures { OnOk result (text.new.items ≡ text.old.items ++ removed_text removed.now) }
{
    match removed {
        Some(_) => Ok(()),
        None => append_refused(text, word_of(&Error::InvalidToken)),
    }
}

fn timeout_of(nanos: Option<u64>) -> Option<Duration>
    ensures { nanos_of result ≡ nanos }
{
    match nanos {
        Some(nanos) => Some(Duration::from_nanos(nanos)),
        None => None,
    }
}

// Prints the answer of an insertion, and keeps its name with its ping if the insertion succeeded.
fn keep<S: Drop, R: Wait + Drop>(
    sources: &mut Names<R>,
    name: SourceName,
    ping: Option<Ping<R>>,
    answer: Result<RegistrationToken, InsertError<S>>,
    text: &mut Vec<u8>,
) -> Result<(), AllocError>
    ensures { OnOk result ((said : List ℕ) × (text.new.items ≡ text.old.items ++ said)
        × InsertSays name ping answer sources.old sources.new said) }
{
    match answer {
        Ok(token) => {
            append_insert(text, name.as_slice(), token.slot(), token.version())?;
            sources.insert(name, ping)
        }
        Err(refused) => append_refused(text, word_of(&refused.error)),
    }
}

// True if the pending answer has no room for another event.
fn is_full(pending: &Option<PendingAnswer>) -> bool
    ensures { result
        ≡ nat_le events_per_wait (length (events_of (option_map pending_of pending.now))) }
{
    match pending {
        Some(pending) => pending.events.is_full(),
        None => false,
    }
}

// The outcome of the next wait: a fault, or else the pending answer.
fn next_answer(
    now: Instant,
    fault: bool,
    pending: &Option<PendingAnswer>,
) -> Result<Option<ScriptAnswer>, AllocError>
    ensures { IfOk result (λ answer.
        NextAnswer fault (option_map pending_of pending.now) now (option_to_list answer)) }
{
    if fault {
        return Ok(Some(ScriptAnswer {
            moment: now,
            end: ScriptEnd::Fault,
        }));
    }
    let Some(pending) = pending else {
        return Ok(None);
    };
    let events = pending.events.clone()?;
    Ok(Some(ScriptAnswer {
        moment: pending.moment,
        end: ScriptEnd::Events(events),
    }))
}

// Forgets the requested waits, and scripts just the outcome of the next wait.
fn make_ready(
    poller: &mut ScriptPoller,
    fault: bool,
    pending: &Option<PendingAnswer>,
) -> io::Result<()>
    ensures ok { OnOk result
        (IsPrepared fault (option_map pending_of pending.now) poller.old poller.new) }
    ensures err { IfErr result (λ e. error_kind e ≡ OutOfMemory) }
{
    poller.keep_waits(1)?;
    let _older = poller.unscript();
    let Some(answer) = next_answer(poller.moment(), fault, pending)? else {
        return Ok(());
    };
    if poller.script(answer).is_err() {
        return Err(io::Error::from(io::ErrorKind::OutOfMemory));
    }
    Ok(())
}

// Prints the requested waits, and takes back what was scripted and given to none of them. False if there was nothing to take
// back.
fn take_back(poller: &mut ScriptPoller, text: &mut Vec<u8>) -> Result<bool, AllocError>
    ensures { IfOk result (λ stands.
        (text.new.items ≡ text.old.items ++ waits_text poller.old.waits.items)
        × (stands ≡ is_filled poller.old.answers.items)
        × IsTakenBack poller.old poller.new) }
{
    append_waits(text, poller.waits())?;
    Ok(poller.unscript().is_some())
}

// True if the wait after a dispatch is to fail.
fn fault_after(stands: bool, fault: bool) -> bool
    ensures { result ≡ fault_after stands fault }
{
    stands && fault
}

// The pending answer after a dispatch. A fault only delays it.
fn pending_after(stands: bool, fault: bool, pending: Option<PendingAnswer>) -> Option<PendingAnswer>
    ensures { option_map pending_of result
        ≡ pending_after stands fault (option_map pending_of pending) }
{
    if stands || fault { pending } else { None }
}

impl<R: Wait + Clone + Drop> ScriptLoop<R> {
    /// Makes a loop with the clock at 0 and without sources. An `Err` says that memory ran out.
    pub fn new(rt: &R, alloc: Global) -> io::Result<ScriptLoop<R>>
        ensures ok { IfOk result (λ made. IsStart (state_of made)) }
        ensures err { IfErr result (λ e. error_kind e ≡ OutOfMemory) }
    {
        let own = rt.clone()?;
        let mut poller = ScriptPoller::new(alloc)?;
        poller.keep_waits(1)?;
        let clock = poller.clock()?;
        match EventLoop::try_new(rt, alloc, poller, clock) {
            Ok(event_loop) => Ok(ScriptLoop {
                rt: own,
                alloc,
                event_loop,
                sources: Names::new(alloc),
                fault: false,
                pending: None,
            }),
            Err(_) => Err(io::Error::from(io::ErrorKind::OutOfMemory)),
        }
    }

    fn ping(&mut self, name: &SourceName, text: &mut Vec<u8>) -> io::Result<bool>
        ensures ok { IfOk result (λ read. MatchBool read
            ((said : List ℕ) × (text.new.items ≡ text.old.items ++ said)
            × InsertLine (state_of self.old) name.now (IsNewPing name.now)
            (Some (state_of self.new, said)))
            (InsertLine (state_of self.old) name.now (IsNewPing name.now) None)) }
        ensures err { IfErr result (λ e. error_kind e ≡ OutOfMemory) }
    {
        if self.sources.is_taken(name) {
            return Ok(false);
        }
        let callback = Teller {
            name: SourceName::new(self.alloc, name.as_slice())?,
        };
        let kept = SourceName::new(self.alloc, name.as_slice())?;
        let Ok((ping, source)) = make_ping(&self.rt, self.alloc) else {
            return Err(io::Error::from(io::ErrorKind::OutOfMemory));
        };
        let answer = self.event_loop.handle().insert_source(source, callback);
        keep(&mut self.sources, kept, Some(ping), answer, text)?;
        Ok(true)
    }

    fn timer(&mut self, name: &SourceName, deadline: u64, text: &mut Vec<u8>) -> io::Result<bool>
        ensures ok { IfOk result (λ read. MatchBool read
            ((said : List ℕ) × (text.new.items ≡ text.old.items ++ said)
            × InsertLine (state_of self.old) name.now (IsNewTimer name.now deadline)
            (Some (state_of self.new, said)))
            (InsertLine (state_of self.old) name.now (IsNewTimer name.now deadline) None)) }
        ensures err { IfErr result (λ e. error_kind e ≡ OutOfMemory) }
    {
        if self.sources.is_taken(name) {
            return Ok(false);
        }
        let callback = Alarm {
            name: SourceName::new(self.alloc, name.as_slice())?,
        };
        let kept = SourceName::new(self.alloc, name.as_slice())?;
        let source = Timer::from_deadline(Instant { nanos: deadline });
        let answer = self.event_loop.handle().insert_source(source, callback);
        keep(&mut self.sources, kept, None, answer, text)?;
        Ok(true)
    }

    // Rings the ping. False if no open ping has this name.
    fn ring(&mut self, name: &SourceName) -> bool
        ensures { MatchBool result
            (RingLine (state_of self.old) name.now (Some (state_of self.new, [])))
            (RingLine (state_of self.old) name.now None) }
    {
        self.sources.ring(name).is_some()
    }

    // Closes the ping. False if no open ping has this name.
    fn close(&mut self, name: &SourceName) -> bool
        ensures { MatchBool result
            (CloseLine (state_of self.old) name.now (Some (state_of self.new, [])))
            (CloseLine (state_of self.old) name.now None) }
    {
        if !self.sources.has_open_ping(name) {
            return false;
        }
        self.sources.close(name);
        true
    }

    fn remove(&mut self, slot: u64, version: u64, text: &mut Vec<u8>) -> io::Result<()>
        ensures ok { OnOk result ((said : List ℕ) × (text.new.items ≡ text.old.items ++ said)
            × RemoveLine (state_of self.old) slot version (state_of self.new) said) }
        ensures err { IfErr result (λ e. error_kind e ≡ OutOfMemory) }
    {
        let Some(token) = token_with(slot, version) else {
            append_refused(text, word_of(&Error::InvalidToken))?;
            return Ok(());
        };
        let removed = self.event_loop.handle().remove(token);
        append_removed(text, &removed)?;
        Ok(())
    }

    // Adds an event to the pending answer. False if that has no room for another one.
    fn answer(&mut self, key: u64, readiness: Readiness) -> io::Result<bool>
        ensures ok { IfOk result (λ read. MatchBool read
            (AnswerLine (state_of self.old) key readiness (Some (state_of self.new, [])))
            (AnswerLine (state_of self.old) key readiness None)) }
        ensures err { IfErr result (λ e. error_kind e ≡ OutOfMemory) }
    {
        if is_full(&self.pending) {
            return Ok(false);
        }
        let mut events = match self.pending.take() {
            Some(pending) => pending.events,
            None => ScriptEvents::new(self.alloc),
        };
        if events.push(key, readiness).is_err() {
            return Err(io::Error::from(io::ErrorKind::OutOfMemory));
        }
        let moment = self.event_loop.handle().poller_mut().moment();
        self.pending = Some(PendingAnswer { moment, events });
        Ok(true)
    }

    fn clock(&mut self, moment: u64)
        ensures { ClockLine (state_of self.old) moment (state_of self.new) }
    {
        let moment = Instant { nanos: moment };
        self.event_loop.handle().poller_mut().set_clock(moment);
    }

    fn dispatch<Q: Wait>(
        &mut self,
        rt: &Q,
        timeout: Option<u64>,
        text: &mut Vec<u8>,
    ) -> io::Result<()>
        ensures ok { OnOk result ((said : List ℕ) × (text.new.items ≡ text.old.items ++ said)
            × DispatchLine (state_of self.old) timeout (state_of self.new) said) }
        ensures err { IfErr result (λ e. error_kind e ≡ OutOfMemory) }
    {
        make_ready(
            self.event_loop.handle().poller_mut(),
            self.fault,
            &self.pending,
        )?;
        let mut said = Said::new(self.alloc);
        let answer = self.event_loop.dispatch(rt, timeout_of(timeout), &mut said);
        let Some(called) = said.text() else {
            return Err(io::Error::from(io::ErrorKind::OutOfMemory));
        };
        let stands = take_back(self.event_loop.handle().poller_mut(), text)?;
        text.extend_from_slice(called)?;
        append_answer(text, &answer)?;
        self.pending = pending_after(stands, self.fault, self.pending.take());
        self.fault = fault_after(stands, self.fault);
        Ok(())
    }

    // The number of the loop's warnings.
    fn warnings(&mut self) -> usize
        ensures same { self.new ≡ self.old }
        ensures number { result ≡ length self.old.event_loop.warnings.errors.items }
    {
        self.event_loop.handle().warnings().len()
    }

    // Logs the warnings of the loop, except so many of the first.
    fn log_warnings<L: Log>(&mut self, log: &L, but: usize)
        ensures { self.new ≡ self.old }
    {
        log_warnings(log, self.event_loop.handle().warnings(), but);
    }

    fn carry_out<Q: Wait + Log>(
        &mut self,
        rt: &Q,
        command: &Command,
        text: &mut Vec<u8>,
    ) -> io::Result<bool>
        ensures ok { IfOk result (λ read. MatchBool read
            ((said : List ℕ) × (text.new.items ≡ text.old.items ++ said)
            × Carried (state_of self.old) (Some command.now) (Some (state_of self.new, said)))
            (Carried (state_of self.old) (Some command.now) None)) }
        ensures err { IfErr result (λ e. error_kind e ≡ OutOfMemory) }
    {
        match command {
            Command::Nothing => Ok(true),
            Command::Ping(name) => self.ping(name, text),
            Command::Ring(name) => Ok(self.ring(name)),
            Command::Close(name) => Ok(self.close(name)),
            Command::Remove(slot, version) => {
                let before = self.warnings();
                self.remove(*slot, *version, text)?;
                self.log_warnings(rt, before);
                Ok(true)
            }
            Command::Answer(key, readiness) => self.answer(*key, *readiness),
            Command::Timer(name, deadline) => self.timer(name, *deadline, text),
            Command::Clock(moment) => {
                self.clock(*moment);
                Ok(true)
            }
            Command::Fault => {
                self.fault = true;
                Ok(true)
            }
            Command::Dispatch(timeout) => {
                self.dispatch(rt, *timeout, text)?;
                self.log_warnings(rt, 0);
                Ok(true)
            }
        }
    }
}

impl<R: Wait + Clone + Drop> Runner for ScriptLoop<R> {
    ghost use Rattle.looptrace.specs.Runs.{line_step};
    ghost use Rattle.looptrace.specs.LongLines.{none_carried};

    ghost step = { line_step };

    ghost refuses = { λ s line long. none_carried (state_of s) line long };

    fn line<Q: Wait + Log>(&mut self, rt: &Q, line: &[u8], text: &mut Vec<u8>) -> io::Result<bool>
        ensures read { IfOk result (λ read. MatchBool read
            ((said : List ℕ) × (text.new.items ≡ text.old.items ++ said)
            × line_step self.old line.now (Some (self.new, said)))
            (line_step self.old line.now None)) }
        ensures err { IfErr result (λ e. error_kind e ≡ OutOfMemory) }
    {
        let Some(command) = parse(self.alloc, line)? else {
            return Ok(false);
        };
        self.carry_out(rt, &command, text)
    }
}
