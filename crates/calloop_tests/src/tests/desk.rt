//! A loop over the sources of the tests, and what a test does at it.
use super::at;
use super::stage::{Table, are_waits, time};
use calloop::loop_logic::{LoopAnswer, LoopCall};
use calloop::ping::{Ping, make_ping};
use calloop::{
    Choice, Dispatcher, Error, EventDispatcher, Here, Hold, InsertError, Instant, OneOf,
    PingSource, PostAction, RegistrationToken, Requests, Sources, There, TimeoutAction, Timer,
};
use calloop_script::{ScriptClock, ScriptPoller};
use calloop_slots::widths::{MOST_SLOTS, VERSIONS};
use calloop_test_sources::attendant::Attendant;
use calloop_test_sources::guarded::Guarded;
use calloop_test_sources::source::{Counter, Listener, Teller, Waker};
use calloop_test_sources::trio::{Announcer, Trio};
use std::alloc::Global;
use std::collections::VecDeque;
use std::io::ErrorKind;
use std::sync::Wait;
use std::time::Duration;

/// What a test does, or looks for. A source goes by its place among those that came into the loop, and a ping by its place among the pings. Times
/// are in milliseconds, if nothing else is said.
#[derive(Clone, Copy)]
pub enum Act<'a> {
    /// A ping's source, whose callback says this number.
    Ping(u32),
    /// As many, of which each says its place.
    Pings(u32),
    /// One as a dispatcher.
    PingsDispatcher(u32),
    /// One whose ping is dropped before.
    ClosedPing,
    /// A timer of this moment, which says 5 and leaves.
    Alarm(u64),
    /// One that is armed anew for the second moment.
    AlarmAgain(u64, u64),
    /// One that is armed anew each time for so much later.
    AlarmEach(u64, u64),
    /// One that is due so much later than the loop's clock shows, at once, or past the last moment.
    AlarmIn(u64),
    AlarmNow,
    AlarmNever,
    /// A counter with this limit, whose turns end so.
    Counter(u32, Option<PostAction>),
    /// An attendant that asks for so many events.
    Attendant(u32),
    /// One that asks for two, and leaves with its first turn.
    LeavingAttendant,
    /// One that fails before its first wait.
    FailingAttendant,
    /// The dispatcher of one that asks for nothing.
    AttendantsDispatcher,
    /// A ping behind a guard, which says 1: so many turns fail, and it may never be unregistered.
    Guarded(u32, bool),
    /// A ping that says 1, and timers of 20 and of 10 milliseconds that say 2 and 3, as one source.
    Trio,
    /// A counter that refuses to be registered is handed back as it was.
    HandsCounterBack,
    /// An attendant that refuses it.
    HandsAttendantBack,

    /// The ping rings.
    Ring(usize),
    /// It is cloned.
    Clone(usize),
    /// It is dropped.
    Drop(usize),

    /// The next wait ends at this moment with events of these keys.
    Script(u64, &'a [u64]),
    /// A dispatch succeeds in which these numbers are said.
    Says(Option<u64>, &'a [u32]),
    /// The same, with a timeout in microseconds.
    SaysInMicros(u64, &'a [u32]),
    /// One fails after these numbers, by an error of the system of this kind, or else by one of the source's own.
    Fails(Option<u64>, &'a [u32], Option<ErrorKind>),
    /// The poller was asked for these waits since this was asked before.
    Asked(&'a [Option<u64>]),
    /// The same, in microseconds.
    AskedMicros(&'a [u64]),
    /// The warnings are of these kinds.
    Warns(&'a [ErrorKind]),

    Enable(usize),
    Update(usize),
    Disable(usize),
    /// A call is refused by the system in this way.
    NotEnabled(usize, ErrorKind),
    NotUpdated(usize, ErrorKind),
    NotDisabled(usize, ErrorKind),
    /// It came under this slot and version.
    IsAt(usize, u32, u32),
    /// Its token names nothing any more.
    IsGone(usize),
    /// It lends neither a source nor one that can be changed.
    LendsNone(usize),
    /// A timer's deadline is set, without an update.
    Postpone(usize, u64),
    /// An attendant was told of so many waits.
    WaitsOf(usize, u32),
    /// It is taken out of the loop, and kept.
    Remove(usize),
    /// There is nothing to be taken out.
    RemovesNone(usize),
    /// What was taken out was a ping's that says this number.
    TookPing(u32),
    /// It was a counter, which was registered and unregistered so often.
    TookCounter(u32, u32),
    /// It was an attendant that was told of so many events.
    TookAttendant(u32),
    /// It is dropped.
    LetGo,
    /// These calls, as values, are carried out with these answers.
    Answers(&'a [Call], &'a [(&'a str, bool)]),
}

/// A call on a loop, as a value, with the slot of its source in its first use. A counter that it brings has this limit.
#[derive(Clone, Copy)]
pub enum Call {
    Insert(u32),
    Exchange(u32, u32),
    Enable(u32),
    Update(u32),
    Disable(u32),
    Remove(u32),
    Dispatch,
    Poller,
}

/// What tests look for in a source with its callback.
pub trait Seen {
    // How often a counter was registered and unregistered.
    fn counts(&self) -> Option<(u32, u32)>;

    // What a ping says.
    fn number(&self) -> Option<u32>;

    // An attendant's waits, and the events that it was told of.
    fn attendance(&self) -> Option<(u32, u32)>;

    // Whether it is a timer, whose deadline is set.
    fn postpones(&mut self, deadline: Instant) -> bool;
}

/// A loop, what came into it, and its pings.
#[derive(Drop)]
struct Desk<D: EventDispatcher<ScriptPoller, ScriptClock, R>, R: Wait + Drop> {
    table: Table<D, R>,
    tokens: Vec<RegistrationToken>,
    pings: Vec<Option<Ping<R>>>,
    taken: Option<D>,
}

type Third = There<There<Here>>;

type Fourth = There<Third>;

type Fifth = There<Fourth>;

type Sixth = There<Fifth>;

impl<D, R> Desk<D, R>
where
    D: EventDispatcher<ScriptPoller, ScriptClock, R, Data = Vec<u32>, Idle = ()> + Seen,
    D: Hold<PingSource<R>, Teller, ScriptPoller, ScriptClock, R, Vec<u32>, Requests<D>, Here>,
    D: Choice<Timer, Waker, There<Here>>,
    D: Hold<Attendant, Listener, ScriptPoller, ScriptClock, R, Vec<u32>, Requests<D>, Third>,
    D: Choice<Counter, Listener, Fourth>,
    D: Choice<Guarded<R>, Teller, Fifth>,
    D: Choice<Trio<R>, Announcer, Sixth>,
    R: Wait + Clone + Drop,
{
    fn does(&mut self, act: Act<'_>) -> bool {
        match act {
            Act::Ping(number) => self.ping(number),
            Act::Pings(count) => (0..count).all(|number| self.ping(number)),
            Act::PingsDispatcher(number) => self.pings_dispatcher(number),
            Act::ClosedPing => self.closed_ping(),
            Act::Alarm(millis) => self.alarm(at(millis), TimeoutAction::Drop),
            Act::AlarmAgain(millis, again) => {
                self.alarm(at(millis), TimeoutAction::ToInstant(at(again)))
            }
            Act::AlarmEach(millis, later) => {
                let later = Duration::from_millis(later);
                self.alarm(at(millis), TimeoutAction::ToDuration(later))
            }
            Act::AlarmIn(millis) => self.alarm_in(Duration::from_millis(millis)),
            Act::AlarmNever => self.alarm_in(Duration::MAX),
            Act::AlarmNow => self.alarm_now(),
            Act::Counter(limit, ends) => self.counter(limit, ends),
            Act::Guarded(failures, is_stuck) => self.registers_guarded(failures, is_stuck),
            Act::Trio => self.trio(),
            _ => self.attends(act),
        }
    }

    fn attends(&mut self, act: Act<'_>) -> bool {
        match act {
            Act::Attendant(asks) => self.attendant(Attendant::new(asks)),
            Act::LeavingAttendant => self.attendant(leaving_attendant()),
            Act::FailingAttendant => self.attendant(failing_attendant()),
            Act::AttendantsDispatcher => self.attendants_dispatcher(),
            Act::HandsCounterBack => self.hands_counter_back(),
            Act::HandsAttendantBack => self.hands_attendant_back(),
            Act::Ring(place) => self.rings(place),
            Act::Clone(place) => self.clones(place),
            Act::Drop(place) => self.drops(place),
            _ => self.dispatches(act),
        }
    }

    fn dispatches(&mut self, act: Act<'_>) -> bool {
        match act {
            Act::Script(millis, keys) => self.table.scripts(millis, keys),
            Act::Says(timeout, numbers) => self.table.says(time(timeout), numbers),
            Act::SaysInMicros(micros, numbers) => {
                self.table
                    .says(Some(Duration::from_micros(micros)), numbers)
            }
            Act::Fails(timeout, numbers, kind) => self.table.fails(time(timeout), numbers, kind),
            Act::Asked(waits) => self.table.was_asked(waits),
            Act::AskedMicros(waits) => self.table.asked_micros(waits),
            Act::Warns(kinds) => self.table.warns_of(kinds),
            Act::Answers(calls, wanted) => self.answers(calls, wanted),
            Act::TookPing(number) => self.took_ping(number),
            Act::TookCounter(one, other) => self.took_counter((one, other)),
            Act::TookAttendant(told) => self.took_attendant(told),
            Act::LetGo => self.taken.take().is_some(),
            _ => self.calls(act) == Some(true),
        }
    }

    fn calls(&mut self, act: Act<'_>) -> Option<bool> {
        match act {
            Act::Enable(place) => Some(self.enable(place)?.is_ok()),
            Act::Update(place) => Some(self.update(place)?.is_ok()),
            Act::Disable(place) => Some(self.disable(place)?.is_ok()),
            Act::NotEnabled(place, kind) => Some(is_refused_as(&self.enable(place)?, kind)),
            Act::NotUpdated(place, kind) => Some(is_refused_as(&self.update(place)?, kind)),
            Act::NotDisabled(place, kind) => Some(is_refused_as(&self.disable(place)?, kind)),
            Act::IsAt(place, slot, version) => {
                Some(self.token(place)? == registration(slot, version))
            }
            Act::RemovesNone(place) => Some(!self.removes(place)?),
            _ => self.looks_for(act),
        }
    }

    fn looks_for(&mut self, act: Act<'_>) -> Option<bool> {
        match act {
            Act::IsGone(place) => self.is_gone(place),
            Act::LendsNone(place) => self.lends_none(place),
            Act::Postpone(place, millis) => self.postpones(place, millis),
            Act::WaitsOf(place, waits) => Some(self.waits_of(place)? == waits),
            Act::Remove(place) => self.removes(place),
            _ => None,
        }
    }

    fn enable(&mut self, place: usize) -> Option<calloop::Result<()>> {
        let token = self.token(place)?;
        Some(self.table.event_loop.handle().enable(&token))
    }

    fn update(&mut self, place: usize) -> Option<calloop::Result<()>> {
        let token = self.token(place)?;
        Some(self.table.event_loop.handle().update(&token))
    }

    fn disable(&mut self, place: usize) -> Option<calloop::Result<()>> {
        let token = self.token(place)?;
        Some(self.table.event_loop.handle().disable(&token))
    }

    fn is_gone(&mut self, place: usize) -> Option<bool> {
        let token = self.token(place)?;
        Some(self.table.is_gone(token))
    }

    fn lends_none(&mut self, place: usize) -> Option<bool> {
        let token = self.token(place)?;
        Some(self.table.lends_none(token))
    }

    fn token(&self, place: usize) -> Option<RegistrationToken> {
        self.tokens.get(place).copied()
    }

    // Keeps the token of what came into the loop: whether it did.
    fn keeps<S: Drop>(&mut self, inserted: Result<RegistrationToken, InsertError<S>>) -> bool {
        match inserted {
            Ok(token) => self.tokens.push(token).is_ok(),
            Err(_) => false,
        }
    }

    fn registers(&mut self, held: D) -> bool {
        let registered = self.table.event_loop.handle().register_dispatcher(held);
        self.keeps(registered)
    }

    // A ping, which is kept, and its source.
    fn makes(&mut self) -> Option<PingSource<R>> {
        let (ping, source) = make_ping(&self.table.rt, self.table.alloc).ok()?;
        self.pings.push(Some(ping)).ok()?;
        Some(source)
    }

    fn ping(&mut self, number: u32) -> bool {
        let Some(source) = self.makes() else {
            return false;
        };
        let teller = Teller { number };
        let inserted = self.table.event_loop.handle().insert_source(source, teller);
        self.keeps(inserted)
    }

    fn pings_dispatcher(&mut self, number: u32) -> bool {
        match self.makes() {
            Some(source) => self.registers(D::hold(Dispatcher::new(source, Teller { number }))),
            None => false,
        }
    }

    fn closed_ping(&mut self) -> bool {
        let Some(source) = self.makes() else {
            return false;
        };
        drop(self.pings.pop());
        self.registers(D::hold(Dispatcher::new(source, Teller { number: 1 })))
    }

    fn alarm(&mut self, deadline: Instant, action: TimeoutAction) -> bool {
        let timer = Timer::from_deadline(deadline);
        self.registers(D::hold(Dispatcher::new(timer, Waker { number: 5, action })))
    }

    fn alarm_in(&mut self, duration: Duration) -> bool {
        let timer = Timer::from_duration(self.table.event_loop.clock(), duration);
        self.registers(D::hold(Dispatcher::new(timer, says_5())))
    }

    fn alarm_now(&mut self) -> bool {
        let timer = Timer::immediate(self.table.event_loop.clock());
        self.registers(D::hold(Dispatcher::new(timer, says_5())))
    }

    fn counter(&mut self, limit: u32, ends: Option<PostAction>) -> bool {
        let counter = Counter::new(limit, ends);
        self.registers(D::hold(Dispatcher::new(counter, Listener)))
    }

    fn hands_counter_back(&mut self) -> bool {
        let counter = Counter::new(0, None);
        let call = LoopCall::Insert(D::hold(Dispatcher::new(counter, Listener)));
        is_handed_back(&self.table.event_loop.carry_out(&self.table.rt, call))
    }

    fn attendant(&mut self, attendant: Attendant) -> bool {
        let inserted = self
            .table
            .event_loop
            .handle()
            .insert_source(attendant, Listener);
        self.keeps(inserted)
    }

    fn attendants_dispatcher(&mut self) -> bool {
        self.registers(D::hold(Dispatcher::new(Attendant::new(0), Listener)))
    }

    fn hands_attendant_back(&mut self) -> bool {
        let refused = Attendant {
            is_refused: true,
            ..Attendant::new(0)
        };
        match self
            .table
            .event_loop
            .handle()
            .insert_source(refused, Listener)
        {
            Ok(_) => false,
            Err(refused) => refused.inserted.is_refused && refused.inserted.waits == 0,
        }
    }

    fn registers_guarded(&mut self, failures: u32, is_stuck: bool) -> bool {
        let Some(ping) = self.makes() else {
            return false;
        };
        let guarded = Guarded {
            ping,
            failures,
            is_stuck,
        };
        self.registers(D::hold(Dispatcher::new(guarded, Teller { number: 1 })))
    }

    fn trio(&mut self) -> bool {
        let Some(bell) = self.makes() else {
            return false;
        };
        let trio = Trio {
            bell,
            first: Timer::from_deadline(at(20)),
            second: Timer::from_deadline(at(10)),
        };
        self.registers(D::hold(Dispatcher::new(trio, Announcer)))
    }

    fn rings(&self, place: usize) -> bool {
        match self.pings.get(place) {
            Some(Some(ping)) => {
                let _receipt = ping.ping();
                true
            }
            _ => false,
        }
    }

    fn clones(&mut self, place: usize) -> bool {
        let Some(Some(ping)) = self.pings.get(place) else {
            return false;
        };
        match ping.clone() {
            Ok(again) => self.pings.push(Some(again)).is_ok(),
            Err(_) => false,
        }
    }

    fn drops(&mut self, place: usize) -> bool {
        match self.pings.get_mut(place) {
            Some(ping) => ping.take().is_some(),
            None => false,
        }
    }

    fn removes(&mut self, place: usize) -> Option<bool> {
        let token = self.token(place)?;
        self.taken = self.table.event_loop.handle().remove(token);
        Some(self.taken.is_some())
    }

    fn postpones(&mut self, place: usize, millis: u64) -> Option<bool> {
        let token = self.token(place)?;
        match self.table.event_loop.handle().dispatcher_mut(&token) {
            Ok(held) => Some(held.postpones(at(millis))),
            Err(_) => Some(false),
        }
    }

    fn waits_of(&mut self, place: usize) -> Option<u32> {
        let token = self.token(place)?;
        let handle = self.table.event_loop.handle();
        Some(handle.dispatcher(&token).ok()?.attendance()?.0)
    }

    fn took_ping(&self, number: u32) -> bool {
        match &self.taken {
            Some(held) => held.number() == Some(number),
            None => false,
        }
    }

    fn took_counter(&self, counted: (u32, u32)) -> bool {
        match &self.taken {
            Some(held) => held.counts() == Some(counted),
            None => false,
        }
    }

    fn took_attendant(&self, told: u32) -> bool {
        match &self.taken {
            Some(held) => held.attendance().is_some_and(|found| found.1 == told),
            None => false,
        }
    }

    fn answers(&mut self, calls: &[Call], wanted: &[(&str, bool)]) -> bool {
        let alloc = self.table.alloc;
        let mut made = VecDeque::new(alloc);
        for call in calls {
            let Some(call) = loop_call(alloc, *call) else {
                return false;
            };
            if made.push_back(call).is_err() {
                return false;
            }
        }
        let answers = self
            .table
            .event_loop
            .carry_out_all(&self.table.rt, alloc, made);
        answers.is_ok_and(|answers| are_answers(&answers, wanted))
    }

    // The place of the first act that isn't as it is wanted.
    fn play(&mut self, acts: &[Act<'_>]) -> Option<usize> {
        for (place, act) in acts.iter().enumerate() {
            if !self.does(*act) {
                return Some(place);
            }
        }
        None
    }
}

// Plays at a new desk over this choice. Returns the index of the first act that isn't as wanted, or one behind the last if no desk can be made.
fn plays_over<D, R>(rt: &R, alloc: Global, acts: &[Act<'_>]) -> Option<usize>
where
    D: EventDispatcher<ScriptPoller, ScriptClock, R, Data = Vec<u32>, Idle = ()> + Seen,
    D: Hold<PingSource<R>, Teller, ScriptPoller, ScriptClock, R, Vec<u32>, Requests<D>, Here>,
    D: Choice<Timer, Waker, There<Here>>,
    D: Hold<Attendant, Listener, ScriptPoller, ScriptClock, R, Vec<u32>, Requests<D>, Third>,
    D: Choice<Counter, Listener, Fourth>,
    D: Choice<Guarded<R>, Teller, Fifth>,
    D: Choice<Trio<R>, Announcer, Sixth>,
    R: Wait + Clone + Drop,
{
    let made: Option<Table<D, R>> = Table::new(rt, alloc);
    let Some(table) = made else {
        return Some(acts.len());
    };
    let mut desk = Desk {
        table,
        tokens: Vec::new(alloc),
        pings: Vec::new(alloc),
        taken: None,
    };
    desk.play(acts)
}

/// Plays at a new desk. This alone knows of which types it is, and calls nothing else, since each call on a loop whose types are written out costs
/// the prover as much as a whole test.
pub fn plays<R: Wait + Clone + Drop>(rt: &R, alloc: Global, acts: &[Act<'_>]) -> Option<usize> {
    plays_over::<Held<R>, R>(rt, alloc, acts)
}

type Held<R> = Sources<
    OneOf<
        Dispatcher<PingSource<R>, Teller>,
        OneOf<
            Dispatcher<Timer, Waker>,
            OneOf<
                Dispatcher<Attendant, Listener>,
                OneOf<
                    Dispatcher<Counter, Listener>,
                    OneOf<Dispatcher<Guarded<R>, Teller>, Dispatcher<Trio<R>, Announcer>>,
                >,
            >,
        >,
    >,
    Vec<u32>,
>;

impl<R: Wait + Drop> Seen for Held<R> {
    fn counts(&self) -> Option<(u32, u32)> {
        match &self.held {
            OneOf::Other(OneOf::Other(OneOf::Other(OneOf::First(held)))) => {
                Some((held.source.registrations, held.source.unregistrations))
            }
            _ => None,
        }
    }

    fn number(&self) -> Option<u32> {
        match &self.held {
            OneOf::First(held) => Some(held.callback.number),
            _ => None,
        }
    }

    fn attendance(&self) -> Option<(u32, u32)> {
        match &self.held {
            OneOf::Other(OneOf::Other(OneOf::First(held))) => {
                Some((held.source.waits, held.source.told))
            }
            _ => None,
        }
    }

    fn postpones(&mut self, deadline: Instant) -> bool {
        match &mut self.held {
            OneOf::Other(OneOf::First(alarm)) => {
                alarm.as_source_mut().set_deadline(deadline);
                true
            }
            _ => false,
        }
    }
}

// Says 5 and leaves.
fn says_5() -> Waker {
    Waker {
        number: 5,
        action: TimeoutAction::Drop,
    }
}

fn leaving_attendant() -> Attendant {
    Attendant {
        ends: PostAction::Remove,
        ..Attendant::new(2)
    }
}

fn failing_attendant() -> Attendant {
    Attendant {
        fails_at: 1,
        ..Attendant::new(0)
    }
}

fn first_use(slot: u32) -> RegistrationToken {
    registration(slot, 0)
}

// The registration of these numbers, modulo how many there are.
fn registration(slot: u32, version: u32) -> RegistrationToken {
    RegistrationToken::new(slot % MOST_SLOTS as u32, version % VERSIONS as u32)
}

fn loop_call<D>(alloc: Global, call: Call) -> Option<LoopCall<D, ScriptPoller, Vec<u32>>>
where
    D: Choice<Counter, Listener, Fourth>,
{
    let made = match call {
        Call::Insert(limit) => LoopCall::Insert(counter(limit)),
        Call::Exchange(slot, limit) => LoopCall::Exchange(first_use(slot), counter(limit)),
        Call::Enable(slot) => LoopCall::Enable(first_use(slot)),
        Call::Update(slot) => LoopCall::Update(first_use(slot)),
        Call::Disable(slot) => LoopCall::Disable(first_use(slot)),
        Call::Remove(slot) => LoopCall::Remove(first_use(slot)),
        Call::Dispatch => LoopCall::Dispatch(Some(Duration::ZERO), Vec::new(alloc)),
        Call::Poller => LoopCall::Poller(ScriptPoller::new(alloc).ok()?),
    };
    Some(made)
}

fn counter<D: Choice<Counter, Listener, Fourth>>(limit: u32) -> D {
    D::hold(Dispatcher::new(Counter::new(limit, None), Listener))
}

type Answer<D> = LoopAnswer<D, ScriptPoller, Vec<u32>>;

// Whether a counter is handed back that isn't registered.
fn is_handed_back<D: Seen>(answer: &Answer<D>) -> bool {
    match answer {
        LoopAnswer::Inserted(
            Err(
                InsertError {
                    inserted,
                    error: Error::IoError(cause),
                },
            ),
        ) => inserted.counts() == Some((0, 0)) && cause.kind() == ErrorKind::NotFound,
        _ => false,
    }
}

// Whether it is a refusal by the system of this kind.
fn is_refused_as(answer: &calloop::Result<()>, kind: ErrorKind) -> bool {
    match answer {
        Err(Error::IoError(cause)) => cause.kind() == kind,
        _ => false,
    }
}

fn are_answers<D>(answers: &[Answer<D>], wanted: &[(&str, bool)]) -> bool {
    for (answer, wanted) in answers.iter().zip(wanted) {
        if words_of(answer) != *wanted {
            return false;
        }
    }
    answers.len() == wanted.len()
}

// Of which call it is the answer, and whether that succeeded: the first slot was given, a dispatch called nothing, and the
// poller before was asked for one wait, of 0.
fn words_of<D>(answer: &Answer<D>) -> (&'static str, bool) {
    match answer {
        LoopAnswer::Inserted(token) => ("inserted", is_first(token)),
        LoopAnswer::Enabled(answer) => told_as("enabled", answer),
        LoopAnswer::Updated(answer) => told_as("updated", answer),
        LoopAnswer::Disabled(answer) => told_as("disabled", answer),
        LoopAnswer::Removed(source) => ("removed", source.is_some()),
        LoopAnswer::Released(answer) => told_as("released", answer),
        LoopAnswer::Exchanged(answer) => ("exchanged", answer.is_ok()),
        LoopAnswer::Dispatched(answer, said) => ("dispatched", answer.is_ok() && said.is_empty()),
        LoopAnswer::IdleInserted(answer) => ("idle inserted", answer.is_ok()),
        LoopAnswer::Cancelled => ("cancelled", true),
        LoopAnswer::Answered(answer) => ("answered", answer.is_some()),
        LoopAnswer::StopForgotten => ("stop forgotten", true),
        LoopAnswer::Stopped(found) => ("stopped", *found),
        LoopAnswer::Poller(before) => ("poller", are_waits(before.waits(), &[Some(0)])),
    }
}

// A refusal that isn't one of the token is told as a failure.
fn told_as(word: &'static str, answer: &calloop::Result<()>) -> (&'static str, bool) {
    match answer {
        Ok(()) => (word, true),
        Err(Error::InvalidToken) => (word, false),
        Err(_) => ("failed", false),
    }
}

fn is_first<S>(inserted: &Result<RegistrationToken, InsertError<S>>) -> bool {
    match inserted {
        Ok(token) => *token == RegistrationToken::new(0, 0),
        Err(_) => false,
    }
}
