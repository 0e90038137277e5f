//! A loop of askers over a scripted poller, and what a test does at it.
use super::asker::{Asker, Named, Note, Said, Third, Wish, token_of};
use calloop::loop_logic::{EventLoop, LoopAnswer, LoopCall};
use calloop::ping::{Ping, make_ping};
use calloop::{
    Answer, Choice, Dispatcher, Error, EventDispatcher, Here, Instant, OneOf, PingSource,
    PostAction, Readiness, RegistrationToken, Sources, There, Timer,
};
use calloop_script::{ScriptAnswer, ScriptClock, ScriptEnd, ScriptEvents, ScriptPoller};
use calloop_test_sources::source::Counter;
use std::alloc::Global;
use std::sync::Wait;
use std::time::Duration;

const READABLE: Readiness = Readiness {
    readable: true,
    writable: false,
    error: false,
};

/// What a request was answered with: a word, and the slot and version that were given.
pub type Told = (&'static str, Option<Named>);

/// What a test does, or looks for.
#[derive(Clone, Copy)]
pub enum Act<'a> {
    /// A ping comes in, whose callback says this number and writes these requests.
    Ping(u32, &'a [Wish]),
    /// A timer likewise, of this deadline in milliseconds.
    Timer(u64, u32, &'a [Wish]),
    /// A counter likewise, which can be registered eight times. Its turns end so, or fail if there is nothing.
    Counter(Option<PostAction>, u32, &'a [Wish]),
    /// An idle that no callback asks for. It may cancel the one in a place, and ask for one more.
    Idle(u32, Option<usize>),
    /// The idle in this place of those that were asked for is cancelled.
    Cancel(usize),
    /// An idle of this number comes by a call that is a value, and is cancelled by another one or not.
    Queues(u32, bool),
    /// The request in this place was answered so, by a call that is a value.
    Answers(usize, Told),
    /// The ping in this place of those that came in is rung.
    Ring(usize),
    /// The source that this names leaves the loop.
    Remove(Named),
    /// The source that this names is registered again.
    Enable(Named),
    /// A wait is scripted that gives events of these keys at this moment.
    Script(u64, &'a [u64]),
    /// A dispatch succeeds in which these numbers are said.
    Says(Option<u64>, &'a [u32]),
    /// A dispatch fails in which these numbers are said.
    Fails(&'a [u32]),
    /// The poller was asked for these waits, in milliseconds, since this was asked before.
    Asked(&'a [Option<u64>]),
    /// The requests from this place on were answered so.
    Told(usize, &'a [Told]),
    /// The request in this place has no answer that wasn't handed out.
    Untold(usize),
    /// The counter was registered, and unregistered, so often.
    Counts(Named, u32, u32),
    /// The token names a source, or none.
    Names(Named, bool),
}

/// What tests look for in a source with its callback.
pub trait Counted {
    /// How often a counter was registered and unregistered.
    fn counts(&self) -> Option<(u32, u32)>;
}

/// A loop over any sources that askers can have.
#[derive(Drop)]
pub struct Stand<D, R>
where
    D: EventDispatcher<ScriptPoller, ScriptClock, R>,
    R: Wait + Drop,
{
    rt: R,
    alloc: Global,
    event_loop: EventLoop<D, ScriptPoller, ScriptClock, R>,
    said: Said,
    pings: Vec<Ping<R>>,
}

impl<D, R> Stand<D, R>
where
    D: EventDispatcher<ScriptPoller, ScriptClock, R, Data = Said, Idle = Note>,
    D: Choice<PingSource<R>, Asker, Here>,
    D: Choice<Timer, Asker, There<Here>>,
    D: Choice<Counter, Asker, Third>,
    D: Counted,
    R: Wait + Clone + Drop,
{
    /// An empty loop, whose poller keeps eight waits.
    pub fn new(rt: &R, alloc: Global) -> Option<Stand<D, R>> {
        let mut poller = ScriptPoller::new(alloc).ok()?;
        poller.keep_waits(8).ok()?;
        let clock = poller.clock().ok()?;
        let event_loop = EventLoop::try_new(rt, alloc, poller, clock).ok()?;
        let said = Said {
            numbers: Vec::new(alloc),
            tickets: Vec::new(alloc),
            idles: Vec::new(alloc),
        };
        Some(Stand {
            rt: rt.clone().ok()?,
            alloc,
            event_loop,
            said,
            pings: Vec::new(alloc),
        })
    }

    /// The place of the first act that isn't as it is wanted.
    pub fn play(&mut self, acts: &[Act<'_>]) -> Option<usize> {
        for (place, act) in acts.iter().enumerate() {
            if !self.does(*act) {
                return Some(place);
            }
        }
        None
    }

    fn does(&mut self, act: Act<'_>) -> bool {
        match act {
            Act::Ping(number, wishes) => self.ping(number, wishes).is_some(),
            Act::Timer(millis, number, wishes) => self.timer(millis, number, wishes).is_some(),
            Act::Counter(ends, number, wishes) => self.counter(ends, number, wishes).is_some(),
            Act::Idle(number, cancels) => self.idle(number, cancels),
            Act::Cancel(place) => self.cancel(place),
            Act::Queues(number, is_cancelled) => self.queues(number, is_cancelled).is_some(),
            Act::Answers(place, told) => self.answers(place, told) == Some(true),
            Act::Ring(place) => self.ring(place),
            Act::Remove(named) => self.event_loop.handle().remove(token_of(named)).is_some(),
            Act::Enable(named) => self.event_loop.handle().enable(&token_of(named)).is_ok(),
            Act::Script(millis, keys) => self.script(millis, keys),
            Act::Says(timeout, numbers) => self.dispatch(timeout, numbers) == Some(true),
            Act::Fails(numbers) => self.dispatch(None, numbers) == Some(false),
            Act::Asked(waits) => self.was_asked(waits),
            Act::Told(place, answers) => self.all_told(place, answers),
            Act::Untold(place) => self.answer_at(place).is_none(),
            Act::Counts(named, registered, left) => {
                self.counts(token_of(named)) == Some((registered, left))
            },
            Act::Names(named, names) => {
                let token = token_of(named);
                self.event_loop.handle().dispatcher(&token).is_ok() == names
            }
        }
    }

    fn asker(&self, number: u32, wishes: &[Wish]) -> Option<Asker> {
        let mut list = Vec::with_capacity(self.alloc, wishes.len()).ok()?;
        for wish in wishes {
            list.push(*wish).ok()?;
        }
        Some(Asker {
            number,
            wishes: list,
        })
    }

    fn insert(&mut self, held: D) -> Option<RegistrationToken> {
        self.event_loop.handle().register_dispatcher(held).ok()
    }

    fn ping(&mut self, number: u32, wishes: &[Wish]) -> Option<RegistrationToken> {
        let asker = self.asker(number, wishes)?;
        let (ping, source) = make_ping(&self.rt, self.alloc).ok()?;
        self.pings.push(ping).ok()?;
        let held = <D as Choice<PingSource<R>, Asker, Here>>::hold(Dispatcher::new(source, asker));
        self.insert(held)
    }

    fn timer(&mut self, millis: u64, number: u32, wishes: &[Wish]) -> Option<RegistrationToken> {
        let asker = self.asker(number, wishes)?;
        let timer = Timer::from_deadline(at(millis));
        let held = <D as Choice<Timer, Asker, There<Here>>>::hold(Dispatcher::new(timer, asker));
        self.insert(held)
    }

    fn counter(
        &mut self,
        ends: Option<PostAction>,
        number: u32,
        wishes: &[Wish],
    ) -> Option<RegistrationToken> {
        let asker = self.asker(number, wishes)?;
        let counter = Counter::new(8, ends);
        let held = <D as Choice<Counter, Asker, Third>>::hold(Dispatcher::new(counter, asker));
        self.insert(held)
    }

    fn idle(&mut self, number: u32, cancels: Option<usize>) -> bool {
        let note = Note {
            number,
            cancels,
            reads: None,
        };
        match self.event_loop.handle().insert_idle(note) {
            Ok(idle) => self.said.idles.push(idle).is_ok(),
            Err(_) => false,
        }
    }

    fn cancel(&mut self, place: usize) -> bool {
        let Some(idle) = self.said.take_idle(place) else {
            return false;
        };
        self.event_loop.handle().cancel(idle);
        true
    }

    fn queues(&mut self, number: u32, is_cancelled: bool) -> Option<()> {
        let note = Note {
            number,
            cancels: None,
            reads: None,
        };
        let call = LoopCall::InsertIdle(note);
        let LoopAnswer::IdleInserted(Ok(idle)) = self.event_loop.carry_out(&self.rt, call) else {
            return None;
        };
        if !is_cancelled {
            return Some(());
        }
        match self.event_loop.carry_out(&self.rt, LoopCall::Cancel(idle)) {
            LoopAnswer::Cancelled => Some(()),
            _ => None,
        }
    }

    // Whether the answer is this one.
    fn answers(&mut self, place: usize, wanted: Told) -> Option<bool> {
        let call = LoopCall::Answer(*self.said.tickets.get(place)?);
        let LoopAnswer::Answered(answer) = self.event_loop.carry_out(&self.rt, call) else {
            return None;
        };
        let (word, given) = wanted;
        Some(words_of(&answer?) == (word, token_named(given)))
    }

    fn ring(&mut self, place: usize) -> bool {
        match self.pings.get(place) {
            Some(ping) => {
                ping.ping();
                true
            }
            None => false,
        }
    }

    fn script(&mut self, millis: u64, keys: &[u64]) -> bool {
        let mut events = ScriptEvents::new(self.alloc);
        for key in keys {
            if events.push(*key, READABLE).is_err() {
                return false;
            }
        }
        let answer = ScriptAnswer {
            moment: at(millis),
            end: ScriptEnd::Events(events),
        };
        let mut handle = self.event_loop.handle();
        handle.poller_mut().script(answer).is_ok()
    }

    // True if a dispatch succeeds, and these numbers are said in it.
    fn dispatch(&mut self, timeout: Option<u64>, numbers: &[u32]) -> Option<bool> {
        self.said.numbers.clear();
        let answer = self
            .event_loop
            .dispatch(&self.rt, time(timeout), &mut self.said);
        if self.said.numbers.as_slice() == numbers {
            Some(answer.is_ok())
        } else {
            None
        }
    }

    fn was_asked(&mut self, waits: &[Option<u64>]) -> bool {
        let mut handle = self.event_loop.handle();
        let poller = handle.poller_mut();
        let same = are_waits(poller.waits(), waits);
        poller.keep_waits(8).is_ok() && same
    }

    fn answer_at(&mut self, place: usize) -> Option<(&'static str, Option<RegistrationToken>)> {
        let ticket = *self.said.tickets.get(place)?;
        let answer = self.event_loop.handle().answer(ticket)?;
        Some(words_of(&answer))
    }

    fn all_told(&mut self, place: usize, answers: &[Told]) -> bool {
        for (i, answer) in answers.iter().enumerate() {
            let (word, given) = *answer;
            if self.answer_at(place.saturating_add(i)) != Some((word, token_named(given))) {
                return false;
            }
        }
        true
    }

    fn counts(&mut self, token: RegistrationToken) -> Option<(u32, u32)> {
        match self.event_loop.handle().dispatcher(&token) {
            Ok(held) => held.counts(),
            Err(_) => None,
        }
    }
}

type Held<R> = Sources<
    OneOf<
        Dispatcher<PingSource<R>, Asker>,
        OneOf<Dispatcher<Timer, Asker>, Dispatcher<Counter, Asker>>,
    >,
    Said,
    Note,
>;

impl<R: Wait + Drop> Counted for Held<R> {
    fn counts(&self) -> Option<(u32, u32)> {
        match &self.held {
            OneOf::Other(OneOf::Other(held)) => {
                Some((held.source.registrations, held.source.unregistrations))
            }
            _ => None,
        }
    }
}

/// Plays at a new stand. Returns the index of the first act that isn't as wanted, or one behind the last if no stand can be made. Only this
/// knows of which types the loop is.
pub fn plays<R: Wait + Clone + Drop>(rt: &R, alloc: Global, acts: &[Act<'_>]) -> Option<usize> {
    plays_over::<Held<R>, R>(rt, alloc, acts)
}

fn plays_over<D, R>(rt: &R, alloc: Global, acts: &[Act<'_>]) -> Option<usize>
where
    D: EventDispatcher<ScriptPoller, ScriptClock, R, Data = Said, Idle = Note>,
    D: Choice<PingSource<R>, Asker, Here>,
    D: Choice<Timer, Asker, There<Here>>,
    D: Choice<Counter, Asker, Third>,
    D: Counted,
    R: Wait + Clone + Drop,
{
    let made: Option<Stand<D, R>> = Stand::new(rt, alloc);
    match made {
        Some(mut stand) => stand.play(acts),
        None => Some(acts.len()),
    }
}

fn at(millis: u64) -> Instant {
    Instant {
        nanos: millis.saturating_mul(1_000_000),
    }
}

fn time(millis: Option<u64>) -> Option<Duration> {
    match millis {
        Some(millis) => Some(Duration::from_millis(millis)),
        None => None,
    }
}

fn are_waits(noted: &[Option<Duration>], waits: &[Option<u64>]) -> bool {
    noted.len() == waits.len()
        && noted
            .iter()
            .zip(waits)
            .all(|(one, other)| *one == time(*other))
}

fn token_named(given: Option<Named>) -> Option<RegistrationToken> {
    Some(token_of(given?))
}

fn words_of<D>(answer: &Answer<D>) -> (&'static str, Option<RegistrationToken>) {
    match answer {
        Answer::Done => ("done", None),
        Answer::Inserted(token) => ("inserted", Some(*token)),
        Answer::NotInserted(_) => ("not inserted", None),
        Answer::Removed(Some(_)) => ("removed", None),
        Answer::Removed(None) => ("none", None),
        Answer::Refused(Error::InvalidToken) => ("invalid token", None),
        Answer::Refused(Error::OwnTurn) => ("own turn", None),
        Answer::Refused(_) => ("refused", None),
    }
}
