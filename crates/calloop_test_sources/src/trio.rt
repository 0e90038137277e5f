//! A source of the tests that is made of a ping and two timers.
ghost use Rattle.std.specs.Prelude.{◌≡◌, ◌<◌};
ghost use Rattle.calloop_slots.specs.Widths.{parts};
ghost use Rattle.calloop_sources.specs.sources.Calls.{Went};
ghost use Rattle.calloop_test_sources.specs.Trios.{calls_of, part_heard};

use crate::source::Broken;
use calloop::{
    Asking, Callback, Dispatcher, EventIterator, EventSource, Instant, On, PingSource, Poll,
    Poller, PostAction, Readiness, Result, Synthetic, TimeoutAction, Timer, Token, TokenFactory,
};
use std::sync::Wait;

/// The part of a `Trio` that an event is for, a timer with its deadline.
#[derive(Clone, Copy, Debug)]
pub enum Part {
    Bell,
    First(Instant),
    Second(Instant),
}

/// A ping and two timers, registered together; each event is for one of them. A timer is called for once in each
/// registration, and the source stays in the loop.
#[derive(Drop)]
pub struct Trio<R: Wait + Drop> {
    pub bell: PingSource<R>,
    pub first: Timer,
    pub second: Timer,
}

// Notes the event that it is called with.
#[derive(Drop)]
struct Noted<E> {
    event: Option<E>,
}

impl<Q: Asking> Callback<(), (), (), (), Q> for Noted<()> {
    ghost use Rattle.std.specs.Prelude.{◌≡◌, Some};

    ghost may = { λ s event m x q answer t n y r. t.event ≡ Some event };

    fn call(&mut self, _event: (), _metadata: &mut (), _data: &mut (), _requests: &mut Q) {
        self.event = Some(());
    }
}

impl<Q: Asking> Callback<Instant, (), TimeoutAction, (), Q> for Noted<Instant> {
    ghost use Rattle.std.specs.Prelude.{◌≡◌, Some};

    ghost may = { λ s event m x q answer t n y r. t.event ≡ Some event };

    fn call(
        &mut self,
        event: Instant,
        _metadata: &mut (),
        _data: &mut (),
        _requests: &mut Q,
    ) -> TimeoutAction {
        self.event = Some(event);
        TimeoutAction::Drop
    }
}

// The first part that was called.
fn part_of(bell: Noted<()>, first: Noted<Instant>, second: Noted<Instant>) -> Option<Part>
    ensures { result ≡ part_heard bell.event first.event second.event }
{
    if bell.event.is_some() {
        return Some(Part::Bell);
    }
    if let Some(deadline) = first.event {
        return Some(Part::First(deadline));
    }
    match second.event {
        Some(deadline) => Some(Part::Second(deadline)),
        None => None,
    }
}

// Shows that the count of a factory fits its width.
fn count_fits(factory: &TokenFactory)
    ensures { factory.now.given < parts }
{
    let _given = factory.tokens_given();
}

// Calls back if a part had an event.
fn call_if<F, X, Q>(part: Option<Part>, callback: &mut F, data: &mut X, requests: &mut Q)
where
    Q: Asking,
    F: Callback<Part, (), (), X, Q>,
    ensures { Went F.may Q.reaches callback.old «data».old requests.old (calls_of part)
        callback.new «data».new requests.new }
{
    if let Some(part) = part {
        callback.call(part, &mut (), data, requests);
    }
}

impl<P: Poller, C, R: Wait + Drop> EventSource<P, C, R> for Trio<R> {
    ghost use Rattle.calloop_test_sources.specs.Trios.{trio_meaning, trio_keeps};

    type Event = Part;

    type Metadata = ();

    type Ret = ();

    type Error = Broken;

    ghost means = { trio_meaning };

    fn process_events<F, X, Q>(
        &mut self,
        readiness: Readiness,
        token: Token,
        poll: &mut Poll<P, C, R>,
        callback: &mut F,
        data: &mut X,
        requests: &mut Q,
    ) -> std::result::Result<PostAction, Broken>
    where
        Q: Asking,
        F: Callback<Part, (), (), X, Q>,
    {
        let mut bell = Noted { event: None };
        let mut first = Noted { event: None };
        let mut second = Noted { event: None };
        let rang = self
            .bell
            .process_events(readiness, token, poll, &mut bell, &mut (), &mut ());
        if rang.is_err() {
            return Err(Broken);
        }
        let came = self
            .first
            .process_events(readiness, token, poll, &mut first, &mut (), &mut ());
        if came.is_err() {
            return Err(Broken);
        }
        let came = self
            .second
            .process_events(readiness, token, poll, &mut second, &mut (), &mut ());
        if came.is_err() {
            return Err(Broken);
        }
        call_if(part_of(bell, first, second), callback, data, requests);
        Ok(PostAction::Continue)
    }

    fn register(&mut self, poll: &mut Poll<P, C, R>, factory: &mut TokenFactory) -> Result<()> {
        count_fits(factory);
        self.bell.register(poll, factory)?;
        count_fits(factory);
        self.first.register(poll, factory)?;
        count_fits(factory);
        self.second.register(poll, factory)
    }

    fn reregister(&mut self, poll: &mut Poll<P, C, R>, factory: &mut TokenFactory) -> Result<()> {
        count_fits(factory);
        self.bell.reregister(poll, factory)?;
        count_fits(factory);
        self.first.reregister(poll, factory)?;
        count_fits(factory);
        self.second.reregister(poll, factory)
    }

    fn unregister(&mut self, poll: &mut Poll<P, C, R>) -> Result<()> {
        self.bell.unregister(poll)?;
        self.first.unregister(poll)?;
        self.second.unregister(poll)
    }

    fn needs_extra_lifecycle_events() -> bool {
        false
    }

    fn max_synthetic() -> u16 {
        0
    }

    fn before_sleep(&mut self, _out: &mut Synthetic) -> Result<()> {
        Ok(())
    }

    fn before_handle_events(&mut self, _events: EventIterator<'_>) {}

    ghost keeps = { trio_keeps };
}

/// A callback that reports the number of the part: 1 for the ping, 2 and 3 for the timers.
#[derive(Drop)]
pub struct Announcer;

impl On<Part, Vec<u32>, ()> for Announcer {
    fn on(&mut self, part: Part, said: &mut Vec<u32>) {
        let number = match part {
            Part::Bell => 1,
            Part::First(_) => 2,
            Part::Second(_) => 3,
        };
        let _failed = said.push(number);
    }
}

/// The sources of a test of trios.
pub type Trios<R> = Dispatcher<Trio<R>, Announcer>;
