//! Callbacks that ask for nothing.
use super::{at, new_poll, polls};
use calloop_script::{ScriptClock, ScriptPoller};
use calloop_slots::error::Error;
use calloop_slots::token::{RegistrationToken, TokenFactory};
use calloop_slots::wheel::Instant;
use calloop_sources::callbacks::{On, OnWith, QuietCallback, QuietDispatch};
use calloop_sources::idles::QuietIdle;
use calloop_sources::sources::{Asking, Callback, Dispatch, Dispatcher, OneOf, PostAction};
use calloop_sources::timer::{TimeoutAction, Timer};
use std::alloc::Global;
use std::process::Abort;
use std::sync::Wait;

#[test]
fn a_callback_that_asks_for_nothing_is_called_as_any_other(rt: HostRuntime) {
    let mut callback = Adding { heard: 0 };
    let (mut metadata, mut data, mut asked) = (4, 10, Tally { count: 3 });
    for wanted in [1, 2] {
        let answer = call(&mut callback, 5, &mut metadata, &mut data, &mut asked);
        assert_eq!(rt; answer, wanted);
    }
    assert_eq!(rt; (metadata, data, asked.count), (4, 20, 3));
}

#[test]
fn a_choice_of_such_callbacks_asks_for_nothing(rt: HostRuntime) {
    let choice: OneOf<Alarm, Alarm> = OneOf::Other(Dispatcher {
        source: Timer::from_deadline(at(10)),
        callback: Noting,
    });
    asks_nothing(&rt, &choice);
    runs_quietly(&());
    let mut moments = Vec::new(rt.alloc());
    assert!(rt; serves(&rt, rt.alloc(), choice, &mut moments));
    assert_eq!(rt; moments.as_slice(), [at(10)].as_slice());
}

// Adds each event to the data, and answers how many it heard.
#[derive(Drop)]
struct Adding {
    heard: u8,
}

impl On<u8, u8, u8> for Adding {
    fn on(&mut self, event: u8, data: &mut u8) -> u8 {
        *data = data.saturating_add(event);
        self.heard = self.heard.saturating_add(1);
        self.heard
    }
}

#[test]
fn a_callback_is_lent_what_its_source_lends(rt: HostRuntime) {
    let mut callback = Taking;
    let (mut metadata, mut data, mut asked) = (4, 10, Tally { count: 3 });
    quietly(&callback);
    let answer = call(&mut callback, 5, &mut metadata, &mut data, &mut asked);
    assert_eq!(rt; (answer, metadata, data, asked.count), (4, 5, 14, 3));
}

// Adds what its source lends to the data, and leaves the event there.
#[derive(Drop)]
struct Taking;

impl OnWith<u8, u8, u8, u8> for Taking {
    fn on_with(&mut self, event: u8, metadata: &mut u8, data: &mut u8) -> u8 {
        let lent = *metadata;
        *data = data.saturating_add(lent);
        *metadata = event;
        lent
    }
}

// Takes only what asks the loop for nothing.
fn quietly<F: QuietCallback<u8, u8, u8, u8, Tally>>(_callback: &F) {}

// Counts requests.
#[derive(Drop)]
struct Tally {
    count: u8,
}

impl Asking for Tally {
    ghost reaches = { λ q r. Unit {0} };

    ghost stays = { λ q. tt };

    ghost goes_on = { λ q r s h k. tt };
}

// Calls it as a source does.
fn call<F: Callback<u8, u8, u8, u8, Q>, Q: Asking>(
    callback: &mut F,
    event: u8,
    metadata: &mut u8,
    data: &mut u8,
    requests: &mut Q,
) -> u8 {
    callback.call(event, metadata, data, requests)
}

type Alarm = Dispatcher<Timer, Noting>;

// Notes the moments that it is called with.
#[derive(Drop)]
struct Noting;

impl On<Instant, Vec<Instant>, TimeoutAction> for Noting {
    fn on(&mut self, event: Instant, data: &mut Vec<Instant>) -> TimeoutAction {
        let _ = data.push(event);
        TimeoutAction::Drop
    }
}

// Takes only what asks the loop for nothing.
fn asks_nothing<R, D>(_rt: &R, _choice: &D)
where
    R: Wait + Drop,
    D: QuietDispatch<ScriptPoller, ScriptClock, R, Vec<Instant>, ()>,
{}

fn runs_quietly<I: QuietIdle<u32, ()>>(_idle: &I) {}

// Whether the choice leaves after its one turn.
fn serves<R, D>(rt: &R, alloc: Global, choice: D, moments: &mut Vec<Instant>) -> bool
where
    R: Wait + Clone + Drop + Abort,
    D: Dispatch<ScriptPoller, ScriptClock, R, Vec<Instant>, ()> + Drop,
{
    let mut poll = new_poll(rt, alloc);
    let mut choice = choice;
    let mut factory = TokenFactory::new(RegistrationToken::new(0, 0));
    let mut failure = Error::OutOfMemory;
    let registered = choice.register(&mut poll, &mut factory, &mut failure);
    if registered.is_err() || !polls(rt, &mut poll, None) {
        return false;
    }
    let Some(event) = poll.next_event() else {
        return false;
    };
    let answer = choice.process_events(
        event.readiness,
        event.token,
        &mut poll,
        moments,
        &mut (),
        &mut failure,
    );
    poll.end_event();
    matches!(answer, Ok(PostAction::Remove))
}
