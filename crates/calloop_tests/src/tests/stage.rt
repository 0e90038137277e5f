//! A loop whose callbacks say numbers, over a scripted poller, whatever sources it has.
use super::at;
use calloop::{Error, EventDispatcher, Readiness, RegistrationToken, ScriptLoop};
use calloop_script::{ScriptAnswer, ScriptClock, ScriptEnd, ScriptEvents, ScriptPoller};
use std::alloc::Global;
use std::io::ErrorKind;
use std::sync::Wait;
use std::time::Duration;

const READABLE: Readiness = Readiness {
    readable: true,
    writable: false,
    error: false,
};

#[derive(Drop)]
pub struct Table<D: EventDispatcher<ScriptPoller, ScriptClock, R>, R: Wait + Drop> {
    pub rt: R,
    pub alloc: Global,
    pub event_loop: ScriptLoop<D, R>,
}

impl<D, R> Table<D, R>
where
    D: EventDispatcher<ScriptPoller, ScriptClock, R, Data = Vec<u32>>,
    R: Wait + Clone + Drop,
{
    /// Its poller keeps eight waits.
    pub fn new(rt: &R, alloc: Global) -> Option<Table<D, R>> {
        let mut event_loop: ScriptLoop<D, R> = ScriptLoop::with_script(rt, alloc).ok()?;
        event_loop.handle().poller_mut().keep_waits(8).ok()?;
        let rt = rt.clone().ok()?;
        Some(Table {
            rt,
            alloc,
            event_loop,
        })
    }

    /// Scripts a wait that gives events of these keys at this moment: whether there is memory for it.
    pub fn scripts(&mut self, millis: u64, keys: &[u64]) -> bool {
        let Some(events) = events(self.alloc, keys) else {
            return false;
        };
        let answer = ScriptAnswer {
            moment: at(millis),
            end: ScriptEnd::Events(events),
        };
        self.event_loop.handle().poller_mut().script(answer).is_ok()
    }

    /// What a dispatch answers, and what is said in it.
    pub fn dispatch(&mut self, timeout: Option<Duration>) -> (calloop::Result<()>, Vec<u32>) {
        let mut said = Vec::new(self.alloc);
        let answer = self.event_loop.dispatch(&self.rt, timeout, &mut said);
        (answer, said)
    }

    /// Whether one succeeds in which these numbers are said.
    pub fn says(&mut self, timeout: Option<Duration>, numbers: &[u32]) -> bool {
        let (answer, said) = self.dispatch(timeout);
        answer.is_ok() && said.as_slice() == numbers
    }

    /// Whether one fails after these numbers, by an error of the system of this kind, or else by one of the source's own.
    pub fn fails(
        &mut self,
        timeout: Option<Duration>,
        numbers: &[u32],
        kind: Option<ErrorKind>,
    ) -> bool {
        let (answer, said) = self.dispatch(timeout);
        said.as_slice() == numbers
            && match answer {
                Err(Error::OtherError(_)) => kind.is_none(),
                Err(Error::IoError(cause)) => kind == Some(cause.kind()),
                _ => false,
            }
    }

    /// Whether the poller was asked for these waits, in milliseconds, since this was last called.
    pub fn was_asked(&mut self, waits: &[Option<u64>]) -> bool {
        let mut handle = self.event_loop.handle();
        let poller = handle.poller_mut();
        let are_these = are_waits(poller.waits(), waits);
        poller.keep_waits(8).is_ok() && are_these
    }

    /// Whether it was asked for these waits, in microseconds.
    pub fn asked_micros(&mut self, waits: &[u64]) -> bool {
        let mut handle = self.event_loop.handle();
        are_micros(handle.poller_mut().waits(), waits)
    }

    /// Whether the token names nothing any more.
    pub fn is_gone(&mut self, token: RegistrationToken) -> bool {
        let mut handle = self.event_loop.handle();
        is_invalid(&handle.enable(&token))
            && is_invalid(&handle.update(&token))
            && is_invalid(&handle.disable(&token))
    }

    /// Whether it lends neither a source nor one that can be changed.
    pub fn lends_none(&mut self, token: RegistrationToken) -> bool {
        let mut handle = self.event_loop.handle();
        is_invalid(&handle.dispatcher(&token)) && is_invalid(&handle.dispatcher_mut(&token))
    }

    /// Whether the warnings are of these kinds.
    pub fn warns_of(&mut self, kinds: &[ErrorKind]) -> bool {
        are_of_kinds(self.event_loop.handle().warnings(), kinds)
    }
}

fn events(alloc: Global, keys: &[u64]) -> Option<ScriptEvents> {
    let mut events = ScriptEvents::new(alloc);
    for key in keys {
        events.push(*key, READABLE).ok()?;
    }
    Some(events)
}

/// A time in milliseconds.
pub fn time(millis: Option<u64>) -> Option<Duration> {
    match millis {
        Some(millis) => Some(Duration::from_millis(millis)),
        None => None,
    }
}

/// Whether these are the waits, in milliseconds.
pub fn are_waits(noted: &[Option<Duration>], waits: &[Option<u64>]) -> bool {
    noted.len() == waits.len()
        && noted
            .iter()
            .zip(waits)
            .all(|(one, other)| *one == time(*other))
}

fn are_micros(noted: &[Option<Duration>], waits: &[u64]) -> bool {
    noted.len() == waits.len()
        && noted
            .iter()
            .zip(waits)
            .all(|(one, other)| *one == Some(Duration::from_micros(*other)))
}

fn are_of_kinds(warnings: &[Error], kinds: &[ErrorKind]) -> bool {
    warnings.len() == kinds.len()
        && warnings.iter().zip(kinds).all(|(warning, kind)| match warning {
            Error::IoError(cause) => cause.kind() == *kind,
            _ => false,
        })
}

fn is_invalid<T>(answer: &calloop::Result<T>) -> bool {
    matches!(answer, Err(Error::InvalidToken))
}
