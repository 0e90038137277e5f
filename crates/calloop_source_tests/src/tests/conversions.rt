use calloop_poll::sys::{Interest, Readiness};
use calloop_slots::error::Error;
use calloop_sources::idles::IdleCallback;
use calloop_sources::sources::{Dispatcher, IntoError};
use calloop_sources::timer::TimerError;
use std::alloc::Global;
use std::fmt::Display;
use std::io;

#[test]
fn what_is_of_no_source_becomes_another_failure(rt: HostRuntime) {
    assert!(rt; is_other(io::Error::from(io::ErrorKind::NotFound).into_error()));
    let of_the_loop = [
        Error::InvalidToken,
        Error::IoError(io::Error::from(io::ErrorKind::NotFound)),
        Error::TooManySources,
        Error::TooManyTokens,
        Error::TooManyTimers,
        Error::TooManyTickets,
        Error::OwnTurn,
        Error::NoRendezvous,
    ];
    for refusal in of_the_loop {
        assert!(rt; is_other(refusal.into_error()));
    }
}

#[test]
fn what_is_of_a_source_stays_what_it_is(rt: HostRuntime) {
    assert!(rt; matches!(Error::OutOfMemory.into_error(), Error::OutOfMemory));
    assert!(rt; is_other(Error::OtherError(anyhow::Error::msg("broken")).into_error()));
}

#[test]
fn want_of_memory_of_the_system_stays_that(rt: HostRuntime) {
    let cause = io::Error::from(io::ErrorKind::OutOfMemory);
    assert!(rt; matches!(cause.into_error(), Error::OutOfMemory));
}

#[test]
fn another_failure_keeps_the_text_of_its_cause(rt: HostRuntime) {
    let gone = || io::Error::new(io::ErrorKind::NotFound, "gone");
    let table = [
        (gone().into_error(), "gone"),
        (
            Error::IoError(gone()).into_error(),
            "underlying IO error: gone",
        ),
        (
            Error::TooManyTokens.into_error(),
            "too many tokens for one event source",
        ),
        (
            Error::NoRendezvous.into_error(),
            "a channel of bound 0 is not supported",
        ),
        (Error::OwnTurn.into_error(), "the source is in its turn"),
        (
            Error::OtherError(anyhow::Error::msg("broken")).into_error(),
            "broken",
        ),
    ];
    for (error, text) in table {
        assert!(rt; is_caused_by(rt.alloc(), error, text), "{text}");
    }
}

#[test]
fn a_timers_failure_shows_its_text(rt: HostRuntime) {
    assert!(rt; shows(rt.alloc(), &TimerError::OutOfMemory, "out of memory"));
    let cause = anyhow::Error::from(TimerError::OutOfMemory);
    assert!(rt; shows(rt.alloc(), &cause, "out of memory"));
    assert!(rt; matches!(TimerError::OutOfMemory.into_error(), Error::OutOfMemory));
}

#[test]
fn an_interest_is_in_what_its_name_says(rt: HostRuntime) {
    let table = [
        (Interest::EMPTY, false, false),
        (Interest::READ, true, false),
        (Interest::WRITE, false, true),
        (Interest::BOTH, true, true),
    ];
    for (interest, readable, writable) in table {
        assert_eq!(rt;
            (interest.readable, interest.writable),
            (readable, writable)
        );
    }
    let none = Readiness::EMPTY;
    assert!(rt; !none.readable && !none.writable && !none.error);
}

#[test]
fn a_dispatcher_lends_its_source_and_hands_it_back(rt: HostRuntime) {
    let mut dispatcher = Dispatcher::new(4u32, ());
    assert_eq!(rt; *dispatcher.as_source_ref(), 4);
    *dispatcher.as_source_mut() = 9;
    assert_eq!(rt; *dispatcher.as_source_ref(), 9);
    assert_eq!(rt; dispatcher.into_source_inner(), 9);
}

#[test]
fn nothing_to_do_changes_nothing(rt: HostRuntime) {
    let mut data: u32 = 5;
    IdleCallback::<u32, ()>::run((), &mut data, &mut ());
    assert_eq!(rt; data, 5);
}

fn is_other(error: Error) -> bool {
    matches!(error, Error::OtherError(_))
}

// Whether it is another failure whose cause has this text.
fn is_caused_by(alloc: Global, error: Error, text: &str) -> bool {
    match error {
        Error::OtherError(cause) => shows(alloc, &cause, text),
        _ => false,
    }
}

fn shows<T: Display>(alloc: Global, shown: &T, text: &str) -> bool {
    match format!(in alloc; "{shown}") {
        Ok(found) => found.as_str() == text,
        Err(_) => false,
    }
}
