//! The table of sockets.
use super::{Scripted, kind_of, new_poll, token};
use calloop_poll::sys::poll::table::{other_keys_stay, wrong_steps_are_ruled_out};
use calloop_poll::sys::{Interest, Mode};
use calloop_script::{ScriptKind, ScriptPoller};
use calloop_slots::error::Error;
use calloop_slots::token::{RegistrationToken, TokenFactory};
use std::io::ErrorKind;
use std::os::fd::RawFd;
use std::sync::Wait;

#[test]
fn a_key_that_was_discarded_is_free_and_all_others_stay(rt: HostRuntime) {
    let mut poll = new_poll(&rt, rt.alloc());
    assert!(rt; enters(&mut poll, 1, 1).is_ok() && enters(&mut poll, 2, 2).is_ok());
    poll.poller_mut().fail(ScriptKind::Delete);
    assert!(rt; poll.unregister(1, token(1)).is_err());
    let taken = Some(ErrorKind::AlreadyExists);
    assert_eq!(rt; kind_of(enters(&mut poll, 3, 1)), taken);
    poll.discard(token(1));
    assert!(rt; enters(&mut poll, 3, 1).is_ok());
    assert_eq!(rt; kind_of(enters(&mut poll, 4, 2)), taken);
    assert_eq!(rt; kind_of(enters(&mut poll, 4, 1)), taken);
}

#[test]
fn two_sockets_of_one_slot_are_found_each_by_its_key(rt: HostRuntime) {
    let mut poll = new_poll(&rt, rt.alloc());
    let mut factory = TokenFactory::new(RegistrationToken::new(1, 0));
    let first = factory.token().expect(&rt, "a token");
    let second = factory.token().expect(&rt, "another token");
    let (one, other): (RawFd, RawFd) = (1, 2);
    assert!(rt;
        poll.register(one, Interest::READ, Mode::Level, first)
            .is_ok()
    );
    assert!(rt;
        poll.register(other, Interest::READ, Mode::Level, second)
            .is_ok()
    );
    assert!(rt;
        poll.reregister(one, first, Interest::WRITE, Mode::Edge, first)
            .is_ok()
    );
    assert!(rt;
        poll.rearm(other, Interest::WRITE, Mode::Level, second)
            .is_ok()
    );
    assert!(rt; poll.unregister(other, second).is_ok());
    assert!(rt;
        poll.rearm(other, Interest::WRITE, Mode::Level, second)
            .is_err()
    );
    let gone = Some(ErrorKind::NotFound);
    assert_eq!(rt; kind_of(poll.unregister(other, second)), gone);
    assert!(rt; poll.unregister(one, first).is_ok());
    assert_eq!(rt; kind_of(poll.unregister(one, first)), gone);
}

#[test]
fn the_laws_of_the_table_are_there(_rt: HostRuntime) {
    other_keys_stay::<ScriptPoller>();
    wrong_steps_are_ruled_out::<ScriptPoller>();
}

// Enters this descriptor, under the key of this slot.
fn enters<R: Wait + Drop>(poll: &mut Scripted<R>, fd: RawFd, slot: u32) -> Result<(), Error> {
    poll.register(fd, Interest::READ, Mode::Level, token(slot))
}
