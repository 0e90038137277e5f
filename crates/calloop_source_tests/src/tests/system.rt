//! The poller of the operating system, over two streams that are connected.
use super::streams::connect;
use super::{clone_of, kind_of, token};
use calloop_mio::{MioIo, MioPoller, Precision, SystemClock};
use calloop_poll::sys::poll::Poll;
use calloop_poll::sys::{Clock, EVENTS_PER_WAIT, Interest, Mode, Poller, Readiness, Watched};
use calloop_slots::wheel::Instant;
use calloop_wake::Notify;
use mio::net::{TcpListener, TcpStream, UnixStream};
use std::alloc::{AllocError, AllocGlobal, Global};
use std::io;
use std::io::{Read, Write};
use std::net::{Ipv4Addr, Net, SocketAddr};
use std::os::fd::AsRawFd;
use std::process::Abort;
use std::sync::Wait;
use std::time::{Clock as MachineClock, Duration};

#[test]
fn a_socket_is_told_of_once_it_can_be_read(rt: HostRuntime) {
    let mut desk = Desk::new(&rt);
    assert!(rt; desk.add(KEY, Interest::READ).is_ok());
    assert!(rt; desk.tells(&[]));
    assert!(rt; desk.writes());
    assert!(rt; desk.tells(&[(KEY, true, false)]));
    assert!(rt; desk.tells(&[]));
}

#[test]
fn a_socket_is_told_of_as_its_interest_asks(rt: HostRuntime) {
    let table = [
        (Interest::READ, true, false),
        (Interest::WRITE, false, true),
        (Interest::BOTH, true, true),
    ];
    for (interest, readable, writable) in table {
        let mut desk = Desk::new(&rt);
        assert!(rt; desk.writes());
        assert!(rt; desk.add(KEY, interest).is_ok());
        assert!(rt; desk.tells(&[(KEY, readable, writable)]));
    }
}

#[test]
fn a_socket_that_is_modified_is_told_of_anew(rt: HostRuntime) {
    let mut desk = Desk::new(&rt);
    assert!(rt; desk.add(KEY, Interest::READ).is_ok());
    assert!(rt; desk.writes());
    assert!(rt; desk.tells(&[(KEY, true, false)]));
    assert!(rt; desk.modify(KEY, Interest::READ).is_ok());
    assert!(rt; desk.tells(&[(KEY, true, false)]));
    assert!(rt; desk.rearm(KEY, Interest::READ).is_ok());
    assert!(rt; desk.tells(&[(KEY, true, false)]) && desk.tells(&[]));
    assert!(rt; desk.modify(OTHER_KEY, Interest::BOTH).is_ok());
    assert!(rt; desk.tells(&[(OTHER_KEY, true, true)]));
}

#[test]
fn a_socket_that_was_taken_out_is_not_told_of(rt: HostRuntime) {
    let mut desk = Desk::new(&rt);
    assert!(rt; desk.add(KEY, Interest::READ).is_ok());
    assert!(rt; desk.delete().is_ok());
    assert!(rt; desk.writes());
    assert!(rt; desk.tells(&[]));
    assert!(rt; desk.add(KEY, Interest::READ).is_ok());
    assert!(rt; desk.tells(&[(KEY, true, false)]));
}

#[test]
fn what_the_machine_refuses_is_answered(rt: HostRuntime) {
    let mut desk = Desk::new(&rt);
    assert!(rt; fails(desk.modify(KEY, Interest::READ), io::ErrorKind::NotFound));
    assert!(rt; fails(desk.delete(), io::ErrorKind::NotFound));
    assert!(rt; desk.add(KEY, Interest::READ).is_ok());
    assert!(rt; fails(desk.add(KEY, Interest::READ), io::ErrorKind::AlreadyExists));
}

#[test]
fn an_empty_interest_is_refused(rt: HostRuntime) {
    let mut desk = Desk::new(&rt);
    assert!(rt; fails(desk.add(KEY, Interest::EMPTY), io::ErrorKind::InvalidInput));
    assert!(rt; desk.add(KEY, Interest::READ).is_ok());
    assert!(rt;
        fails(
            desk.modify(OTHER_KEY, Interest::EMPTY),
            io::ErrorKind::InvalidInput
        )
    );
    assert!(rt; desk.writes());
    assert!(rt; desk.tells(&[(KEY, true, false)]));
}

#[test]
fn a_socket_whose_peer_hung_up_is_ready_for_both(rt: HostRuntime) {
    let mut desk = Desk::new(&rt);
    assert!(rt; desk.add(KEY, Interest::READ).is_ok());
    desk.peer = None;
    assert!(rt; desk.tells(&[(KEY, true, true)]));
}

#[test]
fn a_wakeup_ends_a_wait_without_an_event(rt: HostRuntime) {
    let mut desk = Desk::new(&rt);
    let notifier = desk.poller.notifier().expect(&rt, "a notifier");
    notifier.notify();
    assert!(rt; desk.waits(Duration::from_secs(60), &[]));
    assert!(rt; desk.clock.now().nanos < MINUTE);
}

#[test]
fn a_clock_of_the_machine_counts_from_its_making(rt: HostRuntime) {
    let mut desk = Desk::new(&rt);
    desk.poller.set_precision(Precision::Milliseconds);
    let first = desk.clock.now().nanos;
    assert!(rt; desk.waits(Duration::from_millis(20), &[]));
    let then = desk.poller.now().nanos;
    let later = desk.clock.now().nanos;
    assert!(rt; first.saturating_add(20_000_000) <= then && then <= later && later < MINUTE);
}

#[test]
fn a_wait_of_milliseconds_ends_in_portions(rt: HostRuntime) {
    let mut desk = Desk::new(&rt);
    assert!(rt; desk.comes_to_be_interrupted(Duration::from_millis(2)));
    desk.poller.set_precision(Precision::Milliseconds);
    assert!(rt; desk.waits(Duration::from_millis(20), &[]));
}

#[test]
fn a_level_socket_is_told_of_in_each_wait(rt: HostRuntime) {
    let mut desk = Desk::new(&rt);
    assert!(rt; desk.add_level(KEY, Interest::READ).is_ok());
    assert!(rt; desk.tells(&[]) && desk.writes());
    assert!(rt; desk.tells(&[(KEY, true, false)]) && desk.tells(&[(KEY, true, false)]));
    assert!(rt; desk.modify_level(KEY, Interest::READ).is_ok());
    assert!(rt; desk.rearm_level(KEY, Interest::READ).is_ok());
    assert!(rt; desk.tells(&[(KEY, true, false)]));
    assert!(rt; desk.empties() && desk.tells(&[]));
    assert!(rt; desk.modify_level(KEY, Interest::READ).is_ok() && desk.tells(&[]));
    assert!(rt; desk.writes());
    assert!(rt; desk.tells(&[(KEY, true, false)]) && desk.tells(&[(KEY, true, false)]));
}

#[test]
fn an_added_socket_becomes_a_level_one(rt: HostRuntime) {
    let mut desk = Desk::new(&rt);
    assert!(rt; desk.add(KEY, Interest::READ).is_ok() && desk.writes());
    assert!(rt; desk.tells(&[(KEY, true, false)]) && desk.tells(&[]));
    assert!(rt; desk.modify_level(KEY, Interest::READ).is_ok());
    assert!(rt; desk.tells(&[(KEY, true, false)]) && desk.tells(&[(KEY, true, false)]));
}

#[test]
fn what_the_machine_refuses_of_a_level_socket_is_answered(rt: HostRuntime) {
    let mut desk = Desk::new(&rt);
    assert!(rt;
        fails(
            desk.modify_level(KEY, Interest::READ),
            io::ErrorKind::NotFound
        )
    );
    assert!(rt; desk.add_level(KEY, Interest::READ).is_ok());
    assert!(rt;
        fails(
            desk.add_level(KEY, Interest::READ),
            io::ErrorKind::AlreadyExists
        )
    );
    assert!(rt; desk.writes() && desk.tells(&[(KEY, true, false)]));
}

#[test]
fn a_level_socket_over_tcp_is_told_of_in_each_wait(rt: HostRuntime) {
    let mut desk = Desk::over(&rt, connect(&rt));
    assert!(rt; desk.add_level(KEY, Interest::READ).is_ok());
    assert!(rt; desk.writes() && desk.comes_to_tell(&[(KEY, true, false)]));
    assert!(rt; desk.tells(&[(KEY, true, false)]));
    assert!(rt; desk.empties() && desk.tells(&[]));
}

#[test]
fn a_level_socket_with_room_is_told_of_until_it_is_full(rt: HostRuntime) {
    let mut desk = Desk::new(&rt);
    assert!(rt; desk.add_level(KEY, Interest::WRITE).is_ok());
    assert!(rt; desk.tells(&[(KEY, false, true)]) && desk.tells(&[(KEY, false, true)]));
    assert!(rt; desk.fills() && desk.tells(&[]));
    assert!(rt; desk.peer_empties());
    assert!(rt; desk.tells(&[(KEY, false, true)]) && desk.tells(&[(KEY, false, true)]));
}

#[test]
fn a_level_socket_whose_peer_hung_up_is_told_of_in_each_wait(rt: HostRuntime) {
    let mut desk = Desk::new(&rt);
    assert!(rt; desk.add_level(KEY, Interest::READ).is_ok());
    desk.peer = None;
    assert!(rt; desk.tells(&[(KEY, true, true)]) && desk.tells(&[(KEY, true, true)]));
}

#[test]
fn a_level_socket_takes_up_another_key_and_interest(rt: HostRuntime) {
    let mut desk = Desk::new(&rt);
    assert!(rt; desk.add_level(KEY, Interest::READ).is_ok());
    assert!(rt; desk.tells(&[]));
    assert!(rt; desk.modify_level(KEY, Interest::BOTH).is_ok());
    assert!(rt; desk.tells(&[(KEY, false, true)]) && desk.tells(&[(KEY, false, true)]));
    assert!(rt; desk.modify_level(OTHER_KEY, Interest::BOTH).is_ok());
    assert!(rt; desk.tells(&[(OTHER_KEY, false, true)]));
}

#[test]
fn a_level_socket_that_is_modified_is_told_of_once(rt: HostRuntime) {
    let mut desk = Desk::new(&rt);
    assert!(rt; desk.add_level(KEY, Interest::READ).is_ok());
    assert!(rt; desk.writes());
    assert!(rt; desk.modify(KEY, Interest::READ).is_ok());
    assert!(rt; desk.tells(&[(KEY, true, false)]) && desk.tells(&[]));
    assert!(rt; desk.modify_level(KEY, Interest::READ).is_ok());
    assert!(rt; desk.tells(&[(KEY, true, false)]) && desk.tells(&[(KEY, true, false)]));
}

#[test]
fn a_level_socket_that_was_taken_out_is_not_registered(rt: HostRuntime) {
    let mut desk = Desk::new(&rt);
    assert!(rt; desk.add_level(KEY, Interest::READ).is_ok());
    assert!(rt; desk.delete().is_ok());
    assert!(rt;
        fails(
            desk.modify_level(KEY, Interest::READ),
            io::ErrorKind::NotFound
        )
    );
    assert!(rt; desk.writes() && desk.add(KEY, Interest::READ).is_ok());
    assert!(rt; desk.tells(&[(KEY, true, false)]) && desk.tells(&[]));
    assert!(rt; desk.modify_level(KEY, Interest::READ).is_ok());
    assert!(rt; desk.tells(&[(KEY, true, false)]) && desk.tells(&[(KEY, true, false)]));
}

#[test]
fn a_level_socket_that_was_exchanged_is_not_registered(rt: HostRuntime) {
    let mut desk = Desk::new(&rt);
    let (other, _peer) = UnixStream::pair(&rt).expect(&rt, "two streams");
    assert!(rt; desk.add_level(KEY, Interest::READ).is_ok());
    desk.io = MioIo::from(other);
    assert!(rt;
        fails(
            desk.modify_level(KEY, Interest::READ),
            io::ErrorKind::NotFound
        )
    );
}

#[test]
fn another_level_socket_of_the_same_descriptor_is_not_registered(rt: HostRuntime) {
    let mut desk = Desk::new(&rt);
    assert!(rt; desk.add_level(KEY, Interest::READ).is_ok());
    desk.exchanges(&rt);
    assert!(rt; desk.rearm_level(KEY, Interest::READ).is_ok());
    assert!(rt;
        fails(
            desk.modify_level(KEY, Interest::READ),
            io::ErrorKind::NotFound
        )
    );
    assert!(rt;
        fails(
            desk.rearm_level(KEY, Interest::READ),
            io::ErrorKind::NotFound
        )
    );
    assert!(rt;
        fails(
            desk.modify_level(KEY, Interest::READ),
            io::ErrorKind::NotFound
        )
    );
    assert!(rt; desk.writes() && desk.add_level(KEY, Interest::READ).is_ok());
    assert!(rt; desk.tells(&[(KEY, true, false)]) && desk.tells(&[(KEY, true, false)]));
}

#[test]
fn a_level_socket_that_was_modified_is_rearmed_as_one(rt: HostRuntime) {
    let mut desk = Desk::new(&rt);
    assert!(rt; desk.add_level(KEY, Interest::READ).is_ok() && desk.writes());
    assert!(rt; desk.modify(KEY, Interest::READ).is_ok());
    assert!(rt; desk.tells(&[(KEY, true, false)]) && desk.tells(&[]));
    assert!(rt; desk.rearm_level(KEY, Interest::READ).is_ok());
    assert!(rt; desk.tells(&[(KEY, true, false)]) && desk.tells(&[(KEY, true, false)]));
}

#[test]
fn a_level_socket_that_was_taken_out_is_not_rearmed(rt: HostRuntime) {
    let mut desk = Desk::new(&rt);
    assert!(rt; desk.add_level(KEY, Interest::READ).is_ok() && desk.delete().is_ok());
    assert!(rt;
        fails(
            desk.rearm_level(KEY, Interest::READ),
            io::ErrorKind::NotFound
        )
    );
}

#[test]
fn an_added_socket_of_the_same_descriptor_is_rearmed_as_a_level_one(rt: HostRuntime) {
    let mut desk = Desk::new(&rt);
    assert!(rt; desk.add_level(KEY, Interest::READ).is_ok());
    desk.exchanges(&rt);
    assert!(rt; desk.add(KEY, Interest::READ).is_ok() && desk.writes());
    assert!(rt; desk.tells(&[(KEY, true, false)]) && desk.tells(&[]));
    assert!(rt; desk.rearm_level(KEY, Interest::READ).is_ok());
    assert!(rt; desk.tells(&[(KEY, true, false)]) && desk.tells(&[(KEY, true, false)]));
}

#[test]
fn a_level_socket_that_is_rearmed_takes_up_another_key(rt: HostRuntime) {
    let mut desk = Desk::new(&rt);
    assert!(rt; desk.add_level(KEY, Interest::READ).is_ok() && desk.writes());
    assert!(rt; desk.rearm_level(OTHER_KEY, Interest::READ).is_ok());
    assert!(rt; desk.tells(&[(OTHER_KEY, true, false)]));
}

#[test]
fn an_explicit_registration_anew_reaches_the_machine(rt: HostRuntime) {
    let mut desk = Desk::new(&rt);
    let mut poll = machine_poll(&rt);
    let fd = desk.io.as_raw_fd();
    let (read, level) = (Interest::READ, Mode::Level);
    assert!(rt; poll.register(fd, read, level, token(1)).is_ok());
    assert!(rt; poll.reregister(fd, token(1), read, level, token(1)).is_ok());
    desk.exchanges(&rt);
    assert!(rt; poll.rearm(fd, read, level, token(1)).is_ok());
    let gone = Some(io::ErrorKind::NotFound);
    assert_eq!(rt;
        kind_of(poll.reregister(fd, token(1), read, level, token(1))),
        gone
    );
    assert!(rt;
        fails(
            poll.rearm(fd, read, level, token(1)),
            io::ErrorKind::NotFound
        )
    );
}

#[test]
fn a_socket_is_told_of_in_as_many_waits_as_its_mode_says(rt: HostRuntime) {
    for (mode, wanted) in [(Mode::OneShot, 1), (Mode::Edge, 1), (Mode::Level, 4)] {
        let mut desk = Desk::new(&rt);
        let mut poll = machine_poll(&rt);
        let fd = desk.io.as_raw_fd();
        let read = Interest::READ;
        assert!(rt; desk.writes() && poll.register(fd, read, mode, token(1)).is_ok());
        assert_eq!(rt; tellings(&rt, poll.poller_mut()), wanted);
        assert!(rt; poll.reregister(fd, token(1), read, mode, token(1)).is_ok());
        assert_eq!(rt; tellings(&rt, poll.poller_mut()), wanted);
        assert!(rt; poll.reregister(fd, token(1), read, mode, token(2)).is_ok());
        assert_eq!(rt; tellings(&rt, poll.poller_mut()), wanted);
    }
}

#[test]
fn a_level_socket_of_a_narrower_interest_is_told_of_for_that_alone(rt: HostRuntime) {
    for is_explicit in [true, false] {
        let mut desk = Desk::new(&rt);
        assert!(rt; desk.add_level(KEY, Interest::BOTH).is_ok());
        assert!(rt; desk.tells(&[(KEY, false, true)]));
        let narrowed = if is_explicit {
            desk.modify_level(KEY, Interest::READ)
        } else {
            desk.rearm_level(KEY, Interest::READ)
        };
        assert!(rt; narrowed.is_ok() && desk.tells(&[]));
        assert!(rt; desk.writes() && desk.tells(&[(KEY, true, false)]));
    }
}

#[test]
fn a_wait_by_a_clock_that_stands_still_ends(rt: HostRuntime) {
    let mut poller = MioPoller::new(&rt, rt.alloc(), Still).expect(&rt, "a poller");
    let mut told = Vec::with_capacity(rt.alloc(), EVENTS_PER_WAIT).expect(&rt, "room");
    let time = Some(Duration::from_millis(2));
    assert!(rt; poller.wait(time, 0, &mut told).is_ok() && told.is_empty());
    poller.set_precision(Precision::Milliseconds);
    assert!(rt; poller.wait(time, 0, &mut told).is_ok() && told.is_empty());
}

#[test]
fn a_level_socket_is_registered_with_its_own_poller_alone(rt: HostRuntime) {
    let mut desk = Desk::new(&rt);
    let mut other = Desk::new(&rt);
    assert!(rt; desk.add_level(KEY, Interest::READ).is_ok());
    assert!(rt;
        fails(
            other
                .poller
                .modify(desk.io.as_raw_fd(), KEY, level(Interest::READ)),
            io::ErrorKind::NotFound
        )
    );
}

#[test]
fn an_empty_interest_of_a_level_socket_is_refused(rt: HostRuntime) {
    let mut desk = Desk::new(&rt);
    let refused = io::ErrorKind::InvalidInput;
    assert!(rt; fails(desk.add_level(KEY, Interest::EMPTY), refused));
    assert!(rt; desk.add_level(KEY, Interest::READ).is_ok());
    assert!(rt; fails(desk.modify_level(KEY, Interest::EMPTY), refused));
    assert!(rt; fails(desk.rearm_level(KEY, Interest::EMPTY), refused));
    assert!(rt; desk.writes() && desk.tells(&[(KEY, true, false)]));
}

#[test]
fn a_listener_is_told_of_until_all_are_accepted(rt: HostRuntime) {
    let (listener, address) = new_listener(&rt);
    let mut desk = Desk::new(&rt);
    assert!(rt;
        desk.poller
            .add(listener.as_raw_fd(), KEY, level(Interest::READ))
            .is_ok()
    );
    let _first = TcpStream::connect(&rt, address).expect(&rt, "a stream");
    let _second = TcpStream::connect(&rt, address).expect(&rt, "a stream");
    assert!(rt; desk.comes_to_tell(&[(KEY, true, false)]) && accepts(&listener));
    assert!(rt; desk.tells(&[(KEY, true, false)]) && accepts(&listener));
    assert!(rt; desk.tells(&[]) && !accepts(&listener));
}

#[test]
fn nothing_more_is_told_beside_events_that_are_left(rt: HostRuntime) {
    let mut desk = Desk::new(&rt);
    assert!(rt; desk.add_level(KEY, Interest::READ).is_ok());
    assert!(rt; desk.writes());
    assert!(rt; desk.tells_beside(1, &[]));
    assert!(rt; desk.tells_beside(usize::MAX, &[]));
    assert!(rt; desk.tells_beside(0, &[(KEY, true, false)]));
}

const KEY: u64 = 1099511627776;

const OTHER_KEY: u64 = 65536;

const MINUTE: u64 = 60_000_000_000;

// One stream stands before the poller, and the other is its peer.
#[derive(Drop)]
struct Desk<R: MachineClock + Clone + Drop> {
    alloc: Global,
    clock: SystemClock<R>,
    poller: MioPoller<SystemClock<R>>,
    io: MioIo,
    peer: Option<MioIo>,
}

impl<R: Net + AllocGlobal + MachineClock + Clone + Drop + Abort> Desk<R> {
    fn new(rt: &R) -> Desk<R> {
        let (near, far) = UnixStream::pair(rt).expect(rt, "two streams");
        Desk::over(rt, (MioIo::from(near), MioIo::from(far)))
    }

    fn over(rt: &R, streams: (MioIo, MioIo)) -> Desk<R> {
        let clock = SystemClock::new(rt).expect(rt, "a clock");
        let read_by_poller = clock.clone().expect(rt, "a clock");
        let (near, far) = streams;
        Desk {
            alloc: rt.alloc(),
            clock,
            poller: MioPoller::new(rt, rt.alloc(), read_by_poller).expect(rt, "a poller"),
            io: near,
            peer: Some(far),
        }
    }
}

impl<R: Net + AllocGlobal + MachineClock + Clone + Drop + Abort> Desk<R> {
    // Its stream is closed, and another one has its descriptor, which the machine gives again.
    fn exchanges(&mut self, rt: &R) {
        let fd = self.io.as_raw_fd();
        let (between, _peer) = UnixStream::pair(rt).expect(rt, "two streams");
        self.io = MioIo::from(between);
        let mut others = Vec::new(self.alloc);
        for _ in 0..100u32 {
            let (near, far) = UnixStream::pair(rt).expect(rt, "two streams");
            if near.as_raw_fd() == fd {
                self.io = MioIo::from(near);
                self.peer = Some(MioIo::from(far));
                return;
            }
            assert!(rt; others.push((near, far)).is_ok());
        }
        panic!(rt; "the descriptor isn't given again")
    }
}

impl<R: MachineClock + Clone + Drop> Desk<R> {
    fn add(&mut self, key: u64, interest: Interest) -> io::Result<()> {
        self.poller.add(self.io.as_raw_fd(), key, edge(interest))
    }

    fn modify(&mut self, key: u64, interest: Interest) -> io::Result<()> {
        self.poller.modify(self.io.as_raw_fd(), key, edge(interest))
    }

    fn add_level(&mut self, key: u64, interest: Interest) -> io::Result<()> {
        self.poller.add(self.io.as_raw_fd(), key, level(interest))
    }

    fn modify_level(&mut self, key: u64, interest: Interest) -> io::Result<()> {
        self.poller
            .modify(self.io.as_raw_fd(), key, level(interest))
    }

    fn rearm_level(&mut self, key: u64, interest: Interest) -> io::Result<()> {
        self.poller.rearm(self.io.as_raw_fd(), key, level(interest))
    }

    fn rearm(&mut self, key: u64, interest: Interest) -> io::Result<()> {
        self.poller.rearm(self.io.as_raw_fd(), key, edge(interest))
    }

    fn delete(&mut self) -> io::Result<()> {
        self.poller.delete(self.io.as_raw_fd())
    }

    // The peer writes a byte.
    fn writes(&mut self) -> bool {
        match &mut self.peer {
            Some(peer) => peer.write_all(b"x").is_ok(),
            None => false,
        }
    }

    // Reads until nothing is left.
    fn empties(&mut self) -> bool {
        is_emptied(&mut self.io)
    }

    fn peer_empties(&mut self) -> bool {
        match &mut self.peer {
            Some(peer) => is_emptied(peer),
            None => false,
        }
    }

    // Writes until there is no room.
    fn fills(&mut self) -> bool {
        for _ in 0..10_000u32 {
            if let Err(cause) = self.io.write(&[0u8; 4096]) {
                return cause.kind() == io::ErrorKind::WouldBlock;
            }
        }
        false
    }

    // Whether a wait of 0 gives these keys, readable and writable as they say, and no error.
    fn tells(&mut self, wanted: &[(u64, bool, bool)]) -> bool {
        self.waits(Duration::ZERO, wanted)
    }

    // Whether a wait of a second at most gives them.
    fn comes_to_tell(&mut self, wanted: &[(u64, bool, bool)]) -> bool {
        self.waits(Duration::from_secs(1), wanted)
    }

    fn waits(&mut self, timeout: Duration, wanted: &[(u64, bool, bool)]) -> bool {
        self.waits_beside(timeout, 0, wanted)
    }

    // Whether a wait of 0 gives them while so many events are left.
    fn tells_beside(&mut self, left: usize, wanted: &[(u64, bool, bool)]) -> bool {
        self.waits_beside(Duration::ZERO, left, wanted)
    }

    fn waits_beside(
        &mut self,
        timeout: Duration,
        left: usize,
        wanted: &[(u64, bool, bool)],
    ) -> bool {
        let Ok(mut told) = Vec::with_capacity(self.alloc, EVENTS_PER_WAIT) else {
            return false;
        };
        self.poller.wait(Some(timeout), left, &mut told).is_ok() && are(&told, wanted)
    }

    // True if one of many such waits is interrupted: if a test has to wait for a processor, a wait's time may be over first.
    fn comes_to_be_interrupted(&mut self, timeout: Duration) -> bool {
        for _ in 0..500u32 {
            if self.is_interrupted(timeout) {
                return true;
            }
        }
        false
    }

    // Whether such a wait is interrupted, and tells nothing.
    fn is_interrupted(&mut self, timeout: Duration) -> bool {
        let Ok(mut told) = Vec::with_capacity(self.alloc, EVENTS_PER_WAIT) else {
            return false;
        };
        let answer = self.poller.wait(Some(timeout), 0, &mut told);
        fails(answer, io::ErrorKind::Interrupted) && told.is_empty()
    }
}

fn edge(interest: Interest) -> Watched {
    Watched {
        interest,
        mode: Mode::Edge,
    }
}

fn level(interest: Interest) -> Watched {
    Watched {
        interest,
        mode: Mode::Level,
    }
}

// It shows one moment for good.
#[derive(Drop)]
struct Still;

impl Clone for Still {
    ghost is_clone = { λ clock again. Unit {0} };

    fn clone(&self) -> Result<Still, AllocError> {
        Ok(Still)
    }
}

impl Clock for Still {
    ghost use Rattle.std.specs.Prelude.{◌≡◌};

    ghost shows = { λ clock now. now ≡ 7 };

    fn now(&self) -> Instant {
        Instant { nanos: 7 }
    }
}

type MachinePoll<R> = Poll<MioPoller<SystemClock<R>>, SystemClock<R>, R>;

fn machine_poll<R>(rt: &R) -> MachinePoll<R>
where
    R: Net + AllocGlobal + MachineClock + Wait + Clone + Drop + Abort,
{
    let clock = SystemClock::new(rt).expect(rt, "a clock");
    let read_by_poller = clock.clone().expect(rt, "a clock");
    let poller = MioPoller::new(rt, rt.alloc(), read_by_poller).expect(rt, "a poller");
    Poll::new(clone_of(rt), rt.alloc(), poller, clock).expect(rt, "a poll")
}

// How many of four waits of 0 tell of something.
fn tellings<R, P: Poller>(rt: &R, poller: &mut P) -> usize
where
    R: AllocGlobal + Abort,
{
    let mut tellings = 0usize;
    for _ in 0..4u32 {
        let mut told = Vec::with_capacity(rt.alloc(), EVENTS_PER_WAIT).expect(rt, "room");
        assert!(rt; poller.wait(Some(Duration::ZERO), 0, &mut told).is_ok());
        tellings = tellings.saturating_add(told.len());
    }
    tellings
}

// A listener and its address.
fn new_listener<R: Net + Abort>(rt: &R) -> (MioIo, SocketAddr) {
    let any = SocketAddr::from((Ipv4Addr::LOCALHOST, 0));
    let listener = TcpListener::bind(rt, any).expect(rt, "a listener");
    let address = listener.local_addr().expect(rt, "an address");
    (MioIo::from(listener), address)
}

fn accepts(listener: &MioIo) -> bool {
    match listener {
        MioIo::TcpListener(listener) => listener.accept().is_ok(),
        _ => false,
    }
}

// Whether it is read until nothing is left.
fn is_emptied(io: &mut MioIo) -> bool {
    let mut buf = [0u8; 4096];
    for _ in 0..10_000u32 {
        if let Err(cause) = io.read(&mut buf) {
            return cause.kind() == io::ErrorKind::WouldBlock;
        }
    }
    false
}

fn are(told: &[(u64, Readiness)], wanted: &[(u64, bool, bool)]) -> bool {
    told.len() == wanted.len()
        && told
            .iter()
            .zip(wanted)
            .all(|(told, wanted)| is(told, wanted))
}

fn is(told: &(u64, Readiness), wanted: &(u64, bool, bool)) -> bool {
    let (key, readiness) = *told;
    (key, readiness.readable, readiness.writable) == *wanted && !readiness.error
}

fn fails(answer: io::Result<()>, kind: io::ErrorKind) -> bool {
    match answer {
        Ok(()) => false,
        Err(cause) => cause.kind() == kind,
    }
}
