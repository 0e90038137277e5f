//! Which sockets the OS tells of in each wait.
//!
//! `mio` registers a socket so that its events come when it becomes ready. A source under `Mode::Level` is told of its socket as
//! long as it's ready: a system call without `EPOLLET` registers it, as in calloop's poller, and no other is needed meanwhile.
ghost use Rattle.std.specs.Prelude.{◌≡◌};

use calloop_poll::sys::Interest;
use libc::net as c;
use mio::Poll;
use std::alloc::{AllocError, Global};
use std::io;
use std::marker::Model;
use std::os::fd::{AsRawFd, RawFd};

// What a socket is registered for.
#[derive(Clone, Copy, PartialEq, Eq, Debug)]
struct Level {
    key: u64,
    interest: Interest,
}

/// What is known of the sockets that are told of in each wait, by their descriptors. A descriptor that isn't noted is registered
/// otherwise, or there was no memory for it.
#[derive(Drop)]
pub struct Levels {
    noted: Vec<Option<Level>>,
}

impl Model for Levels {
    ghost Value = { Unit {0} };

    ghost view = { λ _. tt };
}

// The place of a descriptor among those that are noted. No descriptor is negative.
fn place_of(descriptor: RawFd) -> usize {
    usize::try_from(descriptor).unwrap_or(usize::MAX)
}

impl Levels {
    /// Makes one that knows of no socket.
    pub fn new(alloc: Global) -> Levels {
        Levels {
            noted: Vec::new(alloc),
        }
    }

    /// True if this descriptor is registered so.
    pub fn has(&self, descriptor: RawFd, key: u64, interest: Interest) -> bool {
        match self.noted.get(place_of(descriptor)) {
            Some(Some(level)) => *level == Level { key, interest },
            Some(None) | None => false,
        }
    }

    /// Notes that it is registered so. Running out of memory notes nothing.
    pub fn note(
        &mut self,
        descriptor: RawFd,
        key: u64,
        interest: Interest,
    ) -> Result<(), AllocError>
        ensures { self.new ≡ self.old }
    {
        let at = place_of(descriptor);
        if at >= self.noted.len() {
            self.noted.resize(at.saturating_add(1), None)?;
        }
        if let Some(place) = self.noted.get_mut(at) {
            *place = Some(Level { key, interest });
        }
        Ok(())
    }

    /// Notes that it is registered otherwise, or not at all.
    pub fn clear(&mut self, descriptor: RawFd)
        ensures { self.new ≡ self.old }
    {
        if let Some(place) = self.noted.get_mut(place_of(descriptor)) {
            *place = None;
        }
    }
}

fn flags_of(interest: Interest) -> u32 {
    let mut flags = 0;
    if interest.readable {
        flags |= c::EPOLLIN | c::EPOLLRDHUP;
    }
    if interest.writable {
        flags |= c::EPOLLOUT;
    }
    flags
}

/// Whether a socket is registered for the first time, or is in the poller already.
#[derive(Clone, Copy, Debug)]
pub enum Registering {
    First,
    Again,
}

impl Registering {
    /// Makes each wait tell of a socket from now on, under this key, while it is ready for this interest.
    pub fn register(
        self,
        poll: &Poll,
        descriptor: RawFd,
        key: u64,
        interest: Interest,
    ) -> io::Result<()> {
        let call = match self {
            Registering::First => c::EPOLL_CTL_ADD,
            Registering::Again => c::EPOLL_CTL_MOD,
        };
        let flags = flags_of(interest);
        if os::epoll_ctl(poll.as_raw_fd(), call, descriptor, flags, key) < 0 {
            return Err(io::Error::from_raw_os_error(os::errno()));
        }
        Ok(())
    }
}
