//! The pollers that rows can be measured over.
use calloop::{Clock, Instant, Poller, Result};
use calloop_mio::{MioPoller, SystemClock};
use mio::net::UnixStream;
use std::alloc::Global;
use std::io::{self, Read, Write};
use std::net::Net;
use std::os::fd::AsRawFd;
use std::sync::Wait;
use std::time::Clock as MachineClock;

/// A socket that a callback can read.
pub trait ReadsByte {
    /// Reads a byte. If there is none the error is of kind `WouldBlock`, and at the end of the stream `UnexpectedEof`.
    fn read_byte(&mut self) -> io::Result<()>;
}

impl ReadsByte for UnixStream {
    fn read_byte(&mut self) -> io::Result<()> {
        self.read_exact(&mut [0u8; 1])
    }
}

/// A poller that rows can be measured over, with its clock.
pub trait Measured<C: Clock, R>: Poller + Sized {
    /// A socket.
    type Io: AsRawFd + Drop;

    /// The other end of a socket, which has to stay.
    type Peer: Drop;

    /// The poller's name in the output.
    fn name() -> &'static str;

    /// Makes a poller with which nothing is registered, and its clock.
    fn make(rt: &R, alloc: Global) -> Result<(Self, C)>;

    /// Makes a socket and its peer, which has sent nothing.
    fn pair(rt: &R) -> Result<(Self::Io, Self::Peer)>;

    /// Sends a byte.
    fn send(peer: &mut Self::Peer) -> io::Result<()>;

    /// Returns once its clock shows this moment or a later one.
    fn come_to(&mut self, rt: &R, moment: Instant);
}

/// A poller whose every dispatch makes a system call.
impl<R> Measured<SystemClock<R>, R> for MioPoller<SystemClock<R>>
where
    R: Net + MachineClock + Wait + Clone + Drop,
{
    type Io = UnixStream;

    type Peer = UnixStream;

    fn name() -> &'static str {
        "system"
    }

    fn make(rt: &R, alloc: Global) -> Result<(MioPoller<SystemClock<R>>, SystemClock<R>)> {
        let clock = SystemClock::new(rt)?;
        let poller = MioPoller::new(rt, alloc, clock.clone()?)?;
        Ok((poller, clock))
    }

    fn pair(rt: &R) -> Result<(UnixStream, UnixStream)> {
        Ok(UnixStream::pair(rt)?)
    }

    fn send(peer: &mut UnixStream) -> io::Result<()> {
        peer.write_all(b"x")
    }

    fn come_to(&mut self, rt: &R, moment: Instant) {
        for _ in rt.forever() {
            if self.now() >= moment {
                return;
            }
        }
    }
}
