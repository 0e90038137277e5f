//! Futures of the kit's crate `futures` beside the loop. Their wakes come over a pair of sockets: the kit's doorbell writes to one
//! end, and the loop hears of the other.

use calloop::{Asking, Callback, NoIoDrop, PostAction, Readiness};
use futures::Future;
use futures::channel::oneshot::Canceled;
use futures::task::{Asleep, Doorbell, Poll, Solo};
use mio::net::UnixStream;
use std::alloc::AllocGlobal;
use std::fmt::Write;
use std::io::{self, Read};
use std::net::Net;
use std::os::fd::OwnedFd;
use std::random::RandomSource;
use std::sync::Wait;

/// What polls one future, and the socket that a wake of this future makes readable.
pub fn new_bell<R: Net + RandomSource + AllocGlobal>(rt: &R) -> io::Result<(Solo, UnixStream)> {
    let (heard, rung) = UnixStream::pair(rt)?;
    let solo = Solo::new(rt, Doorbell::from_event_fd(OwnedFd::from(rung)))?;
    Ok((solo, heard))
}

// A future that may be polled.
#[derive(Drop)]
struct Pollable<F: Future> {
    future: F,
    ghost can_poll: { ∥ F.can_poll future ∥₁ },
}

impl<F: Future> Pollable<F> {
    fn into_inner(self) -> F
        ensures { F.can_poll result }
    {
        let Pollable { future } = self;
        future
    }

    // One poll: its output, or the future back.
    fn poll(self, solo: &Solo) -> Result<F::Output, Pollable<F>> {
        let mut future = self.into_inner();
        let mut context = solo.begin();
        let polled = future.poll(&mut context);
        context.end(&polled);
        match polled {
            Poll::Ready(output) => Ok(output),
            Poll::Pending => Err(Pollable { future }),
        }
    }
}

/// A future that waits for a wake, which rings.
pub struct Resting<'a, F: Future> {
    asleep: Asleep<'a>,
    pollable: Pollable<F>,
}

impl<'a, F: Future> Resting<'a, F> {
    /// Polls a future until it is done, and gives its output, or has to wait for a wake.
    pub fn begin<R: Wait>(rt: &R, solo: &'a Solo, future: F) -> Result<F::Output, Resting<'a, F>>
        requires { F.can_poll future }
    {
        poll_on(rt, solo, Pollable { future })
    }

    /// The same again, after a ring.
    pub fn go_on<R: Wait>(self, rt: &R, solo: &'a Solo) -> Result<F::Output, Resting<'a, F>> {
        let Resting { asleep, pollable } = self;
        asleep.end();
        poll_on(rt, solo, pollable)
    }
}

fn poll_on<'a, F: Future, R: Wait>(
    rt: &R,
    solo: &'a Solo,
    pollable: Pollable<F>,
) -> Result<F::Output, Resting<'a, F>> {
    let mut pollable = pollable;
    for _ in rt.forever() {
        match pollable.poll(solo) {
            Ok(output) => return Ok(output),
            Err(pending) => pollable = pending,
        }
        // None: it was woken meanwhile
        if let Some(asleep) = solo.sleep() {
            return Err(Resting { asleep, pollable });
        }
    }
    unreachable!()
}

impl<'a, F: Future> Drop for Resting<'a, F> {
    fn drop(self) {
        let Resting {
            asleep,
            pollable: _,
        } = self;
        asleep.end();
    }
}

/// Goes on with its future at each ring, and says what this gives.
#[derive(Drop)]
pub struct Says<'a, F: Future, R: Drop> {
    pub rt: R,
    pub solo: &'a Solo,
    // None once it is done.
    pub resting: Option<Resting<'a, F>>,
}

impl<'a, F, R, Q> Callback<Readiness, NoIoDrop<UnixStream>, io::Result<PostAction>, String, Q>
    for Says<'a, F, R>
where
    F: Future<Output = Result<u32, Canceled>>,
    R: Wait + Drop,
    Q: Asking,
{
    ghost may = { λ _ _ _ _ _ _ _ _ _ _. Unit {0} };

    fn call(
        &mut self,
        _readiness: Readiness,
        io: &mut NoIoDrop<UnixStream>,
        said: &mut String,
        _requests: &mut Q,
    ) -> io::Result<PostAction> {
        // a ring that comes later stays in the socket
        take_ring(io.get_mut())?;
        let Some(resting) = self.resting.take() else {
            return Ok(PostAction::Remove);
        };
        match resting.go_on(&self.rt, self.solo) {
            Ok(output) => {
                say(said, output)?;
                Ok(PostAction::Remove)
            }
            Err(resting) => {
                self.resting = Some(resting);
                Ok(PostAction::Continue)
            }
        }
    }
}

// Reads a ring's eight bytes away.
fn take_ring(stream: &mut UnixStream) -> io::Result<()> {
    let mut bytes = [0u8; 8];
    match stream.read(&mut bytes) {
        Err(cause) if cause.kind() != io::ErrorKind::WouldBlock => Err(cause),
        _ => Ok(()),
    }
}

/// Says what a future gave.
pub fn say(said: &mut String, output: Result<u32, Canceled>) -> io::Result<()> {
    match output {
        Ok(number) => write!(said, "the thread sent {number}\n")?,
        Err(Canceled) => write!(said, "the thread sent nothing\n")?,
    }
    Ok(())
}
