//! Sockets as sources. From calloop's `generic.rs`.
ghost use Rattle.std.specs.Prelude.{◌≡◌, ◌⊎◌, List, None, Some, true, false, Bool, MatchBool, IsSome, IfOk, IfErr};
ghost use Rattle.std.specs.Borrow.{Lends, sem};
ghost use Rattle.calloop_sources.specs.Lending.{with_socket};
ghost use Rattle.calloop_poll.specs.sys.Polls.{PollStep, poll_view, AllStepped};
ghost use Rattle.calloop_sources.specs.Generics.{ArmedBy, Hears, heard_in};
ghost use Rattle.calloop_sources.specs.contracts.generic.NoIoDrop.{the_row as lent_row};
ghost use Rattle.calloop_sources.specs.contracts.generic.Generic.{the_row};

use crate::sources::{Asking, Callback, EventSource, IntoError, PostAction};
use calloop_poll::sys::events::EventIterator;
use calloop_poll::sys::poll::Poll;
use calloop_poll::sys::synthetic::Synthetic;
use calloop_poll::sys::{Interest, Mode, Poller, Readiness};
use calloop_slots::error::{Error, Result as LoopResult};
use calloop_slots::token::{Token, TokenFactory};
use std::convert::AsRef;
use std::io;
use std::marker::PhantomData;
use std::ops::Deref;
use std::os::fd::AsRawFd;
use std::sync::Wait;

/// A socket that is lent to a callback, which can't take it out of its source.
#[derive(Drop)]
pub struct NoIoDrop<T> {
    io: T,
}

impl<T> NoIoDrop<T> {
    /// The socket, to be changed. Changing it while it is registered can make a later poller call fail, or leave the socket's
    /// events unheard, and nothing worse; in calloop this call is unsafe.
    pub fn get_mut(&mut self) -> &mut T
        ensures* writes_back { sem 𝓛 (Lends (lent_row T.row) T.row self.entry result
            (λ io. record { io = io })) }
        ensures value { result.now ≡ self.old.io }
    {
        &mut self.io
    }
}

impl<T> AsRef<T> for NoIoDrop<T> {
    /// The socket.
    fn as_ref(&self) -> &T
        ensures { result.now ≡ self.now.io }
    {
        &self.io
    }
}

impl<T> Deref for NoIoDrop<T> {
    ghost use Rattle.std.specs.Prelude.{◌≡◌};

    type Target = T;

    ghost deref_gives = { λ lent io. io ≡ lent.io };

    /// The socket.
    fn deref(&self) -> &T {
        &self.io
    }
}

/// A value that has a descriptor, as a source: a socket, a pipe, a child's output, a terminal. Its callback gets the readiness
/// found, and that value. `E` is the error of the callback; a fault of the poller in this source's turn becomes an `E`.
///
/// Its drop calls no poller: if it is dropped while it is registered, its key stays in the loop's table. In calloop the
/// drop takes its descriptor out.
#[derive(Drop)]
pub struct Generic<F, E = io::Error> {
    io: NoIoDrop<F>,
    /// The interest for its next registration; `Level` takes it up after each callback that succeeds.
    pub interest: Interest,
    /// How often the source is told of what `interest` names.
    pub mode: Mode,
    token: Option<Token>,
    // True if an event came under `OneShot` since it was registered.
    heard: bool,
    error: PhantomData<E>,
}

impl<F, E> Generic<F, E> {
    /// Makes a source that isn't registered yet.
    pub fn new_with_error(io: F, interest: Interest, mode: Mode) -> Generic<F, E>
        ensures io { result.io.io ≡ io }
        ensures interest { result.interest ≡ interest }
        ensures mode { result.mode ≡ mode }
        ensures token { result.token ≡ None }
        ensures heard { result.heard ≡ false }
    {
        Generic {
            io: NoIoDrop { io },
            interest,
            mode,
            token: None,
            heard: false,
            error: PhantomData,
        }
    }

    /// Returns the socket if the source isn't registered, else this very source.
    pub fn unwrap(self) -> Result<F, Generic<F, E>>
        ensures ok { IfOk result (λ io. (io ≡ self.io.io) × (self.token ≡ None)) }
        ensures err { IfErr result (λ source. (source ≡ self) × IsSome self.token) }
    {
        let None = self.token else {
            return Err(self);
        };
        let Generic { io, .. } = self;
        let NoIoDrop { io } = io;
        Ok(io)
    }

    /// The socket.
    pub fn get_ref(&self) -> &F
        ensures { result.now ≡ self.now.io.io }
    {
        &self.io.io
    }

    /// The socket, to be changed. Changing it while it is registered can make a later poller call fail, or leave the socket's
    /// events unheard, and nothing worse; in calloop this call is unsafe.
    pub fn get_mut(&mut self) -> &mut F
        ensures* writes_back { sem 𝓛 (Lends (the_row F.row E.row) F.row self.entry
            result (λ io. with_socket io self.old)) }
        ensures value { result.now ≡ self.old.io.io }
    {
        self.io.get_mut()
    }
}

impl<F> Generic<F, io::Error> {
    /// Makes a source that isn't registered yet, and whose callback's error is `io::Error`, the error of system calls.
    pub fn new(io: F, interest: Interest, mode: Mode) -> Generic<F, io::Error>
        ensures io { result.io.io ≡ io }
        ensures interest { result.interest ≡ interest }
        ensures mode { result.mode ≡ mode }
        ensures token { result.token ≡ None }
        ensures heard { result.heard ≡ false }
    {
        Generic::new_with_error(io, interest, mode)
    }
}

impl<F, E> Generic<F, E> {
    // True if an event of this token is for the callback.
    fn hears(&self, token: Token) -> bool
        ensures { MatchBool result (Hears token self.now) (¬ Hears token self.now) }
    {
        let Some(own) = self.token else {
            return false;
        };
        match self.mode {
            Mode::OneShot => own == token && !self.heard,
            Mode::Level | Mode::Edge => own == token,
        }
    }

    // The value of `heard` after an event: true under `OneShot`, else unchanged.
    fn is_heard(&self) -> bool
        ensures { result ≡ heard_in self.now.mode self.now.heard }
    {
        match self.mode {
            Mode::OneShot => true,
            Mode::Level | Mode::Edge => self.heard,
        }
    }
}

impl<F: AsRawFd, E: From<io::Error>> Generic<F, E> {
    // Under `Level`, asks the poller to tell of the socket again.
    #[inline(always)]
    fn arm_again<P: Poller, C, R: Wait + Drop>(
        &mut self,
        token: Token,
        action: PostAction,
        poll: &mut Poll<P, C, R>,
    ) -> Result<PostAction, E>
        ensures { (steps : List (PollStep P))
            × ArmedBy P.sockets F.raw_fd E.from_gives self.old.mode token self.old
            (poll_view poll.old) action result steps self.new
            × AllStepped P.outside (poll_view poll.old) steps (poll_view poll.new) }
    {
        if self.mode != Mode::Level {
            return Ok(action);
        }
        match poll.rearm(self.io.io.as_raw_fd(), self.interest, self.mode, token) {
            Ok(()) => Ok(action),
            Err(cause) => Err(E::from(cause)),
        }
    }
}

impl<P: Poller, C, R: Wait + Drop, F, E> EventSource<P, C, R> for Generic<F, E>
where
    F: AsRawFd + Drop,
    E: IntoError + From<io::Error>,
{
    ghost use Rattle.calloop_sources.specs.Generics.{generic_meaning};
    ghost use Rattle.calloop_sources.specs.GenericKeeping.{generic_keeps};

    type Event = Readiness;

    type Metadata = NoIoDrop<F>;

    type Ret = Result<PostAction, E>;

    type Error = E;

    ghost means = { generic_meaning P.sockets F.raw_fd E.from_gives };

    /// Calls back with the readiness found if the token is the source's; under `OneShot` for one event alone. After a callback
    /// that succeeded, `Level` asks the poller to tell of the socket again, with the interest as it is now, and if that fails, so
    /// does the turn. The OS poller needs a system call for that only if the interest differs from the registered one.
    fn process_events<K, X, Q>(
        &mut self,
        readiness: Readiness,
        token: Token,
        poll: &mut Poll<P, C, R>,
        callback: &mut K,
        data: &mut X,
        requests: &mut Q,
    ) -> Result<PostAction, E>
    where
        Q: Asking,
        K: Callback<Readiness, NoIoDrop<F>, Result<PostAction, E>, X, Q>,
    {
        if !self.hears(token) {
            return Ok(PostAction::Continue);
        }
        self.heard = self.is_heard();
        match callback.call(readiness, &mut self.io, data, requests) {
            Ok(action) => self.arm_again(token, action, poll),
            Err(error) => Err(error),
        }
    }

    /// Enters the socket under the factory's next token. Fails with `IoError` of kind `AlreadyExists` if it is registered; on
    /// failure the source is unchanged.
    fn register(&mut self, poll: &mut Poll<P, C, R>, factory: &mut TokenFactory) -> LoopResult<()> {
        if let Some(_) = self.token {
            return Err(Error::IoError(io::Error::from(io::ErrorKind::AlreadyExists)));
        }
        let token = factory.token()?;
        poll.register(self.io.io.as_raw_fd(), self.interest, self.mode, token)?;
        self.token = Some(token);
        self.heard = false;
        Ok(())
    }

    /// Registers anew under the factory's next token, with the interest and the mode as they are now. Fails with `IoError` of
    /// kind `NotFound` if it isn't registered; on failure the source stays registered as it was.
    fn reregister(
        &mut self,
        poll: &mut Poll<P, C, R>,
        factory: &mut TokenFactory,
    ) -> LoopResult<()> {
        let Some(own) = self.token else {
            return Err(Error::IoError(io::Error::from(io::ErrorKind::NotFound)));
        };
        let token = factory.token()?;
        poll.reregister(self.io.io.as_raw_fd(), own, self.interest, self.mode, token)?;
        self.token = Some(token);
        self.heard = false;
        Ok(())
    }

    /// Takes the socket out. Fails with `IoError` of kind `NotFound` if it isn't registered; on failure it stays registered
    /// as it was.
    fn unregister(&mut self, poll: &mut Poll<P, C, R>) -> LoopResult<()> {
        let Some(own) = self.token else {
            return Err(Error::IoError(io::Error::from(io::ErrorKind::NotFound)));
        };
        poll.unregister(self.io.io.as_raw_fd(), own)?;
        self.token = None;
        Ok(())
    }

    /// False: it isn't told of waits.
    fn needs_extra_lifecycle_events() -> bool {
        false
    }

    fn max_synthetic() -> u16 {
        0
    }

    fn before_sleep(&mut self, _out: &mut Synthetic) -> LoopResult<()> {
        Ok(())
    }

    fn before_handle_events(&mut self, _events: EventIterator<'_>) {}

    ghost keeps = { generic_keeps P.sockets F.raw_fd E.from_gives };
}
