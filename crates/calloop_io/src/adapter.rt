//! The loop's end of an adapter, which has a slot.
ghost use Rattle.std.specs.Prelude.{◌≡◌, None, false, List, ℕ};
ghost use Rattle.calloop_poll.specs.sys.Polls.{PollStep, poll_view, AllStepped, IsReady};
ghost use Rattle.calloop_io.specs.Adapters.{Registers, TakenOut, Leaves, Goes, IsSettled, left_so, registered_nowhere};

use super::notes::Settled;
use super::refusal::Refusal;
use super::shared::SlotEnd;
use calloop_poll::sys::events::EventIterator;
use calloop_poll::sys::hub::SharedHub;
use calloop_poll::sys::poll::Poll;
use calloop_poll::sys::synthetic::Synthetic;
use calloop_poll::sys::{Interest, Poller, Readiness};
use calloop_slots::error::{Error, Failed, Result as LoopResult, store_error};
use calloop_slots::token::{RegistrationToken, Token, TokenFactory};
use calloop_sources::callbacks::QuietDispatch;
use calloop_sources::sources::{Asking, Dispatch, Here, Keep, Place, PostAction, Role};
use std::io;
use std::os::fd::AsRawFd;
use std::sync::Wait;

/// The loop's end of an adapter, whose other end is an `Async`. A loop of adapters has a place for it among its sources. No call
/// of a handle names it.
///
/// In a clause `end` is what it did.
#[derive(Drop)]
pub struct Adapter<F: AsRawFd + Drop, R: Wait + Drop> {
    end: SlotEnd<F, R>,
    // The key of its events, once it is in a loop.
    token: Option<Token>,
    // True if its socket is in the table of the loop.
    entered: bool,
}

impl<F: AsRawFd + Drop, R: Wait + Drop> Adapter<F, R> {
    pub(crate) fn new(end: SlotEnd<F, R>) -> Adapter<F, R>
        ensures { result ≡ record { end = end; token = None; entered = false } }
    {
        Adapter {
            end,
            token: None,
            entered: false,
        }
    }

    // Registers its socket for this interest, and keeps a refusal.
    fn take_up<P: Poller, C>(&mut self, interest: Interest, poll: &mut Poll<P, C, R>)
        ensures steps { (steps : List (PollStep P))
            × Registers P.sockets interest self.old.token self.old (poll_view poll.old) steps
            self.new
            × AllStepped P.outside (poll_view poll.old) steps (poll_view poll.new) }
        ensures ready { (more : ℕ) → IsReady more poll.old → IsReady more poll.new }
    {
        let Some(token) = self.token else {
            return;
        };
        match self.end.register(self.entered, token, interest, poll) {
            Some(Ok(())) => self.entered = true,
            Some(Err(refusal)) => self.end.refuse(Refusal::new(refusal)),
            None => {}
        }
    }

    // Takes its socket out of the table.
    fn take_out<P: Poller, C>(&self, token: Token, poll: &mut Poll<P, C, R>) -> LoopResult<()>
        ensures steps { (steps : List (PollStep P))
            × TakenOut P.sockets self.now.entered token (poll_view poll.old) result steps
            × AllStepped P.outside (poll_view poll.old) steps (poll_view poll.new) }
        ensures ready { (more : ℕ) → IsReady more poll.old → IsReady more poll.new }
    {
        if !self.entered {
            return Ok(());
        }
        match &*self.end.io() {
            Some(io) => poll.unregister(io.as_raw_fd(), token),
            None => Err(Error::IoError(io::Error::from(io::ErrorKind::NotFound))),
        }
    }

    // Leaves its loop, and needs no mark any more.
    fn come_out(&mut self, hub: &SharedHub)
        ensures { self.new ≡ registered_nowhere self.old }
    {
        self.token = None;
        self.entered = false;
        self.end.leave();
        self.end.close_mark(hub);
    }

    // Takes its registration back.
    fn leave<P: Poller, C>(&mut self, token: Token, poll: &mut Poll<P, C, R>) -> LoopResult<()>
        ensures steps { (steps : List (PollStep P))
            × TakenOut P.sockets self.old.entered token (poll_view poll.old) result steps
            × AllStepped P.outside (poll_view poll.old) steps (poll_view poll.new) }
        ensures adapter { self.new ≡ left_so result self.old }
        ensures ready { (more : ℕ) → IsReady more poll.old → IsReady more poll.new }
    {
        self.take_out(token, poll)?;
        self.come_out(poll.hub());
        Ok(())
    }

    // Takes its registration back, if it is being given back.
    fn give_back<P: Poller, C>(&mut self, poll: &mut Poll<P, C, R>) -> LoopResult<()>
        ensures steps { (steps : List (PollStep P))
            × Leaves P.sockets self.old.token self.old (poll_view poll.old) result steps self.new
            × AllStepped P.outside (poll_view poll.old) steps (poll_view poll.new) }
        ensures ready { (more : ℕ) → IsReady more poll.old → IsReady more poll.new }
    {
        let Some(token) = self.token else {
            return Err(Error::IoError(io::Error::from(io::ErrorKind::NotFound)));
        };
        if !self.end.is_leaving() {
            return Err(Error::InvalidToken);
        }
        self.leave(token, poll)
    }

    // Takes its registration back, since its `Async` is gone. If that fails, its key is dropped all the same.
    fn go<P: Poller, C>(&mut self, poll: &mut Poll<P, C, R>) -> LoopResult<()>
        ensures steps { (steps : List (PollStep P))
            × Goes P.sockets self.old.token self.old (poll_view poll.old) result steps self.new
            × AllStepped P.outside (poll_view poll.old) steps (poll_view poll.new) }
        ensures ready { (more : ℕ) → IsReady more poll.old → IsReady more poll.new }
    {
        let Some(token) = self.token else {
            return Ok(());
        };
        match self.take_out(token, poll) {
            Ok(()) => {
                self.come_out(poll.hub());
                Ok(())
            }
            Err(failure) => {
                poll.discard(token);
                self.come_out(poll.hub());
                Err(failure)
            }
        }
    }
}

impl<F: AsRawFd + Drop, P: Poller, C, R: Wait + Drop, X, Q: Asking> Dispatch<P, C, R, X, Q>
    for Adapter<F, R> {
    ghost use Rattle.calloop_io.specs.Adapters.{adapter_meaning};
    ghost use Rattle.calloop_io.specs.AdapterKeeping.{adapter_keeps, adapter_asks, adapter_fails};

    ghost means = { adapter_meaning P.sockets };

    /// Sets its token, and makes room for its mark; calls no poller. The next dispatch takes up what was polled until then.
    ///
    /// Fails with `IoError` of kind `AlreadyExists` if it is in a loop already, with `TooManyTokens` if the factory has no token
    /// left, and with `OutOfMemory` if memory runs out. On failure nothing changes.
    fn register(
        &mut self,
        poll: &mut Poll<P, C, R>,
        factory: &mut TokenFactory,
        failure: &mut Error,
    ) -> Result<(), Failed> {
        if let Some(_) = self.token {
            *failure = Error::IoError(io::Error::from(io::ErrorKind::AlreadyExists));
            return Err(Failed);
        }
        if let Err(_) = self.end.open_mark(poll.hub()) {
            *failure = Error::OutOfMemory;
            return Err(Failed);
        }
        match factory.token() {
            Ok(token) => {
                self.token = Some(token);
                self.end.come_into(poll.hub(), token.registration());
                Ok(())
            }
            Err(refusal) => {
                self.end.close_mark(poll.hub());
                *failure = refusal;
                Err(Failed)
            }
        }
    }

    /// Never called: an adapter's interest is updated when its loop settles it. Fails with `InvalidToken`, and nothing changes.
    fn reregister(
        &mut self,
        _poll: &mut Poll<P, C, R>,
        _factory: &mut TokenFactory,
        failure: &mut Error,
    ) -> Result<(), Failed> {
        *failure = Error::InvalidToken;
        Err(Failed)
    }

    /// Takes its socket out, if it is being given back. Fails with `IoError` of kind `NotFound` if it is in no loop, else with
    /// `InvalidToken` if it isn't being given back. An error of the poller is `IoError`, and leaves it registered as it was.
    fn unregister(&mut self, poll: &mut Poll<P, C, R>, failure: &mut Error) -> Result<(), Failed> {
        store_error(self.give_back(poll), failure)
    }

    /// Keeps the readiness found, if the token is its own, and wakes the waiting poll. No poller is called.
    fn process_events(
        &mut self,
        readiness: Readiness,
        token: Token,
        _poll: &mut Poll<P, C, R>,
        _data: &mut X,
        _requests: &mut Q,
        _failure: &mut Error,
    ) -> Result<PostAction, Failed> {
        if self.token == Some(token) {
            self.end.hear(readiness);
        }
        Ok(PostAction::Continue)
    }

    fn needs_extra_lifecycle_events(&self) -> bool {
        false
    }

    fn synthetic_limit(&self) -> u16 {
        0
    }

    fn role(&self) -> Role {
        Role::Adapter
    }

    /// Registers what its last poll waits for, and keeps a refusal for the next. It leaves exactly if its state says that its
    /// `Async` was dropped; then an error of the poller, or a socket that was taken out, is the answer, and its key is dropped
    /// all the same.
    fn settle(
        &mut self,
        token: RegistrationToken,
        poll: &mut Poll<P, C, R>,
    ) -> Option<LoopResult<()>>
        ensures settles { IsSettled P.sockets P.outside self.old (poll_view poll.old) result
            (poll_view poll.new) self.new }
        ensures ready { (more : ℕ) → IsReady more poll.old → IsReady more poll.new }
    {
        match self.end.settle() {
            Settled::Stays => None,
            Settled::Registers(interest) => {
                self.take_up(interest, poll);
                None
            }
            Settled::Leaves => Some(self.go(poll)),
        }
    }

    fn before_sleep(&mut self, _out: &mut Synthetic) -> LoopResult<()> {
        Ok(())
    }

    fn before_handle_events(&mut self, _events: EventIterator<'_>) {}

    ghost keeps = { adapter_keeps P.sockets };

    ghost asks = { adapter_asks P.sockets Q.reaches Q.stays };

    ghost fails = { adapter_fails P.sockets };
}

impl<F: AsRawFd + Drop, P: Poller, C, R: Wait + Drop, X, Q: Asking> QuietDispatch<P, C, R, X, Q>
    for Adapter<F, R> {
    ghost use Rattle.calloop_io.specs.AdapterKeeping.{adapter_quiet};

    ghost quiet = { adapter_quiet P.sockets };
}

impl<F: AsRawFd + Drop, R: Wait + Drop> Place<Adapter<F, R>, Here> for Adapter<F, R> {
    ghost use Rattle.std.specs.Prelude.{◌≡◌};

    ghost placed = { λ adapter. adapter };

    fn place(adapter: Adapter<F, R>) -> Adapter<F, R>
        ensures { result ≡ adapter }
    {
        adapter
    }
}

impl<F: AsRawFd + Drop, P: Poller, C, R: Wait + Drop, X, Q: Asking> Keep<
    Adapter<F, R>,
    P,
    C,
    R,
    X,
    Q,
    Here,
> for Adapter<F, R> {
    ghost use Rattle.calloop_sources.specs.sources.Lawful.{held_itself};

    ghost placed_means = { held_itself ⟦<Adapter<F, R> as Dispatch<P, C, R, X, Q>>⟧.means };
}
