//! The table of sockets.
ghost use Rattle.std.specs.Prelude.{◌≡◌, ◌+◌, ◌∷◌, true, false, nat_eq, ℕ, List, [], Some};
ghost use Rattle.calloop_slots.specs.Tokens.{key_of};
ghost use Rattle.calloop_poll.specs.sys.Tables.{Called, CalledFor, call_for, is_known, watched_at, is_in, Enter, Change, Leave, Discard};
ghost use Rattle.calloop_poll.specs.sys.Polls.{poll_view, IsReady};
ghost use Rattle.calloop_poll.specs.sys.SocketCalls.{DidEdit, as_loop};
ghost use Rattle.calloop_slots.specs.declared.token.RegistrationToken.{RegistrationToken};
ghost use Rattle.calloop_poll.specs.sys.Polls.{PollView, PollStep, Socket, AllStepped, polls_after};
ghost use Rattle.calloop_poll.specs.sys.Keys.{IsKeyOf, AllActFor};
ghost use Rattle.calloop_poll.specs.sys.WrongSteps.{first_registration, token_of_second, to_be_read, enters_second};

use super::Poll;
use crate::sys::{Interest, Mode, Poller, Watched};
use calloop_slots::error::{Error, Result};
use calloop_slots::token::Token;
use std::io;
use std::os::fd::RawFd;
use std::sync::Wait;

// Tells the poller of a socket, if it knows it or is to know it.
#[inline(always)]
fn call_poller<P: Poller>(
    poller: &mut P,
    fd: RawFd,
    known: bool,
    key: u64,
    watched: Watched,
) -> io::Result<()>
    ensures sockets { CalledFor P.sockets poller.old fd (call_for known key watched)
        result poller.new }
    ensures calls { Called P.outside poller.old (call_for known key watched)
        result poller.new }
{
    if watched.interest.asks() {
        if known {
            poller.modify(fd, key, watched)
        } else {
            poller.add(fd, key, watched)
        }
    } else if known {
        poller.delete(fd)
    } else {
        Ok(())
    }
}

// As `call_poller`, after a callback: the poller may trust what it knows of the socket.
#[inline(always)]
fn rearm_in<P: Poller>(
    poller: &mut P,
    fd: RawFd,
    known: bool,
    key: u64,
    watched: Watched,
) -> io::Result<()>
    ensures sockets { CalledFor P.sockets poller.old fd (call_for known key watched)
        result poller.new }
    ensures calls { Called P.outside poller.old (call_for known key watched)
        result poller.new }
{
    if known && watched.interest.asks() {
        return poller.rearm(fd, key, watched);
    }
    call_poller(poller, fd, known, key, watched)
}

impl<P: Poller, C, R: Wait + Drop> Poll<P, C, R> {
    /// Enters a descriptor under the key of this token, and adds it to the poller, unless the interest is empty. Errors, in this
    /// order: `IoError` of kind `AlreadyExists`, if the key is in the table; `OutOfMemory`; and `IoError` with the poller's
    /// fault. Each leaves the table unchanged, and before the last no poller is called.
    pub fn register(
        &mut self,
        fd: RawFd,
        interest: Interest,
        mode: Mode,
        token: Token,
    ) -> Result<()>
        ensures edit { DidEdit P.outside P.sockets
            (Enter token (record { interest = interest; mode = mode }))
            (poll_view self.old) fd result (poll_view self.new) }
        ensures ready { (more : ℕ) → IsReady more self.old → IsReady more self.new }
    {
        let key = token.key();
        if self.table.contains_key(key) {
            return Err(Error::IoError(io::Error::from(io::ErrorKind::AlreadyExists)));
        }
        let watched = Watched { interest, mode };
        self.table.insert(key, watched)?;
        match call_poller(&mut self.poller, fd, false, key, watched) {
            Ok(()) => Ok(()),
            Err(cause) => {
                self.table.remove(key);
                Err(Error::IoError(cause))
            }
        }
    }

    // Changes a socket under the key that it has.
    fn change(
        &mut self,
        fd: RawFd,
        stood: Watched,
        before: Token,
        token: Token,
        watched: Watched,
    ) -> io::Result<()>
        requires same { key_of before ≡ key_of token }
        requires stood { watched_at (key_of before) (poll_view self.old).table ≡ Some stood }
        ensures edit { DidEdit P.outside P.sockets (Change before token watched)
            (poll_view self.old) fd (as_loop result) (poll_view self.new) }
        ensures ready { (more : ℕ) → IsReady more self.old → IsReady more self.new }
    {
        let same = token.key();
        match call_poller(&mut self.poller, fd, stood.interest.asks(), same, watched) {
            Ok(()) => {
                self.table.replace(same, stood, watched);
                Ok(())
            }
            Err(fault) => {
                self.table.doubt(same);
                Err(fault)
            }
        }
    }

    // Moves a socket to another key, which isn't in the table.
    fn change_key(
        &mut self,
        fd: RawFd,
        known: bool,
        before: Token,
        token: Token,
        watched: Watched,
    ) -> Result<()>
        requires other { nat_eq (key_of before) (key_of token) ≡ false }
        requires there { is_in (key_of before) (poll_view self.old).table ≡ true }
        requires free { is_in (key_of token) (poll_view self.old).table ≡ false }
        requires known { is_known (watched_at (key_of before) (poll_view self.old).table) ≡ known }
        ensures edit { DidEdit P.outside P.sockets (Change before token watched)
            (poll_view self.old) fd result (poll_view self.new) }
        ensures ready { (more : ℕ) → IsReady more self.old → IsReady more self.new }
    {
        let key = token.key();
        self.table.insert(key, watched)?;
        match call_poller(&mut self.poller, fd, known, key, watched) {
            Ok(()) => {
                self.table.remove(before.key());
                Ok(())
            }
            Err(cause) => {
                self.table.remove(key);
                Err(Error::IoError(cause))
            }
        }
    }

    /// Gives a socket that was registered with `before` this interest, this mode and the key of `token`, which may be the same.
    /// Always tells the poller, by an `add` or `delete` if the interest was empty or becomes so. Errors, in this order: `IoError`
    /// of kind `NotFound`, if the key of `before` isn't in the table, and of kind `AlreadyExists`, if a different key of `token`
    /// is; `OutOfMemory`, only for a different key; and `IoError` with the poller's fault. Each leaves the table unchanged.
    pub fn reregister(
        &mut self,
        fd: RawFd,
        before: Token,
        interest: Interest,
        mode: Mode,
        token: Token,
    ) -> Result<()>
        ensures edit { DidEdit P.outside P.sockets
            (Change before token (record { interest = interest; mode = mode }))
            (poll_view self.old) fd result (poll_view self.new) }
        ensures ready { (more : ℕ) → IsReady more self.old → IsReady more self.new }
    {
        let key = token.key();
        let old = before.key();
        let Some(stood) = self.table.get(old) else {
            return Err(Error::IoError(io::Error::from(io::ErrorKind::NotFound)));
        };
        let watched = Watched { interest, mode };
        if old == key {
            return match self.change(fd, stood, before, token, watched) {
                Ok(()) => Ok(()),
                Err(cause) => Err(Error::IoError(cause)),
            };
        }
        let known = stood.interest.asks();
        if self.table.contains_key(key) {
            return Err(Error::IoError(io::Error::from(io::ErrorKind::AlreadyExists)));
        }
        self.change_key(fd, known, before, token, watched)
    }

    /// As `reregister`, after a callback of the source, for the token that the socket was registered with. Under `Mode::Level`
    /// the poller may trust what it knows of the descriptor, and make no system call (`Poller::rearm`); it isn't even asked if
    /// the socket is registered just so and the poller keeps levels (`Poller::keeps_levels`). Fails only with a fault: of kind
    /// `NotFound` if the key isn't in the table, or the poller's. Each leaves the table unchanged.
    #[inline(always)]
    pub fn rearm(
        &mut self,
        fd: RawFd,
        interest: Interest,
        mode: Mode,
        token: Token,
    ) -> io::Result<()>
        ensures edit { DidEdit P.outside P.sockets
            (Change token token (record { interest = interest; mode = mode }))
            (poll_view self.old) fd (as_loop result) (poll_view self.new) }
        ensures ready { (more : ℕ) → IsReady more self.old → IsReady more self.new }
    {
        let key = token.key();
        let watched = Watched { interest, mode };
        if mode == Mode::Level && P::keeps_levels() && self.table.has(key, watched) {
            return Ok(());
        }
        let Some(stood) = self.table.get(key) else {
            return Err(io::Error::from(io::ErrorKind::NotFound));
        };
        match rearm_in(&mut self.poller, fd, stood.interest.asks(), key, watched) {
            Ok(()) => {
                self.table.replace(key, stood, watched);
                Ok(())
            }
            Err(cause) => {
                self.table.doubt(key);
                Err(cause)
            }
        }
    }

    /// Takes a socket out of the table, and from the poller, unless its interest is empty. Fails with `IoError` of kind
    /// `NotFound` if the token's key isn't in the table, and with the poller's fault; each leaves the table unchanged.
    pub fn unregister(&mut self, fd: RawFd, token: Token) -> Result<()>
        ensures edit { DidEdit P.outside P.sockets (Leave token)
            (poll_view self.old) fd result (poll_view self.new) }
        ensures ready { (more : ℕ) → IsReady more self.old → IsReady more self.new }
    {
        let key = token.key();
        let Some(stood) = self.table.get(key) else {
            return Err(Error::IoError(io::Error::from(io::ErrorKind::NotFound)));
        };
        let nothing = Watched {
            interest: Interest::EMPTY,
            ..stood
        };
        match call_poller(&mut self.poller, fd, stood.interest.asks(), key, nothing) {
            Ok(()) => {
                self.table.remove(key);
                Ok(())
            }
            Err(cause) => Err(Error::IoError(cause)),
        }
    }

    /// Drops the entry of this token's key, if there is one, and tells no poller: for a socket that is gone, or that the poller
    /// failed to delete.
    pub fn discard(&mut self, token: Token)
        ensures edit { AllStepped P.outside (poll_view self.old)
            (Socket (Discard token) (poll_view self.old).poller ∷ []) (poll_view self.new) }
        ensures ready { (more : ℕ) → IsReady more self.old → IsReady more self.new }
    {
        self.table.remove(token.key());
    }
}

/// The steps of one registration don't change what any key of another waits for.
#[tactic(auto, using(crate::proofs::Frames::stepped_elsewhere))]
pub fn other_keys_stay<P>()
    ensures { (registration : RegistrationToken) (key : ℕ)
        (v : PollView P) (steps : List (PollStep P))
        → ¬ IsKeyOf registration key → AllActFor registration steps
        → watched_at key (polls_after v steps).table ≡ watched_at key v.table }
{}

/// A case that this rules out: a socket is entered under a key of the second slot. That step doesn't act for the registration
/// in the first slot, and that key waits for something then.
pub fn wrong_steps_are_ruled_out<P>()
    ensures elsewhere { (after : P) → ¬ AllActFor first_registration (enters_second after) }
    ensures changed { (v : PollView P) (after : P) → v.table ≡ []
        → watched_at (key_of token_of_second) (polls_after v (enters_second after)).table
        ≡ Some to_be_read }
{}
