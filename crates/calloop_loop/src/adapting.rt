//! Adapters come into a loop, and are given back. From calloop's `LoopHandle::adapt_io` and `Async::into_inner`.
ghost use Rattle.std.specs.Prelude.{◌≡◌, ◌⊎◌, IfOk, IfErr};
ghost use Rattle.calloop_slots.specs.declared.error.Error.TheVariants.{OutOfMemory};
ghost use Rattle.calloop_loop.specs.Adapting.{IsAdapted, IsNotAdapted, IsAskedToAdapt, IsGivenBack, IsNotGivenBack};
ghost use Rattle.calloop_loop.specs.Askings.{CannotAsk, OnlyAsks};
ghost use Rattle.calloop_loop.specs.Handles.{HasTheSameLoop};

use super::asks::{Requests, Ticket};
use super::{EventDispatcher, LoopHandle};
use calloop_io::{Adapter, Async, make_ends};
use calloop_poll::sys::{Clock, Poller};
use calloop_slots::error::{Error, InsertError};
use calloop_sources::sources::{Keep, Place};
use std::alloc::Global;
use std::os::fd::AsRawFd;
use std::sync::Wait;

impl<D: EventDispatcher<P, C, R>, P: Poller, C: Clock, R: Wait + Drop> LoopHandle<'_, D, P, C, R> {
    /// Adapts a socket: its `Async` polls it as a future, and the loop tells the `Async` what it finds. The adapter takes a slot,
    /// which no call of a handle names; no poller is called until a poll waits. The socket is set non-blocking, and stays so.
    ///
    /// Fails as an insertion does, and leaves the loop as that does. Each failure hands the socket back.
    pub fn adapt_io<F, N>(
        &mut self,
        rt: &R,
        alloc: Global,
        io: F,
    ) -> Result<Async<F, R>, InsertError<F>>
    where
        F: AsRawFd + Drop,
        D: Keep<Adapter<F, R>, P, C, R, D::Data, Requests<D, D::Idle>, N>,
        R: Clone,
        ensures same { HasTheSameLoop self.old self.new }
        ensures ok { IfOk result (λ made. IsAdapted D.means D.Idle.runs P.outside D.placed made
            self.old self.new) }
        ensures err { IfErr result (λ refused. (refused.inserted ≡ io)
            × IsNotAdapted D.means D.Idle.runs P.outside D.placed refused.error
            self.old self.new) }
    {
        let (adapter, other, io) = make_ends(rt, alloc, io)?;
        match self.register_dispatcher(D::place(adapter)) {
            Ok(_token) => {
                other.put(io);
                Ok(other)
            }
            Err(refused) => Err(InsertError {
                inserted: io,
                error: refused.error,
            }),
        }
    }

    /// Takes an adapter out of this loop, and its socket out of the poller, and hands the socket back.
    ///
    /// An error of the poller is `IoError`, and the adapter stays as it was. An adapter of another loop, or of none, is
    /// `InvalidToken`. If the socket was taken out by `get_mut`, it fails with `IoError` of kind `NotFound`, and the adapter
    /// stays, if the poller knew that socket; else with `InvalidToken`, and the adapter has left. Each failure hands the `Async`
    /// back.
    pub fn into_inner<F: AsRawFd + Drop>(
        &mut self,
        io: Async<F, R>,
    ) -> Result<F, InsertError<Async<F, R>>>
        ensures same { HasTheSameLoop self.old self.new }
        ensures ok { IfOk result (λ socket. IsGivenBack D.means D.Idle.runs P.outside
            self.old self.new) }
        ensures err { IfErr result (λ refused. (refused.inserted ≡ io)
            × IsNotGivenBack D.means D.Idle.runs P.outside refused.error self.old self.new) }
    {
        let Some(token) = io.begin_leaving() else {
            return Err(InsertError {
                inserted: io,
                error: Error::InvalidToken,
            });
        };
        match self.inner.release(token) {
            Ok(()) => match io.take() {
                Some(socket) => Ok(socket),
                None => Err(InsertError {
                    inserted: io,
                    error: Error::InvalidToken,
                }),
            },
            Err(error) => {
                io.stay();
                Err(InsertError {
                    inserted: io,
                    error,
                })
            }
        }
    }
}

impl<D, I> Requests<D, I> {
    /// Asks for a socket to be adapted, and sets it non-blocking. Its `Async` is there at once, as calloop's is; what it waits for is
    /// registered when its adapter is in the loop. The answer is `Inserted`, or `NotInserted`: then the socket stays with the `Async`, and `get_mut`
    /// reaches it.
    ///
    /// If this call fails, it hands the socket back, and nothing is asked for.
    pub fn adapt<F: AsRawFd + Drop, R: Wait + Clone + Drop, N>(
        &mut self,
        rt: &R,
        alloc: Global,
        io: F,
    ) -> Result<(Ticket, Async<F, R>), InsertError<F>>
    where
        D: Place<Adapter<F, R>, N> + Drop,
        I: Drop,
        ensures ok { IfOk result
            (λ made. IsAskedToAdapt D.placed made.1 made.0.number self.old self.new) }
        ensures err { IfErr result (λ refused. (refused.inserted ≡ io)
            × ((refused.error ≡ OutOfMemory) ⊎ CannotAsk self.old refused.error)
            × (self.new ≡ self.old)) }
        ensures asks { OnlyAsks self.old self.new }
    {
        let (adapter, made, io) = make_ends(rt, alloc, io)?;
        match self.register_dispatcher(D::place(adapter)) {
            Ok(ticket) => {
                made.put(io);
                Ok((ticket, made))
            }
            Err(refused) => Err(InsertError {
                inserted: io,
                error: refused.error,
            }),
        }
    }
}
