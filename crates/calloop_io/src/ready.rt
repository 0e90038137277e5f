//! Futures of a socket's readiness. Each one's result is that the socket is ready, or an error of its registration.
ghost use Rattle.calloop_io.specs.Refusals.{IsAnswer};

use super::Async;
use calloop_ends::futures::{Context, Future, Poll};
use calloop_poll::sys::Interest;
use calloop_slots::error::Result as LoopResult;
use std::os::fd::AsRawFd;
use std::sync::Wait;

/// A future that is ready once the socket can be read, or is in error. A registration error comes first, once.
#[derive(Drop)]
pub struct Readable<'a, F: AsRawFd + Drop, R: Wait + Drop> {
    io: &'a mut Async<F, R>,
}

impl<'a, F: AsRawFd + Drop, R: Wait + Drop> Readable<'a, F, R> {
    pub(crate) fn of(io: &'a mut Async<F, R>) -> Readable<'a, F, R> {
        Readable { io }
    }
}

impl<'a, F: AsRawFd + Drop, R: Wait + Clone + Drop> Future<R> for Readable<'a, F, R> {
    type Output = LoopResult<()>;

    ghost gives = { λ _ answer. IsAnswer answer };

    /// Takes the readiness that an event left. If not one to read, it waits; without memory for that it is ready with
    /// `OutOfMemory`.
    fn poll(&mut self, cx: &mut Context<'_, R>) -> Poll<LoopResult<()>> {
        self.io.poll_for(cx, Interest::READ)
    }
}

/// A future that is ready once the socket can be written, or is in error. A registration error comes first, once.
#[derive(Drop)]
pub struct Writable<'a, F: AsRawFd + Drop, R: Wait + Drop> {
    io: &'a mut Async<F, R>,
}

impl<'a, F: AsRawFd + Drop, R: Wait + Drop> Writable<'a, F, R> {
    pub(crate) fn of(io: &'a mut Async<F, R>) -> Writable<'a, F, R> {
        Writable { io }
    }
}

impl<'a, F: AsRawFd + Drop, R: Wait + Clone + Drop> Future<R> for Writable<'a, F, R> {
    type Output = LoopResult<()>;

    ghost gives = { λ _ answer. IsAnswer answer };

    /// Takes the readiness that an event left. If that isn't one to write, it waits; if there is no memory for that it is ready
    /// with `OutOfMemory`.
    fn poll(&mut self, cx: &mut Context<'_, R>) -> Poll<LoopResult<()>> {
        self.io.poll_for(cx, Interest::WRITE)
    }
}
