//! Why a future is not scheduled, and why a turn of an executor could fail.
use crate::channel::ChannelError;
use crate::ping::PingError;
use std::fmt;
use thiserror::Error as ThisError;

/// The executor is gone.
#[derive(Clone, Copy, Debug, PartialEq, Eq, ThisError)]
#[error("the executor was destroyed")]
pub struct ExecutorDestroyed;

/// Why a future is not scheduled.
#[derive(Drop)]
pub enum ScheduleError<Fut> {
    /// The executor is gone, and the future with it.
    Destroyed(ExecutorDestroyed),
    /// There is no memory for the future. It comes back.
    OutOfMemory(Fut),
}

impl<Fut> fmt::Debug for ScheduleError<Fut> {
    /// Without the future.
    fn fmt<W: fmt::Write>(&self, f: &mut fmt::Formatter<W>) -> fmt::Result {
        match self {
            ScheduleError::Destroyed(_) => write!(f, "Destroyed(ExecutorDestroyed)"),
            ScheduleError::OutOfMemory(_) => write!(f, "OutOfMemory(..)"),
        }
    }
}

impl<Fut> fmt::Display for ScheduleError<Fut> {
    fn fmt<W: fmt::Write>(&self, f: &mut fmt::Formatter<W>) -> fmt::Result {
        match self {
            ScheduleError::Destroyed(_) => write!(f, "the executor was destroyed"),
            ScheduleError::OutOfMemory(_) => write!(f, "out of memory"),
        }
    }
}

impl<Fut: Drop> std::error::Error for ScheduleError<Fut> {}

/// Why an executor's turn could fail. This crate's own executors never fail: their memory is reserved up front.
#[derive(Debug, Drop, ThisError)]
pub enum ExecutorError {
    #[error("error adding new futures: {0}")]
    NewFutureError(ChannelError),
    #[error("error processing wake events: {0}")]
    WakeError(PingError),
}
