//! Errors of the loop's calls. From calloop's `error.rs`.
ghost use Rattle.std.specs.Prelude.{◌≡◌, OnOk};
ghost use Rattle.calloop_slots.specs.Failures.{with_error};
ghost use Rattle.calloop_slots.specs.declared.error.Error.TheVariants.{IoError, OtherError, OutOfMemory};

use std::alloc::{AllocError, AllocFailed};
use std::{fmt, io};
use thiserror::Error as ThisError;

/// Why a call failed.
///
/// Calloop panics or aborts in the cases of `OutOfMemory`, `TooManySources` and `TooManyTokens`, and its counters of
/// timers wrap in the case of `TooManyTimers`. It has no tickets, it panics if a source is registered in its own turn,
/// and it has channels of bound 0.
#[derive(Debug, Drop, ThisError)]
pub enum Error {
    /// The token names no source, for example because the source was removed.
    #[error("invalid token provided to internal function")]
    InvalidToken,
    /// A call of the system failed.
    #[error("underlying IO error: {0}")]
    IoError(io::Error),
    /// Another failure, mostly of a source's own code.
    #[error("other error during loop operation: {0}")]
    OtherError(anyhow::Error),
    /// There was no memory left.
    #[error("out of memory")]
    OutOfMemory,
    /// All possible slots are full.
    #[error("too many event sources")]
    TooManySources,
    /// A factory has given out all 65,535 tokens of its registration.
    #[error("too many tokens for one event source")]
    TooManyTokens,
    /// The wheel has given out all 2^64 - 1 counters of timers.
    #[error("too many timers")]
    TooManyTimers,
    /// The requests of a loop have got all 2^64 - 1 tickets.
    #[error("too many requests")]
    TooManyTickets,
    /// A source can't be registered in its own turn, since it is registered already.
    #[error("the source is in its turn")]
    OwnTurn,
    /// A channel of bound 0, which would hand over messages without a queue, isn't supported.
    #[error("a channel of bound 0 is not supported")]
    NoRendezvous,
}

/// The result of the loop's calls.
pub type Result<T> = std::result::Result<T, Error>;

impl From<io::Error> for Error {
    ghost from_gives = { λ cause made. made ≡ IoError cause };

    /// An `IoError` of the failure.
    fn from(cause: io::Error) -> Error {
        Error::IoError(cause)
    }
}

impl From<anyhow::Error> for Error {
    ghost from_gives = { λ cause made. made ≡ OtherError cause };

    /// An `OtherError` of the failure.
    fn from(cause: anyhow::Error) -> Error {
        Error::OtherError(cause)
    }
}

impl From<AllocError> for Error {
    ghost from_gives = { λ _ made. made ≡ OutOfMemory };

    /// Always `OutOfMemory`.
    fn from(_cause: AllocError) -> Error {
        Error::OutOfMemory
    }
}

impl<T: Drop> From<AllocFailed<T>> for Error {
    ghost from_gives = { λ _ made. made ≡ OutOfMemory };

    /// Always `OutOfMemory`; the value that couldn't be stored is dropped.
    fn from(_cause: AllocFailed<T>) -> Error {
        Error::OutOfMemory
    }
}

impl From<Error> for io::Error {
    ghost use Rattle.calloop_slots.specs.Errors.{AsIo};

    ghost from_gives = { AsIo };

    /// The content of an `IoError`. Any other error becomes one with calloop's kind and text, without the cause of an `OtherError`.
    fn from(refusal: Error) -> io::Error {
        match refusal {
            Error::IoError(cause) => cause,
            Error::InvalidToken => io::Error::new(
                io::ErrorKind::InvalidInput,
                "invalid token provided to internal function",
            ),
            Error::OtherError(_) => io::Error::other("other error during loop operation"),
            Error::OutOfMemory => io::Error::other("out of memory"),
            Error::TooManySources => io::Error::other("too many event sources"),
            Error::TooManyTokens => io::Error::other("too many tokens for one event source"),
            Error::TooManyTimers => io::Error::other("too many timers"),
            Error::TooManyTickets => io::Error::other("too many requests"),
            Error::OwnTurn => io::Error::other("the source is in its turn"),
            Error::NoRendezvous => io::Error::other("a channel of bound 0 is not supported"),
        }
    }
}

/// A failure whose error stands in the place that the caller lent for it. An `Error` has room for the texts of its causes,
/// so a `Result` with one costs more to return than most calls of the loop.
#[derive(Clone, Copy, Debug)]
pub struct Failed;

impl From<AllocError> for Failed {
    ghost from_gives = { λ _ _. Unit {0} };

    /// For a place that holds `OutOfMemory`.
    fn from(_cause: AllocError) -> Failed {
        Failed
    }
}

/// Moves the error of a result into this place. Without an error the place stays unchanged.
pub fn store_error<T>(answer: Result<T>, failure: &mut Error) -> std::result::Result<T, Failed>
    ensures answer { with_error result failure.new ≡ answer }
    ensures same { OnOk result (failure.new ≡ failure.old) }
{
    match answer {
        Ok(done) => Ok(done),
        Err(error) => {
            *failure = error;
            Err(Failed)
        }
    }
}

/// The result of a call that left its error in a place, with that error.
pub fn with_error<T>(answer: std::result::Result<T, Failed>, failure: Error) -> Result<T>
    ensures { result ≡ with_error answer failure }
{
    match answer {
        Ok(done) => Ok(done),
        Err(Failed) => Err(failure),
    }
}

/// Why a source wasn't inserted into the loop, with the source.
#[derive(Drop)]
pub struct InsertError<T> {
    /// The source that wasn't inserted.
    pub inserted: T,
    /// The reason.
    pub error: Error,
}

impl<T> fmt::Debug for InsertError<T> {
    /// The text of the error alone, as in calloop.
    fn fmt<W: fmt::Write>(&self, f: &mut fmt::Formatter<W>) -> fmt::Result {
        write!(f, "{:?}", self.error)
    }
}

impl<T> fmt::Display for InsertError<T> {
    fn fmt<W: fmt::Write>(&self, f: &mut fmt::Formatter<W>) -> fmt::Result {
        write!(f, "error inserting event source: {}", self.error)
    }
}

impl<T: Drop> std::error::Error for InsertError<T> {}

impl<T: Drop> From<InsertError<T>> for Error {
    ghost from_gives = { λ refused made. made ≡ refused.error };

    /// The error; the source is dropped.
    fn from(refused: InsertError<T>) -> Error {
        let InsertError { inserted: _, error } = refused;
        error
    }
}
