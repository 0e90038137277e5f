//! Why a turn of a stream could fail.
use crate::ping::PingError;
use calloop_slots::error::Error;
use calloop_sources::sources::IntoError;
use thiserror::Error as ThisError;

/// Why a stream's turn could fail. No turn of this crate's streams does: all that they need was reserved.
#[derive(Debug, Drop, ThisError)]
#[error("{0}")]
pub struct StreamError(pub PingError);

impl From<PingError> for StreamError {
    ghost use Rattle.std.specs.Prelude.{◌≡◌};

    ghost from_gives = { λ error made. made ≡ record { 0 = error } };

    fn from(error: PingError) -> StreamError {
        StreamError(error)
    }
}

impl IntoError for StreamError {
    ghost use Rattle.std.specs.Prelude.{◌≡◌};
    ghost use Rattle.calloop_slots.specs.declared.error.Error.TheVariants.{OutOfMemory};
    ghost use Rattle.calloop_sources.specs.sources.Lawful.{memory_of_source};

    ghost becomes = { λ _ e. e ≡ OutOfMemory };

    ghost of_source = { λ _ e is. memory_of_source e is };

    /// `OutOfMemory`.
    fn into_error(self) -> Error {
        Error::OutOfMemory
    }
}
