//! Errors of a caller's own source, as errors of the loop.
use crate::sources::IntoError;
use calloop_slots::error::Error;
use std::io;

impl IntoError for io::Error {
    ghost use Rattle.calloop_sources.specs.sources.Calls.{OfIo};
    ghost use Rattle.calloop_sources.specs.sources.Lawful.{io_of_source};

    ghost becomes = { OfIo };

    ghost of_source = { io_of_source };

    /// `OutOfMemory` if the error is of that kind, and else an `OtherError` with its text.
    fn into_error(self) -> Error {
        match self.kind() {
            io::ErrorKind::OutOfMemory => Error::OutOfMemory,
            _ => Error::OtherError(anyhow::Error::from(self)),
        }
    }
}

impl IntoError for Error {
    ghost use Rattle.calloop_sources.specs.sources.Calls.{AsOfSource};
    ghost use Rattle.calloop_sources.specs.sources.Lawful.{as_of_source};

    ghost becomes = { AsOfSource };

    ghost of_source = { as_of_source };

    /// `OtherError` and `OutOfMemory` stay what they are. Any other error, which is the loop's own, becomes an `OtherError`
    /// with its text.
    fn into_error(self) -> Error {
        match self {
            Error::OtherError(_) | Error::OutOfMemory => self,
            refusal => Error::OtherError(anyhow::Error::from(refusal)),
        }
    }
}
