//! Streams as sources: each item of a stream is an event.
//!
//! From calloop's `sources/stream.rs`. calloop's streams are those of the crate `futures`; these are this module's own, as
//! the futures of the module `futures` here are its own.
ghost use Rattle.std.specs.Prelude.{◌≡◌, IfOk, IfErr};
ghost use Rattle.calloop_ends.specs.stream.Streams.{fresh_stream};
ghost use Rattle.calloop_slots.specs.declared.error.Error.TheVariants.{OutOfMemory};

use crate::futures::Waker;
use crate::ping::{Ping, PingSource, make_ping};
use calloop_slots::error::{Error, InsertError};
use calloop_wake::Receipt;
use reading::Readable;
use std::alloc::Global;
use std::marker::Model;
use std::sync::Wait;

mod errors;
mod reading;
mod source;

pub use errors::StreamError;
pub use reading::Stream;

/// A stream as a source: each item is an event `Some(item)`, and its end is `None`, once.
///
/// If it is dropped, as with the loop that it is registered with, its registration is taken back and the stream is dropped.
///
/// In a clause it is its tally, as a `PingSource` is, and what it reads.
#[derive(Drop)]
pub struct StreamSource<S: Stream<R>, R: Wait + Drop> {
    source: PingSource<R>,
    ping: Ping<R>,
    // None once the end was told.
    stream: Option<Readable<S, R>>,
    // The receipt of the ring by which its last turn asked for another turn.
    own: Option<Receipt>,
}

impl<S: Stream<R>, R: Wait + Drop> Model for StreamSource<S, R> {
    ghost use Rattle.std.specs.Prelude.{◌≡◌};
    ghost use Rattle.calloop_ends.specs.stream.Streams.{StreamEnd, reading_of};

    ghost Value = { StreamEnd S };

    ghost view = { λ s. record { tally = s.source; reading = reading_of s.stream s.own } };

    ghost invariant = { λ s. s.ping ≡ s.source.name };
}

impl<S: Stream<R>, R: Wait + Clone + Drop> StreamSource<S, R> {
    /// Makes an unregistered source of the stream's items. The stream is polled in the first turn after its registration.
    ///
    /// Fails with `OutOfMemory` if memory runs out, and hands the stream back.
    pub fn new(rt: &R, alloc: Global, stream: S) -> Result<StreamSource<S, R>, InsertError<S>>
        ensures ok { IfOk result (λ made. made ≡ fresh_stream stream made.tally.name) }
        ensures err { IfErr result (λ e. (e.inserted ≡ stream) × (e.error ≡ OutOfMemory)) }
    {
        let Ok((ping, source)) = make_ping(rt, alloc) else {
            return Err(refusal(stream));
        };
        let Ok(own) = ping.clone() else {
            return Err(refusal(stream));
        };
        let _first = ping.ping();
        Ok(StreamSource {
            source,
            ping,
            stream: Some(Readable {
                stream,
                waker: Waker::of_ping(own),
            }),
            own: None,
        })
    }
}

fn refusal<S>(stream: S) -> InsertError<S>
    ensures { (result.inserted ≡ stream) × (result.error ≡ OutOfMemory) }
{
    InsertError {
        inserted: stream,
        error: Error::OutOfMemory,
    }
}
