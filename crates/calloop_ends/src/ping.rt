//! Pings: a source that is woken by hand, from any thread.
ghost use Rattle.std.specs.Prelude.{◌≡◌, None, IfOk, IfErr};
ghost use Rattle.calloop_wake.specs.Cells.{fresh_tally};
ghost use Rattle.calloop_slots.specs.declared.error.Error.TheVariants.{OutOfMemory};

use crate::cell::{ReceivingEnd, SendingEnd, make_ends};
use calloop_slots::error::Result as LoopResult;
use calloop_wake::Receipt;
use calloop_wake::ping::PingCore;
use std::alloc::{AllocError, Global};
use std::marker::Model;
use std::sync::Wait;

pub(crate) mod cell;
pub(crate) mod source;

pub use source::{PingError, is_registered_by_its_calls};

/// Rings its source, from any thread. Clones ring the same source; dropping the last one closes it.
///
/// In a clause it is the name of the cell that it rings.
#[derive(Drop)]
pub struct Ping<R: Wait + Drop> {
    end: SendingEnd<PingCore, R>,
}

impl<R: Wait + Drop> Model for Ping<R> {
    ghost use Rattle.logbook.specs.Pages.{Book};

    ghost Value = { Book };

    ghost view = { λ p. p.end };
}

/// The source of a ping. Any number of rings before its turn are one event.
///
/// Its drop, as by the drop of the loop that it is registered with, takes its registration back.
///
/// In a clause it is the tally: the name of its cell, the key that it gave the cell, and what was counted.
#[derive(Drop)]
pub struct PingSource<R: Wait + Drop> {
    pub(crate) end: ReceivingEnd<PingCore, R>,
}

impl<R: Wait + Drop> Model for PingSource<R> {
    ghost use Rattle.calloop_wake.specs.declared.Tally.{Tally};

    ghost Value = { Tally };

    ghost view = { λ s. s.end.tally };
}

/// Makes a ping that nobody rang, and its source, which isn't registered yet. They lock what they share by the runtime `rt`.
///
/// Fails with `OutOfMemory` if memory runs out.
pub fn make_ping<R: Wait + Clone + Drop>(
    rt: &R,
    alloc: Global,
) -> LoopResult<(Ping<R>, PingSource<R>)>
    ensures ok { IfOk result (λ made. made.1 ≡ fresh_tally made.0) }
    ensures err { IfErr result (λ e. e ≡ OutOfMemory) }
{
    let (locked, right) = cell::new_locked(alloc)?;
    let (ping, source) = make_ends(rt, alloc, locked, right)?;
    Ok((Ping { end: ping }, PingSource { end: source }))
}

impl<R: Wait + Drop> Ping<R> {
    /// Rings its source, which is called back once for all rings before its turn. The receipt is of a ring of this very ping.
    ///
    /// If the source is registered and nothing was due, its key is posted on the board of its loop, and the loop is woken.
    pub fn ping(&self) -> Receipt
        ensures { result.name ≡ self.now }
    {
        self.end.ring()
    }
}

impl<R: Wait + Clone + Drop> Clone for Ping<R> {
    ghost use Rattle.std.specs.Prelude.{◌≡◌};

    ghost is_clone = { λ ping again. again ≡ ping };

    fn clone(&self) -> Result<Ping<R>, AllocError> {
        let end = self.end.clone()?;
        Ok(Ping { end })
    }
}
