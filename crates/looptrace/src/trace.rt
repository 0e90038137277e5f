//! A whole run over a script.
ghost use Rattle.std.specs.Prelude.{◌≡◌, IfOk, IfErr, OnOk, IfSome};
ghost use Rattle.std.specs.Io.KnownBytes.{Appends};
ghost use Rattle.looptrace.specs.Faults.{IsCause};
ghost use Rattle.looptrace.specs.Traces.{Written};
ghost use Rattle.looptrace.specs.Runs.{MayWrite};
ghost use Rattle.looptrace.specs.InTime.{MayWriteInTime};

use crate::driver::drive;
use crate::laws::timers_are_called_in_time;
use crate::runner::ScriptLoop;
use crate::streams::Streams;
use log::Log;
use std::alloc::Global;
use std::io;
use std::io::{BufRead, Write};
use std::sync::Wait;

/// Runs a loop from the script that the input holds, and returns the exit status: 0 at the end of the script, and 2 at the first
/// line that can't be read. What the loop does goes to the output, and that line's number to the error output.
///
/// The loop begins with the clock at 0, without sources, and with a poller that gives no events. Its warnings go to the log of
/// `rt`. What is written is that of a run of the loop's machine in which no timer is called early, nor twice for one arming.
/// An `Err` is an error of reading or writing, or says that memory ran out; what was written before it stays.
pub fn trace<Q: Wait + Log + Clone + Drop, R: BufRead, W: Write, E: Write>(
    rt: &Q,
    alloc: Global,
    streams: &mut Streams<R, W, E>,
) -> io::Result<u8>
    ensures run { IfOk result (λ status. IfSome (R.remaining streams.old.input) (λ script.
        (w : Written) × MayWrite script w
        × Appends (W.contents streams.old.output) (W.contents streams.new.output) w.out
        × Appends (E.contents streams.old.errors) (E.contents streams.new.errors) w.err
        × (status ≡ w.status))) }
    ensures in_time { IfOk result (λ _. IfSome (R.remaining streams.old.input) (λ script.
        (w : Written) × MayWriteInTime script w
        × Appends (W.contents streams.old.output) (W.contents streams.new.output) w.out)) }
    ensures none { OnOk result (streams.new.faults.count ≡ streams.old.faults.count) }
    ensures err { IfErr result (λ e. IsCause e streams.old.faults.count streams.new.faults.count) }
{
    timers_are_called_in_time::<Q>();
    let mut script_loop = ScriptLoop::new(rt, alloc)?;
    drive(rt, alloc, &mut script_loop, streams)
}
