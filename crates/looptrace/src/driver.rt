//! Carries out the lines of a script, one after the other.
ghost use Rattle.std.specs.Prelude.{◌≡◌, ◌<◌, ◌++◌, ℕ, List, length, Option, Some, None, IfOk, IfErr, OnOk, IfSome, false};
ghost use Rattle.std.specs.Bool.{MatchBool};
ghost use Rattle.std.specs.IoError.{error_kind};
ghost use Rattle.std.specs.declared.io.ErrorKind.TheVariants.{OutOfMemory};
ghost use Rattle.std.specs.Io.KnownBytes.{Appends};
ghost use Rattle.looptrace.specs.Faults.{IsCause};
ghost use Rattle.looptrace.specs.Lines.{longest, lines_of};
ghost use Rattle.looptrace.specs.Traces.{Written, Writes};

use crate::lines::{LONGEST, without_feed};
use crate::streams::Streams;
use log::Log;
use std::alloc::Global;
use std::io;
use std::io::{BufRead, Write};
use std::sync::Wait;

/// Carries out the lines of a script.
pub trait Runner {
    ghost use Rattle.std.specs.IoError.{error_kind};
    ghost use Rattle.std.specs.declared.io.ErrorKind.TheVariants.{OutOfMemory};

    /// What one line may do: the state after it and its text, or nothing if the line can't be read.
    ghost step: { Self → List ℕ → Option (Self × List ℕ) → Type 0 };

    /// Carries out one line without its line feed, and appends what it prints to `text`. False if the line can't be read. An
    /// `Err` says that memory ran out, and then nothing is known of `text`.
    fn line<Q: Wait + Log>(&mut self, rt: &Q, line: &[u8], text: &mut Vec<u8>) -> io::Result<bool>
        ensures read { IfOk result (λ read. MatchBool read
            ((said : List ℕ) × (text.new.items ≡ text.old.items ++ said)
            × step self.old line.now (Some (self.new, said)))
            (step self.old line.now None)) }
        ensures err { IfErr result (λ e. error_kind e ≡ OutOfMemory) };

    /// A line of more than 64 bytes can't be read.
    ghost refuses: { (state : Self) (line : List ℕ) → longest < length line → step state line None };
}

// Has the runner carry out a line, if it isn't too long to be read. False if it can't be read.
fn carry_out<Q: Wait + Log, L: Runner>(
    rt: &Q,
    runner: &mut L,
    line: &[u8],
    text: &mut Vec<u8>,
) -> io::Result<bool>
    ensures read { IfOk result (λ read. MatchBool read
        ((said : List ℕ) × (text.new.items ≡ text.old.items ++ said)
        × L.step runner.old line.now (Some (runner.new, said)))
        (L.step runner.old line.now None)) }
    ensures long { IfOk result (λ read. longest < length line.now → read ≡ false) }
    ensures err { IfErr result (λ e. error_kind e ≡ OutOfMemory) }
{
    if line.len() > LONGEST {
        return Ok(false);
    }
    runner.line(rt, line, text)
}

/// Carries out the lines of the input, writes each line's text to the output, and returns the exit status: 0 at the end of the
/// input, and 2 at the first line that can't be read, which is then named by its number on the error output. That number stops
/// rising at 2^64 - 1. A line of more than 64 bytes can't be read, and at most one byte more of it is taken from the input.
///
/// An `Err` is an error of reading or writing, or says that memory ran out. What was carried out and written before it stays.
pub fn drive<Q: Wait + Log, L: Runner, R: BufRead, W: Write, E: Write>(
    rt: &Q,
    alloc: Global,
    runner: &mut L,
    streams: &mut Streams<R, W, E>,
) -> io::Result<u8>
    ensures run { IfOk result (λ status. IfSome (R.remaining streams.old.input) (λ bytes.
        (w : Written) × Writes L.step runner.old 1 (lines_of bytes) w
        × Appends (W.contents streams.old.output) (W.contents streams.new.output) w.out
        × Appends (E.contents streams.old.errors) (E.contents streams.new.errors) w.err
        × (status ≡ w.status))) }
    ensures none { OnOk result (streams.new.faults.count ≡ streams.old.faults.count) }
    ensures err { IfErr result (λ e. IsCause e streams.old.faults.count streams.new.faults.count) }
{
    let mut number = 1u64;
    let mut line = Vec::new(alloc);
    let mut text = Vec::new(alloc);
    for _ in rt.forever() {
        if !streams.read_line(&mut line)? {
            return Ok(0);
        }
        text.clear();
        if !carry_out(rt, runner, without_feed(&line), &mut text)? {
            streams.refuse(number)?;
            return Ok(2);
        }
        streams.say(&text)?;
        number = number.saturating_add(1);
    }
    unreachable!()
}
