//! The reader and the writers of a run.
ghost use Rattle.std.specs.Prelude.{◌≡◌, ◌≤◌, ◌<◌, ◌+◌, ℕ, [], ◌∷◌, length, true, false, Some, IfOk, IfSome, OnOk};
ghost use Rattle.std.specs.Io.{StartsWith};
ghost use Rattle.std.specs.Io.BufRead.{drop_through};
ghost use Rattle.std.specs.Io.KnownBytes.{Appends, Consumes};
ghost use Rattle.looptrace.specs.Faults.{with_fault};
ghost use Rattle.looptrace.specs.Lines.{longest, lines_of, first_of};
ghost use Rattle.looptrace.specs.Texts.{error_text};

use crate::lines;
use calloop_poll::sys::faults::FaultCount;
use std::io;
use std::io::{BufRead, Write};

/// A reader for the script, a writer for what the run says and one for its errors. A counter of their failed calls takes no
/// bytes, and contracts alone see it.
#[derive(Drop)]
pub struct Streams<R, W, E> {
    pub input: R,
    pub output: W,
    pub errors: E,
    faults: FaultCount,
}

impl<R, W, E> Streams<R, W, E> {
    /// No call failed yet.
    pub fn new(input: R, output: W, errors: E) -> Streams<R, W, E>
        ensures { (result.input ≡ input)
            × (result.output ≡ output)
            × (result.errors ≡ errors)
            × (result.faults.count ≡ 0) }
    {
        Streams {
            input,
            output,
            errors,
            faults: FaultCount::new(),
        }
    }

    // Counts a call that failed.
    fn note<A>(&mut self, answer: io::Result<A>) -> io::Result<A>
        ensures answer { result ≡ answer }
        ensures streams { (self.new.input ≡ self.old.input)
            × (self.new.output ≡ self.old.output)
            × (self.new.errors ≡ self.old.errors) }
        ensures faults { self.new.faults.count ≡ with_fault answer self.old.faults.count }
    {
        if answer.is_err() {
            self.faults = FaultCount::after(&self.faults);
        }
        answer
    }
}

impl<R: BufRead, W: Write, E: Write> Streams<R, W, E> {
    /// Reads one line with its line feed into `line`, or, if it has more than 64 bytes, only its first 65: the rest isn't read.
    /// False at the end of the input.
    ///
    /// A read that a signal interrupts is tried again. After an `Err` a part of the line may have been read.
    pub fn read_line(&mut self, line: &mut Vec<u8>) -> io::Result<bool>
        ensures end { IfOk result (λ more.
            IfSome (R.remaining self.old.input) (λ xs. more ≡ false → xs ≡ [])) }
        ensures line { IfOk result (λ more. IfSome (R.remaining self.old.input) (λ xs. more ≡ true
            → length (first_of line.new.items) ≤ longest
            → (lines_of xs ≡ first_of line.new.items ∷ lines_of (drop_through 10 xs))
            × (R.remaining self.new.input ≡ Some (drop_through 10 xs)))) }
        ensures long { OnOk result (IfSome (R.remaining self.old.input) (λ xs.
            longest < length (first_of line.new.items)
            → StartsWith (first_of xs) line.new.items)) }
        ensures read { OnOk result
            (Consumes (R.remaining self.old.input) (R.remaining self.new.input) line.new.items) }
        ensures few { OnOk result (length line.new.items ≤ longest + 1) }
        ensures writers { (self.new.output ≡ self.old.output)
            × (self.new.errors ≡ self.old.errors) }
        ensures faults { self.new.faults.count ≡ with_fault result self.old.faults.count }
    {
        let answer = lines::read_line(&mut self.input, line);
        self.note(answer)
    }

    /// Writes a text to the output.
    pub fn say(&mut self, text: &[u8]) -> io::Result<()>
        ensures bytes { OnOk result
            (Appends (W.contents self.old.output) (W.contents self.new.output) text.now) }
        ensures others { (self.new.input ≡ self.old.input) × (self.new.errors ≡ self.old.errors) }
        ensures faults { self.new.faults.count ≡ with_fault result self.old.faults.count }
    {
        let answer = self.output.write_all(text);
        self.note(answer)
    }

    /// Writes the number of a line that can't be read to the error output.
    pub fn refuse(&mut self, number: u64) -> io::Result<()>
        ensures bytes { OnOk result (Appends (E.contents self.old.errors)
            (E.contents self.new.errors) (error_text number)) }
        ensures others { (self.new.input ≡ self.old.input) × (self.new.output ≡ self.old.output) }
        ensures faults { self.new.faults.count ≡ with_fault result self.old.faults.count }
    {
        let answer = writeln!(self.errors, "error line {number}");
        self.note(answer)
    }
}
