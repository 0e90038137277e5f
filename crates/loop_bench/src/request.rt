//! The program's request, read from its arguments.
ghost use Rattle.std.specs.Prelude.{ℕ, MatchResult};
ghost use Rattle.std.specs.Int.NonZero.{non_zero_u32_get};
ghost use Rattle.loop_bench.specs.Requests.{IsNumber, IsRow, Asks};
ghost use Rattle.loop_bench.specs.declared.request.Request.{Request};
ghost use Rattle.loop_bench.specs.declared.row.Row.{Row};

use crate::row::{Kind, Row};
use std::fmt;
use std::num::NonZeroU32;

/// What the program is to do.
#[derive(Clone, Copy, Debug)]
pub enum Request {
    /// Runs each kind of row a few times, and prints no times.
    Check,
    /// Measures a row.
    Measure(Row),
}

/// Why the arguments can't be read.
#[derive(Clone, Copy, Debug)]
pub enum Unreadable<'a> {
    /// There are neither three words nor the one word `check`.
    Usage,
    /// No row has this name.
    Row(&'a str),
    /// This isn't a whole number from 1 to 2^32 - 1.
    Number(&'a str),
}

impl fmt::Display for Unreadable<'_> {
    fn fmt<W: fmt::Write>(&self, f: &mut fmt::Formatter<W>) -> fmt::Result {
        match self {
            Unreadable::Usage => write!(f, "usage: loop_bench ROW COUNT SIZE, or loop_bench check"),
            Unreadable::Row(word) => write!(f, "no row has the name {word:?}"),
            Unreadable::Number(word) => write!(
                f,
                "{word:?} is no whole number from 1 to {}",
                u32::MAX
            ),
        }
    }
}

// A whole number from 1 to 2^32 - 1.
fn number(word: &str) -> Result<NonZeroU32, Unreadable<'_>>
    ensures { MatchResult result
        (λ number. IsNumber word.now (non_zero_u32_get number))
        (λ _. (n : ℕ) → ¬ IsNumber word.now n) }
{
    match word.parse::<NonZeroU32>() {
        Ok(number) => Ok(number),
        Err(_) => Err(Unreadable::Number(word)),
    }
}

// A row by the words for its name, its count and its size.
fn row<'a>(kind: &'a str, count: &'a str, size: &'a str) -> Result<Row, Unreadable<'a>>
    ensures { MatchResult result
        (λ row. IsRow kind.now count.now size.now row)
        (λ _. (row : Row) → ¬ IsRow kind.now count.now size.now row) }
{
    let Some(named) = Kind::from_name(kind) else {
        return Err(Unreadable::Row(kind));
    };
    let count = number(count)?;
    let size = number(size)?;
    Ok(Row {
        kind: named,
        count,
        size,
    })
}

/// Reads the arguments, without the program's name.
pub fn read(words: &[String]) -> Result<Request, Unreadable<'_>>
    ensures { MatchResult result
        (λ request. Asks words.now request)
        (λ _. (request : Request) → ¬ Asks words.now request) }
{
    match words {
        [word] if word.as_str() == "check" => Ok(Request::Check),
        [kind, count, size] => match row(kind.as_str(), count.as_str(), size.as_str()) {
            Ok(row) => Ok(Request::Measure(row)),
            Err(unreadable) => Err(unreadable),
        },
        _ => Err(Unreadable::Usage),
    }
}
