ghost use Rattle.std.specs.Prelude.{◌≡◌, IfOk};
ghost use Rattle.std.specs.List.{list_all, position};
ghost use Rattle.looptrace.specs.Commands.{is_name, is_name_byte, name_of, number_of, timeout_of, ping_of, ring_of, close_of, is_space, timer_with, timer_of, remove_with, remove_of, readiness_of, answer_with, answer_of, clock_of, dispatch_of, other_of, command_of};

use crate::name::SourceName;
use calloop::Readiness;
use std::alloc::{AllocError, Global};

/// One line of a script.
#[derive(Drop)]
pub enum Command {
    /// An empty line, which does nothing.
    Nothing,
    /// Makes a ping source of this name.
    Ping(SourceName),
    /// Rings the ping of this name.
    Ring(SourceName),
    /// Drops the ping of this name, which closes its source.
    Close(SourceName),
    /// Removes the source that this slot and this version name.
    Remove(u64, u64),
    /// Adds an event of this key to the pending answer.
    Answer(u64, Readiness),
    /// Makes a timer of this name, for this deadline in nanoseconds.
    Timer(SourceName, u64),
    /// Sets the clock to this moment in nanoseconds.
    Clock(u64),
    /// Lets the next wait fail.
    Fault,
    /// Dispatches with a timeout in nanoseconds, or with none.
    Dispatch(Option<u64>),
}

fn is_for_names(b: u8) -> bool
    ensures { result ≡ is_name_byte b }
{
    (b >= b'0' && b <= b'9') || (b >= b'a' && b <= b'z')
}

fn are_for_names(word: &[u8]) -> bool
    ensures { result ≡ list_all is_name_byte word.now }
{
    word.iter().all(|b| is_for_names(*b))
}

fn is_a_name(word: &[u8]) -> bool
    ensures { result ≡ is_name word.now }
{
    if word.is_empty() || word.len() > 32 {
        return false;
    }
    are_for_names(word)
}

fn parse_name(alloc: Global, word: &[u8]) -> Result<Option<SourceName>, AllocError>
    ensures { IfOk result (λ name. name ≡ name_of word.now) }
{
    if !is_a_name(word) {
        return Ok(None);
    }
    Ok(Some(SourceName::new(alloc, word)?))
}

fn parse_number(word: &[u8]) -> Option<u64>
    ensures { result ≡ number_of word.now }
{
    if word.is_empty() || (word[0] == b'0' && word.len() > 1) {
        return None;
    }
    let mut value = 0u64;
    for b in word {
        if *b < b'0' || *b > b'9' {
            return None;
        }
        value = value.checked_mul(10)?.checked_add((*b - b'0') as u64)?;
    }
    Some(value)
}

fn parse_timeout(word: &[u8]) -> Option<Option<u64>>
    ensures { result ≡ timeout_of word.now }
{
    if word == b"-".as_slice() {
        return Some(None);
    }
    Some(Some(parse_number(word)?))
}

fn parse_dispatch(line: &[u8]) -> Option<Command>
    ensures { result ≡ dispatch_of line.now }
{
    if !line.starts_with(b"dispatch ") {
        return None;
    }
    Some(Command::Dispatch(parse_timeout(&line[9..])?))
}

fn parse_ping(alloc: Global, word: &[u8]) -> Result<Option<Command>, AllocError>
    ensures { IfOk result (λ command. command ≡ ping_of word.now) }
{
    match parse_name(alloc, word)? {
        Some(name) => Ok(Some(Command::Ping(name))),
        None => Ok(None),
    }
}

fn parse_ring(alloc: Global, word: &[u8]) -> Result<Option<Command>, AllocError>
    ensures { IfOk result (λ command. command ≡ ring_of word.now) }
{
    match parse_name(alloc, word)? {
        Some(name) => Ok(Some(Command::Ring(name))),
        None => Ok(None),
    }
}

fn parse_close(alloc: Global, word: &[u8]) -> Result<Option<Command>, AllocError>
    ensures { IfOk result (λ command. command ≡ close_of word.now) }
{
    match parse_name(alloc, word)? {
        Some(name) => Ok(Some(Command::Close(name))),
        None => Ok(None),
    }
}

fn first_space(words: &[u8]) -> Option<usize>
    ensures { result ≡ position is_space words.now }
{
    words.iter().position(|b| *b == b' ')
}

fn parse_timer_with(
    alloc: Global,
    name: &[u8],
    deadline: &[u8],
) -> Result<Option<Command>, AllocError>
    ensures { IfOk result (λ command.
        command ≡ timer_with (name_of name.now) (number_of deadline.now)) }
{
    let Some(name) = parse_name(alloc, name)? else {
        return Ok(None);
    };
    match parse_number(deadline) {
        Some(deadline) => Ok(Some(Command::Timer(name, deadline))),
        None => Ok(None),
    }
}

fn parse_timer(alloc: Global, words: &[u8]) -> Result<Option<Command>, AllocError>
    ensures { IfOk result (λ command. command ≡ timer_of words.now) }
{
    match first_space(words) {
        Some(space) => parse_timer_with(alloc, &words[..space], &words[space + 1..]),
        None => Ok(None),
    }
}

fn parse_remove_with(slot: &[u8], version: &[u8]) -> Option<Command>
    ensures { result ≡ remove_with (number_of slot.now) (number_of version.now) }
{
    let slot = parse_number(slot)?;
    let version = parse_number(version)?;
    Some(Command::Remove(slot, version))
}

fn parse_remove(words: &[u8]) -> Option<Command>
    ensures { result ≡ remove_of words.now }
{
    let space = first_space(words)?;
    parse_remove_with(&words[..space], &words[space + 1..])
}

fn parse_readiness(word: &[u8]) -> Option<Readiness>
    ensures { result ≡ readiness_of word.now }
{
    if word == b"r".as_slice() {
        Some(Readiness {
            readable: true,
            writable: false,
            error: false,
        })
    } else if word == b"w".as_slice() {
        Some(Readiness {
            readable: false,
            writable: true,
            error: false,
        })
    } else if word == b"rw".as_slice() {
        Some(Readiness {
            readable: true,
            writable: true,
            error: false,
        })
    } else {
        None
    }
}

fn parse_answer_with(key: &[u8], readiness: &[u8]) -> Option<Command>
    ensures { result ≡ answer_with (number_of key.now) (readiness_of readiness.now) }
{
    let key = parse_number(key)?;
    let readiness = parse_readiness(readiness)?;
    Some(Command::Answer(key, readiness))
}

fn parse_answer(words: &[u8]) -> Option<Command>
    ensures { result ≡ answer_of words.now }
{
    let space = first_space(words)?;
    parse_answer_with(&words[..space], &words[space + 1..])
}

fn parse_clock(word: &[u8]) -> Option<Command>
    ensures { result ≡ clock_of word.now }
{
    Some(Command::Clock(parse_number(word)?))
}

#[tactic(auto, unfolding(crate::specs::Commands::other_of))]
fn parse_other(line: &[u8]) -> Option<Command>
    ensures { result ≡ other_of line.now }
{
    if line.starts_with(b"remove ") {
        parse_remove(&line[7..])
    } else if line.starts_with(b"answer ") {
        parse_answer(&line[7..])
    } else {
        parse_dispatch(line)
    }
}

/// The command of a line without its line feed. `None` if the line can't be read. An `Err` says that memory ran out.
pub fn parse(alloc: Global, line: &[u8]) -> Result<Option<Command>, AllocError>
    ensures { IfOk result (λ command. command ≡ command_of line.now) }
{
    if line.is_empty() {
        Ok(Some(Command::Nothing))
    } else if line.starts_with(b"ping ") {
        parse_ping(alloc, &line[5..])
    } else if line.starts_with(b"ring ") {
        parse_ring(alloc, &line[5..])
    } else if line.starts_with(b"close ") {
        parse_close(alloc, &line[6..])
    } else if line.starts_with(b"timer ") {
        parse_timer(alloc, &line[6..])
    } else if line.starts_with(b"clock ") {
        Ok(parse_clock(&line[6..]))
    } else if line == b"fault".as_slice() {
        Ok(Some(Command::Fault))
    } else {
        Ok(parse_other(line))
    }
}
