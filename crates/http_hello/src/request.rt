//! The head of a request at the front of a buffer. The contracts are over the grammar that the kit proves `httparse` against.
ghost use Rattle.std.specs.Prelude.{◌≡◌, true, false, length, map, All};
ghost use Rattle.std.specs.List.{list_any};
ghost use Rattle.std.specs.Char.{to_ascii_lowercase};
ghost use Rattle.httparse.specs.Spans.{IsHeaderWithin, header_bytes};
ghost use Rattle.http_hello.specs.Requests.{IsFront, answer_to as answer_of, has_body, is_named as is_word, may_close};

use crate::answer::Answer;
use httparse::Status;
use httparse::spans::{EMPTY_HEADER_SPAN, HeaderSpan, parse_request};

/// How many bytes a head may have.
pub const LONGEST_HEAD: usize = 4096;

/// How many fields a head may have.
const MOST_FIELDS: usize = 64;

/// A request whose whole head was read.
#[derive(Clone, Copy, Debug)]
pub struct Request {
    pub answer: Answer,
    /// The connection is to be closed behind its answer.
    pub closes: bool,
    /// The length of its head, in bytes.
    pub len: usize,
}

/// What stands at the front of a buffer.
#[derive(Clone, Copy, Debug)]
pub enum Front {
    Whole(Request),
    /// More bytes are needed.
    Partial,
    /// No head, or one that is too long or has too many fields.
    Bad,
}

/// Reads the head at the front of `bytes`.
pub fn read_request(bytes: &[u8]) -> Front
    ensures { IsFront bytes.now result }
{
    let mut fields = [EMPTY_HEADER_SPAN; MOST_FIELDS];
    match parse_request(bytes, &mut fields) {
        Ok(Status::Complete(head)) => {
            if head.len > LONGEST_HEAD {
                return Front::Bad;
            }
            Front::Whole(Request {
                answer: answer_to(head.method.of(bytes), head.path.of(bytes)),
                closes: head.version == 0 || is_last(bytes, &fields[..head.headers]),
                len: head.len,
            })
        }
        Ok(Status::Partial) => {
            if bytes.len() >= LONGEST_HEAD {
                return Front::Bad;
            }
            Front::Partial
        }
        Err(_) => Front::Bad,
    }
}

fn answer_to(method: &[u8], path: &[u8]) -> Answer
    ensures { result ≡ answer_of method.now path.now }
{
    if method == b"GET".as_slice() {
        if path == b"/".as_slice() {
            Answer::Page
        } else {
            Answer::NotFound
        }
    } else {
        Answer::NotAllowed
    }
}

// True if one of these fields closes the connection behind the answer.
fn is_last(bytes: &[u8], fields: &[HeaderSpan]) -> bool
    requires { All (IsHeaderWithin (length bytes.now)) fields.now }
    ensures body { list_any has_body (map (header_bytes bytes.now) fields.now) ≡ true
        → result ≡ true }
    ensures otherwise { list_any may_close (map (header_bytes bytes.now) fields.now) ≡ false
        → result ≡ false }
{
    for field in fields {
        if closes(field.name.of(bytes), field.value.of(bytes)) {
            return true;
        }
    }
    false
}

// A body isn't read: a request that has one is the last of its connection, as one that asks to close.
fn closes(name: &[u8], value: &[u8]) -> bool
    ensures body { has_body (name.now, value.now) ≡ true → result ≡ true }
    ensures otherwise { may_close (name.now, value.now) ≡ false → result ≡ false }
{
    if is_named(name, b"transfer-encoding") {
        return true;
    }
    if is_named(name, b"content-length") {
        return value != b"0".as_slice();
    }
    is_named(name, b"connection") && has_close(value)
}

fn is_named(name: &[u8], word: &[u8]) -> bool
    requires { map to_ascii_lowercase word.now ≡ word.now }
    ensures { result ≡ is_word name.now word.now }
{
    name.eq_ignore_ascii_case(word)
}

// True if a list, as of a field `Connection`, has `close` in it.
fn has_close(value: &[u8]) -> bool {
    value.split(|byte| *byte == b',').any(|option| option
        .trim_ascii()
        .eq_ignore_ascii_case(b"close"))
}
