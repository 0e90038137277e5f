//! A connection without its socket: bytes that come in, bytes that are to go out, and whether it is to be closed.
ghost use Rattle.std.specs.Prelude.{◌≡◌, ◌<◌, ◌≤◌, true, false, [], length, take, IfOk, OnOk};
ghost use Rattle.http_hello.specs.declared.answer.Answer.TheVariants.{Unavailable};
ghost use Rattle.http_hello.specs.Answers.{bytes_of};
ghost use Rattle.http_hello.specs.Requests.{IsUnfinished};
ghost use Rattle.http_hello.specs.Exchanges.{Exchanged, Exchanges, is_over, unread_of, unsent_of};

use crate::answer::Answer;
use crate::request::{Front, read_request};
use std::alloc::{AllocError, Global};

/// The state of a connection.
#[derive(Drop)]
pub struct Connection {
    // What came and isn't read yet: less than a head.
    received: Vec<u8>,
    // What is answered and isn't sent yet.
    unsent: Vec<u8>,
    is_closing: bool,
}

impl Connection {
    /// A connection that nothing came from yet.
    pub fn new(alloc: Global) -> Connection
        ensures exchanged { Exchanged [] [] result }
        ensures unsent { unsent_of result ≡ [] }
        ensures open { is_over result ≡ false }
    {
        Connection {
            received: Vec::new(alloc),
            unsent: Vec::new(alloc),
            is_closing: false,
        }
    }

    /// A connection that is turned away: 503 is to be sent, and then it is to be closed.
    pub fn turned_away(alloc: Global) -> Result<Connection, AllocError>
        ensures exchanged { IfOk result (Exchanged [] []) }
        ensures unsent { IfOk result (λ c. unsent_of c ≡ bytes_of Unavailable true) }
        ensures closing { IfOk result (λ c. is_over c ≡ true) }
    {
        let mut unsent = Vec::new(alloc);
        Answer::Unavailable.write_to(&mut unsent, true)?;
        Ok(Connection {
            received: Vec::new(alloc),
            unsent,
            is_closing: true,
        })
    }

    /// Returns what is to be sent next.
    pub fn unsent(&self) -> &[u8]
        ensures { result.now ≡ unsent_of self.now }
    {
        &self.unsent
    }

    /// True once nothing is to be read any more: when all is sent, the connection is to be closed.
    pub fn is_closing(&self) -> bool
        ensures { result ≡ is_over self.now }
    {
        self.is_closing
    }

    /// Takes the first `count` bytes out of `unsent`: they are sent.
    pub fn sent(&mut self, count: usize)
        requires { count ≤ length (unsent_of self.old) }
        ensures { Exchanges [] (take count (unsent_of self.old)) self.old self.new }
    {
        self.unsent.drain(..count);
    }

    /// Takes bytes that came, and answers each request that is whole now, in order, up to the first one that closes. After an error, which
    /// is want of memory, the connection is to be dropped.
    pub fn receive(&mut self, bytes: &[u8]) -> Result<(), AllocError>
        requires { is_over self.old ≡ false }
        ensures exchanged { OnOk result (Exchanges bytes.now [] self.old self.new) }
        ensures all_answered { OnOk result (is_over self.new ≡ false
            → IsUnfinished (unread_of self.new)) }
    {
        self.received.extend_from_slice(bytes)?;
        while self.answer_next()? {}
        Ok(())
    }

    // Answers the first request, if it is whole. True if another one may follow.
    fn answer_next(&mut self) -> Result<bool, AllocError>
        requires { is_over self.old ≡ false }
        ensures exchanged { OnOk result (Exchanges [] [] self.old self.new) }
        ensures goes_on { result ≡ Ok true → is_over self.new ≡ false }
        ensures shorter { result ≡ Ok true
            → length (unread_of self.new) < length (unread_of self.old) }
        ensures all_answered { result ≡ Ok false → is_over self.new ≡ false
            → IsUnfinished (unread_of self.new) }
    {
        match read_request(&self.received) {
            Front::Whole(request) => {
                request.answer.write_to(&mut self.unsent, request.closes)?;
                self.received.drain(..request.len);
                self.is_closing = request.closes;
                Ok(!request.closes)
            }
            Front::Partial => Ok(false),
            Front::Bad => {
                Answer::Bad.write_to(&mut self.unsent, true)?;
                self.is_closing = true;
                Ok(false)
            }
        }
    }
}
