//! A client's socket: what comes goes into its connection, and what that answers goes out.
use crate::connection::Connection;
use crate::server::Server;
use calloop::{Callback, NoIoDrop, PostAction, Readiness, Requests};
use mio::net::TcpStream;
use std::io;
use std::io::{Read, Write};
use std::net::Shutdown;
use std::time::Clock as MachineClock;

/// How many steps a client has in one turn, so that others have theirs.
const STEPS_AT_ONCE: u32 = 16;

/// Serves one client.
#[derive(Drop)]
pub struct Serves {
    place: usize,
    connection: Connection,
    // All was sent, and the client is told that nothing follows.
    is_shut: bool,
}

/// What came of a step.
#[derive(Clone, Copy, Debug, PartialEq, Eq)]
enum Step {
    /// The client sent something.
    Heard,
    /// Something was thrown away, behind the last answer.
    Ignored,
    /// The machine tells when there is more to do.
    Waits,
    /// The client is gone.
    Left,
}

impl Serves {
    /// Serves the client in this place of the server.
    pub fn new(place: usize, connection: Connection) -> Serves {
        Serves {
            place,
            connection,
            is_shut: false,
        }
    }

    // Sends what is unsent, and reads once if all of it went out. What comes behind the last answer is thrown away.
    fn step(&mut self, stream: &mut TcpStream, is_ending: bool) -> io::Result<Step> {
        if !self.flush(stream)? {
            return Ok(Step::Waits);
        }
        if (is_ending || self.connection.is_closing()) && !self.is_shut {
            stream.shutdown(Shutdown::Write)?;
            self.is_shut = true;
        }
        let mut bytes = [0u8; 4096];
        match stream.read(&mut bytes) {
            Ok(0) => Ok(Step::Left),
            Ok(read) => {
                if self.is_shut || self.connection.is_closing() {
                    return Ok(Step::Ignored);
                }
                self.connection.receive(&bytes[..read])?;
                Ok(Step::Heard)
            }
            Err(cause) if cause.kind() == io::ErrorKind::WouldBlock => Ok(Step::Waits),
            Err(cause) => Err(cause),
        }
    }

    // True if answers have to go out, or the client hasn't closed yet behind the last one.
    fn owes(&self) -> bool {
        self.is_shut || !self.connection.unsent().is_empty()
    }

    // Sends what is unsent. True if all of it went out.
    fn flush(&mut self, stream: &mut TcpStream) -> io::Result<bool> {
        if self.connection.unsent().is_empty() {
            return Ok(true);
        }
        match stream.write(self.connection.unsent()) {
            Ok(written) => {
                self.connection.sent(written);
                Ok(self.connection.unsent().is_empty())
            }
            Err(cause) if cause.kind() == io::ErrorKind::WouldBlock => Ok(false),
            Err(cause) => Err(cause),
        }
    }
}

impl<D, R> Callback<Readiness, NoIoDrop<TcpStream>, io::Result<PostAction>, Server<R>, Requests<D>>
    for Serves
where
    D: Drop,
    R: MachineClock + Clone + Drop,
{
    /// Goes on until the client has to be waited for, or for so many steps: then a registration anew tells of it anew. If the client
    /// leaves, the listener is enabled if there were too few descriptors.
    ///
    /// A client that got its last answer is read until it closes too: bytes that nobody reads would reset the connection, and might cost it
    /// the answer.
    fn call(
        &mut self,
        _readiness: Readiness,
        io: &mut NoIoDrop<TcpStream>,
        server: &mut Server<R>,
        requests: &mut Requests<D>,
    ) -> io::Result<PostAction> {
        let stream = io.get_mut();
        server.name(self.place, requests.own_token());
        let mut action = PostAction::Reregister;
        for _ in 0..STEPS_AT_ONCE {
            match self.step(stream, server.is_ending()).unwrap_or(Step::Left) {
                Step::Heard => server.hear(self.place),
                Step::Ignored => {}
                Step::Waits => {
                    action = PostAction::Continue;
                    break;
                }
                Step::Left => {
                    server.leave(self.place);
                    action = PostAction::Remove;
                    break;
                }
            }
        }
        server.owe(self.place, self.owes());
        if let Some(listener) = server.unlistened() {
            if requests.enable(&listener).is_ok() {
                server.listens();
            }
        }
        Ok(action)
    }
}
