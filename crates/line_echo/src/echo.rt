//! What a client sends is given back, line by line.
use crate::server::Server;
use calloop::{Callback, NoIoDrop, PostAction, Readiness, Requests};
use mio::net::TcpStream;
use std::alloc::Global;
use std::io;
use std::io::{Read, Write};
use std::time::Clock as MachineClock;

/// How many bytes a line may have. A client that sends a longer one is dropped.
const LONGEST_LINE: usize = 4096;

/// How often a client is read in one turn, so that others have theirs.
const READS_AT_ONCE: u32 = 16;

/// Gives back each line, once all of it was read.
#[derive(Drop)]
pub struct Echo {
    place: usize,
    line: Vec<u8>,
    // What was read and isn't given back yet, since the client doesn't read.
    pending: Vec<u8>,
}

/// What is next for a client.
#[derive(Clone, Copy, Debug, PartialEq, Eq)]
enum Next {
    /// It is to be read again.
    Read,
    /// The machine tells when it can be read or written again.
    Wait,
    /// It is gone.
    Leave,
}

impl Echo {
    /// For the client in this place, of which nothing was read yet.
    pub fn new(place: usize, alloc: Global) -> Echo {
        Echo {
            place,
            line: Vec::new(alloc),
            pending: Vec::new(alloc),
        }
    }

    // Reads up to 1,024 bytes, and gives back the lines that end there.
    fn read(&mut self, stream: &mut TcpStream) -> io::Result<Next> {
        if !self.give_back(stream)? {
            return Ok(Next::Wait);
        }
        let mut bytes = [0u8; 1024];
        match stream.read(&mut bytes) {
            Ok(0) => Ok(Next::Leave),
            Ok(read) => {
                self.take(&bytes[..read])?;
                Ok(if self.line.len() > LONGEST_LINE {
                    Next::Leave
                } else {
                    Next::Read
                })
            }
            Err(cause) => waits(cause),
        }
    }

    // Puts the lines that end in these bytes behind what is pending.
    fn take(&mut self, bytes: &[u8]) -> io::Result<()> {
        for byte in bytes {
            self.line.push(*byte)?;
            if *byte == b'\n' {
                self.pending.append(&mut self.line)?;
            }
        }
        Ok(())
    }

    // Writes what is pending: whether all of it was written.
    fn give_back(&mut self, stream: &mut TcpStream) -> io::Result<bool> {
        if self.pending.is_empty() {
            return Ok(true);
        }
        match stream.write(&self.pending) {
            Ok(written) => {
                self.pending.drain(..written);
                Ok(self.pending.is_empty())
            }
            Err(cause) => {
                waits(cause)?;
                Ok(false)
            }
        }
    }
}

// A client that isn't ready is told of again; any other refusal is handed on.
fn waits(cause: io::Error) -> io::Result<Next> {
    if cause.kind() == io::ErrorKind::WouldBlock {
        Ok(Next::Wait)
    } else {
        Err(cause)
    }
}

impl<D, R> Callback<Readiness, NoIoDrop<TcpStream>, io::Result<PostAction>, Server<R>, Requests<D>>
    for Echo
where
    D: Drop,
    R: MachineClock + Clone + Drop,
{
    /// Reads what is there, up to so often. What is left then is told of anew, by a registration anew.
    fn call(
        &mut self,
        _readiness: Readiness,
        io: &mut NoIoDrop<TcpStream>,
        server: &mut Server<R>,
        requests: &mut Requests<D>,
    ) -> io::Result<PostAction> {
        let stream = io.get_mut();
        server.hear(self.place, requests.own_token());
        for _ in 0..READS_AT_ONCE {
            match self.read(stream).unwrap_or(Next::Leave) {
                Next::Read => {}
                Next::Wait => return Ok(PostAction::Continue),
                Next::Leave => {
                    let _token = server.leave(self.place);
                    return Ok(PostAction::Remove);
                }
            }
        }
        Ok(PostAction::Reregister)
    }
}
