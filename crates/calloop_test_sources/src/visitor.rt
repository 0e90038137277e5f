//! Callbacks for sockets: those of a script, and those of the OS.
use calloop::generic::NoIoDrop;
use calloop::{Asking, Callback, On, PostAction, Readiness};
use calloop_mio::MioIo;
use calloop_script::ScriptIo;
use mio::net::{TcpListener, TcpStream};
use std::alloc::Global;
use std::io;
use std::io::Read;

/// A callback that reports its number, and returns its end; without one it fails.
#[derive(Drop)]
pub struct Visitor {
    pub number: u32,
    pub ends: Option<PostAction>,
}

impl On<Readiness, Vec<u32>, io::Result<PostAction>> for Visitor {
    fn on(&mut self, _readiness: Readiness, said: &mut Vec<u32>) -> io::Result<PostAction> {
        let _failed = said.push(self.number);
        match self.ends {
            Some(action) => Ok(action),
            None => Err(io::Error::other("no more visits")),
        }
    }
}

/// A callback that reports each byte that it reads, up to eight in a call; that a stream has ended; that it can be written; that
/// somebody connected, or that accepting failed.
#[derive(Drop)]
pub struct Reader {
    /// Who connected.
    pub guests: Vec<TcpStream>,
}

pub const END: u32 = 1000;

pub const CONNECTED: u32 = 1001;

pub const REFUSED: u32 = 1002;

pub const WRITABLE: u32 = 1003;

impl Reader {
    /// Makes one to which nobody connected yet.
    pub fn new(alloc: Global) -> Reader {
        Reader {
            guests: Vec::new(alloc),
        }
    }

    // Accepts a connection.
    fn accept(&mut self, listener: &TcpListener, said: &mut Vec<u32>) -> io::Result<PostAction> {
        match listener.accept() {
            Ok((guest, _)) => {
                self.guests.push(guest)?;
                said.push(CONNECTED)?;
            }
            Err(cause) if cause.kind() == io::ErrorKind::WouldBlock => {}
            Err(_) => said.push(REFUSED)?,
        }
        Ok(PostAction::Continue)
    }
}

// Reads; the source leaves if its stream has ended.
fn read<S: Read>(stream: &mut S, said: &mut Vec<u32>) -> io::Result<PostAction> {
    let mut bytes = [0u8; 8];
    let read = stream.read(&mut bytes)?;
    if read == 0 {
        said.push(END)?;
        return Ok(PostAction::Remove);
    }
    for byte in &bytes[..read] {
        said.push(u32::from(*byte))?;
    }
    Ok(PostAction::Continue)
}

impl<Q: Asking> Callback<Readiness, NoIoDrop<MioIo>, io::Result<PostAction>, Vec<u32>, Q>
    for Reader {
    ghost may = { λ _ _ _ _ _ _ _ _ _ _. Unit {0} };

    fn call(
        &mut self,
        readiness: Readiness,
        io: &mut NoIoDrop<MioIo>,
        said: &mut Vec<u32>,
        _requests: &mut Q,
    ) -> io::Result<PostAction> {
        if readiness.writable && !readiness.readable {
            said.push(WRITABLE)?;
            return Ok(PostAction::Continue);
        }
        match io.get_mut() {
            MioIo::UnixStream(stream) => read(stream, said),
            MioIo::TcpStream(stream) => read(stream, said),
            MioIo::TcpListener(listener) => self.accept(listener, said),
            MioIo::UdpSocket(_) | MioIo::UnixListener(_) => Ok(PostAction::Continue),
        }
    }
}
