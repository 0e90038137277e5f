//! The two ends of the socket, as futures.
use calloop::futures::{Context, Future, Poll};
use calloop::{Async, Result};
use mio::net::UnixStream;
use std::alloc::Global;
use std::io;
use std::sync::Wait;
use std::time::Clock;

/// What the client says.
const LINES: &[u8] = b"one\ntwo\nthree\n";

type Socket<R> = Async<UnixStream, R>;

/// What an end gives.
#[derive(Drop)]
pub enum Done {
    /// The client was gone, and all was given back.
    Served,
    /// All that came back.
    Heard(Vec<u8>),
    Failed(io::Error),
}

/// One end.
#[derive(Drop)]
pub enum End<R: Wait + Clock + Clone + Drop> {
    /// Gives back each line, with what was read behind the last one, and what is left to be given back.
    Server(Socket<R>, Vec<u8>, Vec<u8>),
    /// Says its lines, of which these are left, and hears them.
    Client(Socket<R>, Vec<u8>, Vec<u8>),
}

impl<R: Wait + Clock + Clone + Drop> End<R> {
    pub fn server(io: Socket<R>, alloc: Global) -> End<R> {
        End::Server(io, Vec::new(alloc), Vec::new(alloc))
    }

    /// Running out of memory is an error.
    pub fn client(io: Socket<R>, alloc: Global) -> Result<End<R>> {
        let mut lines = Vec::new(alloc);
        lines.extend_from_slice(LINES)?;
        Ok(End::Client(io, lines, Vec::new(alloc)))
    }

    // Writes all that is left, and then hears more: how many bytes.
    fn step(&mut self, cx: &mut Context<'_, R>) -> Poll<io::Result<usize>> {
        let written = match self {
            End::Server(io, _read, left) => io.poll_write_all(cx, left),
            End::Client(io, left, _heard) => io.poll_write_all(cx, left),
        };
        match written {
            Poll::Ready(Ok(())) => self.hear(cx),
            Poll::Ready(Err(cause)) => Poll::Ready(Err(cause)),
            Poll::Pending => Poll::Pending,
        }
    }

    // Reads: how many bytes, or none if the other end is gone.
    fn hear(&mut self, cx: &mut Context<'_, R>) -> Poll<io::Result<usize>> {
        match self {
            End::Server(io, read, left) => match io.poll_line(cx, read) {
                Poll::Ready(Ok(Some(line))) => Poll::Ready(give_back(line, left)),
                Poll::Ready(Ok(None)) => Poll::Ready(Ok(0)),
                Poll::Ready(Err(cause)) => Poll::Ready(Err(cause)),
                Poll::Pending => Poll::Pending,
            },
            End::Client(io, _left, heard) => io.poll_read_more(cx, heard),
        }
    }

    // What it gives, once it is done.
    fn outcome(&mut self, moved: usize) -> Option<Done> {
        match self {
            End::Server(_, _, _) if moved == 0 => Some(Done::Served),
            End::Client(_, _, heard) if heard.len() >= LINES.len() => {
                let alloc = *heard.allocator();
                Some(Done::Heard(std::mem::replace(heard, Vec::new(alloc))))
            }
            _ => None,
        }
    }
}

// Leaves this line to be given back, with its line feed: how many bytes.
fn give_back(mut line: Vec<u8>, left: &mut Vec<u8>) -> io::Result<usize> {
    line.push(b'\n')?;
    *left = line;
    Ok(left.len())
}

impl<R: Wait + Clock + Clone + Drop> Future<R> for End<R> {
    type Output = Done;

    // 64 steps at most; then it asks for another poll.
    fn poll(&mut self, cx: &mut Context<'_, R>) -> Poll<Done> {
        for _ in 0..64u32 {
            let moved = match self.step(cx) {
                Poll::Ready(Ok(moved)) => moved,
                Poll::Ready(Err(cause)) => return Poll::Ready(Done::Failed(cause)),
                Poll::Pending => return Poll::Pending,
            };
            if let Some(done) = self.outcome(moved) {
                return Poll::Ready(done);
            }
        }
        cx.waker().wake();
        Poll::Pending
    }
}
