//! Stops the server at a line, or the end, of an input.
use crate::server::Server;
use calloop::{Callback, NoIoDrop, PostAction, Readiness, Requests};
use std::io;
use std::io::Read;
use std::os::fd::AsRawFd;
use std::time::Clock as MachineClock;

/// Waits for a line of the input. What it says doesn't matter.
#[derive(Drop)]
pub struct Stops;

impl<I, D, R> Callback<Readiness, NoIoDrop<I>, io::Result<PostAction>, Server<R>, Requests<D>>
    for Stops
where
    I: Read + AsRawFd,
    D: Drop,
    R: MachineClock + Clone + Drop,
{
    /// Reads what is there, once in a turn: so the descriptor needn't be non-blocking. An error counts as the end.
    fn call(
        &mut self,
        _readiness: Readiness,
        input: &mut NoIoDrop<I>,
        server: &mut Server<R>,
        requests: &mut Requests<D>,
    ) -> io::Result<PostAction> {
        let mut bytes = [0u8; 256];
        let read = input.get_mut().read(&mut bytes).unwrap_or(0);
        if read > 0 && !bytes[..read].contains(&b'\n') {
            return Ok(PostAction::Continue);
        }
        if let Some(listener) = server.stop() {
            let _ticket = requests.remove(listener);
        }
        Ok(PostAction::Remove)
    }
}
