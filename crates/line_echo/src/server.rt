//! Who is served: clients are let in by the listener's callback, and those that are silent for long leave by the timer's.
use crate::echo::Echo;
use calloop::{
    Callback, Choice, Clock, Generic, Here, Instant, Interest, Mode, NoIoDrop, PostAction,
    Readiness, RegistrationToken, Requests, SystemClock, There, TimeoutAction,
};
use mio::net::{TcpListener, TcpStream};
use slab::Slab;
use std::alloc::Global;
use std::io;
use std::sync::Wait;
use std::time::{Clock as MachineClock, Duration};

/// A client that was let in.
#[derive(Drop)]
struct Client {
    /// What names its socket in the loop, once that had a turn.
    token: Option<RegistrationToken>,
    /// When it was heard last.
    heard: Instant,
}

/// What each dispatch lends to the callbacks.
#[derive(Drop)]
pub struct Server<R: MachineClock + Clone + Drop> {
    clients: Slab<Client>,
    clock: SystemClock<R>,
    patience: Duration,
    /// How many clients have left, or were dropped.
    pub left: usize,
    // Why no client can be let in now, as for want of descriptors, and how many had left then.
    refusal: Option<(io::Error, usize)>,
}

impl<R: MachineClock + Clone + Drop> Server<R> {
    /// Nobody is there yet. A client that is silent for longer than `patience` is dropped.
    pub fn new(clock: SystemClock<R>, patience: Duration, alloc: Global) -> Server<R> {
        Server {
            clients: Slab::new(alloc),
            clock,
            patience,
            left: 0,
            refusal: None,
        }
    }

    /// Why no client can be let in now: then the listener is disabled.
    pub fn refusal(&self) -> Option<&io::Error> {
        match &self.refusal {
            Some((cause, _left)) => Some(cause),
            None => None,
        }
    }

    /// Whether the listener is to be enabled again: a client left since it was disabled, or none is there.
    pub fn can_listen_again(&mut self) -> bool {
        let Some((_cause, left)) = &self.refusal else {
            return false;
        };
        if *left == self.left && !self.clients.is_empty() {
            return false;
        }
        self.refusal = None;
        true
    }

    // A client comes. Returns its place, if there is memory for it.
    fn enter(&mut self) -> Option<usize> {
        let client = Client {
            token: None,
            heard: self.clock.now(),
        };
        self.clients.insert(client).ok()
    }

    /// A client was heard, in the turn of its socket.
    pub fn hear(&mut self, place: usize, token: Option<RegistrationToken>) {
        let now = self.clock.now();
        if let Some(client) = self.clients.get_mut(place) {
            client.heard = now;
            client.token = token;
        }
    }

    /// A client is gone: what named its socket.
    pub fn leave(&mut self, place: usize) -> Option<RegistrationToken> {
        let client = self.clients.try_remove(place)?;
        self.left = self.left.saturating_add(1);
        client.token
    }

    // A client that was silent for too long.
    fn silent(&self) -> Option<usize> {
        let now = self.clock.now();
        for (place, client) in self.clients.iter() {
            if client.heard.after(self.patience) <= now {
                return Some(place);
            }
        }
        None
    }
}

/// Lets clients in, with memory from here.
#[derive(Drop)]
pub struct Accepts {
    pub alloc: Global,
}

impl<D, R> Callback<
    Readiness,
    NoIoDrop<TcpListener>,
    io::Result<PostAction>,
    Server<R>,
    Requests<D>,
> for Accepts
where
    D: Choice<Generic<TcpStream>, Echo, There<Here>> + Drop,
    R: Wait + MachineClock + Clone + Drop,
{
    /// Lets one client in. `Mode::Level` tells of others that wait. What can't be had closes it. If the machine has no descriptor left, the
    /// client waits on, and the listener is disabled, since it would be told of it in each wait.
    fn call(
        &mut self,
        _readiness: Readiness,
        io: &mut NoIoDrop<TcpListener>,
        server: &mut Server<R>,
        requests: &mut Requests<D>,
    ) -> io::Result<PostAction> {
        let stream = match io.accept() {
            Ok((stream, _address)) => stream,
            Err(cause) if is_of_one_client(cause.kind()) => return Ok(PostAction::Continue),
            Err(cause) => {
                server.refusal = Some((cause, server.left));
                return Ok(PostAction::Disable);
            }
        };
        let Some(place) = server.enter() else {
            return Ok(PostAction::Continue);
        };
        let socket = Generic::new(stream, Interest::BOTH, Mode::Edge);
        let echo = Echo::new(place, self.alloc);
        if requests.insert_source(socket, echo).is_err() {
            let _token = server.leave(place);
        }
        Ok(PostAction::Continue)
    }
}

// Whether a client that can't be let in is gone, so that others can be.
fn is_of_one_client(kind: io::ErrorKind) -> bool {
    matches!(
        kind,
        io::ErrorKind::WouldBlock | io::ErrorKind::Interrupted | io::ErrorKind::ConnectionAborted
    )
}

/// Drops clients that are silent for too long.
#[derive(Drop)]
pub struct Sweeps {
    /// How long it waits from one look to the next.
    pub each: Duration,
}

impl<D, R> Callback<Instant, (), TimeoutAction, Server<R>, Requests<D>> for Sweeps
where
    D: Drop,
    R: MachineClock + Clone + Drop,
{
    /// Drops one client. If one was dropped, it looks again at once.
    fn call(
        &mut self,
        _deadline: Instant,
        _: &mut (),
        server: &mut Server<R>,
        requests: &mut Requests<D>,
    ) -> TimeoutAction {
        let Some(place) = server.silent() else {
            return TimeoutAction::ToDuration(self.each);
        };
        if let Some(token) = server.leave(place) {
            let _ticket = requests.remove(token);
        }
        TimeoutAction::ToDuration(Duration::ZERO)
    }
}
