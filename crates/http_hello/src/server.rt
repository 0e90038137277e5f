//! Who is served: the clients in their places, whether more are let in, and whether the server is to end.
use calloop::{Clock, Instant, LoopSignal, RegistrationToken, SystemClock};
use slab::Slab;
use std::alloc::Global;
use std::io;
use std::time::{Clock as MachineClock, Duration};

/// What a server allows.
#[derive(Clone, Copy, Debug)]
pub struct Limits {
    /// How many clients are served at once. One more is turned away.
    pub clients: usize,
    /// For how long a client may send nothing, and for how long answers go out after a stop.
    pub patience: Duration,
}

/// A client that was let in.
#[derive(Drop)]
struct Client {
    // What names its socket in the loop, once that had a turn.
    token: Option<RegistrationToken>,
    // When it sent something last, or came.
    heard: Instant,
    // Answers of it aren't sent yet, or it hasn't closed yet behind the last one.
    is_owed: bool,
    // It counts among those that are served, and wasn't turned away.
    is_served: bool,
}

/// Why no client can be let in.
#[derive(Drop)]
struct Refusal {
    cause: io::Error,
    is_said: bool,
    // A client left since, which may have helped.
    is_eased: bool,
}

/// What each dispatch lends to the callbacks.
#[derive(Drop)]
pub struct Server<R: MachineClock + Clone + Drop> {
    clients: Slab<Client>,
    served: usize,
    limits: Limits,
    clock: SystemClock<R>,
    signal: LoopSignal,
    // Names the listener in the loop.
    listener: Option<RegistrationToken>,
    // Why no client can be let in, as for want of descriptors. Then the listener is disabled.
    refusal: Option<Refusal>,
    // When the server ends, once it was asked to.
    end: Option<Instant>,
}

impl<R: MachineClock + Clone + Drop> Server<R> {
    /// A server without clients.
    pub fn new(
        limits: Limits,
        clock: SystemClock<R>,
        signal: LoopSignal,
        alloc: Global,
    ) -> Server<R> {
        Server {
            clients: Slab::new(alloc),
            served: 0,
            limits,
            clock,
            signal,
            listener: None,
            refusal: None,
            end: None,
        }
    }

    /// Notes the token of the listener.
    pub fn listen(&mut self, listener: RegistrationToken) {
        self.listener = Some(listener);
    }

    /// True if as many clients are served as may be.
    pub fn is_full(&self) -> bool {
        self.served >= self.limits.clients
    }

    /// Lets a client in, to be served or turned away. Returns its place, or `None` if there is no memory for it.
    pub fn enter(&mut self, is_served: bool) -> Option<usize> {
        let client = Client {
            token: None,
            heard: self.clock.now(),
            is_owed: false,
            is_served,
        };
        let place = self.clients.insert(client).ok()?;
        if is_served {
            self.served = self.served.saturating_add(1);
        }
        Some(place)
    }

    /// Notes the token of a client's socket.
    pub fn name(&mut self, place: usize, token: Option<RegistrationToken>) {
        if let Some(client) = self.clients.get_mut(place) {
            client.token = token;
        }
    }

    /// Notes that a client sent something now.
    pub fn hear(&mut self, place: usize) {
        let now = self.clock.now();
        if let Some(client) = self.clients.get_mut(place) {
            client.heard = now;
        }
    }

    /// Notes at the end of a client's turn whether it is owed something. A server that is to end does so once no client is.
    pub fn owe(&mut self, place: usize, is_owed: bool) {
        if let Some(client) = self.clients.get_mut(place) {
            client.is_owed = is_owed;
        }
        self.end_if_done();
    }

    /// Takes a client out. Returns the token of its socket, if that had a turn.
    pub fn leave(&mut self, place: usize) -> Option<RegistrationToken> {
        let client = self.clients.try_remove(place)?;
        if client.is_served {
            self.served = self.served.saturating_sub(1);
        }
        if let Some(refusal) = &mut self.refusal {
            refusal.is_eased = true;
        }
        client.token
    }

    /// Returns a client that sent nothing for too long, if there is one.
    pub fn silent(&self) -> Option<usize> {
        let now = self.clock.now();
        for (place, client) in self.clients.iter() {
            if client.heard.after(self.limits.patience) <= now {
                return Some(place);
            }
        }
        None
    }

    /// Notes why no client can be let in. The listener is disabled then.
    pub fn refuse(&mut self, cause: io::Error) {
        self.refusal = Some(Refusal {
            cause,
            is_said: false,
            is_eased: false,
        });
    }

    /// Returns why no client can be let in, once for each such cause.
    pub fn new_refusal(&mut self) -> Option<&io::Error> {
        let refusal = self.refusal.as_mut()?;
        if refusal.is_said {
            return None;
        }
        refusal.is_said = true;
        Some(&refusal.cause)
    }

    /// Returns the listener if it is to be enabled: it is disabled, and since then a client left, or none is there.
    pub fn unlistened(&self) -> Option<RegistrationToken> {
        let refusal = self.refusal.as_ref()?;
        if self.end.is_none() && (refusal.is_eased || self.clients.is_empty()) {
            self.listener
        } else {
            None
        }
    }

    /// Notes that the listener is enabled.
    pub fn listens(&mut self) {
        self.refusal = None;
    }

    /// Has the server end as soon as no client is owed anything, and at the latest when its patience is over. Returns the listener,
    /// which is to leave the loop.
    pub fn stop(&mut self) -> Option<RegistrationToken> {
        self.end = Some(self.clock.now().after(self.limits.patience));
        self.end_if_done();
        self.listener
    }

    /// True once the server is to end.
    pub fn is_ending(&self) -> bool {
        self.end.is_some()
    }

    /// Ends the loop's run if it is to end, and either no client is owed anything or its time is over.
    pub fn end_if_done(&self) {
        let Some(end) = self.end else {
            return;
        };
        if end <= self.clock.now() || self.clients.iter().all(|(_place, client)| !client.is_owed) {
            self.signal.stop();
        }
    }
}
