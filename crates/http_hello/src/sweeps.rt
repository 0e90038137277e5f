//! Closes clients that send nothing.
use crate::server::Server;
use calloop::{Callback, Instant, Requests, TimeoutAction};
use std::time::{Clock as MachineClock, Duration};

/// Looks for clients that sent nothing for too long.
#[derive(Drop)]
pub struct Sweeps {
    /// How long it waits from one look to the next.
    pub each: Duration,
}

impl<D, R> Callback<Instant, (), TimeoutAction, Server<R>, Requests<D>> for Sweeps
where
    D: Drop,
    R: MachineClock + Clone + Drop,
{
    /// Closes one client. If one was closed, it looks again at once. If none is silent, the listener is enabled if there were too few
    /// descriptors.
    fn call(
        &mut self,
        _deadline: Instant,
        _: &mut (),
        server: &mut Server<R>,
        requests: &mut Requests<D>,
    ) -> TimeoutAction {
        server.end_if_done();
        if let Some(place) = server.silent() {
            if let Some(token) = server.leave(place) {
                let _ticket = requests.remove(token);
            }
            return TimeoutAction::ToDuration(Duration::ZERO);
        }
        if let Some(listener) = server.unlistened() {
            if requests.enable(&listener).is_ok() {
                server.listens();
            }
        }
        TimeoutAction::ToDuration(self.each)
    }
}
