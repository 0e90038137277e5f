//! Lets clients in.
use crate::client::Serves;
use crate::connection::Connection;
use crate::server::Server;
use calloop::{
    Callback, Choice, Generic, Here, Interest, Mode, NoIoDrop, PostAction, Readiness, Requests,
    There,
};
use mio::net::{TcpListener, TcpStream};
use std::alloc::Global;
use std::io;
use std::time::Clock as MachineClock;

/// Lets clients in, with memory from here.
#[derive(Drop)]
pub struct Accepts {
    pub alloc: Global,
}

impl<D, R> Callback<
    Readiness,
    NoIoDrop<TcpListener>,
    io::Result<PostAction>,
    Server<R>,
    Requests<D>,
> for Accepts
where
    D: Choice<Generic<TcpStream>, Serves, There<Here>> + Drop,
    R: MachineClock + Clone + Drop,
{
    /// Lets one client in. `Mode::Level` tells of others that wait. If there is no memory for it, it is closed. If the machine has no
    /// descriptor left, the client waits on, and the listener is disabled, since it would be told of it in each wait.
    fn call(
        &mut self,
        _readiness: Readiness,
        io: &mut NoIoDrop<TcpListener>,
        server: &mut Server<R>,
        requests: &mut Requests<D>,
    ) -> io::Result<PostAction> {
        let stream = match io.accept() {
            Ok((stream, _address)) => stream,
            Err(cause) if is_of_one_client(cause.kind()) => return Ok(PostAction::Continue),
            Err(cause) => {
                server.refuse(cause);
                return Ok(PostAction::Disable);
            }
        };
        let is_served = !server.is_full();
        let Ok(connection) = self.connection(is_served) else {
            return Ok(PostAction::Continue);
        };
        let Some(place) = server.enter(is_served) else {
            return Ok(PostAction::Continue);
        };
        let socket = Generic::new(stream, Interest::BOTH, Mode::Edge);
        if requests
            .insert_source(socket, Serves::new(place, connection))
            .is_err()
        {
            let _token = server.leave(place);
        }
        Ok(PostAction::Continue)
    }
}

impl Accepts {
    fn connection(&self, is_served: bool) -> io::Result<Connection> {
        if is_served {
            Ok(Connection::new(self.alloc))
        } else {
            Ok(Connection::turned_away(self.alloc)?)
        }
    }
}

// True if a client that can't be let in is gone, so that others can be.
fn is_of_one_client(kind: io::ErrorKind) -> bool {
    matches!(
        kind,
        io::ErrorKind::WouldBlock | io::ErrorKind::Interrupted | io::ErrorKind::ConnectionAborted
    )
}
