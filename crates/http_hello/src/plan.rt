//! What the words of the command line ask for.
use std::num::NonZeroUsize;

/// How the program is used.
pub const USAGE: &str = "usage: http_hello [--serve] [PORT [CLIENTS]]
Serves 127.0.0.1 at PORT (0, a free one), and prints its address. At most CLIENTS (1024) are served at once; one more gets 503.
It ends at a line, or the end, of standard input. With --serve it reads none, and runs until it is killed.
With no words it serves clients of its own, prints what they got, and ends.";

/// How many clients are served at once if no word says so.
const CLIENTS: usize = 1024;

/// What the program is to do.
#[derive(Clone, Copy, Debug, PartialEq, Eq)]
pub enum Plan {
    /// It serves clients of its own, and ends.
    Show,
    /// It serves whoever comes.
    Serve(Service),
}

/// How whoever comes is served.
#[derive(Clone, Copy, Debug, PartialEq, Eq)]
pub struct Service {
    /// The port, or 0 for a free one.
    pub port: u16,
    /// How many clients are served at once.
    pub clients: usize,
    /// It ends at a line, or the end, of standard input.
    pub ends: bool,
}

/// Reads the words, without the program's name. `None` if they ask for nothing.
pub fn read(words: &[String]) -> Option<Plan> {
    match words {
        [] => Some(Plan::Show),
        [first, rest @ ..] if first.as_str() == "--serve" => read_service(rest, false),
        _ => read_service(words, true),
    }
}

fn read_service(words: &[String], ends: bool) -> Option<Plan> {
    let (port, clients) = match words {
        [] => (0, CLIENTS),
        [port] => (port.parse().ok()?, CLIENTS),
        [port, clients] => (
            port.parse().ok()?,
            clients.parse::<NonZeroUsize>().ok()?.get(),
        ),
        _ => return None,
    };
    Some(Plan::Serve(Service {
        port,
        clients,
        ends,
    }))
}
