//! An HTTP/1.1 server of one page, over the poller and the clock of the machine: `http_hello 8080`, and then `curl http://127.0.0.1:8080/`.
//! It keeps connections, answers pipelined requests in order, closes clients that are silent for 5 seconds, and turns away those that
//! are too many. `USAGE` says how it is used.
//!
//! A line of standard input stops it: it listens no more, lets the answers go out that are owed, and ends. What a connection answers to the
//! bytes that came is proved (`connection.rt`); what the sockets do is not.
#![tactic(auto)]

use accepts::Accepts;
use anyhow::Result;
use calloop::{
    Choice, Dispatcher, EventDispatcher, Generic, Here, Interest, LoopHold, MioPoller, Mode, OneOf,
    Sources, SystemClock, SystemLoop, There, Timer,
};
use client::Serves;
use mio::net::{TcpListener, TcpStream};
use plan::{Plan, Service};
use server::{Limits, Server};
use std::alloc::Global;
use std::env;
use std::io::{self, Read};
use std::net::{Net, SocketAddr, TcpStream as StdStream};
use std::os::fd::AsRawFd;
use std::process::ExitCode;
use std::rt::{Runtime, Stdin};
use std::sync::Wait;
use std::thread::{self, Threads};
use std::time::Duration;
use stops::Stops;
use sweeps::Sweeps;

mod accepts;
mod answer;
mod client;
mod connection;
mod guests;
mod plan;
mod request;
mod server;
mod stops;
mod sweeps;

/// The poller.
type Machine<R> = MioPoller<SystemClock<R>>;

/// What the loop holds: the listener, clients, the timer, and an input, each with its callback.
type Held<I, R> = Sources<
    OneOf<
        Dispatcher<Generic<TcpListener>, Accepts>,
        OneOf<
            Dispatcher<Generic<TcpStream>, Serves>,
            OneOf<Dispatcher<Timer, Sweeps>, Dispatcher<Generic<I>, Stops>>,
        >,
    >,
    Server<R>,
>;

type Third = There<There<Here>>;

type Fourth = There<There<There<Here>>>;

// Serves at this listener until a line of the input comes, or for good if there is no input. This alone knows of which types the loop is.
fn serve<I, R>(
    rt: &R,
    alloc: Global,
    listener: TcpListener,
    input: Option<I>,
    limits: Limits,
) -> Result<()>
where
    I: Read + AsRawFd + Drop,
    R: Runtime + Net + Wait + Clone + Drop,
{
    serve_in::<Held<I, R>, I, R>(rt, alloc, listener, input, limits)
}

fn serve_in<D, I, R>(
    rt: &R,
    alloc: Global,
    listener: TcpListener,
    input: Option<I>,
    limits: Limits,
) -> Result<()>
where
    D: EventDispatcher<Machine<R>, SystemClock<R>, R, Data = Server<R>, Idle = ()>,
    D: LoopHold<Generic<TcpListener>, Accepts, Machine<R>, SystemClock<R>, R, Here>,
    D: Choice<Generic<TcpStream>, Serves, There<Here>>,
    D: LoopHold<Timer, Sweeps, Machine<R>, SystemClock<R>, R, Third>,
    D: LoopHold<Generic<I>, Stops, Machine<R>, SystemClock<R>, R, Fourth>,
    I: Read + AsRawFd + Drop,
    R: Runtime + Net + Wait + Clone + Drop,
{
    let mut event_loop: SystemLoop<D, R> = SystemLoop::system(rt, alloc)?;
    let clock = event_loop.clock().clone()?;
    let mut server = Server::new(limits, clock, event_loop.get_signal()?, alloc);
    let each = limits.patience / 4;
    let timer = Timer::from_duration(event_loop.clock(), each);
    let mut handle = event_loop.handle();
    handle.insert_source(timer, Sweeps { each })?;
    let listening = Generic::new(listener, Interest::READ, Mode::Level);
    server.listen(handle.insert_source(listening, Accepts { alloc })?);
    if let Some(input) = input {
        let input = Generic::new(input, Interest::READ, Mode::Level);
        if let Err(refused) = handle.insert_source(input, Stops) {
            return Err(said_clearly(refused.error));
        }
    }
    event_loop.run(rt, None, &mut server, |server| say_refusal(rt, server))?;
    Ok(())
}

// Says why no client can be let in, once each time.
fn say_refusal<R: Runtime>(rt: &R, server: &mut Server<R>) {
    if let Some(cause) = server.new_refusal() {
        let _unsaid = eprintln!(rt; "http_hello: {cause}; it listens again once a client leaves");
    }
}

// A plain file is refused by epoll.
fn said_clearly(error: calloop::Error) -> anyhow::Error {
    match error {
        calloop::Error::IoError(cause) if cause.kind() == io::ErrorKind::PermissionDenied => {
            anyhow::anyhow!(
                "standard input is a plain file, which can't be waited for; see --serve"
            )
        }
        error => error.into(),
    }
}

// Serves clients of its own, and prints what they got.
fn show<R>(rt: &R, alloc: Global) -> Result<()>
where
    R: Runtime + Threads + Net<Stream = StdStream> + Wait + Clone + Drop,
{
    let listener = TcpListener::bind(rt, "127.0.0.1:0".parse::<SocketAddr>()?)?;
    let address = listener.local_addr()?;
    let (input, until) = io::pipe(rt)?;
    let guests = [
        StdStream::connect(rt, address)?,
        StdStream::connect(rt, address)?,
        StdStream::connect(rt, address)?,
        StdStream::connect(rt, address)?,
    ];
    let guests = thread::spawn(rt, move || {
        let noted = guests::visit(alloc, guests);
        // The end of the input stops the server.
        drop(until);
        noted
    })?;
    let limits = Limits {
        clients: 3,
        patience: Duration::from_secs(2),
    };
    let served = serve(rt, alloc, listener, Some(input), limits);
    let noted = guests.join(rt);
    served?;
    let noted = noted?;
    print!(rt; "{noted}")?;
    println!(rt; "stopped")?;
    Ok(())
}

// Serves whoever comes.
fn serve_all<R>(rt: &R, alloc: Global, input: Stdin, service: Service) -> Result<()>
where
    R: Runtime + Net + Wait + Clone + Drop,
{
    let address = SocketAddr::from(([127, 0, 0, 1], service.port));
    let listener = TcpListener::bind(rt, address)?;
    let address = listener.local_addr()?;
    println!(rt; "http://{address}/")?;
    let limits = Limits {
        clients: service.clients,
        patience: Duration::from_secs(5),
    };
    let input = if service.ends { Some(input) } else { None };
    serve(rt, alloc, listener, input, limits)
}

fn run<R>(rt: &R, alloc: Global, input: Stdin) -> Result<ExitCode>
where
    R: Runtime + AllocGlobal + Threads + Net<Stream = StdStream> + Wait + Clone + Drop,
{
    let words: Vec<String> = env::args(rt)?.skip(1).collect(alloc)?;
    match plan::read(&words) {
        Some(Plan::Show) => show(rt, alloc)?,
        Some(Plan::Serve(service)) => serve_all(rt, alloc, input, service)?,
        None => {
            eprintln!(rt; "{}", plan::USAGE)?;
            return Ok(ExitCode::from(2));
        }
    }
    Ok(ExitCode::SUCCESS)
}

fn main(rt: HostRuntime) -> ExitCode {
    match run(&rt, rt.alloc(), rt.stdin()) {
        Ok(code) => code,
        Err(error) => {
            let _unsaid = eprintln!(rt; "http_hello: {error}");
            ExitCode::FAILURE
        }
    }
}
