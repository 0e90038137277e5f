//! A server that gives back each line it reads, over the poller and the clock of the machine: it listens, lets clients in as they come,
//! and drops those that are silent for long.
//!
//! With an address, as 127.0.0.1:7000, it serves for good, and looks for silent clients every 15 seconds, or every `n` ms
//! with a second word `n`. Without words it serves two clients of its own on a free port: one sends lines, one is silent;
//! it prints what they saw, and ends. If no descriptor is left it says so once, and stops listening until a client leaves.
#![tactic(auto)]

use anyhow::Result;
use calloop::{
    Choice, Dispatcher, EventDispatcher, Generic, Here, Interest, LoopHold, MioPoller, Mode, OneOf,
    Sources, SystemClock, SystemLoop, There, Timer,
};
use echo::Echo;
use mio::net::{TcpListener, TcpStream};
use server::{Accepts, Server, Sweeps};
use std::alloc::Global;
use std::net::{Net, SocketAddr, TcpStream as StdStream};
use std::process::ExitCode;
use std::rt::Runtime;
use std::sync::Wait;
use std::thread::{self, Threads};
use std::time::{Clock as MachineClock, Duration};
use std::{env, io};

mod client;
mod echo;
mod server;

/// The poller.
type Machine<R> = MioPoller<SystemClock<R>>;

/// What the loop holds: the listener, clients and the timer, each with its callback.
type Held<R> = Sources<
    OneOf<
        Dispatcher<Generic<TcpListener>, Accepts>,
        OneOf<Dispatcher<Generic<TcpStream>, Echo>, Dispatcher<Timer, Sweeps>>,
    >,
    Server<R>,
>;

type Third = There<There<Here>>;

/// How a server is to run.
#[derive(Clone, Copy)]
struct Plan {
    /// For how long a client may be silent.
    patience: Duration,
    /// How often it looks for such clients.
    each: Duration,
    /// It ends once so many clients have left; if `None`, it never ends.
    clients: Option<usize>,
}

// Serves at this listener as the plan says. Only this function knows the types of which the loop is made.
fn serve<R>(rt: &R, alloc: Global, listener: TcpListener, plan: Plan) -> Result<()>
where
    R: Runtime + Net + Wait + Clone + Drop,
{
    serve_in::<Held<R>, R>(rt, alloc, listener, plan)
}

fn serve_in<D, R>(rt: &R, alloc: Global, listener: TcpListener, plan: Plan) -> Result<()>
where
    D: EventDispatcher<Machine<R>, SystemClock<R>, R, Data = Server<R>, Idle = ()>,
    D: LoopHold<Generic<TcpListener>, Accepts, Machine<R>, SystemClock<R>, R, Here>,
    D: Choice<Generic<TcpStream>, Echo, There<Here>>,
    D: LoopHold<Timer, Sweeps, Machine<R>, SystemClock<R>, R, Third>,
    R: Runtime + Net + Wait + Clone + Drop,
{
    let mut event_loop: SystemLoop<D, R> = SystemLoop::system(rt, alloc)?;
    let clock = event_loop.clock().clone()?;
    let mut server = Server::new(clock, plan.patience, alloc);
    let timer = Timer::from_duration(event_loop.clock(), plan.each);
    let listening = Generic::new(listener, Interest::READ, Mode::Level);
    let mut handle = event_loop.handle();
    let listener = handle.insert_source(listening, Accepts { alloc })?;
    handle.insert_source(timer, Sweeps { each: plan.each })?;
    for _ in rt.forever() {
        let was_listening = server.refusal().is_none();
        event_loop.dispatch(rt, None, &mut server)?;
        if was_listening {
            say_refusal(rt, server.refusal());
        }
        if server.can_listen_again() {
            event_loop.handle().enable(&listener)?;
        }
        if plan.clients.is_some_and(|clients| server.left >= clients) {
            return Ok(());
        }
    }
    unreachable!()
}

// If no client can be let in, says why.
fn say_refusal<R: Runtime>(rt: &R, refusal: Option<&io::Error>) {
    if let Some(cause) = refusal {
        let _unsaid = eprintln!(rt; "line_echo: {cause}; it listens again once a client leaves");
    }
}

// Serves two clients of its own, and prints what they saw.
fn show<R>(rt: &R, alloc: Global) -> Result<()>
where
    R: Runtime + Threads + Net<Stream = StdStream> + Wait + Clone + Drop,
{
    let listener = TcpListener::bind(rt, "127.0.0.1:0".parse::<SocketAddr>()?)?;
    let address = listener.local_addr()?;
    let one = StdStream::connect(rt, address)?;
    let other = StdStream::connect(rt, address)?;
    let one = thread::spawn(rt, move || client::hears_back(one))?;
    let other = thread::spawn(rt, move || client::is_dropped(other))?;
    let plan = Plan {
        patience: Duration::from_millis(200),
        each: Duration::from_millis(50),
        clients: Some(2),
    };
    let served = serve(rt, alloc, listener, plan);
    let is_heard = one.join(rt);
    let is_dropped = other.join(rt);
    served?;
    if is_heard? {
        println!(rt; "three lines came back")?;
    }
    if is_dropped? {
        println!(rt; "a silent client was dropped")?;
    }
    Ok(())
}

fn run<R>(rt: &R, alloc: Global) -> Result<()>
where
    R: Runtime + AllocGlobal + Threads + Net<Stream = StdStream> + Wait + Clone + Drop,
{
    let words: Vec<String> = env::args(rt)?.skip(1).collect(alloc)?;
    match words.first() {
        None => show(rt, alloc),
        Some(address) => {
            let listener = TcpListener::bind(rt, address.parse::<SocketAddr>()?)?;
            let each = match words.get(1) {
                Some(millis) => Duration::from_millis(millis.parse::<u64>()?),
                None => Duration::from_secs(15),
            };
            let plan = Plan {
                patience: Duration::from_secs(60),
                each,
                clients: None,
            };
            serve(rt, alloc, listener, plan)
        }
    }
}

fn main(rt: HostRuntime) -> ExitCode {
    match run(&rt, rt.alloc()) {
        Ok(()) => ExitCode::SUCCESS,
        Err(error) => {
            let _unsaid = eprintln!(rt; "line_echo: {error}");
            ExitCode::FAILURE
        }
    }
}
