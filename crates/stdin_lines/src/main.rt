//! Reads lines from standard input beside a timer and a listener: what has a descriptor is a source, whatever it is. It prints each
//! line, and ends when the input has; as `printf 'one\ntwo\n' | stdin_lines`. With the word `own` it reads a pipe of its own.
//!
//! Epoll takes a pipe, a terminal and a socket, and refuses a plain file, which is always ready: then it says so, and fails.
#![tactic(auto)]

use anyhow::Result;
use calloop::{
    Callback, Dispatcher, EventDispatcher, Generic, Here, Hold, Instant, Interest, MioPoller, Mode,
    NoIoDrop, On, OneOf, PostAction, Readiness, Requests, Sources, SystemClock, SystemLoop, There,
    TimeoutAction, Timer,
};
use mio::net::TcpListener;
use std::alloc::{AllocGlobal, Global};
use std::env;
use std::io::{self, Read, Write};
use std::net::{Net, SocketAddr};
use std::os::fd::AsRawFd;
use std::process::ExitCode;
use std::rt::{Runtime, Stdin};
use std::sync::Wait;
use std::time::{Clock, Duration};

/// The poller.
type Machine<R> = MioPoller<SystemClock<R>>;

/// What the loop holds: an input, a listener and a timer, each with its callback.
type Held<I> = Sources<
    OneOf<
        Dispatcher<Generic<I>, ReadsLines>,
        OneOf<Dispatcher<Generic<TcpListener>, Accepts>, Dispatcher<Timer, Ticks>>,
    >,
    Seen,
>;

/// What each dispatch lends to the callbacks.
#[derive(Drop)]
struct Seen {
    /// Lines that were read and aren't printed yet.
    text: Vec<u8>,
    lines: usize,
    guests: usize,
    ticks: usize,
    is_over: bool,
}

/// Reads what is there, once in a turn: so it needs no descriptor that is non-blocking.
#[derive(Drop)]
struct ReadsLines;

impl<I: Read + AsRawFd, D: Drop> Callback<
    Readiness,
    NoIoDrop<I>,
    io::Result<PostAction>,
    Seen,
    Requests<D>,
> for ReadsLines {
    fn call(
        &mut self,
        _readiness: Readiness,
        input: &mut NoIoDrop<I>,
        seen: &mut Seen,
        _requests: &mut Requests<D>,
    ) -> io::Result<PostAction> {
        let mut bytes = [0u8; 1024];
        let read = input.get_mut().read(&mut bytes)?;
        if read == 0 {
            seen.is_over = true;
            return Ok(PostAction::Remove);
        }
        for byte in &bytes[..read] {
            seen.text.push(*byte)?;
            if *byte == b'\n' {
                seen.lines = seen.lines.saturating_add(1);
            }
        }
        Ok(PostAction::Continue)
    }
}

/// Lets somebody in, and closes at once.
#[derive(Drop)]
struct Accepts;

impl<D: Drop> Callback<Readiness, NoIoDrop<TcpListener>, io::Result<PostAction>, Seen, Requests<D>>
    for Accepts {
    fn call(
        &mut self,
        _readiness: Readiness,
        listener: &mut NoIoDrop<TcpListener>,
        seen: &mut Seen,
        _requests: &mut Requests<D>,
    ) -> io::Result<PostAction> {
        if listener.accept().is_ok() {
            seen.guests = seen.guests.saturating_add(1);
        }
        Ok(PostAction::Continue)
    }
}

/// Counts.
#[derive(Drop)]
struct Ticks;

impl On<Instant, Seen, TimeoutAction> for Ticks {
    fn on(&mut self, _deadline: Instant, seen: &mut Seen) -> TimeoutAction {
        seen.ticks = seen.ticks.saturating_add(1);
        TimeoutAction::ToDuration(Duration::from_millis(20))
    }
}

// A plain file is refused by epoll.
fn said_clearly(error: calloop::Error) -> anyhow::Error {
    match error {
        calloop::Error::IoError(cause) if cause.kind() == io::ErrorKind::PermissionDenied => {
            anyhow::anyhow!(
                "a plain file can't be waited for; pipe it, as `cat FILE | stdin_lines`"
            )
        }
        error => error.into(),
    }
}

// Serves until the input is over.
fn serve<I, R>(rt: &R, alloc: Global, input: I, listener: TcpListener) -> Result<()>
where
    I: Read + AsRawFd + Drop,
    R: Runtime + Net + Clock + Wait + Clone + Drop,
{
    let mut event_loop: SystemLoop<Held<I>, R> = SystemLoop::system(rt, alloc)?;
    let timer = Timer::from_duration(event_loop.clock(), Duration::from_millis(20));
    let mut handle = event_loop.handle();
    handle.insert_source(Generic::new(listener, Interest::READ, Mode::Level), Accepts)?;
    handle.insert_source(timer, Ticks)?;
    let input = Generic::new(input, Interest::READ, Mode::Level);
    if let Err(refused) = handle.insert_source(input, ReadsLines) {
        return Err(said_clearly(refused.error));
    }
    let mut seen = Seen {
        text: Vec::new(alloc),
        lines: 0,
        guests: 0,
        ticks: 0,
        is_over: false,
    };
    for _ in rt.forever() {
        event_loop.dispatch(rt, None, &mut seen)?;
        if seen.is_over && seen.guests > 0 && seen.ticks > 0 {
            let text = String::from_utf8(seen.text)?;
            print!(rt; "{text}")?;
            println!(rt;
                "{} lines, {} guest; the timer came",
                seen.lines, seen.guests
            )?;
            return Ok(());
        }
    }
    unreachable!()
}

fn run<R>(rt: &R, alloc: Global, input: Stdin) -> Result<()>
where
    R: Runtime + AllocGlobal + Net + Clock + Wait + Clone + Drop,
{
    let listener = TcpListener::bind(rt, "127.0.0.1:0".parse::<SocketAddr>()?)?;
    let _guest = mio::net::TcpStream::connect(rt, listener.local_addr()?)?;
    let words: Vec<String> = env::args(rt)?.skip(1).collect(alloc)?;
    if words.is_empty() {
        return serve(rt, alloc, input, listener);
    }
    let (reader, mut writer) = io::pipe(rt)?;
    writer.write_all(b"one\ntwo\n")?;
    drop(writer);
    serve(rt, alloc, reader, listener)
}

fn main(rt: HostRuntime) -> ExitCode {
    match run(&rt, rt.alloc(), rt.stdin()) {
        Ok(()) => ExitCode::SUCCESS,
        Err(error) => {
            let _unsaid = eprintln!(rt; "stdin_lines: {error}");
            ExitCode::FAILURE
        }
    }
}
