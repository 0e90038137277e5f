//! A server that gives back what it reads, and a client, as two futures of one loop over the two ends of a socket of the machine. The loop
//! runs for a bounded time.
#![tactic(auto)]

use calloop::futures::{Executor, Scheduler, make_executor};
use calloop::{
    Adapter, Choice, Dispatcher, Error, EventDispatcher, Here, Keep, MioPoller, On, OneOf,
    Requests, Result, Sources, SystemClock, SystemLoop, There,
};
use ends::{Done, End};
use mio::net::UnixStream;
use std::alloc::Global;
use std::io::Write;
use std::net::Net;
use std::process::ExitCode;
use std::sync::Wait;
use std::time::{Clock, Duration};

mod ends;

/// What the futures gave.
#[derive(Drop)]
struct Session {
    /// What the client heard, once it heard all.
    heard: Option<Vec<u8>>,
    /// The server is done.
    is_served: bool,
}

/// Keeps what a future gave.
#[derive(Drop)]
struct Keeps;

impl On<Done, Session, ()> for Keeps {
    fn on(&mut self, done: Done, session: &mut Session) {
        match done {
            Done::Served => session.is_served = true,
            Done::Heard(heard) => session.heard = Some(heard),
            Done::Failed(_) => {}
        }
    }
}

type Machine<R> = MioPoller<SystemClock<R>>;

type Held<R> = Sources<
    OneOf<Adapter<UnixStream, R>, Dispatcher<Executor<End<R>, R>, Keeps>>,
    Session,
>;

fn schedule<R>(scheduler: &Scheduler<End<R>, R>, end: End<R>) -> Result<()>
where
    R: Wait + Clock + Clone + Drop,
{
    match scheduler.schedule(end) {
        Ok(_receipt) => Ok(()),
        Err(_) => Err(Error::OutOfMemory),
    }
}

// What the client heard, if both futures end within ten seconds. The client's end is closed by its drop, which ends the server. The loop is over any
// choice of sources that holds those of the session: what a call does to a loop whose types are written out costs the prover far more.
fn talk<D, R>(rt: &R, alloc: Global) -> Result<Option<Vec<u8>>>
where
    D: EventDispatcher<Machine<R>, SystemClock<R>, R, Data = Session, Idle = ()>,
    D: Keep<Adapter<UnixStream, R>, Machine<R>, SystemClock<R>, R, Session, Requests<D>, Here>,
    D: Choice<Executor<End<R>, R>, Keeps, There<Here>>,
    R: Wait + Net + Clock + Clone + Drop,
{
    let mut event_loop: SystemLoop<D, R> = SystemLoop::system(rt, alloc)?;
    let (near, far) = UnixStream::pair(rt)?;
    let near = event_loop.handle().adapt_io(rt, alloc, near)?;
    let far = event_loop.handle().adapt_io(rt, alloc, far)?;
    let (executor, scheduler) = make_executor(rt, alloc)?;
    let held = D::hold(Dispatcher::new(executor, Keeps));
    event_loop.handle().register_dispatcher(held)?;
    schedule(&scheduler, End::server(near, alloc))?;
    schedule(&scheduler, End::client(far, alloc)?)?;
    let mut session = Session {
        heard: None,
        is_served: false,
    };
    for _ in 0..1000u32 {
        if session.is_served {
            break;
        }
        event_loop.dispatch(rt, Some(Duration::from_millis(10)), &mut session)?;
    }
    Ok(session.heard.take())
}

fn main(rt: HostRuntime) -> ExitCode {
    let Ok(Some(heard)) = talk::<Held<HostRuntime>, HostRuntime>(&rt, rt.alloc()) else {
        return ExitCode::FAILURE;
    };
    match rt.stdout().write_all(&heard) {
        Ok(()) => ExitCode::SUCCESS,
        Err(_) => ExitCode::FAILURE,
    }
}
