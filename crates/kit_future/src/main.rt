//! A future of the kit's crate `futures` beside a loop: a thread sends a number by the kit's `oneshot`, and the loop's callback says it.
#![tactic(auto)]

use bell::{Resting, Says, new_bell, say};
use calloop::{
    Dispatcher, Error, Generic, Interest, MioPoller, Mode, Result, Sources, SystemClock, SystemLoop,
};
use futures::channel::oneshot::{Receiver, channel};
use mio::net::UnixStream;
use std::alloc::{AllocGlobal, Global};
use std::net::Net;
use std::process::ExitCode;
use std::random::RandomSource;
use std::sync::Wait;
use std::thread::{Threads, spawn};
use std::time::{Clock, Duration};

mod bell;

type Held<'a, R> = Sources<Dispatcher<Generic<UnixStream>, Says<'a, Receiver<u32>, R>>, String>;

// Runs a loop with this future until it is done, at most ten times ten seconds.
fn dispatches<'a, R>(
    rt: &R,
    alloc: Global,
    says: Says<'a, Receiver<u32>, R>,
    heard: UnixStream,
    said: &mut String,
) -> Result<()>
where
    R: Net + Clock + Wait + Clone + Drop,
{
    let mut event_loop: SystemLoop<Held<'a, R>, R> = SystemLoop::system(rt, alloc)?;
    let socket = Generic::new(heard, Interest::READ, Mode::Level);
    event_loop.handle().insert_source(socket, says)?;
    for _ in 0..10u32 {
        if !said.is_empty() {
            break;
        }
        event_loop.dispatch(rt, Some(Duration::from_secs(10)), said)?;
    }
    Ok(())
}

// What is said of a number that a thread sends.
fn run<R>(rt: &R, alloc: Global) -> Result<String>
where
    R: Net
        + Clock
        + RandomSource
        + AllocGlobal
        + Threads
        + Wait
        + Clone
        + Drop
        + Send
        + Sync
        + 'static,
{
    let mut said = String::new(alloc);
    let (solo, heard) = new_bell(rt)?;
    let (sender, receiver) = channel(alloc)?;
    match Resting::begin(rt, &solo, receiver) {
        Ok(output) => say(&mut said, output)?,
        Err(resting) => {
            let says = Says {
                rt: rt.clone()?,
                solo: &solo,
                resting: Some(resting),
            };
            let child = spawn(rt, move || sender.send(42)).map_err(|_| Error::OutOfMemory)?;
            let ran = dispatches(rt, alloc, says, heard, &mut said);
            let _sent = child.join(rt);
            ran?;
        }
    }
    Ok(said)
}

fn main(rt: HostRuntime) -> ExitCode {
    match run(&rt, rt.alloc()) {
        Ok(said) if print!(rt; "{said}").is_ok() => ExitCode::SUCCESS,
        _ => ExitCode::FAILURE,
    }
}
