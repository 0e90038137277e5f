//! Two loops on two threads, with a channel each way: the main one asks for squares, and the worker's answers.
#![tactic(auto)]

use calloop::channel::{Channel, Event, SendError, Sender, make_channel};
use calloop::{Dispatcher, Error, LoopSignal, On, Result, Sources, SystemLoop};
use std::alloc::Global;
use std::fmt::Write;
use std::net::Net;
use std::sync::Wait;
use std::thread::spawn;
use std::time::Clock;

/// Answers each number with its square, and stops its loop once no more can come.
#[derive(Drop)]
struct Squares<R: Wait + Drop> {
    answers: Sender<u64, R>,
    signal: LoopSignal,
}

impl<R: Wait + Drop> On<Event<u64>, Result<()>, ()> for Squares<R> {
    fn on(&mut self, event: Event<u64>, answered: &mut Result<()>) {
        match event {
            Event::Msg(_) if answered.is_err() => {}
            Event::Msg(number) => *answered = tell(&self.answers, number.saturating_mul(number)),
            Event::Closed => self.signal.stop(),
        }
    }
}

/// Says each answer, and stops its loop once no more can come.
#[derive(Drop)]
struct Report {
    signal: LoopSignal,
}

impl On<Event<u64>, String, ()> for Report {
    fn on(&mut self, event: Event<u64>, said: &mut String) {
        let _written = match event {
            Event::Msg(square) => write!(said, "{square}\n"),
            Event::Closed => {
                self.signal.stop();
                write!(said, "done\n")
            }
        };
    }
}

// Sends a number to the other loop. If that is gone, its own function says why.
fn tell<R: Wait + Drop>(sender: &Sender<u64, R>, number: u64) -> Result<()> {
    match sender.send(number) {
        Ok(_receipt) => Ok(()),
        Err(SendError::Disconnected(_)) => Ok(()),
        Err(SendError::OutOfMemory(_)) => Err(Error::OutOfMemory),
    }
}

type Answering<R> = Sources<Dispatcher<Channel<u64, R>, Squares<R>>, Result<()>>;

// The worker's loop. With its source goes the sender of answers, so their channel closes, too.
fn answer<R: Net + Clock + Wait + Clone + Drop>(
    rt: &R,
    alloc: Global,
    numbers: Channel<u64, R>,
    answers: Sender<u64, R>,
) -> Result<()> {
    let mut event_loop: SystemLoop<Answering<R>, R> = SystemLoop::system(rt, alloc)?;
    let signal = event_loop.get_signal()?;
    let squares = Squares { answers, signal };
    event_loop.handle().insert_source(numbers, squares)?;
    let mut answered = Ok(());
    event_loop.run(rt, None, &mut answered, |_answered| {})?;
    answered
}

type Asking<R> = Sources<Dispatcher<Channel<u64, R>, Report>, String>;

// The main loop: what is said of the squares of 1 to 5.
fn ask<R: Net + Clock + Wait + Clone + Drop>(
    rt: &R,
    alloc: Global,
    numbers: Sender<u64, R>,
    answers: Channel<u64, R>,
) -> Result<String> {
    let mut event_loop: SystemLoop<Asking<R>, R> = SystemLoop::system(rt, alloc)?;
    let signal = event_loop.get_signal()?;
    let report = Report { signal };
    event_loop.handle().insert_source(answers, report)?;
    for number in 1..=5u64 {
        tell(&numbers, number)?;
    }
    // No more will come, so the worker's channel closes.
    drop(numbers);
    // Room for all that is said, so no line of it is refused.
    let mut said = String::with_capacity(alloc, 64)?;
    event_loop.run(rt, None, &mut said, |_said| {})?;
    Ok(said)
}

fn main(rt: HostRuntime) -> Result<()> {
    let alloc = rt.alloc();
    let (numbers, asked) = make_channel(&rt, alloc)?;
    let (answers, answered) = make_channel(&rt, alloc)?;
    let spawned = spawn(&rt, move || answer(&rt, alloc, asked, answers));
    let worker = spawned.map_err(|_| Error::OutOfMemory)?;
    let said = ask(&rt, alloc, numbers, answered);
    worker.join(&rt)?;
    let said = said?;
    print!(rt; "{said}")?;
    Ok(())
}
