//! A loop over three kinds of source: a ping, a timer, and one of the program's own. The ping's callback puts another source in
//! the place of its own.
#![tactic(auto)]

use calloop::ping::make_ping;
use calloop::{
    Asking, Callback, Choice, Dispatcher, Here, IdleCallback, Instant, On, OneOf, PingSource,
    RegistrationToken, Requests, Result, ScriptLoop, Sources, There, TimeoutAction, Timer,
};
use countdown::Countdown;
use std::alloc::Global;
use std::process::ExitCode;
use std::sync::Wait;
use std::time::Duration;

mod countdown;

/// What a dispatch lends: what was said so far, and which source the ping is.
#[derive(Drop)]
struct Said {
    text: String,
    ping: Option<RegistrationToken>,
}

impl Said {
    fn line(&mut self, line: &str) {
        let _failed = self.text.push_str(line);
    }
}

/// Says its line.
#[derive(Drop)]
struct Says {
    line: &'static str,
}

impl On<(), Said, ()> for Says {
    fn on(&mut self, _event: (), said: &mut Said) {
        said.line(self.line);
    }
}

/// Asks for its own source to leave and for a countdown to come, which has its slot then, and for a rest.
#[derive(Drop)]
struct Replaces;

impl<D> Callback<(), (), (), Said, Requests<D, Rest>> for Replaces
where
    D: Choice<Countdown, Says, There<There<Here>>> + Drop,
{
    ghost may = { λ _ _ _ _ _ _ _ _ _ _. Unit {0} };

    fn call(&mut self, _event: (), _: &mut (), said: &mut Said, requests: &mut Requests<D, Rest>) {
        said.line("rung\n");
        if let Some(own) = said.ping {
            let _removal = requests.remove(own);
            let says = Says {
                line: "in its place\n",
            };
            let _insertion = requests.insert_source(Countdown::new(1), says);
            let _idle = requests.insert_idle(Rest);
        }
    }
}

/// Says at the end of a dispatch that nothing is left to do in it.
#[derive(Drop)]
struct Rest;

impl<Q: Asking> IdleCallback<Said, Q> for Rest {
    fn run(self, said: &mut Said, _: &mut Q) {
        said.line("nothing left\n");
    }
}

/// Says the time, once.
#[derive(Drop)]
struct Alarm;

impl On<Instant, Said, TimeoutAction> for Alarm {
    fn on(&mut self, _deadline: Instant, said: &mut Said) -> TimeoutAction {
        said.line("five milliseconds\n");
        TimeoutAction::Drop
    }
}

/// What the loop holds: three kinds of source with their callbacks, the data that each dispatch lends, and what it can be asked to
/// do at the end of one.
type Held<R> = Sources<
    OneOf<
        Dispatcher<PingSource<R>, Replaces>,
        OneOf<Dispatcher<Timer, Alarm>, Dispatcher<Countdown, Says>>,
    >,
    Said,
    Rest,
>;

// Three dispatches of a loop: what the callbacks said.
fn run<R: Wait + Clone + Drop>(rt: &R, alloc: Global) -> Result<String> {
    let mut event_loop: ScriptLoop<Held<R>, R> = ScriptLoop::with_script(rt, alloc)?;
    let (ping, source) = make_ping(rt, alloc)?;
    let mut handle = event_loop.handle();
    let token = handle
        .insert_source(source, Replaces)
        .map_err(|refused| refused.error)?;
    let timer = Timer::from_deadline(Instant::from_millis(5));
    handle
        .insert_source(timer, Alarm)
        .map_err(|refused| refused.error)?;
    let waits = Says { line: "a wait\n" };
    handle
        .insert_source(Countdown::new(2), waits)
        .map_err(|refused| refused.error)?;

    ping.ping();
    let mut said = Said {
        text: String::new(alloc),
        ping: Some(token),
    };
    for _ in 0..3u32 {
        event_loop.dispatch(rt, Some(Duration::from_millis(10)), &mut said)?;
    }
    Ok(said.text)
}

fn main(rt: HostRuntime) -> ExitCode {
    let Ok(said) = run(&rt, rt.alloc()) else {
        return ExitCode::FAILURE;
    };
    match print!(rt; "{said}") {
        Ok(()) => ExitCode::SUCCESS,
        Err(_) => ExitCode::FAILURE,
    }
}
