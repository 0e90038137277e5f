//! A loop with one source over a scripted poller, and what a test does at it.
use calloop::loop_logic::EventLoop;
use calloop::{EventDispatcher, Ping, RegistrationToken};
use calloop_script::{ScriptClock, ScriptPoller};
use std::alloc::Global;
use std::sync::Wait;
use std::time::Duration;

/// What a test does, or looks for.
#[derive(Clone, Copy)]
pub enum Act<'a> {
    /// Each of the pings rings.
    Ring,
    /// The pings go.
    Drop,
    /// A dispatch of so many milliseconds succeeds, in which these numbers are said.
    Says(u64, &'a [u32]),
    Update,
    Disable,
    Enable,
    /// The source's token names it, or nothing.
    Names(bool),
}

/// What came of acts: how many were as they are wanted, up to the first that wasn't, and the source, if it is still there.
#[derive(Drop)]
pub struct Played<D> {
    pub acts: usize,
    pub held: Option<D>,
}

#[derive(Drop)]
struct Desk<D, R>
where
    D: EventDispatcher<ScriptPoller, ScriptClock, R>,
    R: Wait + Drop,
{
    rt: R,
    event_loop: EventLoop<D, ScriptPoller, ScriptClock, R>,
    bells: Vec<Ping<R>>,
    said: Vec<u32>,
    token: RegistrationToken,
}

/// Plays the acts in a new loop of this source. `None` if the loop can't be made, or refuses the source.
pub fn plays<D, R>(
    rt: &R,
    alloc: Global,
    held: D,
    bells: Vec<Ping<R>>,
    acts: &[Act<'_>],
) -> Option<Played<D>>
where
    D: EventDispatcher<ScriptPoller, ScriptClock, R, Data = Vec<u32>>,
    R: Wait + Clone + Drop,
{
    let poller = ScriptPoller::new(alloc).ok()?;
    let clock = poller.clock().ok()?;
    let mut event_loop = EventLoop::try_new(rt, alloc, poller, clock).ok()?;
    let token = event_loop.handle().register_dispatcher(held).ok()?;
    let mut desk = Desk {
        rt: rt.clone().ok()?,
        event_loop,
        bells,
        said: Vec::new(alloc),
        token,
    };
    let acts = desk.play(acts);
    Some(Played {
        acts,
        held: desk.event_loop.handle().remove(token),
    })
}

impl<D, R> Desk<D, R>
where
    D: EventDispatcher<ScriptPoller, ScriptClock, R, Data = Vec<u32>>,
    R: Wait + Clone + Drop,
{
    fn play(&mut self, acts: &[Act<'_>]) -> usize {
        for (place, act) in acts.iter().enumerate() {
            if !self.does(*act) {
                return place;
            }
        }
        acts.len()
    }

    fn does(&mut self, act: Act<'_>) -> bool {
        match act {
            Act::Ring => {
                self.ring();
                true
            }
            Act::Drop => {
                self.bells.clear();
                true
            }
            Act::Says(millis, numbers) => self.says(millis, numbers),
            Act::Update => self.event_loop.handle().update(&self.token).is_ok(),
            Act::Disable => self.event_loop.handle().disable(&self.token).is_ok(),
            Act::Enable => self.event_loop.handle().enable(&self.token).is_ok(),
            Act::Names(names) => self.event_loop.handle().dispatcher(&self.token).is_ok() == names,
        }
    }

    fn ring(&mut self) {
        for bell in self.bells.iter() {
            let _receipt = bell.ping();
        }
    }

    fn says(&mut self, millis: u64, numbers: &[u32]) -> bool {
        self.said.clear();
        let timeout = Some(Duration::from_millis(millis));
        let answer = self.event_loop.dispatch(&self.rt, timeout, &mut self.said);
        answer.is_ok() && self.said.as_slice() == numbers
    }
}
