use calloop::futures::{Context, Executor, Future, Poll, Scheduler, make_executor};
use calloop::ping::make_ping;
use calloop::stream::{Stream, StreamSource};
use calloop::sys::Watched;
use calloop::{
    Adapter, Answer, Async, Callback, Choice, Dispatcher, EventDispatcher, Generic, Here, Instant,
    Interest, Keep, Mode, On, OneOf, PingSource, Place, Readiness, Requests, ScriptLoop, Sources,
    There, Ticket, TimeoutFuture, TimeoutTimer,
};
use calloop_script::{
    ScriptAnswer, ScriptCall, ScriptClock, ScriptEnd, ScriptEvents, ScriptIo, ScriptPoller,
};
use std::alloc::Global;
use std::os::fd::RawFd;
use std::sync::Wait;
use std::time::Duration;

#[test]
fn a_socket_as_a_future_is_looked_at_and_closed(rt: HostRuntime) {
    assert_eq!(rt; goes(&rt, rt.alloc(), Trial::Looks), Some(true));
}

#[test]
fn a_socket_that_a_callback_had_adapted_is_handed_back(rt: HostRuntime) {
    assert_eq!(rt; goes(&rt, rt.alloc(), Trial::Adapts), Some(true));
}

#[test]
fn a_stream_is_read_to_its_end(rt: HostRuntime) {
    assert_eq!(rt; goes(&rt, rt.alloc(), Trial::Reads), Some(true));
}

#[test]
fn a_time_is_waited_for(rt: HostRuntime) {
    assert_eq!(rt; goes(&rt, rt.alloc(), Trial::Rests), Some(true));
}

#[test]
fn a_socket_is_looked_at_and_unwrapped(rt: HostRuntime) {
    let source: Generic<ScriptIo> = Generic::new(socket(3), Interest::READ, Mode::Level);
    assert_eq!(rt; source.get_ref().number, 3);
    let back = source.unwrap().ok().map(|io| io.number);
    assert_eq!(rt; back, Some(3));
}

#[derive(Clone, Copy)]
enum Trial {
    Looks,
    Adapts,
    Reads,
    Rests,
}

/// What callbacks say and are given.
#[derive(Drop)]
struct Told<R: Wait + Drop> {
    numbers: Vec<u32>,
    given: Option<(Ticket, Async<ScriptIo, R>)>,
}

/// Says what it is given.
#[derive(Drop)]
struct Says;

impl<R: Wait + Drop> On<u32, Told<R>, ()> for Says {
    fn on(&mut self, number: u32, told: &mut Told<R>) {
        let _failed = told.numbers.push(number);
    }
}

impl<R: Wait + Drop> On<Option<u32>, Told<R>, ()> for Says {
    fn on(&mut self, number: Option<u32>, told: &mut Told<R>) {
        let _failed = told.numbers.push(number.unwrap_or(0));
    }
}

/// Has a socket adapted.
#[derive(Drop)]
struct Adapts<R: Wait + Drop> {
    rt: R,
    alloc: Global,
}

impl<D, R> Callback<(), (), (), Told<R>, Requests<D>> for Adapts<R>
where
    D: Place<Adapter<ScriptIo, R>, Here> + Drop,
    R: Wait + Clone + Drop,
{
    fn call(&mut self, _event: (), _: &mut (), told: &mut Told<R>, requests: &mut Requests<D>) {
        told.given = requests.adapt(&self.rt, self.alloc, socket(1)).ok();
    }
}

/// Gives 7 once its socket was told of as readable, and closed.
#[derive(Drop)]
struct Looks<R: Wait + Drop> {
    io: Async<ScriptIo, R>,
}

impl<R: Wait + Clone + Drop> Future<R> for Looks<R> {
    type Output = u32;

    fn poll(&mut self, cx: &mut Context<'_, R>) -> Poll<u32> {
        let mut again = Context::from_waker(cx.waker());
        let Poll::Ready(Ok(())) = self.io.readable().poll(&mut again) else {
            return Poll::Pending;
        };
        let is_flushed = matches!(self.io.poll_flush(cx), Poll::Ready(Ok(())));
        let is_closed = matches!(self.io.poll_close(cx), Poll::Ready(Ok(())));
        let _pending = self.io.writable().poll(cx);
        Poll::Ready(if is_flushed && is_closed { 7 } else { 0 })
    }
}

/// Gives 1, and ends.
#[derive(Drop)]
struct One {
    is_over: bool,
}

impl<R: Wait + Drop> Stream<R> for One {
    type Item = u32;

    fn poll_next(&mut self, _cx: &mut Context<'_, R>) -> Poll<Option<u32>> {
        let item = if self.is_over { None } else { Some(1) };
        self.is_over = true;
        Poll::Ready(item)
    }
}

type Second = There<Here>;

type Third = There<There<Here>>;

type Fourth = There<There<There<Here>>>;

type Fifth = There<There<There<There<Here>>>>;

type Held<R> = Sources<
    OneOf<
        Adapter<ScriptIo, R>,
        OneOf<
            Dispatcher<Executor<Looks<R>, R>, Says>,
            OneOf<
                Dispatcher<StreamSource<One, R>, Says>,
                OneOf<TimeoutTimer<R>, Dispatcher<PingSource<R>, Adapts<R>>>,
            >,
        >,
    >,
    Told<R>,
>;

// True if it goes as it should. `None` without memory. Only this knows the types of the loop.
fn goes<R: Wait + Clone + Drop>(rt: &R, alloc: Global, trial: Trial) -> Option<bool> {
    tries::<Held<R>, R>(rt, alloc, trial)
}

fn tries<D, R>(rt: &R, alloc: Global, trial: Trial) -> Option<bool>
where
    R: Wait + Clone + Drop,
    One: Stream<R, Item = u32>,
    D: EventDispatcher<ScriptPoller, ScriptClock, R, Data = Told<R>, Idle = ()>,
    D: Keep<Adapter<ScriptIo, R>, ScriptPoller, ScriptClock, R, Told<R>, Requests<D>, Here>,
    D: Choice<Executor<Looks<R>, R>, Says, Second>,
    D: Choice<StreamSource<One, R>, Says, Third>,
    D: Keep<TimeoutTimer<R>, ScriptPoller, ScriptClock, R, Told<R>, Requests<D>, Fourth>,
    D: Choice<PingSource<R>, Adapts<R>, Fifth>,
{
    let mut table: Table<D, R> = Table {
        rt: rt.clone().ok()?,
        alloc,
        event_loop: ScriptLoop::with_script(rt, alloc).ok()?,
        told: Told {
            numbers: Vec::new(alloc),
            given: None,
        },
    };
    match trial {
        Trial::Looks => is_looked_at(&mut table),
        Trial::Adapts => is_handed_back(&mut table),
        Trial::Reads => is_read(&mut table),
        Trial::Rests => is_waited_for(&mut table),
    }
}

// A loop over any sources, with what it lends. What a call does to a loop whose types are written out costs the prover far more.
#[derive(Drop)]
struct Table<D, R>
where
    D: EventDispatcher<ScriptPoller, ScriptClock, R>,
    R: Wait + Drop,
{
    rt: R,
    alloc: Global,
    event_loop: ScriptLoop<D, R>,
    told: Told<R>,
}

impl<D, R> Table<D, R>
where
    D: EventDispatcher<ScriptPoller, ScriptClock, R, Data = Told<R>, Idle = ()>,
    R: Wait + Clone + Drop,
{
    // Whether a dispatch succeeds in which this is said.
    fn says(&mut self, wanted: &[u32]) -> bool {
        self.told.numbers.clear();
        let answer = self
            .event_loop
            .dispatch(&self.rt, Some(Duration::ZERO), &mut self.told);
        answer.is_ok() && self.told.numbers.as_slice() == wanted
    }

    // The next wait tells of key 0 as readable.
    fn script(&mut self) -> Option<()> {
        let mut events = ScriptEvents::new(self.alloc);
        let found = Readiness {
            readable: true,
            writable: false,
            error: false,
        };
        events.push(0, found).ok()?;
        let answer = ScriptAnswer {
            moment: Instant::from_millis(1),
            end: ScriptEnd::Events(events),
        };
        self.event_loop.handle().poller_mut().script(answer).ok()
    }
}

fn socket(number: RawFd) -> ScriptIo {
    ScriptIo { number }
}

// A clone of the executor's scheduler, which is in the second slot.
fn scheduler<D, R>(table: &mut Table<D, R>) -> Option<Scheduler<Looks<R>, R>>
where
    D: EventDispatcher<ScriptPoller, ScriptClock, R, Data = Told<R>, Idle = ()>,
    D: Choice<Executor<Looks<R>, R>, Says, Second>,
    R: Wait + Clone + Drop,
{
    let (executor, scheduler) = make_executor(&table.rt, table.alloc).ok()?;
    let held = D::hold(Dispatcher::new(executor, Says));
    table.event_loop.handle().register_dispatcher(held).ok()?;
    scheduler.clone().ok()
}

fn is_looked_at<D, R>(table: &mut Table<D, R>) -> Option<bool>
where
    D: EventDispatcher<ScriptPoller, ScriptClock, R, Data = Told<R>, Idle = ()>,
    D: Keep<Adapter<ScriptIo, R>, ScriptPoller, ScriptClock, R, Told<R>, Requests<D>, Here>,
    D: Choice<Executor<Looks<R>, R>, Says, Second>,
    R: Wait + Clone + Drop,
{
    let mut io = table
        .event_loop
        .handle()
        .adapt_io(&table.rt, table.alloc, socket(1))
        .ok()?;
    let is_there = io.get_mut().is_some();
    let scheduled = scheduler(table)?.schedule(Looks { io }).is_ok();
    let is_pending = table.says(&[]);
    table.script()?;
    let is_said = table.says(&[]) && table.says(&[7]);
    let reads = Watched {
        interest: Interest::READ,
        mode: Mode::OneShot,
    };
    let call = ScriptCall::Add(1, 0, reads);
    let is_added = table.event_loop.handle().poller_mut().calls().first() == Some(&call);
    Some(is_there && scheduled && is_pending && is_said && is_added)
}

fn is_handed_back<D, R>(table: &mut Table<D, R>) -> Option<bool>
where
    D: EventDispatcher<ScriptPoller, ScriptClock, R, Data = Told<R>, Idle = ()>,
    D: Choice<PingSource<R>, Adapts<R>, Fifth>,
    R: Wait + Clone + Drop,
{
    let rt = table.rt.clone().ok()?;
    let alloc = table.alloc;
    let (ping, source) = make_ping(&rt, alloc).ok()?;
    let held = D::hold(Dispatcher::new(source, Adapts { rt, alloc }));
    table.event_loop.handle().register_dispatcher(held).ok()?;
    ping.ping();
    let is_quiet = table.says(&[]);
    let (ticket, io) = table.told.given.take()?;
    let answer = table.event_loop.handle().answer(ticket);
    let is_inserted = matches!(answer, Some(Answer::Inserted(_)));
    let back = table.event_loop.handle().into_inner(io).ok()?;
    Some(is_quiet && is_inserted && back.number == 1)
}

fn is_read<D, R>(table: &mut Table<D, R>) -> Option<bool>
where
    R: Wait + Clone + Drop,
    One: Stream<R, Item = u32>,
    D: EventDispatcher<ScriptPoller, ScriptClock, R, Data = Told<R>, Idle = ()>,
    D: Choice<StreamSource<One, R>, Says, Third>,
{
    let stream = StreamSource::new(&table.rt, table.alloc, One { is_over: false }).ok()?;
    let held = D::hold(Dispatcher::new(stream, Says));
    table.event_loop.handle().register_dispatcher(held).ok()?;
    Some(table.says(&[1, 0]) && table.says(&[]))
}

fn is_waited_for<D, R>(table: &mut Table<D, R>) -> Option<bool>
where
    D: EventDispatcher<ScriptPoller, ScriptClock, R, Data = Told<R>, Idle = ()>,
    D: Keep<TimeoutTimer<R>, ScriptPoller, ScriptClock, R, Told<R>, Requests<D>, Fourth>,
    R: Wait + Clone + Drop,
{
    let mut handle = table.event_loop.handle();
    let timeout = TimeoutFuture::from_duration(&mut handle, &table.rt, table.alloc, Duration::ZERO);
    let mut said = Told {
        numbers: Vec::new(table.alloc),
        given: None,
    };
    let ran = table
        .event_loop
        .block_on(&table.rt, table.alloc, timeout.ok()?, &mut said, |_| {});
    Some(ran.ok()? == Some(()))
}
