//! The futures of the rows.
use calloop::futures::{Context, Future, Poll, Waker};
use calloop::{Clock, TimeoutFuture};
use std::alloc::Global;
use std::sync::atomic::{AtomicU32, Ordering};
use std::sync::{Arc, Mutex, Wait};

/// The meeting of a future and the thread that wakes it.
#[derive(Drop)]
pub struct Meeting<R: Wait + Drop> {
    rt: R,
    waker: Mutex<Option<Waker<R>>>,
    wakes: AtomicU32,
}

impl<R: Wait + Drop> Meeting<R> {
    /// Makes a meeting without a waker. Nobody woke yet.
    pub fn new(rt: R) -> Meeting<R> {
        Meeting {
            rt,
            waker: Mutex::new(None),
            wakes: AtomicU32::new(0),
        }
    }

    /// Takes the waker that the future left here.
    pub fn take(&self) -> Option<Waker<R>> {
        self.waker.lock(&self.rt).take()
    }

    /// Counts a wake that comes.
    pub fn count_wake(&self) {
        self.wakes.fetch_add(1, Ordering::SeqCst);
    }

    // Leaves a waker for the thread.
    fn leave(&self, waker: Option<Waker<R>>) {
        let before = self.take();
        *self.waker.lock(&self.rt) = waker;
        drop(before);
    }

    // The number of counted wakes.
    fn wakes(&self) -> u32 {
        self.wakes.load(Ordering::SeqCst)
    }
}

/// A future that leaves its waker at its first poll, and is ready once so many wakes were counted.
#[derive(Drop)]
pub struct Sleeper<R: Wait + Drop> {
    meeting: Arc<Meeting<R>, Global>,
    wanted: u32,
    is_asleep: bool,
}

impl<R: Wait + Clone + Drop> Sleeper<R> {
    /// Makes a future that wasn't polled yet.
    pub fn new(meeting: Arc<Meeting<R>, Global>, wanted: u32) -> Sleeper<R> {
        Sleeper {
            meeting,
            wanted,
            is_asleep: false,
        }
    }

    fn poll(&mut self, cx: &mut Context<'_, R>) -> Poll<()> {
        if self.meeting.wakes() >= self.wanted {
            return Poll::Ready(());
        }
        if !self.is_asleep {
            self.is_asleep = true;
            self.meeting.leave(cx.waker().clone().ok());
        }
        Poll::Pending
    }
}

/// A future of the rows.
#[derive(Drop)]
pub enum Task<C: Clock, R: Wait + Drop> {
    /// The future is ready at its first poll.
    IsReady,
    /// The future waits for wakes.
    Sleeps(Sleeper<R>),
    /// The future waits for a moment.
    Lasts(TimeoutFuture<C, R>),
}

impl<C: Clock, R: Wait + Clone + Drop> Future<R> for Task<C, R> {
    type Output = ();

    fn poll(&mut self, cx: &mut Context<'_, R>) -> Poll<()> {
        match self {
            Task::IsReady => Poll::Ready(()),
            Task::Sleeps(sleeper) => sleeper.poll(cx),
            Task::Lasts(timeout) => timeout.poll(cx),
        }
    }
}
