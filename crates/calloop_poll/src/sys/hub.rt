//! The board of posted keys and the marks of adapters, each under its lock, with the notifier that wakes their poller.
ghost use Rattle.std.specs.Prelude.{◌≡◌, ◌≢◌, ◌+◌, ◌-◌, ◌^◌, ◌≤◌, [], true, false, IfOk, IfErr, IfSome, IfNone, is_none, if◌then◌else◌};
ghost use Rattle.std.specs.Arc.{arc_value};
ghost use Rattle.std.specs.VecDeque.{deque_len, deque_capacity};
ghost use Rattle.calloop_slots.specs.Tokens.{key_of};
ghost use Rattle.calloop_wake.specs.Watches.{with_note};
ghost use Rattle.calloop_wake.specs.declared.notes.Note.TheVariants.{Counted, Looked, Unposted, Marked};
ghost use Rattle.calloop_slots.specs.declared.error.Error.TheVariants.{OutOfMemory as MemoryError};
ghost use Rattle.calloop_poll.specs.sys.Hubs.{HasUnposted};
ghost use Rattle.calloop_poll.specs.sys.Polls.{CannotOpen};

use super::notifier::Notifier;
use calloop_slots::error::{Error, Result};
use calloop_slots::steps::Steps;
use calloop_slots::token::{RegistrationToken, Token};
use calloop_wake::board::{Board, OpenRefusal};
use calloop_wake::locked::Locked;
use calloop_wake::marking::Marks;
use calloop_wake::watch::{OpenPlaces, Watch};
use calloop_wake::{ClosePermit, Debt, OpenedPass, SleepPermit, TakenPass};
use std::alloc::{AllocError, Global};
use std::collections::VecDeque;
use std::io;
use std::marker::Model;
use std::sync::{Arc, Wait};

/// The board, shared by the ends of pings and their loop. Each call is one section of its lock, in which nothing else is locked
/// and no caller's code runs. In calloop the kernel's poller is shared like this.
///
/// In a clause it is the name that the board shares with its watch.
#[derive(Drop)]
pub struct Hub {
    board: Locked<Board>,
    // The adapters that are to be settled before the next wait.
    marks: Locked<Marks>,
    notifier: Notifier,
}

impl Model for Hub {
    ghost use Rattle.std.specs.Prelude.{◌≡◌};
    ghost use Rattle.logbook.specs.Pages.{Book};

    ghost Value = { Book };

    ghost view = { λ h. h.board.tag };

    ghost invariant = { λ h. h.marks.tag ≡ h.board.tag };
}

/// A hub with several owners.
pub type SharedHub = Arc<Hub, Global>;

/// Adds an owner. It waits while there are 2^63 - 1, the most that there can be.
pub fn share<R: Wait, T: Drop>(rt: &R, owner: &Arc<T, Global>) -> Arc<T, Global>
    ensures { arc_value result ≡ arc_value owner.now }
{
    for _ in rt.forever() {
        if let Ok(another) = Arc::try_clone(owner) {
            return another;
        }
    }
    unreachable!()
}

impl Hub {
    /// Makes a hub with an empty board, and that board's watch.
    pub fn new(alloc: Global, notifier: Notifier) -> std::result::Result<(Hub, Watch), AllocError>
        ensures { IfOk result (λ made. made.1 ≡ record { name = made.0; notes = [] }) }
    {
        let (board, watch, name, right) = Board::new(alloc);
        let board = Locked::new(alloc, board, &name)?;
        let (marks, of_marks) = Marks::new(alloc, right);
        let hub = Hub {
            board,
            marks: Locked::new(alloc, marks, &of_marks)?,
            notifier,
        };
        Ok((hub, watch))
    }

    /// Opens the place of a token's key. Fails with `IoError` of kind `AlreadyExists` if it is open, and with `OutOfMemory` if
    /// memory runs out; on failure the board is unchanged.
    pub fn open_place<R: Wait>(&self, rt: &R, token: Token) -> Result<OpenedPass>
        requires { key_of token ≢ 2 ^ 64 - 1 }
        ensures ok { IfOk result (λ pass. pass ≡ record { key = key_of token; board = self.now }) }
        ensures err { IfErr result CannotOpen }
    {
        let mut held = self.board.lock(rt);
        let board = held.core();
        let opened = board.open_place(token.key());
        held.unlock();
        match opened {
            Ok(pass) => Ok(pass),
            Err(OpenRefusal::AlreadyExists) => Err(Error::IoError(io::Error::from(
                io::ErrorKind::AlreadyExists,
            ))),
            Err(OpenRefusal::OutOfMemory) => Err(Error::OutOfMemory),
        }
    }

    /// Closes the place of a key of this board that has no cell any more.
    pub fn close_place<R: Wait>(&self, rt: &R, permit: ClosePermit)
        requires { permit.board ≡ self.now }
    {
        let mut held = self.board.lock(rt);
        let board = held.core();
        board.close_place(permit);
        held.unlock();
    }

    /// Posts the key of a debt to this board, and spends the wakeup that this returns, outside the lock. It takes no memory.
    pub fn post<R: Wait>(&self, rt: &R, debt: Debt)
        requires { debt.board ≡ self.now }
    {
        let mut held = self.board.lock(rt);
        let board = held.core();
        let wakeup = board.post(debt);
        held.unlock();
        if let Some(wakeup) = wakeup {
            wakeup.spend(&self.notifier);
        }
    }

    /// Makes room for the mark of another adapter. Running out of memory changes nothing.
    pub fn open_mark<R: Wait>(&self, rt: &R) -> std::result::Result<(), AllocError> {
        let mut held = self.marks.lock(rt);
        let opened = held.core().open();
        held.unlock();
        opened
    }

    /// Returns the room for the mark of an adapter that is gone.
    pub fn close_mark<R: Wait>(&self, rt: &R) {
        let mut held = self.marks.lock(rt);
        held.core().close();
        held.unlock();
    }

    /// Marks an adapter, which is to be settled before the next wait, and spends the wakeup that this returns, outside the lock.
    /// Running out of memory marks nothing.
    pub fn mark<R: Wait>(
        &self,
        rt: &R,
        token: RegistrationToken,
    ) -> std::result::Result<(), AllocError> {
        let mut held = self.marks.lock(rt);
        let marked = held.core().mark(token);
        held.unlock();
        marked?.spend(&self.notifier);
        Ok(())
    }

    // If nothing is marked, has the watch note that nothing was taken. Else nothing changes.
    fn take_no_marks<R: Wait>(&self, rt: &R, watch: &mut Watch) -> bool
        requires { watch.old.name ≡ self.now }
        ensures none { result ≡ true → watch.new ≡ with_note (Marked []) watch.old }
        ensures some { result ≡ false → watch.new ≡ watch.old }
    {
        let mut held = self.marks.lock(rt);
        let none = held.core().take_none(watch);
        held.unlock();
        none
    }

    /// Takes the marks, in the order in which they were set, and has the watch note them.
    pub fn take_marks<R: Wait>(&self, rt: &R, watch: &mut Watch) -> Option<Vec<RegistrationToken>>
        requires { watch.old.name ≡ self.now }
        ensures none { IfNone result (watch.new ≡ with_note (Marked []) watch.old) }
        ensures some { IfSome result
            (λ taken. watch.new ≡ with_note (Marked taken.items) watch.old) }
    {
        if self.take_no_marks(rt, watch) {
            return None;
        }
        let mut held = self.marks.lock(rt);
        let taken = held.core().take(watch);
        held.unlock();
        Some(taken)
    }

    /// Takes a list of marks back once it was settled, to reuse its memory.
    pub fn give_marks_back<R: Wait>(&self, rt: &R, settled: Vec<RegistrationToken>) {
        let mut held = self.marks.lock(rt);
        held.core().give_back(settled);
        held.unlock();
    }
}

/// The hub with the loop's own watch of its board. In a clause it is the watch.
#[derive(Drop)]
pub struct WatchedHub {
    hub: SharedHub,
    watch: Watch,
    // The last look found a posted key.
    found: bool,
}

impl Model for WatchedHub {
    ghost use Rattle.std.specs.Prelude.{◌≡◌};
    ghost use Rattle.std.specs.Arc.{arc_value};
    ghost use Rattle.calloop_wake.specs.declared.watch.Watch.{Watch};

    ghost Value = { Watch };

    ghost view = { λ w. w.watch };

    ghost invariant = { λ w. w.watch.name ≡ arc_value w.hub };
}

impl WatchedHub {
    /// Makes a hub with an empty board. Running out of memory is `OutOfMemory`.
    pub fn new(alloc: Global, notifier: Notifier) -> Result<WatchedHub>
        ensures ok { IfOk result (λ made. made.notes ≡ []) }
        ensures err { IfErr result (λ e. e ≡ MemoryError) }
    {
        let (hub, watch) = Hub::new(alloc, notifier)?;
        let hub = Arc::new(alloc, hub)?;
        Ok(WatchedHub {
            hub,
            watch,
            found: false,
        })
    }

    /// Returns the hub, to share.
    pub fn hub(&self) -> &SharedHub
        ensures { arc_value result.now ≡ self.now.name }
    {
        &self.hub
    }

    /// Looks whether a key is posted. Returns the permit to sleep if none is.
    pub fn look<R: Wait>(&mut self, rt: &R) -> Option<SleepPermit>
        ensures { self.new ≡ with_note (Looked (is_none result)) self.old }
    {
        let mut held = self.hub.board.lock(rt);
        let permit = held.core().look(&mut self.watch);
        held.unlock();
        self.found = permit.is_none();
        permit
    }

    /// Returns how many places are open now.
    pub fn places<R: Wait>(&self, rt: &R) -> OpenPlaces
        ensures { result.name ≡ self.now.name }
    {
        let mut held = self.hub.board.lock(rt);
        let places = held.core().places();
        held.unlock();
        places
    }

    /// Notes a count of the places.
    pub fn note_count(&mut self, places: OpenPlaces)
        requires { places.name ≡ self.old.name }
        ensures { self.new ≡ with_note (Counted places.number) self.old }
    {
        self.watch.note_count(places);
    }

    /// Takes the marks, in the order in which they were set.
    pub fn take_marks<R: Wait>(&mut self, rt: &R) -> Option<Vec<RegistrationToken>>
        ensures none { IfNone result (self.new ≡ with_note (Marked []) self.old) }
        ensures some { IfSome result (λ taken. self.new ≡ with_note (Marked taken.items) self.old) }
    {
        self.hub.take_marks(rt, &mut self.watch)
    }

    // If no key is posted, notes that none was taken, with this room. Else nothing changes.
    fn unpost_none<R: Wait>(&mut self, rt: &R, room: usize) -> bool
        ensures { self.new ≡ (if result then with_note (Unposted room []) self.old else self.old) }
    {
        let mut held = self.hub.board.lock(rt);
        let none = held.core().unpost_none(room, &mut self.watch);
        held.unlock();
        none
    }

    /// Takes the posted keys, ascending, at most as many as there is room for, and appends a pass for each.
    pub fn unpost<R: Wait>(&mut self, rt: &R, room: usize, passes: &mut VecDeque<TakenPass>)
        requires room { deque_len passes.old + room ≤ deque_capacity passes.old }
        ensures keys { HasUnposted room self.old self.new
            passes.old.items passes.new.items (deque_len passes.old) (deque_len passes.new) }
        ensures capacity { deque_capacity passes.new ≡ deque_capacity passes.old }
    {
        if !self.found && self.unpost_none(rt, room) {
            return;
        }
        let mut held = self.hub.board.lock(rt);
        held.core()
            .unpost(room, &mut self.watch, passes, &mut Steps::new());
        held.unlock();
    }
}
