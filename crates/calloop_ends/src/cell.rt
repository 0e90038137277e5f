//! A cell with the board of its key, under one lock, and the sections of that lock that every kind of cell has. A section takes
//! no other lock and calls nobody: a debt to the board is posted after it.
ghost use Rattle.std.specs.Prelude.{◌≡◌, ◌≢◌, ◌-◌, ◌^◌, None, Some, IfOk, IfErr, IfSome};
ghost use Rattle.calloop_wake.specs.Cells.{fresh_tally};
ghost use Rattle.std.specs.Option.{option_map};
ghost use Rattle.std.specs.Arc.{arc_value};
ghost use Rattle.calloop_slots.specs.Tokens.{key_of};
ghost use Rattle.calloop_poll.specs.sys.Polls.{CannotOpen};

use calloop_poll::sys::hub::{SharedHub, share};
use calloop_slots::error::Result as LoopResult;
use calloop_slots::token::Token;
use calloop_wake::cell::CellCore;
use calloop_wake::locked::{Awaited, Core, Locked};
use calloop_wake::{ClosePermit, Debt, Last, ReceivingRight, Sender, Tally};
use counted_slot::Fits;
use std::alloc::{AllocError, Global};
use std::marker::Model;
use std::sync::{Arc, Wait};

pub(crate) mod source;

/// What the ends of a cell share: its core, and a hub. If it fits a tag, the hub is that of the board on which its key has a
/// place.
pub struct Cell<K: CellCore> {
    pub(crate) core: K,
    hub: Option<SharedHub>,
}

impl<K: CellCore> Fits for Cell<K> {
    ghost use Rattle.std.specs.Prelude.{◌≡◌, Some};
    ghost use Rattle.std.specs.Option.{option_map};
    ghost use Rattle.std.specs.Arc.{arc_value};
    ghost use Rattle.calloop_wake.specs.Passes.{Keyed};

    type Tag = K::Tag;

    ghost fits = { λ tag cell. K.fits tag cell.core
        × ((place : Keyed) → K.place_of cell.core ≡ Some place → option_map arc_value cell.hub ≡ Some place.board) };
}

impl<K: CellCore> Core for Cell<K> {
    ghost hints = { λ number cell. K.hints number cell.core };

    fn dissolve(self, last: Last) {
        let Cell { core, hub: _ } = self;
        core.dissolve(last);
    }
}

/// What the ends of a cell share, under its lock. In a clause `tag` is that of its core.
pub type SharedCell<K> = Arc<Locked<Cell<K>>, Global>;

impl<K: CellCore> Cell<K> {
    /// A cell without a key, under its lock.
    pub fn new_locked(alloc: Global, core: K, tag: &K::Tag) -> Result<Locked<Cell<K>>, AllocError>
        requires fits { K.fits tag.now core }
        requires place { K.place_of core ≡ None }
        ensures { IfOk result (λ made. made.tag ≡ tag.now) }
    {
        Locked::new(alloc, Cell { core, hub: None }, tag)
    }

    /// Pairs the debt with the board on which it is posted, outside the lock.
    pub(crate) fn with_hub<R: Wait>(&self, rt: &R, debt: Option<Debt>) -> Option<(Debt, SharedHub)>
        requires { IfSome debt (λ d. option_map arc_value self.now.hub ≡ Some d.board) }
        ensures { IfSome result (λ owed. owed.0.board ≡ arc_value owed.1) }
    {
        let debt = debt?;
        match &self.hub {
            Some(hub) => Some((debt, share(rt, hub))),
            None => unreachable!(),
        }
    }
}

/// Posts the key of a debt, if there is one.
pub(crate) fn post<R: Wait>(rt: &R, owed: Option<(Debt, SharedHub)>)
    requires { IfSome owed (λ owed. owed.0.board ≡ arc_value owed.1) }
{
    if let Some((debt, hub)) = owed {
        hub.post(rt, debt);
    }
}

// Closes the place of a key that the cell no longer has.
fn close_place<R: Wait>(rt: &R, hub: &Option<SharedHub>, permit: Option<ClosePermit>)
    requires { IfSome permit (λ l. option_map arc_value hub.now ≡ Some l.board) }
{
    let Some(permit) = permit else {
        return;
    };
    match hub {
        Some(hub) => hub.close_place(rt, permit),
        None => unreachable!(),
    }
}

/// The receiving end of a cell. Its drop clears the cell's key, and then closes the place of that key.
///
/// In a clause it is its tally, and the tag of its cell.
pub(crate) struct ReceivingEnd<K: CellCore, R: Wait + Drop> {
    pub(crate) rt: R,
    pub(crate) shared: SharedCell<K>,
    pub(crate) tally: Tally,
}

impl<K: CellCore, R: Wait + Drop> Model for ReceivingEnd<K, R> {
    ghost use Rattle.std.specs.Prelude.{◌≡◌};
    ghost use Rattle.std.specs.Arc.{arc_value};
    ghost use Rattle.calloop_ends.specs.cell.CellEnds.{CellEnd};

    ghost Value = { CellEnd K.Tag };

    ghost view = { λ e. record { tally = e.tally; tag = (arc_value e.shared).tag } };

    ghost invariant = { λ e. e.tally.name ≡ K.named_by (arc_value e.shared).tag };
}

impl<K: CellCore, R: Wait + Drop> ReceivingEnd<K, R> {
    /// Makes the receiving end of a cell. There is only one, since there is only one right to it.
    pub(crate) fn new(rt: R, shared: SharedCell<K>, right: ReceivingRight) -> ReceivingEnd<K, R>
        requires { right.name ≡ K.named_by (arc_value shared).tag }
        ensures tally { result.tally ≡ fresh_tally (K.named_by (arc_value shared).tag) }
        ensures tag { result.tag ≡ (arc_value shared).tag }
    {
        let mut held = shared.lock(&rt);
        let tally = held.core().core.receiver(right);
        held.unlock();
        ReceivingEnd { rt, shared, tally }
    }

    /// Opens the place of the token, gives the cell its key, and then closes the place of the key that it had.
    pub(crate) fn attach(&mut self, hub: &SharedHub, token: Token) -> LoopResult<()>
        requires key { key_of token ≢ 2 ^ 64 - 1 }
        ensures tag { self.new.tag ≡ self.old.tag }
        ensures ok { IfOk result
            (λ _. self.new.tally ≡ record self.old.tally { key = Some (key_of token) }) }
        ensures err { IfErr result (λ e. CannotOpen e × (self.new.tally ≡ self.old.tally)) }
    {
        let pass = hub.open_place(&self.rt, token)?;
        let mine = share(&self.rt, hub);
        let mut held = self.shared.lock(&self.rt);
        let cell = held.core();
        let old = cell.hub.replace(mine);
        let (debt, permit) = cell.core.set_key(pass, &mut self.tally);
        let owed = cell.with_hub(&self.rt, debt);
        held.unlock();
        close_place(&self.rt, &old, permit);
        post(&self.rt, owed);
        Ok(())
    }

    /// Clears the cell's key, and then closes its place.
    pub(crate) fn detach(&mut self)
        ensures tag { self.new.tag ≡ self.old.tag }
        ensures tally { self.new.tally ≡ record self.old.tally { key = None } }
    {
        let mut held = self.shared.lock(&self.rt);
        let cell = held.core();
        let permit = cell.core.clear_key(&mut self.tally);
        let hub = cell.hub.take();
        held.unlock();
        close_place(&self.rt, &hub, permit);
    }

    /// Drops the end, and hands its runtime back: clears the cell's key, closes its place, and wakes all that wait for room.
    pub(crate) fn abandon(self) -> R {
        let ReceivingEnd { rt, shared, tally } = self;
        let mut held = shared.lock(&rt);
        let cell = held.core();
        let permit = cell.core.abandon(tally);
        let hub = cell.hub.take();
        held.unlock();
        close_place(&rt, &hub, permit);
        shared.notify_all(Awaited::Room);
        rt
    }
}

impl<K: CellCore, R: Wait + Drop> Drop for ReceivingEnd<K, R> {
    fn drop(self) {
        let _rt = self.abandon();
    }
}

/// A sending end of a cell, counted among its senders. There can be 2^64 - 1; dropping the last one closes the cell.
///
/// In a clause it is the tag of its cell.
pub(crate) struct SendingEnd<K: CellCore, R: Wait + Drop> {
    pub(crate) rt: R,
    pub(crate) shared: SharedCell<K>,
    sender: Sender,
}

impl<K: CellCore, R: Wait + Drop> Model for SendingEnd<K, R> {
    ghost use Rattle.std.specs.Prelude.{◌≡◌};
    ghost use Rattle.std.specs.Arc.{arc_value};

    ghost Value = { K.Tag };

    ghost view = { λ e. (arc_value e.shared).tag };

    ghost invariant = { λ e. e.sender.name ≡ K.named_by (arc_value e.shared).tag };
}

impl<K: CellCore, R: Wait + Drop> SendingEnd<K, R> {
    /// Makes another sending end of the cell. Fails if there are 2^64 - 1.
    pub(crate) fn new(rt: R, shared: SharedCell<K>) -> Result<SendingEnd<K, R>, AllocError>
        ensures { IfOk result (λ end. end ≡ (arc_value shared).tag) }
    {
        let mut held = shared.lock(&rt);
        let added = held.core().core.add_sender();
        held.unlock();
        let sender = added?;
        Ok(SendingEnd { rt, shared, sender })
    }
}

impl<K: CellCore, R: Wait + Clone + Drop> Clone for SendingEnd<K, R> {
    ghost use Rattle.std.specs.Prelude.{◌≡◌};

    ghost is_clone = { λ end again. again ≡ end };

    fn clone(&self) -> Result<SendingEnd<K, R>, AllocError> {
        SendingEnd::new(self.rt.clone()?, Arc::try_clone(&self.shared)?)
    }
}

impl<K: CellCore, R: Wait + Drop> Drop for SendingEnd<K, R> {
    fn drop(self) {
        let SendingEnd { rt, shared, sender } = self;
        let mut held = shared.lock(&rt);
        let cell = held.core();
        let debt = cell.core.drop_sender(sender);
        let owed = cell.with_hub(&rt, debt);
        held.unlock();
        post(&rt, owed);
        shared.notify_all(Awaited::Content);
    }
}

/// Makes both ends of a cell to which nothing has happened yet.
pub(crate) fn make_ends<K: CellCore, R: Wait + Clone + Drop>(
    rt: &R,
    alloc: Global,
    locked: Locked<Cell<K>>,
    right: ReceivingRight,
) -> Result<(SendingEnd<K, R>, ReceivingEnd<K, R>), AllocError>
    requires { right.name ≡ K.named_by locked.tag }
    ensures sending { IfOk result (λ made. made.0 ≡ locked.tag) }
    ensures tally { IfOk result (λ made. made.1.tally ≡ fresh_tally (K.named_by locked.tag)) }
    ensures tag { IfOk result (λ made. made.1.tag ≡ locked.tag) }
{
    let of_sending = rt.clone()?;
    let of_receiving = rt.clone()?;
    let shared = Arc::new(alloc, locked)?;
    let again = share(rt, &shared);
    let sending = SendingEnd::new(of_sending, shared)?;
    Ok((sending, ReceivingEnd::new(of_receiving, again, right)))
}
