//! The receiving end of a cell as a source of the loop, for every kind of cell: its turn, and what registers, moves and takes
//! back its key.
ghost use Rattle.std.specs.Prelude.{◌≡◌, List, []};
ghost use Rattle.calloop_slots.specs.Tokens.{key_of};
ghost use Rattle.calloop_wake.specs.Cells.{is_own};
ghost use Rattle.calloop_poll.specs.sys.Polls.{poll_view};
ghost use Rattle.calloop_sources.specs.sources.Calls.{CallbackCall, Went};
ghost use Rattle.calloop_ends.specs.cell.CellSources.{Registers, RegistersAnew, Unregisters, TakesTurn};

use super::ReceivingEnd;
use calloop_poll::sys::Poller;
use calloop_poll::sys::poll::Poll;
use calloop_slots::error::{Error, Result as LoopResult};
use calloop_slots::token::{Token, TokenFactory};
use calloop_sources::sources::{Asking, Callback, PostAction};
use calloop_wake::cell::CellCore;
use calloop_wake::{TakenPass, Tally};
use std::io;
use std::sync::Wait;

/// A source that is the receiving end of a cell: what its kind of cell does in a turn. The rest of a turn is `take_turn`.
pub(crate) trait CellSource {
    ghost use Rattle.std.specs.Prelude.{◌≡◌, List, [], Some, IfOk, IfErr};
    ghost use Rattle.calloop_wake.specs.declared.Tally.{Tally};
    ghost use Rattle.calloop_sources.specs.sources.Calls.{CallbackCall, Went};
    ghost use Rattle.calloop_ends.specs.cell.CellSources.{OpenTurns};

    /// The argument of its callback.
    type Event;

    ghost tally_of: { Self → Tally };

    /// What a turn does that its cell opens.
    ghost opens: { OpenTurns Self Self.Event (Unit {0}) (Unit {0}) };

    fn tally(&self) -> &Tally
        ensures { result.now ≡ tally_of self.now };

    /// A turn of its cell, from its opening to its end. If the cell opens none, the pass comes back as refused.
    fn open_turn<F, X, Q>(
        &mut self,
        pass: TakenPass,
        callback: &mut F,
        data: &mut X,
        requests: &mut Q,
    ) -> Result<PostAction, TakenPass>
    where
        Q: Asking,
        F: Callback<Self::Event, (), (), X, Q>,
        ensures ok { IfOk result (λ action.
            (calls : List (CallbackCall Self.Event (Unit {0}) (Unit {0})))
            × opens self.old calls action self.new
            × Went F.may Q.reaches callback.old «data».old requests.old calls
            callback.new «data».new requests.new) }
        ensures err { IfErr result (λ refused.
            (refused ≡ record pass { refused = Some (tally_of self.old).name })
            × (self.new ≡ self.old)
            × Went F.may Q.reaches callback.old «data».old requests.old []
            callback.new «data».new requests.new) };
}

/// The source's turn, for an event of this token. An event of another token, or without a posted key behind it, does nothing. A
/// pass that the cell refuses is put back.
pub(crate) fn take_turn<K, E, P, C, R, F, X, Q>(
    source: &mut K,
    token: Token,
    poll: &mut Poll<P, C, R>,
    callback: &mut F,
    data: &mut X,
    requests: &mut Q,
) -> Result<PostAction, E>
where
    K: CellSource,
    P: Poller,
    R: Wait + Drop,
    Q: Asking,
    F: Callback<K::Event, (), (), X, Q>,
    ensures { (calls : List (CallbackCall K.Event (Unit {0}) (Unit {0})))
        × TakesTurn P.outside K.tally_of K.opens token source.old (poll_view poll.old)
        calls result source.new (poll_view poll.new)
        × Went F.may Q.reaches callback.old «data».old requests.old calls
        callback.new «data».new requests.new }
{
    if !is_mine(source.tally(), token) {
        return Ok(PostAction::Continue);
    }
    let Some(pass) = poll.take_pass() else {
        return Ok(PostAction::Continue);
    };
    match source.open_turn(pass, callback, data, requests) {
        Ok(action) => Ok(action),
        Err(pass) => {
            poll.put_back(pass);
            Ok(PostAction::Continue)
        }
    }
}

/// True if the cell has the key of this token.
fn is_mine(tally: &Tally, token: Token) -> bool
    ensures { result ≡ is_own (key_of token) tally.now.key }
{
    tally.key() == Some(token.key())
}

impl<K: CellCore, R: Wait + Drop> ReceivingEnd<K, R> {
    pub(crate) fn tally(&self) -> &Tally
        ensures { result.now ≡ self.now.tally }
    {
        &self.tally
    }

    /// Registers the cell under the factory's next token. What is due in it is posted at once.
    ///
    /// Fails with `IoError` of kind `AlreadyExists` if it is registered already, with `TooManyTokens` if the factory has no token
    /// left, and with `OutOfMemory` if memory runs out. On failure the cell and the board are unchanged.
    pub(crate) fn register<P: Poller, C>(
        &mut self,
        poll: &Poll<P, C, R>,
        factory: &mut TokenFactory,
    ) -> LoopResult<()>
        ensures tag { self.new.tag ≡ self.old.tag }
        ensures registers { Registers {P = P} self.old.tally factory.old result []
            self.new.tally factory.new }
    {
        if self.tally.key().is_some() {
            let cause = io::Error::from(io::ErrorKind::AlreadyExists);
            return Err(Error::IoError(cause));
        }
        let token = factory.token()?;
        self.attach(poll.hub(), token)
    }

    /// Moves the registration to the factory's next token; under the same key it does nothing. What is due in the cell is posted
    /// under the new key.
    ///
    /// Fails with `IoError` of kind `NotFound` if it isn't registered, with `TooManyTokens` if the factory has no token left,
    /// with `IoError` of kind `AlreadyExists` if the place of the new key is open already, and with `OutOfMemory` if memory runs
    /// out. On failure the cell and the board are unchanged.
    pub(crate) fn reregister<P: Poller, C>(
        &mut self,
        poll: &Poll<P, C, R>,
        factory: &mut TokenFactory,
    ) -> LoopResult<()>
        ensures tag { self.new.tag ≡ self.old.tag }
        ensures registers { RegistersAnew {P = P} self.old.tally factory.old result []
            self.new.tally factory.new }
    {
        if self.tally.key().is_none() {
            let cause = io::Error::from(io::ErrorKind::NotFound);
            return Err(Error::IoError(cause));
        }
        let next = factory.token()?;
        if is_mine(&self.tally, next) {
            return Ok(());
        }
        self.attach(poll.hub(), next)
    }

    /// Takes the registration back. What is due in the cell is told after the next registration. Fails with `IoError` of kind
    /// `NotFound` if it isn't registered, and then nothing changes.
    pub(crate) fn unregister<P: Poller, C>(&mut self, _poll: &Poll<P, C, R>) -> LoopResult<()>
        ensures tag { self.new.tag ≡ self.old.tag }
        ensures unregisters { Unregisters {P = P} self.old.tally result [] self.new.tally }
    {
        if self.tally.key().is_none() {
            let cause = io::Error::from(io::ErrorKind::NotFound);
            return Err(Error::IoError(cause));
        }
        self.detach();
        Ok(())
    }
}
