//! What callbacks ask of the loop, and the answers. A callback of calloop holds a handle of its loop instead, whose calls act at
//! once, except those on its own source.
ghost use Rattle.std.specs.Prelude.{◌≡◌, true, ◌⊎◌, ◌+◌, ◌-◌, ◌^◌, ◌<◌, ◌≤◌, ◌++◌, [], None, Some, filter, IfOk, IfErr, IfSome, IfNone, OnOk, map, vec_len, vec_capacity};
ghost use Rattle.std.specs.VecDeque.{deque_len, deque_capacity};
ghost use Rattle.calloop_slots.specs.declared.error.Error.TheVariants.{OutOfMemory, TooManyTickets};
ghost use Rattle.calloop_loop.specs.declared.asks.Request.TheVariants.{Insert, Enable, Update, Disable, SetDeadline, Remove, Idle as IdleOf, Cancel};
ghost use Rattle.calloop_loop.specs.declared.asks.Answer.TheVariants.{Removed};
ghost use Rattle.calloop_loop.specs.Askings.{IsAsked, CannotAsk, OnlyAsks, StandsAt, Take, ask_after, after_begin, without_old, answer_under, idle_begun, is_other_idle, is_source, keeper_of, last_ticket, no_asks, none_kept_for, not_kept_for, of_turn, stays_on, with_answer_owed, with_owed_answer, request_of, running_of, taken_up, with_answer, with_idle, with_new_idle, without, without_idle};

use super::keepers::Keepers;
use calloop_slots::error::{Error, InsertError, Result};
use calloop_slots::token::RegistrationToken;
use calloop_slots::wheel::Instant;
use calloop_sources::sources::{Asking, Choice, Dispatcher};
use std::alloc::Global;
use std::collections::VecDeque;
use std::marker::Model;

/// The name of a request and of its answer.
#[derive(Clone, Copy, Debug, PartialEq, Eq)]
pub struct Ticket {
    number: u64,
}

impl Ticket {
    pub(super) fn number(self) -> u64
        ensures { result ≡ self.number }
    {
        self.number
    }
}

/// The handle of something that a loop was asked to do once, when nothing else is left to do. Dropping it cancels nothing.
#[derive(Debug, Drop)]
pub struct Idle {
    ticket: Ticket,
}

impl Idle {
    /// The ticket of the idle's request.
    pub fn ticket(&self) -> Ticket
        ensures { result ≡ self.now.ticket }
    {
        self.ticket
    }
}

/// The answer to a request.
#[derive(Drop)]
pub enum Answer<D> {
    /// The request was carried out.
    Done,
    /// The source was registered under this token.
    Inserted(RegistrationToken),
    /// The source was not registered, and is handed back.
    NotInserted(InsertError<D>),
    /// The source that left the loop, unregistered, with its callback. `None` if the token named none.
    Removed(Option<D>),
    /// Nothing was done, or a source failed at what it was asked for.
    Refused(Error),
}

#[derive(Drop)]
pub(super) enum Request<D, I> {
    Insert(D),
    Enable(RegistrationToken),
    Update(RegistrationToken),
    Disable(RegistrationToken),
    SetDeadline(RegistrationToken, Instant),
    Remove(RegistrationToken),
    Idle(I),
    Cancel(u64),
}

// A request under its ticket.
#[derive(Drop)]
pub(super) struct Asked<D, I> {
    ticket: u64,
    request: Request<D, I>,
}

// An answer under the ticket of its request.
#[derive(Drop)]
pub(super) struct Answered<D> {
    ticket: u64,
    answer: Answer<D>,
    // The source that is to find the answer in its next turn.
    kept_for: Option<RegistrationToken>,
}

// An idle under the ticket of its request.
#[derive(Drop)]
pub(super) struct Idling<I> {
    ticket: u64,
    idle: I,
}

/// What the callbacks of a loop over `D` ask for, and the answers that were not handed out. The requests of a turn are carried
/// out in order when the turn ends. `I` is the type of what the loop can be asked to do once.
///
/// Each call takes the room for its answer first, so that nothing fails for lack of memory later. It fails with `OutOfMemory` if
/// there is none, and with `TooManyTickets` if 2^64 - 1 tickets were given; then nothing is asked for.
#[derive(Drop)]
pub struct Requests<D, I = ()> {
    written: VecDeque<Asked<D, I>>,
    next: u64,
    answers: Vec<Answered<D>>,
    // The sources for which answers are kept, or were.
    keepers: Keepers,
    idles: VecDeque<Idling<I>>,
    // The idles of this dispatch that have not run yet.
    running: VecDeque<Idling<I>>,
    serving: Option<u64>,
    owed: Option<u64>,
    // The next ticket when idles were last taken up, and when answers were last cleared.
    taken_up_at: u64,
    cleared_at: u64,
    // The source in whose turn the requests are lent, or were lent last. None in the round of idles.
    turn: Option<RegistrationToken>,
}

impl<D, I> Model for Requests<D, I> {
    ghost use Rattle.std.specs.Prelude.{◌+◌, ◌<◌, ◌≤◌, IfSome, vec_len, vec_capacity};
    ghost use Rattle.std.specs.VecDeque.{deque_len, deque_capacity};
    ghost use Rattle.calloop_loop.specs.Askings.{Asks, debt};
    ghost use Rattle.std.specs.List.{All};

    ghost Value = { Asks D I };

    ghost view = { λ r.
        record {
          written = r.written.items;
          next = r.next;
          answers = r.answers.items;
          idles = r.idles.items;
          running = r.running.items;
          serving = r.serving;
          owed = r.owed;
          taken_up_at = r.taken_up_at;
          cleared_at = r.cleared_at;
          turn = r.turn;
        } };

    ghost invariant = { λ r.
        (vec_len r.answers + (deque_len r.written + (debt r.serving + debt r.owed)) ≤ vec_capacity r.answers)
        × (deque_len r.idles + (deque_len r.written + debt r.serving) ≤ deque_capacity r.idles)
        × (deque_len r.running + (deque_len r.idles + (deque_len r.written + debt r.serving)) ≤ deque_capacity r.running)
        × All (λ a. IfSome a.kept_for
        (λ t. (r.keepers.first ≤ t.slot) × (t.slot < r.keepers.end))) r.answers.items };
}

impl<D, I> Asking for Requests<D, I> {
    ghost use Rattle.calloop_loop.specs.Askings.{Reaches, asks_nothing, asks_on};

    ghost reaches = { Reaches };

    ghost stays = { asks_nothing };

    ghost goes_on = { asks_on };
}

impl<D, I> Requests<D, I> {
    /// Makes requests of no loop, with nothing asked for, whose first ticket has this number: to try a callback by itself, or
    /// what it does when tickets run out. Those of a loop begin at 0.
    pub fn numbered_from(first: u64, alloc: Global) -> Requests<D, I>
        ensures { result ≡ record no_asks { next = first } }
    {
        Requests {
            written: VecDeque::new(alloc),
            next: first,
            answers: Vec::new(alloc),
            keepers: Keepers::none(),
            idles: VecDeque::new(alloc),
            running: VecDeque::new(alloc),
            serving: None,
            owed: None,
            taken_up_at: 0,
            cleared_at: 0,
            turn: None,
        }
    }

    /// Asks for a source to be registered in the first vacant slot, with a callback for its events. The answer is `Inserted` or
    /// `NotInserted`. If this call fails, it hands the source back, and drops its callback.
    pub fn insert_source<S, F, N>(
        &mut self,
        source: S,
        callback: F,
    ) -> std::result::Result<Ticket, InsertError<S>>
    where
        D: Choice<S, F, N> + Drop,
        I: Drop,
        F: Drop,
        ensures ok { IfOk result
            (λ t. IsAsked (Insert (D.held (record { source = source; callback = callback })))
            t.number self.old self.new) }
        ensures err { IfErr result (λ e. (e.inserted ≡ source) × CannotAsk self.old e.error
            × (self.new ≡ self.old)) }
        ensures asks { OnlyAsks self.old self.new }
    {
        let number = match next_ticket(
            self.next,
            &mut self.written,
            &mut self.answers,
            &mut self.idles,
            &mut self.running,
        ) {
            Ok(number) => number,
            Err(error) => {
                return Err(InsertError {
                    inserted: source,
                    error,
                });
            }
        };
        let dispatcher = D::hold(Dispatcher { source, callback });
        self.written.push_back_reserved(Asked {
            ticket: number,
            request: Request::Insert(dispatcher),
        });
        self.next = number + 1;
        Ok(Ticket { number })
    }

    /// Asks for a dispatcher to be registered in the first vacant slot: a source with its callback, as the loop holds them. The
    /// answer is `Inserted` or `NotInserted`. If this call fails, it hands the dispatcher back.
    pub fn register_dispatcher(
        &mut self,
        dispatcher: D,
    ) -> std::result::Result<Ticket, InsertError<D>>
    where
        D: Drop,
        I: Drop,
        ensures ok { IfOk result (λ t. IsAsked (Insert dispatcher) t.number self.old self.new) }
        ensures err { IfErr result (λ e. (e.inserted ≡ dispatcher) × CannotAsk self.old e.error
            × (self.new ≡ self.old)) }
        ensures asks { OnlyAsks self.old self.new }
    {
        match self.write(Request::Insert(dispatcher)) {
            Ok(ticket) => Ok(ticket),
            Err(InsertError { inserted, error }) => match inserted {
                Request::Insert(dispatcher) => Err(InsertError {
                    inserted: dispatcher,
                    error,
                }),
                _ => unreachable!(),
            },
        }
    }

    /// Asks for the source that the token names to be registered, as after `disable`. The answer is `Done`, or `Refused`: with
    /// `InvalidToken` if the token names no source, with `OwnTurn` if that source is the one in its turn, and else with the
    /// source's own error.
    pub fn enable(&mut self, token: &RegistrationToken) -> Result<Ticket>
    where
        D: Drop,
        I: Drop,
        ensures ok { IfOk result (λ t. IsAsked (Enable token.now) t.number self.old self.new) }
        ensures err { IfErr result (λ e. CannotAsk self.old e × (self.new ≡ self.old)) }
        ensures asks { OnlyAsks self.old self.new }
    {
        self.write(Request::Enable(*token))
            .map_err(|refused| refused.error)
    }

    /// Asks for the source that the token names to be registered anew. The answer is as for `enable`, but the source in its turn
    /// is registered anew when its turn ends, if that answers `Continue`.
    pub fn update(&mut self, token: &RegistrationToken) -> Result<Ticket>
    where
        D: Drop,
        I: Drop,
        ensures ok { IfOk result (λ t. IsAsked (Update token.now) t.number self.old self.new) }
        ensures err { IfErr result (λ e. CannotAsk self.old e × (self.new ≡ self.old)) }
        ensures asks { OnlyAsks self.old self.new }
    {
        self.write(Request::Update(*token))
            .map_err(|refused| refused.error)
    }

    /// Asks for the registration of the source that the token names to be taken back. The answer is as for `update`.
    pub fn disable(&mut self, token: &RegistrationToken) -> Result<Ticket>
    where
        D: Drop,
        I: Drop,
        ensures ok { IfOk result (λ t. IsAsked (Disable token.now) t.number self.old self.new) }
        ensures err { IfErr result (λ e. CannotAsk self.old e × (self.new ≡ self.old)) }
        ensures asks { OnlyAsks self.old self.new }
    {
        self.write(Request::Disable(*token))
            .map_err(|refused| refused.error)
    }

    /// Asks for the timer that the token names to be armed for this deadline of the loop's clock, in place of the one that it has,
    /// also if it is disabled. The answer is `Done`, or `Refused`: with `InvalidToken` if the token names no source, or
    /// one that is no timer, which stays as it was; with `OwnTurn` if that source is the one in its turn, whose callback sets the
    /// deadline by what it returns; and with `OutOfMemory` or `TooManyTimers` if the timer can't be armed. Then it is unarmed, with
    /// this deadline. A timer within a `Both`, a `Movable` or a `TransientSource` is none here. A caller of calloop sets the
    /// deadline by `as_source_mut`, and then calls `update`.
    pub fn set_deadline(&mut self, token: &RegistrationToken, deadline: Instant) -> Result<Ticket>
    where
        D: Drop,
        I: Drop,
        ensures ok { IfOk result
            (λ t. IsAsked (SetDeadline token.now deadline) t.number self.old self.new) }
        ensures err { IfErr result (λ e. CannotAsk self.old e × (self.new ≡ self.old)) }
        ensures asks { OnlyAsks self.old self.new }
    {
        self.write(Request::SetDeadline(*token, deadline))
            .map_err(|refused| refused.error)
    }

    /// Asks for the source that the token names to leave the loop. The answer is `Removed`. If that source is in its turn, its
    /// slot is vacant at once, and it is unregistered and answered when the turn is over.
    pub fn remove(&mut self, token: RegistrationToken) -> Result<Ticket>
    where
        D: Drop,
        I: Drop,
        ensures ok { IfOk result (λ t. IsAsked (Remove token) t.number self.old self.new) }
        ensures err { IfErr result (λ e. CannotAsk self.old e × (self.new ≡ self.old)) }
        ensures asks { OnlyAsks self.old self.new }
    {
        self.write(Request::Remove(token))
            .map_err(|refused| refused.error)
    }

    /// Asks for something to be done once, at the end of a dispatch: of this one, or of the next one if an idle that runs asks
    /// for it. The answer, `Done`, says that it was taken up. If this call fails, it hands the idle back.
    pub fn insert_idle(&mut self, idle: I) -> std::result::Result<Idle, InsertError<I>>
    where
        D: Drop,
        I: Drop,
        ensures ok { IfOk result (λ i. IsAsked (IdleOf idle) i.ticket.number self.old self.new) }
        ensures err { IfErr result (λ e. (e.inserted ≡ idle) × CannotAsk self.old e.error
            × (self.new ≡ self.old)) }
        ensures asks { OnlyAsks self.old self.new }
    {
        match self.write(Request::Idle(idle)) {
            Ok(ticket) => Ok(Idle { ticket }),
            Err(InsertError { inserted, error }) => match inserted {
                Request::Idle(idle) => Err(InsertError {
                    inserted: idle,
                    error,
                }),
                _ => unreachable!(),
            },
        }
    }

    /// Asks for an idle not to be run. The answer is `Done`, even if it has run. If this call fails, it hands the idle back.
    pub fn cancel(&mut self, idle: Idle) -> std::result::Result<Ticket, InsertError<Idle>>
    where
        D: Drop,
        I: Drop,
        ensures ok { IfOk result
            (λ t. IsAsked (Cancel idle.ticket.number) t.number self.old self.new) }
        ensures err { IfErr result (λ e. (e.inserted ≡ idle) × CannotAsk self.old e.error
            × (self.new ≡ self.old)) }
        ensures asks { OnlyAsks self.old self.new }
    {
        match self.write(Request::Cancel(idle.ticket.number)) {
            Ok(ticket) => Ok(ticket),
            Err(refused) => Err(InsertError {
                inserted: idle,
                error: refused.error,
            }),
        }
    }

    /// The token of the source in whose turn the requests are lent, by which its callback can ask for its own removal, or tell
    /// others of it. `None` if they are lent to an idle. calloop's callbacks aren't told.
    pub fn own_token(&self) -> Option<RegistrationToken>
        ensures { result ≡ self.now.turn }
    {
        self.turn
    }

    /// Hands out the answer to the request of this ticket once, after it was carried out. The answer is gone when a dispatch has
    /// made its room after the idles that were asked for beside it were taken up. If dispatches fail before their idles, it stays
    /// until the end of the next dispatch that made its room, and longer only while an idle that was asked for after it waits. In
    /// calloop a call of the handle answers at once.
    ///
    /// The answer to an insertion that was asked for in a source's turn is also there in the next turn of that source, however
    /// late it comes; the first dispatch after that turn drops it. If the source leaves the loop or is disabled before, the answer
    /// is gone like any other.
    pub fn answer(&mut self, ticket: Ticket) -> Option<Answer<D>>
        ensures value { result ≡ answer_under ticket.number self.old.answers }
        ensures rest { self.new ≡ ask_after self.old (Take ticket.number) }
        ensures asks { OnlyAsks self.old self.new }
    {
        take(&mut self.answers, ticket.number)
    }

    // Writes a request under the next ticket. On failure it hands the request back.
    fn write(
        &mut self,
        request: Request<D, I>,
    ) -> std::result::Result<Ticket, InsertError<Request<D, I>>>
    where
        D: Drop,
        I: Drop,
        ensures ok { IfOk result (λ t. IsAsked request t.number self.old self.new) }
        ensures err { IfErr result (λ e. (e.inserted ≡ request) × CannotAsk self.old e.error
            × (self.new ≡ self.old)) }
        ensures asks { OnlyAsks self.old self.new }
    {
        let number = match next_ticket(
            self.next,
            &mut self.written,
            &mut self.answers,
            &mut self.idles,
            &mut self.running,
        ) {
            Ok(number) => number,
            Err(error) => {
                return Err(InsertError {
                    inserted: request,
                    error,
                });
            }
        };
        self.written.push_back_reserved(Asked {
            ticket: number,
            request,
        });
        self.next = number + 1;
        Ok(Ticket { number })
    }
}

impl<D, I> Requests<D, I> {
    // Lends the requests in the turn of this source from now on. Answers that were kept for it are gone with the next dispatch.
    pub(super) fn enter_turn(&mut self, token: RegistrationToken)
        ensures { self.new ≡ of_turn token self.old }
    {
        self.keep_none_for(token);
        self.turn = Some(token);
    }

    // Keeps no answer for this source any more.
    pub(super) fn keep_none_for(&mut self, token: RegistrationToken)
        ensures { self.new ≡ none_kept_for token self.old }
    {
        if self.keepers.may_have(token) {
            keep_none(&mut self.answers, token);
        }
    }

    // True if nothing is asked for.
    pub(super) fn has_none(&self) -> bool
        ensures { result ≡ true → self.now.written ≡ [] }
    {
        self.written.is_empty()
    }

    // Takes out the first request, which is carried out from now on.
    pub(super) fn begin(&mut self) -> Option<Request<D, I>>
        ensures first { result ≡ request_of self.old.written }
        ensures asks { self.new ≡ after_begin self.old }
    {
        let asked = self.written.pop_front()?;
        self.serving = Some(asked.ticket);
        Some(asked.request)
    }

    // Answers the request that is carried out. The answer to an insertion is kept for the source that asked in its turn.
    pub(super) fn put_answer(&mut self, answer: Answer<D>)
    where
        D: Drop,
        ensures { self.new ≡ with_answer answer self.old }
    {
        if let Some(ticket) = self.serving {
            self.serving = None;
            let answered = answered_in(self.turn, ticket, answer);
            self.keepers = self.keepers.with(answered.kept_for);
            self.answers.push_reserved(answered);
        }
    }

    // Owes the answer of the request that is carried out.
    pub(super) fn owe(&mut self)
        ensures { self.new ≡ with_answer_owed self.old }
    {
        self.owed = self.serving;
        self.serving = None;
    }

    // Hands back a source that left, if that answer is owed. Else drops it.
    pub(super) fn hand_back(&mut self, left: D)
    where
        D: Drop,
        ensures { self.new ≡ with_owed_answer (Removed (Some left)) self.old }
    {
        if let Some(ticket) = self.owed {
            self.owed = None;
            self.answers.push_reserved(Answered {
                ticket,
                answer: Answer::Removed(Some(left)),
                kept_for: None,
            });
        }
    }

    // Begins a dispatch. Drops the answers to what was asked for before idles were last taken up: what was asked beside it has
    // run. Also drops those to what was asked for before the last dispatch, unless an idle that was asked for later waits still.
    // Those that are kept for a source stay.
    pub(super) fn clear_answers(&mut self)
    where
        D: Drop,
        ensures { self.new ≡ without_old self.old }
    {
        let last = last_ticket(&self.idles);
        drop_old(&mut self.answers, self.taken_up_at, self.cleared_at, last);
        self.cleared_at = self.next;
    }

    // Puts the idle of the request that is carried out at the end, and answers that request.
    pub(super) fn put_idle(&mut self, idle: I)
    where
        D: Drop,
        I: Drop,
        ensures { self.new ≡ with_idle idle self.old }
    {
        if let Some(ticket) = self.serving {
            self.serving = None;
            self.idles.push_back_reserved(Idling { ticket, idle });
            self.answers.push_reserved(Answered {
                ticket,
                answer: Answer::Done,
                kept_for: None,
            });
        }
    }

    // Puts an idle that no callback asked for at the end, under the next ticket. On failure it hands the idle back.
    pub(super) fn add_idle(&mut self, idle: I) -> std::result::Result<Idle, InsertError<I>>
    where
        I: Drop,
        ensures ok { IfOk result (λ i. (self.old.next < 2 ^ 64 - 1)
            × (i.ticket.number ≡ self.old.next) × (self.new ≡ with_new_idle idle self.old)) }
        ensures err { IfErr result (λ e. (e.inserted ≡ idle) × CannotAsk self.old e.error
            × (self.new ≡ self.old)) }
    {
        let number = match next_ticket(
            self.next,
            &mut self.written,
            &mut self.answers,
            &mut self.idles,
            &mut self.running,
        ) {
            Ok(number) => number,
            Err(error) => {
                return Err(InsertError {
                    inserted: idle,
                    error,
                });
            }
        };
        self.idles.push_back_reserved(Idling {
            ticket: number,
            idle,
        });
        self.next = number + 1;
        Ok(Idle {
            ticket: Ticket { number },
        })
    }

    // Takes out the idle of this ticket.
    pub(super) fn take_out_idle(&mut self, ticket: u64)
    where
        I: Drop,
        ensures { self.new ≡ without_idle ticket self.old }
    {
        take_out(&mut self.idles, ticket);
        take_out(&mut self.running, ticket);
    }

    // Has all idles run from now on; later ones wait. No source is in its turn.
    pub(super) fn take_up_idles(&mut self)
        ensures { self.new ≡ taken_up self.old }
    {
        move_all(&mut self.idles, &mut self.running);
        self.taken_up_at = self.next;
        self.turn = None;
    }

    // Takes out the first of the idles that run.
    pub(super) fn next_idle(&mut self) -> Option<I>
        ensures first { result ≡ running_of self.old.running }
        ensures asks { self.new ≡ idle_begun self.old }
    {
        let first = self.running.pop_front()?;
        Some(first.idle)
    }
}

// The ticket for another request, with room for the request, for its answer, and for an idle if it asks for one.
fn next_ticket<D, I>(
    next: u64,
    written: &mut VecDeque<Asked<D, I>>,
    answers: &mut Vec<Answered<D>>,
    idles: &mut VecDeque<Idling<I>>,
    running: &mut VecDeque<Idling<I>>,
) -> Result<u64>
    ensures ok { IfOk result (λ n. (n ≡ next) × (next < 2 ^ 64 - 1)) }
    ensures err { IfErr result (λ e. ((next ≡ 2 ^ 64 - 1) × (e ≡ TooManyTickets))
        ⊎ ((next < 2 ^ 64 - 1) × (e ≡ OutOfMemory))) }
    ensures room { OnOk result ((deque_len written.new + 1 ≤ deque_capacity written.new)
        × (vec_len answers.new + (deque_len written.new + 3) ≤ vec_capacity answers.new)
        × (deque_len idles.new + (deque_len written.new + 3) ≤ deque_capacity idles.new)
        × (deque_len running.new + (deque_len idles.new + (deque_len written.new + 3))
        ≤ deque_capacity running.new)) }
    ensures items { (written.new.items ≡ written.old.items)
        × (answers.new.items ≡ answers.old.items) × (idles.new.items ≡ idles.old.items)
        × (running.new.items ≡ running.old.items) }
    ensures lens { (deque_len written.new ≡ deque_len written.old)
        × (vec_len answers.new ≡ vec_len answers.old) × (deque_len idles.new ≡ deque_len idles.old)
        × (deque_len running.new ≡ deque_len running.old) }
    ensures capacities { (vec_capacity answers.old ≤ vec_capacity answers.new)
        × (deque_capacity idles.old ≤ deque_capacity idles.new)
        × (deque_capacity running.old ≤ deque_capacity running.new) }
{
    if next == u64::MAX {
        return Err(Error::TooManyTickets);
    }
    let Some(more) = written.len().checked_add(3) else {
        return Err(Error::OutOfMemory);
    };
    let Some(idling) = idles.len().checked_add(more) else {
        return Err(Error::OutOfMemory);
    };
    written.reserve(1)?;
    answers.reserve(more)?;
    idles.reserve(more)?;
    running.reserve(idling)?;
    Ok(next)
}

// Moves all idles to the end of another list, in order.
fn move_all<I>(from: &mut VecDeque<Idling<I>>, to: &mut VecDeque<Idling<I>>)
    requires { deque_len to.old + deque_len from.old ≤ deque_capacity to.old }
    ensures items { (to.new.items ≡ to.old.items ++ from.old.items) × (from.new.items ≡ []) }
    ensures lens { (deque_len to.new ≡ deque_len to.old + deque_len from.old)
        × (deque_len from.new ≡ 0) }
    ensures room { (deque_capacity to.old ≤ deque_capacity to.new)
        × (deque_capacity from.new ≡ deque_capacity from.old) }
{
    let _moved = to.append(from);
}

// Takes out the idle of this ticket.
fn take_out<I: Drop>(idles: &mut VecDeque<Idling<I>>, ticket: u64)
    ensures items { idles.new.items ≡ filter (is_other_idle ticket) idles.old.items }
    ensures room { (deque_len idles.new ≤ deque_len idles.old)
        × (deque_capacity idles.new ≡ deque_capacity idles.old) }
{
    idles.retain(|other| other.ticket != ticket);
}

// The ticket of the last idle, or 0 if there is none.
fn last_ticket<I>(idles: &VecDeque<Idling<I>>) -> u64
    ensures { result ≡ last_ticket idles.now.items }
{
    match idles.back() {
        Some(idle) => idle.ticket,
        None => 0,
    }
}

// An answer to a request that was written in this turn.
fn answered_in<D>(turn: Option<RegistrationToken>, ticket: u64, answer: Answer<D>) -> Answered<D>
    ensures { result ≡ record {
      ticket = ticket;
      answer = answer;
      kept_for = keeper_of turn answer;
    } }
{
    let kept_for = keeper_of(turn, &answer);
    Answered {
        ticket,
        answer,
        kept_for,
    }
}

// The source for which an answer is kept, if its request was written in this turn.
fn keeper_of<D>(turn: Option<RegistrationToken>, answer: &Answer<D>) -> Option<RegistrationToken>
    ensures { result ≡ keeper_of turn answer.now }
{
    match answer {
        Answer::Inserted(_) | Answer::NotInserted(_) => turn,
        _ => None,
    }
}

// Keeps no answer for this source any more.
fn keep_none<D>(answers: &mut Vec<Answered<D>>, token: RegistrationToken)
    ensures items { answers.new.items ≡ map (not_kept_for token) answers.old.items }
    ensures room { (vec_len answers.new ≡ vec_len answers.old)
        × (vec_capacity answers.new ≡ vec_capacity answers.old) }
{
    for place in 0..answers.len() {
        let answered = &mut answers[place];
        keep_not(answered, token);
    }
}

fn keep_not<D>(answered: &mut Answered<D>, token: RegistrationToken)
    ensures { answered.new ≡ not_kept_for token answered.old }
{
    if is_source(token, answered.kept_for) {
        answered.kept_for = None;
    }
}

fn is_source(token: RegistrationToken, kept_for: Option<RegistrationToken>) -> bool
    ensures { result ≡ is_source token kept_for }
{
    match kept_for {
        Some(other) => other == token,
        None => false,
    }
}

// Drops the answers that are kept for no source if their tickets are before `taken_up_at`, or neither since `cleared_at` nor
// before `last`.
fn drop_old<D: Drop>(answers: &mut Vec<Answered<D>>, taken_up_at: u64, cleared_at: u64, last: u64)
    ensures items { answers.new.items
        ≡ filter (stays_on taken_up_at cleared_at last) answers.old.items }
    ensures room { (vec_len answers.new ≤ vec_len answers.old)
        × (vec_capacity answers.new ≡ vec_capacity answers.old) }
{
    answers.retain(|answered| {
        answered.kept_for.is_some()
            || (answered.ticket >= taken_up_at
                && (answered.ticket >= cleared_at || answered.ticket < last))
    });
}

// The position of the answer under this ticket.
fn place_of<D>(answers: &[Answered<D>], ticket: u64) -> Option<usize>
    ensures some { IfSome result (λ place. StandsAt ticket place answers.now) }
    ensures none { IfNone result ((answer_under ticket answers.now ≡ None)
        × (without ticket answers.now ≡ answers.now)) }
{
    for (place, answered) in answers.iter().enumerate() {
        if answered.ticket == ticket {
            return Some(place);
        }
    }
    None
}

fn take<D>(answers: &mut Vec<Answered<D>>, ticket: u64) -> Option<Answer<D>>
    ensures value { result ≡ answer_under ticket answers.old.items }
    ensures rest { answers.new.items ≡ without ticket answers.old.items }
    ensures room { (vec_len answers.new ≤ vec_len answers.old)
        × (vec_capacity answers.new ≡ vec_capacity answers.old) }
{
    let place = place_of(answers, ticket)?;
    Some(answers.remove(place).answer)
}
