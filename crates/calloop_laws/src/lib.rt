//! What holds of every run of a loop: laws of the machine of `calloop`'s contracts, possible runs, and wrong ones that the laws
//! rule out; and what holds of a loop with the wake machine, whose steps its board makes. Nothing of `calloop` depends on them.
#![tactic(auto)]

ghost use Rattle.std.specs.Prelude.{◌≡◌, ℕ, List, [], ◌∷◌, Some, None, ◌++◌, true, Ok};
ghost use Rattle.calloop_slots.specs.Widths.{versions};
ghost use Rattle.calloop_slots.specs.declared.error.Error.{Error};
ghost use Rattle.calloop_loop.specs.Machine.{World, View, IsNew};
ghost use Rattle.calloop_loop.specs.Rules.{Run, DispatchedBy, after_changes};
ghost use Rattle.calloop_laws.specs.Homes.{AllAtHome};
ghost use Rattle.calloop_laws.specs.Served.{IsAccountOf, OverEveryDispatch, NothingIsLeft, AllAreCut, NoneIsLate, DueAreCut, IdlesRan, DeadlinesStaySorted};
ghost use Rattle.calloop_laws.specs.Unserved.{SmallAccount, two_wait, cuts_one, cuts_two, cuts_three, cuts_before, gathers_nothing, gathers_twice, takes_no_round, runs_no_idle, idle_waits, in_another_order, first_stays, second_stays, before_its_dispatch, account_of_it};
ghost use Rattle.calloop_laws.specs.Unserved.{runs_one_idle, two_idles_wait, cuts_the_first_timer, NothingIsCut};
ghost use Rattle.calloop_laws.specs.ExampleRun.{of_the_dispatch};
ghost use Rattle.calloop_laws.specs.Laws.{flatten};
ghost use Rattle.calloop_laws.specs.EveryRun.{OverEveryRun, FromTheStart, EventsReachTheirSource, ArmingsAreKept, ArmingsAreKeptOfFresh, SourcesKeepToTheirSlots, WhoIsToldStandsOnce, TicketsAreOfOneAnswer};
ghost use Rattle.calloop_laws.specs.Laws.{IsLedgerOf, IsSound, AllFresh, changes_of, IsTold, IsTicketed, GoesRight, NamesLater, StaysGone, OnTime};
ghost use Rattle.calloop_laws.specs.Freshness.{AsksFresh, RunsFresh, AllFreshCalls, AllKeepKeys};
ghost use Rattle.calloop_slots.specs.declared.list.Content.TheVariants.{Vacant};
ghost use Rattle.calloop_laws.specs.ExampleRun.{only, no_idle, quiet_poller, new_world, its_calls, its_answers, its_changes, its_run, end_of_it};
ghost use Rattle.calloop_poll.specs.sys.Polls.{PollView, posted_event};
ghost use Rattle.logbook.specs.Pages.{Book};
ghost use Rattle.calloop_sources.specs.sources.Meanings.{IsKeeping};
ghost use Rattle.calloop_loop.specs.Rules.{all_traced};
ghost use Rattle.calloop_laws.specs.WrongRuns.{IsOutOfTime, second_event_goes_wrong, second_event_is_lost, ends_under_an_earlier_use, goes_back_to_an_earlier_use, ends_with_what_was_given_up, goes_back_to_what_was_given_up, that_ends, that_notes, second_waits_early, second_is_cut_early, second_call_differs, second_is_called_twice, second_is_twice, second_is_nowhere, with_one_deadline, with_one_event, keys_alone, second_is_elsewhere, second_is_told_twice, second_is_told_when_gone, second_is_answered_twice, second_is_asked_twice, second_is_handed_out_twice, adapters, with_two_adapters, of_a_settling, one_dispatch, one_answer, idle_never};
ghost use Rattle.calloop_laws.specs.WrongRuns.{idle_world, with_a_later_deadline_first};
ghost use Rattle.calloop_laws.specs.BusyRun.{anything, giving_poller, for_reading, busy_calls, busy_answers, busy_changes, behind_the_failure, two_found_but_one, busy_end};
ghost use Rattle.calloop_laws.specs.RearmedRun.{again, rearmed_calls, rearmed_answers, rearmed_changes, rearmed_end, call_at_ten};
ghost use Rattle.calloop_loop.specs.declared.asks.Answer.TheVariants.{Done};
ghost use Rattle.calloop_poll.specs.sys.Polls.{polled_events};
ghost use Rattle.calloop_poll.specs.sys.Tables.{watched_at};
ghost use Rattle.calloop_slots.specs.Tokens.{key_of};
ghost use Rattle.calloop_laws.specs.Wrong.{KeepsTheLastAlone, KeepsOfAFailure, TellsInTheOrderOfSlots, second_registration, first_token, first_registration, full_slot, given_up, early, in_two_places, called_twice, called_early, called_from_nowhere, called_with_another_deadline, in_no_place, armed_once, gathered_once, asked_twice, first_call, still_meaning, arms_elsewhere, used_with_an_old_key, answered_twice, one_ticket};
ghost use Rattle.calloop_laws.specs.Wrong.{in_its_turn, called_for, with_another_deadline, with_another_counter, called_for_the_later_one, with_one_never_made, answered_while_served, answered_while_owed};
ghost use Rattle.calloop_laws.specs.Laws.{AllOwnCalls, timely};
ghost use Rattle.calloop_wake.specs.Boards.{is_marked};
ghost use Rattle.calloop_wake_laws.specs.Kinds.{every_kind};
ghost use Rattle.calloop_wake_laws.specs.Lost.{of_pings, with_a_key_forgotten};
ghost use Rattle.calloop_wake_laws.specs.Wakes.{WakeWorld, IsSchedule, after_all};
ghost use Rattle.calloop_laws.specs.Examples.{SmallHistory, two_posted, leaves_one_out, takes_backwards, leaves_out_later, counts_one, sees_nothing, up_to_a_small_taking, small_taking, with_a_source, of_a_ring, history_of_a_ring, with_its_event, cuts_to_none, ends_with_one_left, drops_what_it_took, history_of_nothing, takes_nothing, with_a_ring_forgotten, history_with_a_clearing};
ghost use Rattle.calloop_laws.specs.Handed.{OverEachDispatch, IsNotedDispatch, IsHandedOut};
ghost use Rattle.calloop_laws.specs.Histories.{IsHistory, end_of, schedule_of, notes_of};
ghost use Rattle.calloop_laws.specs.Tied.{IsServedOf, ServesWhatIsPosted, ServesEachRing, EachServesWhatIsPosted};

use calloop::{EventDispatcher, Requests};
use calloop_poll::sys::{Clock, Poller};
use calloop_sources::callbacks::QuietDispatch;
use calloop_sources::idles::QuietIdle;
use std::sync::Wait;

mod turns;

pub use turns::{
    a_posted_channel_opens_its_turn, a_posted_executor_opens_its_turn,
    a_posted_stream_opens_its_turn, a_rung_ping_is_called, call_of_a_ring_that_there_is,
    what_was_queued_is_popped, what_was_sent_is_given,
};

/// Over every run of the machine, from any state: each event that is cut goes to exactly the source that its token names
/// at that moment, or to none; a token that named a registration names a later one of its slot only if the reuse count is
/// greater by a positive multiple of `VERSIONS`; and a registration that was given up stays given up.
///
/// And from a state in which nothing has happened, if no source held a timer counter of this loop when it came in: each
/// arming of a timer is in exactly one place, also across errors and re-arming; each call of a timer belongs to an arming of its
/// own, which was gathered when its deadline had come, and hands out its deadline. That premise is on the run (`brought`):
/// whatever the relations of callbacks and idles allow, what counts is what came in. It follows from premises on calls and
/// relations (`armings`), by which turns and idles request no other insertions than of sources that hold none.
///
/// And from such a state, each registration that is told of waits is in their list once, and names a slot that isn't vacant;
/// and each source in a slot is registered under keys of that slot alone, of the version under which it is there.
///
/// And from such a state, each ticket that was given is of at most one request or one answer, and its answer is handed out
/// at most once.
pub fn once<D: EventDispatcher<P, C, R>, P: Poller, C: Clock, R: Wait + Drop>()
    ensures sound { OverEveryRun D.means D.Idle.runs P.outside EventsReachTheirSource }
    ensures brought { OverEveryRun D.means D.Idle.runs P.outside
        (FromTheStart (ArmingsAreKeptOfFresh D.means)) }
    ensures armings { AsksFresh D.means → RunsFresh D.means D.Idle.runs
        → OverEveryRun D.means D.Idle.runs P.outside (FromTheStart (ArmingsAreKept D.means)) }
    ensures home { OverEveryRun D.means D.Idle.runs P.outside
        (FromTheStart (SourcesKeepToTheirSlots D.means)) }
    ensures told { OverEveryRun D.means D.Idle.runs P.outside (FromTheStart WhoIsToldStandsOnce) }
    ensures tickets { OverEveryRun D.means D.Idle.runs P.outside
        (FromTheStart TicketsAreOfOneAnswer) }
{}

/// Over every dispatch that returns `Ok`, from any state, whatever poller, sources, callbacks and idles return: it gathered,
/// once. No event is left waiting when it ends. The events in the batch right after the gathering were cut, all of them, in that
/// order, and no others. If the deadlines were sorted, as a wheel keeps them and as they are in every run from the start
/// (`sorted`), none that had come by the clock then is armed right after the gathering, and each timer that was armed for such a
/// one was cut. And it took up a round of idles, once, each of which has begun or was cancelled.
///
/// So a timer that is due when a dispatch gathers is cut in this same dispatch, or the dispatch fails.
pub fn each_dispatch_serves_all<D: EventDispatcher<P, C, R>, P: Poller, C: Clock, R: Wait + Drop>()
    ensures nothing_left { OverEveryDispatch D.means D.Idle.runs P.outside NothingIsLeft }
    ensures all_cut { OverEveryDispatch D.means D.Idle.runs P.outside AllAreCut }
    ensures none_is_late { OverEveryDispatch D.means D.Idle.runs P.outside NoneIsLate }
    ensures due_are_cut { OverEveryDispatch D.means D.Idle.runs P.outside DueAreCut }
    ensures idles_ran { OverEveryDispatch D.means D.Idle.runs P.outside IdlesRan }
    ensures sorted { OverEveryRun D.means D.Idle.runs P.outside (FromTheStart DeadlinesStaySorted) }
{}

/// What `each_dispatch_serves_all` rules out, each by its own definitions: a dispatch cuts one event of two and ends, or cuts
/// both and another that joined them after the gathering; it cuts an event before it gathers, doesn't gather, gathers twice, or
/// begins no round of idles: these have no account; it ends with an idle of its round left, the first or the second; an account
/// has two events in another order than they were cut; in it a timer for the very moment of the gathering stays armed, as the
/// first of two or behind a later one, or isn't cut; or the second of two earlier timers isn't cut. And a possible account: of
/// the dispatch of `run_that_there_is`, which gathers at 5 and cuts the event of the timer for 5.
pub fn unserved_dispatches_are_ruled_out()
    ensures there_is { (name : Book)
        → IsAccountOf (account_of_it name) (before_its_dispatch name)
        (flatten (of_the_dispatch name))
        × AllAreCut (account_of_it name) }
    ensures one_left { (name : Book) (a : SmallAccount) → IsAccountOf a (two_wait name) cuts_one
        → (¬ NothingIsLeft a) × (¬ AllAreCut a) }
    ensures one_more { (name : Book) (a : SmallAccount) → IsAccountOf a (two_wait name) cuts_three
        → ¬ AllAreCut a }
    ensures cut_before { (name : Book) (a : SmallAccount)
        → ¬ IsAccountOf a (two_wait name) cuts_before }
    ensures not_gathered { (name : Book) (a : SmallAccount)
        → ¬ IsAccountOf a (two_wait name) gathers_nothing }
    ensures gathered_twice { (name : Book) (a : SmallAccount)
        → ¬ IsAccountOf a (two_wait name) gathers_twice }
    ensures other_order { (name : Book)
        → (¬ IsAccountOf (in_another_order name) (two_wait name) cuts_two)
        × (¬ AllAreCut (in_another_order name)) }
    ensures first_late { (name : Book) → ¬ NoneIsLate (first_stays name) }
    ensures due_not_cut { (name : Book) → ¬ DueAreCut (first_stays name) }
    ensures second_late { (name : Book) → ¬ NoneIsLate (second_stays name) }
    ensures no_round { (name : Book) (a : SmallAccount)
        → ¬ IsAccountOf a (two_wait name) takes_no_round }
    ensures idle_left { (name : Book) (a : SmallAccount)
        → IsAccountOf a (idle_waits name) runs_no_idle → ¬ IdlesRan a }
    ensures later_idle_left { (name : Book) (a : SmallAccount)
        → IsAccountOf a (two_idles_wait name) runs_one_idle → ¬ IdlesRan a }
    ensures overdue_not_cut { (name : Book) → ¬ DueAreCut (cuts_the_first_timer name) }
{}

/// The law of armings of a loop whose callbacks ask for nothing, as each `On`: only the loop's own calls have to be looked at. If
/// each source that these insert holds no timer counter, and each replacement holds at most what the one before held, no timer is
/// called early, nor twice for one arming.
pub fn once_where_nothing_is_asked<D, P: Poller, C: Clock, R: Wait + Drop>()
where
    D: EventDispatcher<P, C, R>
        + QuietDispatch<
            P,
            C,
            R,
            <D as EventDispatcher<P, C, R>>::Data,
            Requests<D, <D as EventDispatcher<P, C, R>>::Idle>,
        >,
    D::Idle: QuietIdle<
        <D as EventDispatcher<P, C, R>>::Data,
        Requests<D, <D as EventDispatcher<P, C, R>>::Idle>,
    >,
    ensures armings { OverEveryRun D.means D.Idle.runs P.outside
        (FromTheStart (ArmingsAreKept D.means)) }
{
    once::<D, P, C, R>();
}

/// A possible run, for which the premises of `once` are proved, so that its laws hold of this run: a timer for moment 5 is
/// inserted into a new loop, is set to moment 6 instead in its slot, by an exchange, and a dispatch whose wait ends at 5 calls it
/// once, with the deadline that it was armed for. That dispatch leaves no event, by the law over each dispatch (`served`); and it
/// cuts one, so not every dispatch cuts none (`cuts`).
pub fn run_that_there_is()
    ensures new { (name : Book) → IsNew (new_world name) }
    ensures quiet { AsksFresh only × RunsFresh only no_idle }
    ensures fresh { AllFreshCalls only its_calls its_answers
        × AllKeepKeys only its_calls its_answers }
    ensures brought { (name : Book) → AllFresh only (changes_of (its_changes name)) }
    ensures run { (name : Book)
        → Run only no_idle quiet_poller its_calls its_answers (its_changes name) (new_world name)
        (end_of_it name) }
    ensures armings { (name : Book)
        → OverEveryRun only no_idle quiet_poller (FromTheStart (ArmingsAreKept only))
        → IsLedgerOf (end_of_it name).ledger (end_of_it name).poll }
    ensures armings_of_fresh { (name : Book)
        → OverEveryRun only no_idle quiet_poller (FromTheStart (ArmingsAreKeptOfFresh only))
        → IsLedgerOf (end_of_it name).ledger (end_of_it name).poll }
    ensures home { (name : Book)
        → OverEveryRun only no_idle quiet_poller (FromTheStart (SourcesKeepToTheirSlots only))
        → AllAtHome only (end_of_it name) }
    ensures moments { (name : Book) → OverEveryRun only no_idle quiet_poller EventsReachTheirSource
        → IsSound (new_world name) (changes_of (its_changes name)) (its_run name).moments }
    ensures served { (name : Book)
        → OverEveryDispatch only no_idle quiet_poller NothingIsLeft
        → (end_of_it name).poll.batch ≡ [] }
    ensures cuts { (name : Book) → ¬ OverEveryDispatch only no_idle quiet_poller NothingIsCut }
    ensures called { (name : Book) → (end_of_it name).ledger.calls ≡ first_call ∷ [] }
    ensures over { (name : Book)
        → (end_of_it name).slots ≡ record { reuse = 0; content = Vacant } ∷ [] }
{}

/// Small cases that the laws of `once` rule out: an event that goes to another slot than its token names, to a later
/// registration, to a slot that is vacant or whose source is in its turn, or to none though its source is there, even if its slot
/// was used as often as there are versions; a token that names an earlier registration than before; one that was given up and is
/// there again; an event that was gathered early; an arming in two places, or in none; one that is called for twice, early, with
/// another deadline, or though it was cancelled, or for which another arming was gathered, of another deadline, counter or
/// number; one that was never made and is in the batch; one that is said to wait when `Poll` has no deadline, or no event; a
/// registration that is told of waits twice, even with another one between, or after its slot was given up; a source that has a
/// key of an earlier use of its slot, one that keeps its key when it is registered under another, and one that arms a deadline
/// under a token of another registration; two requests or two answers under one ticket, an answer under one whose request is
/// still carried out or whose answer is still owed, and an answer that was handed out twice.
pub fn wrong_runs_are_ruled_out()
    ensures wrong_slot { ¬ GoesRight (full_slot 0 ∷ full_slot 0 ∷ []) first_token (Some 1) }
    ensures later_registration { ¬ GoesRight (full_slot 1 ∷ []) first_token (Some 0) }
    ensures lost_event { ¬ GoesRight (full_slot 0 ∷ []) first_token None }
    ensures vacant_slot { ¬ GoesRight (given_up 0 ∷ []) first_token (Some 0) }
    ensures slot_in_its_turn { ¬ GoesRight (in_its_turn ∷ []) first_token (Some 0) }
    ensures lost_event_of_a_later_use { ¬ GoesRight (full_slot versions ∷ []) first_token None }
    ensures earlier_registration { (w w' : World (Unit {0}) (Unit {0}) (Unit {0}))
        → w.slots ≡ full_slot versions ∷ [] → w'.slots ≡ full_slot 0 ∷ [] → ¬ NamesLater w w' }
    ensures there_again { (w w' : World (Unit {0}) (Unit {0}) (Unit {0}))
        → w.slots ≡ given_up 0 ∷ [] → w'.slots ≡ full_slot 0 ∷ [] → ¬ StaysGone w w' }
    ensures early_event { ¬ OnTime early }
    ensures two_places { (v : PollView (Unit {0})) → ¬ IsLedgerOf in_two_places v }
    ensures two_calls { (v : PollView (Unit {0})) → ¬ IsLedgerOf called_twice v }
    ensures early_call { (v : PollView (Unit {0})) → ¬ IsLedgerOf called_early v }
    ensures told_twice { (w : World (Unit {0}) (Unit {0}) (Unit {0}))
        → w.held.lifecycle ≡ first_registration ∷ first_registration ∷ [] → ¬ IsTold w }
    ensures told_once_more { (w : World (Unit {0}) (Unit {0}) (Unit {0}))
        → w.held.lifecycle ≡ first_registration ∷ second_registration ∷ first_registration ∷ []
        → ¬ IsTold w }
    ensures told_when_gone { (w : World (Unit {0}) (Unit {0}) (Unit {0}))
        → w.held.lifecycle ≡ first_registration ∷ [] → w.slots ≡ given_up 0 ∷ [] → ¬ IsTold w }
    ensures old_key { (w : World ℕ (Unit {0}) (Unit {0})) → w.slots ≡ used_with_an_old_key ∷ []
        → ¬ AllAtHome still_meaning w }
    ensures kept_key { (v : PollView (Unit {0})) → ¬ IsKeeping still_meaning }
    ensures armed_elsewhere { (v : PollView (Unit {0})) → ¬ IsKeeping arms_elsewhere }
    ensures answered_twice { (w : World (Unit {0}) (Unit {0}) (Unit {0}))
        → w.held.asks ≡ answered_twice → ¬ IsTicketed w }
    ensures answered_early { (w : World (Unit {0}) (Unit {0}) (Unit {0}))
        → w.held.asks ≡ answered_while_served → ¬ IsTicketed w }
    ensures answered_and_owed { (w : World (Unit {0}) (Unit {0}) (Unit {0}))
        → w.held.asks ≡ answered_while_owed → ¬ IsTicketed w }
    ensures handed_out_twice { (w : World (Unit {0}) (Unit {0}) (Unit {0}))
        → w.held.asks ≡ one_ticket → w.handed ≡ 0 ∷ 0 ∷ [] → ¬ IsTicketed w }
    ensures call_from_nowhere { (v : PollView (Unit {0})) → ¬ IsLedgerOf called_from_nowhere v }
    ensures other_deadline { (v : PollView (Unit {0}))
        → ¬ IsLedgerOf called_with_another_deadline v }
    ensures other_arming { (v : PollView (Unit {0}))
        → ¬ IsLedgerOf (called_for with_another_deadline) v }
    ensures other_counter { (v : PollView (Unit {0}))
        → ¬ IsLedgerOf (called_for with_another_counter) v }
    ensures other_number { (v : PollView (Unit {0})) → ¬ IsLedgerOf called_for_the_later_one v }
    ensures early_arming { ¬ AllOwnCalls (timely called_early) called_early.calls }
    ensures never_made { (v : PollView (Unit {0})) → ¬ IsLedgerOf with_one_never_made v }
    ensures no_place { (v : PollView (Unit {0})) → ¬ IsLedgerOf in_no_place v }
    ensures no_deadline { (v : PollView (Unit {0})) → v.deadlines.entries ≡ []
        → ¬ IsLedgerOf armed_once v }
    ensures no_event { (v : PollView (Unit {0})) → v.batch ≡ [] → ¬ IsLedgerOf gathered_once v }
    ensures asked_twice { (w : World (Unit {0}) (Unit {0}) (Unit {0})) → w.held.asks ≡ asked_twice
        → ¬ IsTicketed w }
    ensures last_event_alone { ¬ KeepsTheLastAlone }
    ensures events_of_a_failure { (e : Error) → ¬ KeepsOfAFailure e }
    ensures order_of_slots { (v : View (Unit {0}) (Unit {0}) (Unit {0}))
        → v.held.lifecycle ≡ second_registration ∷ first_registration ∷ []
        → ¬ TellsInTheOrderOfSlots v }
{}

/// Further possible runs. A socket enters the table when its source is inserted; a dispatch gathers two events of it; the first's
/// turn requests its registration anew, which is carried out and answered, and fails: the second event is left over, and the next
/// dispatch cuts it first, and keeps the answer; so not every dispatch cuts none (`cuts`). A dispatch settles two adapters, that
/// of the first slot first. A callback arms its timer again, which is called once per arming; the premises of that law are
/// proved.
pub fn busy_runs_that_there_are()
    ensures run { (name : Book) → Run anything idle_never giving_poller busy_calls busy_answers
        (busy_changes name) (idle_world name) (busy_end name) }
    ensures rest { (name : Book)
        → (behind_the_failure name).poll.batch ≡ polled_events two_found_but_one }
    ensures answered { (name : Book) → (behind_the_failure name).held.asks.answers
        ≡ record { ticket = 0; answer = Done; kept_for = None } ∷ [] }
    ensures outlasts { (name : Book) → (busy_end name).held.asks.answers
        ≡ record { ticket = 0; answer = Done; kept_for = None } ∷ [] }
    ensures socket { (name : Book) → watched_at (key_of first_token) (busy_end name).poll.table
        ≡ Some for_reading }
    ensures over { (name : Book) → (busy_end name).poll.batch ≡ [] }
    ensures cuts { (name : Book)
        → ¬ OverEveryDispatch anything idle_never giving_poller NothingIsCut }
    ensures settled { (name : Book)
        → Run adapters idle_never quiet_poller one_dispatch one_answer
        (of_a_settling name 0 1 ∷ [])
        (with_two_adapters name) (all_traced (with_two_adapters name) (of_a_settling name 0 1)) }
    ensures rearmed { (name : Book) → Run again no_idle quiet_poller rearmed_calls rearmed_answers
        (rearmed_changes name) (new_world name) (rearmed_end name) }
    ensures called_twice { (name : Book)
        → (rearmed_end name).ledger.calls ≡ first_call ∷ call_at_ten ∷ [] }
    ensures in_time { (name : Book)
        → OverEveryRun again no_idle quiet_poller (FromTheStart (ArmingsAreKept again))
        → IsLedgerOf (rearmed_end name).ledger (rearmed_end name).poll }
{}

/// Small runs that the laws of `once` rule out as they are stated, each of which is wrong at its end alone, or in its second
/// element alone: so no law speaks of a run's beginning, or of the first of some elements, alone. The second event goes wrong, or
/// is lost; a token of the first or of the second moment names an earlier registration in the last one; what was given up in them
/// is there again. From the start: the second arming was gathered early, and waits in the batch or was cut from it; the second
/// call hands out another deadline, or is one for the same arming; the second arming is in two places, in none, or isn't in
/// `Poll`; the second slot has a source under a key of the first; the second registration is told of waits twice, or when its
/// slot was given up; there are two answers or two requests under the second ticket, or its answer was handed out twice; and
/// `Poll` has its second deadline before the first, which the law of sorted deadlines of `each_dispatch_serves_all` rules out.
/// And the rules rule out a dispatch that settles the adapter of the second slot before that of the first.
pub fn runs_that_go_wrong_late()
    ensures wrong_slot { (name : Book) → ¬ EventsReachTheirSource (second_event_goes_wrong name) }
    ensures lost_event { (name : Book) → ¬ EventsReachTheirSource (second_event_is_lost name) }
    ensures earlier_at_the_end { (name : Book)
        → ¬ EventsReachTheirSource (ends_under_an_earlier_use name) }
    ensures earlier_later { (name : Book)
        → ¬ EventsReachTheirSource (goes_back_to_an_earlier_use name) }
    ensures there_at_the_end { (name : Book)
        → ¬ EventsReachTheirSource (ends_with_what_was_given_up name) }
    ensures there_later { (name : Book)
        → ¬ EventsReachTheirSource (goes_back_to_what_was_given_up name) }
    ensures waits_early { (name : Book) → IsOutOfTime (that_notes name second_waits_early) }
    ensures cut_early { (name : Book) → IsOutOfTime (that_notes name second_is_cut_early) }
    ensures other_deadline { (name : Book) → IsOutOfTime (that_notes name second_call_differs) }
    ensures called_twice { (name : Book) → IsOutOfTime (that_notes name second_is_called_twice) }
    ensures two_places { (name : Book) → IsOutOfTime (that_notes name second_is_twice) }
    ensures no_place { (name : Book) → IsOutOfTime (that_notes name second_is_nowhere) }
    ensures no_deadline { (name : Book) → IsOutOfTime (that_ends name (with_one_deadline name)) }
    ensures no_event { (name : Book) → IsOutOfTime (that_ends name (with_one_event name)) }
    ensures elsewhere { (name : Book)
        → ¬ FromTheStart (SourcesKeepToTheirSlots keys_alone)
        (that_ends name (second_is_elsewhere name)) }
    ensures told_twice { (name : Book)
        → ¬ FromTheStart WhoIsToldStandsOnce (that_ends name (second_is_told_twice name)) }
    ensures told_when_gone { (name : Book)
        → ¬ FromTheStart WhoIsToldStandsOnce (that_ends name (second_is_told_when_gone name)) }
    ensures answered_twice { (name : Book)
        → ¬ FromTheStart TicketsAreOfOneAnswer (that_ends name (second_is_answered_twice name)) }
    ensures asked_twice { (name : Book)
        → ¬ FromTheStart TicketsAreOfOneAnswer (that_ends name (second_is_asked_twice name)) }
    ensures handed_out_twice { (name : Book)
        → ¬ FromTheStart TicketsAreOfOneAnswer (that_ends name (second_is_handed_out_twice name)) }
    ensures unsorted { (name : Book)
        → ¬ FromTheStart DeadlinesStaySorted
        (that_ends name (with_a_later_deadline_first name)) }
    ensures settled_backwards { (name : Book)
        → ¬ Run adapters idle_never quiet_poller one_dispatch one_answer
        (of_a_settling name 1 0 ∷ [])
        (with_two_adapters name) (all_traced (with_two_adapters name) (of_a_settling name 1 0)) }
{}

/// Of every dispatch that returns `Ok`, from any state, whatever poller, clock, sources, callbacks and idles return: its watch
/// notes one count of the places, the marks, looks, and one taking of posted keys with room for as many as there were places; and
/// the event of each key that it took is handed out in it, to the source that its token names in its turn, which has its turn, or
/// to none, if the token names none.
///
/// And of every history of its board from the start, by any number of cells and parties, in which what the loop did is as its
/// watch noted it: if no place was opened between that count and that taking, each key that was posted at the taking is one that
/// it took. So of each cell that was pinged then under a key, the event is handed out in this dispatch, or its key was still owed
/// or held; and if a cell is pinged when the dispatch ends, its key was posted since the taking, or is still owed or held. So
/// each ping that is rung at the taking, if no turn of it is open and its key is neither owed nor held, has its source's turn in
/// this dispatch (`rings`).
///
/// And of a run and one history up to its end: all of this of each dispatch that returned `Ok` (`run`).
///
/// That the notes of the watch and what happens to the board are one history is what the lock's contract gives; no law says it.
pub fn what_is_posted_is_served<D: EventDispatcher<P, C, R>, P: Poller, C: Clock, R: Wait + Drop>()
    ensures noted { OverEachDispatch D.means D.Idle.runs P.outside (IsNotedDispatch D.means) }
    ensures served { OverEachDispatch D.means D.Idle.runs P.outside (ServesWhatIsPosted D.means) }
    ensures rings { OverEachDispatch D.means D.Idle.runs P.outside (ServesEachRing D.means) }
    ensures run { OverEveryRun D.means D.Idle.runs P.outside (EachServesWhatIsPosted D.means) }
{}

/// A history is a schedule of the wake machine, so that `nothing_is_lost` holds of its end.
pub fn histories_are_schedules()
    ensures schedule { (w : WakeWorld every_kind.Cell) (hs : SmallHistory)
        → IsHistory every_kind w hs
        → IsSchedule every_kind w (schedule_of every_kind w hs) }
    ensures same_end { (w : WakeWorld every_kind.Cell) (hs : SmallHistory)
        → after_all every_kind w (schedule_of every_kind w hs) ≡ end_of every_kind w hs }
{}

/// Impossible histories, after keys 7 and 9 are posted: a taking leaves one out though there is room, or takes them in another
/// order; a second one leaves out what the first left; a count of one place of two; a look that finds nothing.
pub fn wrong_histories_are_ruled_out()
    ensures left_out { ¬ IsHistory every_kind two_posted leaves_one_out }
    ensures backwards { ¬ IsHistory every_kind two_posted takes_backwards }
    ensures later { ¬ IsHistory every_kind two_posted leaves_out_later }
    ensures count { ¬ IsHistory every_kind two_posted counts_one }
    ensures look { ¬ IsHistory every_kind two_posted sees_nothing }
{}

/// Small dispatches that the laws rule out: an event goes to none though its source is there; it ends with one of two taken keys
/// left; its watch notes a key that joins no batch, also with a history in which that key was rung and taken; it ends, or takes
/// keys, when a cell is pinged whose key is nowhere; and it leaves an event which was left over before.
pub fn unserved_keys_are_ruled_out()
    ensures to_none { (name : Book)
        → ¬ IsHandedOut anything (with_its_event name) cuts_to_none (posted_event 0) }
    ensures one_left { (name : Book)
        → ¬ IsHandedOut anything (with_a_source name) ends_with_one_left (posted_event 1) }
    ensures dropped { (name : Book)
        → ¬ IsNotedDispatch anything (with_a_source name) (drops_what_it_took name) }
    ensures unserved { (name : Book) → ¬ IsServedOf every_kind anything of_pings history_of_a_ring
        (with_a_source name) (drops_what_it_took name) }
    ensures lost { (name : Book)
        → ¬ IsServedOf every_kind anything with_a_key_forgotten history_of_nothing
        (with_a_source name) (takes_nothing name) }
    ensures forgotten { (name : Book)
        → ¬ IsServedOf every_kind anything with_a_ring_forgotten history_with_a_clearing
        (with_a_source name) (takes_nothing name) }
    ensures left_over { (name : Book)
        → ¬ IsNotedDispatch anything (with_its_event name) (takes_nothing name) }
{}

/// A possible dispatch and a history of its board, which meet the premises of the laws, so that the source of the key that was
/// posted has its turn. And a history in which a place is opened between count and taking: there a posted key is left, so the
/// premise is needed.
pub fn dispatch_of_a_ring_that_there_is()
    ensures dispatch { (name : Book) → DispatchedBy anything idle_never quiet_poller
        None tt (Ok tt) tt (with_a_source name) (of_a_ring name) }
    ensures history { IsHistory every_kind of_pings history_of_a_ring }
    ensures tied { (name : Book) → notes_of history_of_a_ring
        ≡ (after_changes (with_a_source name) (of_a_ring name)).poll.watch.notes }
    ensures handed_out { (name : Book)
        → OverEachDispatch anything idle_never quiet_poller (ServesWhatIsPosted anything)
        → IsHandedOut anything (with_a_source name) (of_a_ring name) (posted_event 0) }
    ensures rung { (name : Book)
        → OverEachDispatch anything idle_never quiet_poller (ServesEachRing anything)
        → IsHandedOut anything (with_a_source name) (of_a_ring name) (posted_event 0) }
    ensures of_a_run { (name : Book)
        → OverEveryRun anything idle_never quiet_poller (EachServesWhatIsPosted anything)
        → IsHandedOut anything (with_a_source name) (of_a_ring name) (posted_event 0) }
    ensures room { IsHistory every_kind of_pings (up_to_a_small_taking ++ small_taking ∷ []) }
    ensures posted { is_marked 7 (end_of every_kind of_pings up_to_a_small_taking).board ≡ true }
    ensures stays { is_marked 7
        (end_of every_kind of_pings (up_to_a_small_taking ++ small_taking ∷ [])).board
        ≡ true }
{}
