//! Sources that ask for several events before a wait.
use super::at;
use super::stage::{Table, time};
use calloop::loop_logic::{LoopAnswer, LoopCall};
use calloop::{
    Choice, Dispatcher, Error, EventDispatcher, Here, OneOf, PingSource, RegistrationToken, There,
    TimeoutAction, Timer, Token, make_ping,
};
use calloop_script::{ScriptClock, ScriptPoller};
use calloop_test_sources::several::{Several, Severals};
use calloop_test_sources::source::{Listener, Teller, Waker};
use std::alloc::Global;
use std::sync::Wait;

// The first token of slot 1. One of slot 0 is its sub-id.
const OTHER: u64 = 1 << 40;

const OF_SLOT_9: u64 = 9 << 40;

// What a test does at a new desk, and what is to come of it.
const CASES: &[(&str, &[Act<'static>])] = &[
    (
        "lists_of_events_come_in_order_before_all_that_a_wait_brings",
        &[
            Act::Three(&[2, 0, 2]),
            Act::One(&[OTHER, OTHER]),
            Act::RungPing(77),
            Act::DueAlarm,
            Act::Says(Some(100), &[2, 0, 2, 10, 77, 5]),
            Act::Asked(&[Some(0)]),
            Act::Counts(1, 1, 1),
        ],
    ),
    (
        "a_source_that_may_ask_for_none_is_handed_its_event_back",
        &[
            Act::Nothing(&[0]),
            Act::Says(Some(100), &[]),
            Act::Asked(&[Some(100)]),
            Act::Counts(0, 1, 1),
        ],
    ),
    (
        "a_source_that_fails_keeps_none_of_its_events",
        &[
            Act::Three(&[1, 0]),
            Act::FailingOne(&[OTHER]),
            Act::Fails(Some(100), &[]),
            Act::Asked(&[]),
            Act::Says(Some(100), &[1, 0]),
            Act::Asked(&[Some(0)]),
            Act::Says(Some(100), &[]),
            Act::Asked(&[Some(100)]),
        ],
    ),
    (
        "lists_are_joined_in_the_order_of_entry",
        &[
            Act::Three(&[2, 1]),
            Act::One(&[OTHER]),
            Act::Disable(0),
            Act::Enable(0),
            Act::Says(None, &[10, 2, 1]),
        ],
    ),
    (
        "an_event_of_no_source_ends_the_wait_too",
        &[
            Act::Three(&[OF_SLOT_9, 1, OTHER]),
            Act::Says(Some(100), &[1]),
            Act::Asked(&[Some(0)]),
        ],
    ),
    (
        "a_source_in_anothers_place_may_ask_for_its_own_number",
        &[
            Act::One(&[0, 1, 2]),
            Act::Says(None, &[0]),
            Act::BecomesThree(0, &[0, 1, 2]),
            Act::Says(None, &[0, 1, 2]),
            Act::BecomesOne(0, &[2, 1, 0]),
            Act::Says(None, &[2]),
            Act::Counts(0, 1, 2),
        ],
    ),
    (
        "any_list_is_cut_at_the_limit",
        &[Act::Three(&[]), Act::AnyLists(0)],
    ),
];

#[test]
fn each_case_of_several_events_goes_as_it_is_to(rt: HostRuntime) {
    for (name, acts) in CASES {
        assert_eq!(rt; plays(&rt, rt.alloc(), acts), None, "{name}");
    }
}

// The kit's unproved run refuses one allocation: `rt try --test --fail-alloc N`.
#[test]
fn a_refused_reservation_tells_nobody(rt: HostRuntime) {
    assert_eq!(rt; plays(&rt, rt.alloc(), REFUSED), None);
}

const REFUSED: &[Act<'static>] = &[
    Act::Three(&[2, 0, 2]),
    Act::PerhapsRefused(0, &[2, 0, 2]),
    Act::Says(Some(100), &[2, 0, 2]),
    Act::Asked(&[Some(0)]),
];

/// What a test does, or looks for. A source goes by its place among those that came into the loop. Times are in milliseconds.
#[derive(Clone, Copy)]
enum Act<'a> {
    /// A source that may ask for three events, and is to ask for these.
    Three(&'a [u64]),
    /// One that may ask for one.
    One(&'a [u64]),
    /// One that may ask for none.
    Nothing(&'a [u64]),
    /// One that may ask for one, and fails before the next wait.
    FailingOne(&'a [u64]),
    /// A ping that is rung, and says this number.
    RungPing(u32),
    /// A timer that is due, and says 5.
    DueAlarm,
    /// Another source comes in its place.
    BecomesThree(usize, &'a [u64]),
    BecomesOne(usize, &'a [u64]),
    Enable(usize),
    Disable(usize),
    /// A dispatch succeeds in which these numbers are said.
    Says(Option<u64>, &'a [u32]),
    /// It fails by the source's own error, after these numbers.
    Fails(Option<u64>, &'a [u32]),
    /// The poller was asked for these waits since this was asked before.
    Asked(&'a [Option<u64>]),
    /// The source was told of so many waits, and so many events were handed back to it.
    Counts(usize, u32, u32),
    /// A dispatch is refused for lack of memory, before anything else; or it isn't, and the source is to ask for these again.
    PerhapsRefused(usize, &'a [u64]),
    /// In each of 39 dispatches, what it asks for is said as far as it may ask for it.
    AnyLists(usize),
}

/// What tests look for in a source with its callback.
trait Seen {
    /// What one that may ask for three asks for before the next wait. False of anything else.
    fn changes(&mut self, tokens: Vec<Token>) -> bool;

    /// How many waits it was told of, and how many events were handed back.
    fn counts(&self) -> Option<(u32, u32)>;
}

// A loop, and what came into it.
#[derive(Drop)]
struct Desk<D: EventDispatcher<ScriptPoller, ScriptClock, R>, R: Wait + Drop> {
    table: Table<D, R>,
    tokens: Vec<RegistrationToken>,
}

type Second = There<Here>;

type Third = There<Second>;

type Fourth = There<Third>;

type Fifth = There<Fourth>;

impl<D, R> Desk<D, R>
where
    D: EventDispatcher<ScriptPoller, ScriptClock, R, Data = Vec<u32>> + Seen,
    D: Choice<Several<3>, Listener, Here>,
    D: Choice<Several<1>, Listener, Second>,
    D: Choice<Several<0>, Listener, Third>,
    D: Choice<PingSource<R>, Teller, Fourth>,
    D: Choice<Timer, Waker, Fifth>,
    R: Wait + Clone + Drop,
{
    fn does(&mut self, act: Act<'_>) -> Option<bool> {
        match act {
            Act::Three(keys) => self.three(keys),
            Act::One(keys) => self.one(keys, false),
            Act::Nothing(keys) => self.registers_none(keys),
            Act::FailingOne(keys) => self.one(keys, true),
            Act::RungPing(number) => self.rung_ping(number),
            Act::DueAlarm => Some(self.due_alarm()),
            Act::BecomesThree(place, keys) => self.becomes_three(place, keys),
            Act::BecomesOne(place, keys) => self.becomes_one(place, keys),
            _ => self.calls(act),
        }
    }

    fn calls(&mut self, act: Act<'_>) -> Option<bool> {
        match act {
            Act::Enable(place) => self.enable(place),
            Act::Disable(place) => self.disable(place),
            Act::Says(timeout, numbers) => Some(self.table.says(time(timeout), numbers)),
            Act::Fails(timeout, numbers) => Some(self.table.fails(time(timeout), numbers, None)),
            Act::Asked(waits) => Some(self.table.was_asked(waits)),
            Act::Counts(place, waits, back) => Some(self.counts(place)? == (waits, back)),
            Act::PerhapsRefused(place, keys) => self.perhaps_refused(place, keys),
            Act::AnyLists(place) => self.any_lists(place),
            _ => None,
        }
    }

    fn token(&self, place: usize) -> Option<RegistrationToken> {
        self.tokens.get(place).copied()
    }

    // The events of these keys.
    fn events(&self, keys: &[u64]) -> Option<Vec<Token>> {
        let mut tokens = Vec::new(self.table.alloc);
        for key in keys {
            // The greatest word is no token's key.
            if *key == u64::MAX {
                return None;
            }
            tokens.push(Token::from_key(*key)).ok()?;
        }
        Some(tokens)
    }

    fn registers(&mut self, held: D) -> bool {
        match self.table.event_loop.handle().register_dispatcher(held) {
            Ok(token) => self.tokens.push(token).is_ok(),
            Err(_) => false,
        }
    }

    fn three(&mut self, keys: &[u64]) -> Option<bool> {
        let source: Several<3> = Several::new(self.events(keys)?);
        Some(self.registers(D::hold(Dispatcher::new(source, Listener))))
    }

    fn one(&mut self, keys: &[u64], is_failing: bool) -> Option<bool> {
        let source: Several<1> = Several {
            is_failing,
            ..Several::new(self.events(keys)?)
        };
        Some(self.registers(D::hold(Dispatcher::new(source, Listener))))
    }

    fn registers_none(&mut self, keys: &[u64]) -> Option<bool> {
        let source: Several<0> = Several::new(self.events(keys)?);
        Some(self.registers(D::hold(Dispatcher::new(source, Listener))))
    }

    fn rung_ping(&mut self, number: u32) -> Option<bool> {
        let (ping, source) = make_ping(&self.table.rt, self.table.alloc).ok()?;
        let is_there = self.registers(D::hold(Dispatcher::new(source, Teller { number })));
        let _receipt = ping.ping();
        Some(is_there)
    }

    fn due_alarm(&mut self) -> bool {
        let waker = Waker {
            number: 5,
            action: TimeoutAction::Drop,
        };
        let timer = Timer::from_deadline(at(0));
        self.registers(D::hold(Dispatcher::new(timer, waker)))
    }

    fn becomes_three(&mut self, place: usize, keys: &[u64]) -> Option<bool> {
        let source: Several<3> = Several::new(self.events(keys)?);
        self.becomes(place, D::hold(Dispatcher::new(source, Listener)))
    }

    fn becomes_one(&mut self, place: usize, keys: &[u64]) -> Option<bool> {
        let source: Several<1> = Several::new(self.events(keys)?);
        self.becomes(place, D::hold(Dispatcher::new(source, Listener)))
    }

    fn becomes(&mut self, place: usize, held: D) -> Option<bool> {
        let token = self.token(place)?;
        let call = LoopCall::Exchange(token, held);
        let answer = self.table.event_loop.carry_out(&self.table.rt, call);
        Some(matches!(answer, LoopAnswer::Exchanged(Ok(_))))
    }

    fn enable(&mut self, place: usize) -> Option<bool> {
        let token = self.token(place)?;
        Some(self.table.event_loop.handle().enable(&token).is_ok())
    }

    fn disable(&mut self, place: usize) -> Option<bool> {
        let token = self.token(place)?;
        Some(self.table.event_loop.handle().disable(&token).is_ok())
    }

    fn changes(&mut self, place: usize, keys: &[u64]) -> Option<bool> {
        let token = self.token(place)?;
        let tokens = self.events(keys)?;
        match self.table.event_loop.handle().dispatcher_mut(&token) {
            Ok(held) => Some(held.changes(tokens)),
            Err(_) => Some(false),
        }
    }

    fn counts(&mut self, place: usize) -> Option<(u32, u32)> {
        let token = self.token(place)?;
        let handle = self.table.event_loop.handle();
        handle.dispatcher(&token).ok()?.counts()
    }

    fn perhaps_refused(&mut self, place: usize, keys: &[u64]) -> Option<bool> {
        let (answer, said) = self.table.dispatch(time(Some(100)));
        if matches!(answer, Err(Error::OutOfMemory)) {
            let is_untold = said.is_empty() && self.counts(place)? == (0, 0);
            return Some(is_untold && self.table.was_asked(&[]));
        }
        let was_asked = self.table.was_asked(&[Some(0)]);
        Some(self.changes(place, keys)? && was_asked)
    }

    fn any_lists(&mut self, place: usize) -> Option<bool> {
        let mut seed = 1u64;
        let mut wanted_back = 0u32;
        for round in 1..40u32 {
            let count = (seed % 7) as usize;
            let mut asked: Vec<u64> = Vec::new(self.table.alloc);
            let mut said: Vec<u32> = Vec::new(self.table.alloc);
            for among in 0..count {
                seed = after(seed);
                asked.push(seed % 8).ok()?;
                if among < 3 {
                    said.push((seed % 8) as u32).ok()?;
                }
            }
            wanted_back = wanted_back.saturating_add(count.saturating_sub(3) as u32);
            let is_changed = self.changes(place, asked.as_slice())?;
            let is_said = self.table.says(time(Some(0)), said.as_slice());
            if !is_changed || !is_said || self.counts(place)? != (round, wanted_back) {
                return Some(false);
            }
            seed = after(seed);
        }
        Some(true)
    }

    // The place of the first act that isn't as it is wanted.
    fn play(&mut self, acts: &[Act<'_>]) -> Option<usize> {
        for (place, act) in acts.iter().enumerate() {
            if self.does(*act) != Some(true) {
                return Some(place);
            }
        }
        None
    }
}

// The next number of a row of numbers.
fn after(seed: u64) -> u64 {
    (seed % 2_147_483_648 * 1_103_515_245 + 12_345) % 2_147_483_648
}

// Plays at a new desk. Returns the index of the first act that isn't as wanted, or one behind the last if no desk can be made. Only this knows
// which types it is, and calls nothing else.
fn plays<R: Wait + Clone + Drop>(rt: &R, alloc: Global, acts: &[Act<'_>]) -> Option<usize> {
    plays_over::<Severals<R>, R>(rt, alloc, acts)
}

fn plays_over<D, R>(rt: &R, alloc: Global, acts: &[Act<'_>]) -> Option<usize>
where
    D: EventDispatcher<ScriptPoller, ScriptClock, R, Data = Vec<u32>> + Seen,
    D: Choice<Several<3>, Listener, Here>,
    D: Choice<Several<1>, Listener, Second>,
    D: Choice<Several<0>, Listener, Third>,
    D: Choice<PingSource<R>, Teller, Fourth>,
    D: Choice<Timer, Waker, Fifth>,
    R: Wait + Clone + Drop,
{
    let made: Option<Table<D, R>> = Table::new(rt, alloc);
    let Some(table) = made else {
        return Some(acts.len());
    };
    let mut desk = Desk {
        table,
        tokens: Vec::new(alloc),
    };
    desk.play(acts)
}

impl<R: Wait + Drop> Seen for Severals<R> {
    fn changes(&mut self, tokens: Vec<Token>) -> bool {
        match &mut self.held {
            OneOf::First(three) => {
                three.source.tokens = tokens;
                true
            }
            _ => false,
        }
    }

    fn counts(&self) -> Option<(u32, u32)> {
        match &self.held {
            OneOf::First(held) => Some((held.source.waits, held.source.handed_back)),
            OneOf::Other(OneOf::First(held)) => Some((held.source.waits, held.source.handed_back)),
            OneOf::Other(OneOf::Other(OneOf::First(held))) => {
                Some((held.source.waits, held.source.handed_back))
            }
            _ => None,
        }
    }
}
