//! Callbacks and idles that say their number and write requests.
ghost use Rattle.calloop_loop.specs.Askings.{OnlyAsks};

use calloop::{
    Answer, Callback, Choice, Dispatcher, Here, Idle, IdleCallback, Instant, PostAction,
    RegistrationToken, Requests, There, Ticket, TimeoutAction,
};
use calloop_slots::widths::{MOST_SLOTS, VERSIONS};
use calloop_test_sources::source::Counter;

/// The place of counters in the choice.
pub type Third = There<There<Here>>;

/// The slot and the version of a registration.
pub type Named = (u32, u32);

/// The token of a registration of these numbers, modulo how many there are.
pub fn token_of(named: Named) -> RegistrationToken {
    RegistrationToken::new(named.0 % MOST_SLOTS as u32, named.1 % VERSIONS as u32)
}

/// A request that is to be written.
#[derive(Clone, Copy)]
pub enum Wish {
    /// For a counter that can be registered so often, whose turns end so.
    Insert(u32, PostAction),
    Register(u32),
    Enable(Named),
    Update(Named),
    Disable(Named),
    Remove(Named),
    /// Of so many milliseconds.
    SetDeadline(Named, u64),
    /// For the source to leave that the request in this place inserted, whose slot and version are said, if the answer is there.
    Takes(usize),
    /// For one of this number, which asks for nothing, or for the idle of this place to be cancelled and another idle.
    Idle(u32, Option<usize>),
    /// Of the idle in this place of those that were asked for.
    Cancel(usize),
    /// None: the slot and the version of its own source are said.
    Own,
    /// For an idle of this number, which says besides whether the ticket in this place has its answer: 1 or 0.
    Reads(u32, usize),
}

/// What was said, and the tickets and idles that were given.
#[derive(Drop)]
pub struct Said {
    pub numbers: Vec<u32>,
    pub tickets: Vec<Ticket>,
    pub idles: Vec<Idle>,
}

impl Said {
    fn number(&mut self, number: u32) {
        let _failed = self.numbers.push(number);
    }

    fn ticket(&mut self, ticket: Option<Ticket>) {
        if let Some(ticket) = ticket {
            let _failed = self.tickets.push(ticket);
        }
    }

    fn idle(&mut self, idle: Option<Idle>) {
        if let Some(idle) = idle {
            self.ticket(Some(idle.ticket()));
            let _failed = self.idles.push(idle);
        }
    }

    // The idle in this place.
    pub fn take_idle(&mut self, place: usize) -> Option<Idle> {
        if place < self.idles.len() {
            Some(self.idles.remove(place))
        } else {
            None
        }
    }
}

/// Says its number, and writes its requests.
#[derive(Drop)]
pub struct Asker {
    pub number: u32,
    pub wishes: Vec<Wish>,
}

impl Asker {
    fn answer<D: Choice<Counter, Asker, Third> + Drop>(
        &mut self,
        said: &mut Said,
        requests: &mut Requests<D, Note>,
    )
        ensures { OnlyAsks requests.old requests.new }
    {
        said.number(self.number);
        for wish in &self.wishes {
            write(*wish, said, requests);
        }
    }
}

impl<D: Choice<Counter, Asker, Third> + Drop> Callback<(), (), (), Said, Requests<D, Note>>
    for Asker {
    ghost may = { λ _ _ _ _ _ _ _ _ _ _. Unit {0} };

    fn call(&mut self, _event: (), _: &mut (), said: &mut Said, requests: &mut Requests<D, Note>) {
        self.answer(said, requests);
    }
}

impl<D: Choice<Counter, Asker, Third> + Drop> Callback<u32, (), (), Said, Requests<D, Note>>
    for Asker {
    ghost may = { λ _ _ _ _ _ _ _ _ _ _. Unit {0} };

    fn call(&mut self, _turns: u32, _: &mut (), said: &mut Said, requests: &mut Requests<D, Note>) {
        self.answer(said, requests);
    }
}

impl<D: Choice<Counter, Asker, Third> + Drop> Callback<
    Instant,
    (),
    TimeoutAction,
    Said,
    Requests<D, Note>,
> for Asker {
    ghost may = { λ _ _ _ _ _ _ _ _ _ _. Unit {0} };

    fn call(
        &mut self,
        _deadline: Instant,
        _: &mut (),
        said: &mut Said,
        requests: &mut Requests<D, Note>,
    ) -> TimeoutAction {
        self.answer(said, requests);
        TimeoutAction::Drop
    }
}

/// An idle that says its number, and may cancel another one and ask for one more, or take the answer of a ticket.
#[derive(Drop)]
pub struct Note {
    pub number: u32,
    pub cancels: Option<usize>,
    pub reads: Option<usize>,
}

impl<D: Choice<Counter, Asker, Third> + Drop> IdleCallback<Said, Requests<D, Note>> for Note {
    fn run(self, said: &mut Said, requests: &mut Requests<D, Note>) {
        said.number(self.number);
        own(said, requests);
        if let Some(place) = self.reads {
            said.number(is_answered(place, said, requests));
        }
        if let Some(place) = self.cancels {
            write(Wish::Cancel(place), said, requests);
            write(
                Wish::Idle(self.number.saturating_add(100), None),
                said,
                requests,
            );
        }
    }
}

// Whether the ticket in this place has its answer, which is taken.
fn is_answered<D: Choice<Counter, Asker, Third> + Drop>(
    place: usize,
    said: &Said,
    requests: &mut Requests<D, Note>,
) -> u32
    ensures { OnlyAsks requests.old requests.new }
{
    match said.tickets.get(place) {
        Some(ticket) => requests.answer(*ticket).is_some() as u32,
        None => 0,
    }
}

// Takes the answer of the ticket in this place. Asks for the removal of the source that was inserted, and says its slot and version.
fn take<D: Choice<Counter, Asker, Third> + Drop>(
    place: usize,
    said: &mut Said,
    requests: &mut Requests<D, Note>,
) -> Option<Ticket>
    ensures { OnlyAsks requests.old requests.new }
{
    let ticket = *said.tickets.get(place)?;
    let answer = requests.answer(ticket)?;
    let token = inserted(&answer)?;
    said.number(token.slot());
    said.number(token.version());
    requests.remove(token).ok()
}

// The token of the source that was inserted.
fn inserted<D>(answer: &Answer<D>) -> Option<RegistrationToken> {
    match answer {
        Answer::Inserted(token) => Some(*token),
        _ => None,
    }
}

fn write<D: Choice<Counter, Asker, Third> + Drop>(
    wish: Wish,
    said: &mut Said,
    requests: &mut Requests<D, Note>,
)
    ensures { OnlyAsks requests.old requests.new }
{
    let ticket = match wish {
        Wish::Insert(limit, ends) => {
            return insert(Counter::new(limit, Some(ends)), said, requests);
        }
        Wish::Register(limit) => return register(limit, said, requests),
        Wish::Enable(token) => requests.enable(&token_of(token)).ok(),
        Wish::Update(token) => requests.update(&token_of(token)).ok(),
        Wish::Disable(token) => requests.disable(&token_of(token)).ok(),
        Wish::Remove(token) => requests.remove(token_of(token)).ok(),
        Wish::SetDeadline(token, millis) => {
            let deadline = Instant::from_millis(millis);
            requests.set_deadline(&token_of(token), deadline).ok()
        }
        Wish::Takes(place) => take(place, said, requests),
        Wish::Idle(number, cancels) => {
            let reads = None;
            let note = Note {
                number,
                cancels,
                reads,
            };
            said.idle(requests.insert_idle(note).ok());
            return;
        }
        Wish::Own => return own(said, requests),
        Wish::Reads(number, place) => {
            let reads = Some(place);
            let note = Note {
                number,
                cancels: None,
                reads,
            };
            said.idle(requests.insert_idle(note).ok());
            return;
        }
        Wish::Cancel(place) => match said.take_idle(place) {
            Some(idle) => requests.cancel(idle).ok(),
            None => None,
        },
    };
    said.ticket(ticket);
}

// Says the slot and the version of the source whose turn this is, if there is one.
fn own<D: Choice<Counter, Asker, Third> + Drop>(said: &mut Said, requests: &Requests<D, Note>) {
    if let Some(token) = requests.own_token() {
        said.number(token.slot());
        said.number(token.version());
    }
}

fn insert<D: Choice<Counter, Asker, Third> + Drop>(
    counter: Counter,
    said: &mut Said,
    requests: &mut Requests<D, Note>,
)
    ensures { OnlyAsks requests.old requests.new }
{
    let wishes = Vec::new(*said.numbers.allocator());
    said.ticket(
        requests
            .insert_source(counter, Asker { number: 9, wishes })
            .ok(),
    );
}

fn register<D: Choice<Counter, Asker, Third> + Drop>(
    limit: u32,
    said: &mut Said,
    requests: &mut Requests<D, Note>,
)
    ensures { OnlyAsks requests.old requests.new }
{
    let wishes = Vec::new(*said.numbers.allocator());
    let counter = Counter::new(limit, Some(PostAction::Continue));
    let held = D::hold(Dispatcher::new(counter, Asker { number: 9, wishes }));
    said.ticket(requests.register_dispatcher(held).ok());
}
