//! A lock whose content keeps one tag for good, and is changed in place.
ghost use Rattle.std.specs.Prelude.{ℕ, ◌≡◌, ◌+◌, ◌<◌, ◌⊎◌, ◌∷◌, [], true, IfSome, IfOk};
ghost use Rattle.calloop_wake.specs.Locks.{HasOneSlot, IsTaken, WasHinted};

use super::Last;
use super::sleepers::Sleepers;
use atomic_table::{Play, Refused, Seat, Shared, Table, TableRule};
use counted_slot::Fits;
use std::alloc::{AllocError, Global};
use std::hint::spin_loop;
use std::marker::{Model, PhantomData};
use std::sync::Wait;

mod lends;

/// The content of a lock. Has no `Drop`: it ends when the lock ends.
pub trait Core: Fits {
    // What a number says of the content, if the releasing holder leaves it as a hint.
    ghost hints: { ℕ → Self → Type 0 } = { λ _ _. ⊥ };

    /// Ends it, once nobody holds the lock any more.
    fn dissolve(self, last: Last);
}

// The words of a lock: free, held, or free with the hint 0 of its content. Higher ones are further hints.
const FREE: u64 = 0;

const HELD: u64 = 1;

const FIRST_HINT: u64 = 2;

// The word of a free lock with this hint.
fn with_hint(number: u64) -> u64
    ensures { (result ≡ number + 2) ⊎ (result ≡ 0) }
{
    number.checked_add(FIRST_HINT).unwrap_or(FREE)
}

// How many times a contended lock is looked at again before its thread sleeps.
const LOOKS: u32 = 100;

/// What holds of a lock between any two steps: if it is free, the content is in it, fits its tag, and satisfies the hint.
pub struct Keeps<X> {
    marker: PhantomData<X>,
}

impl<X: Core> TableRule<X, X::Tag, X::Tag> for Keeps<X> {
    ghost use Rattle.calloop_wake.specs.Locks.{IsLock};

    ghost holds = { λ tag. IsLock (X.fits tag) X.hints };

    ghost first = { λ tag. tag };
}

// An exchange: whoever finds the lock free has its content.
struct Takes<X> {
    marker: PhantomData<X>,
}

impl<X: Core> Play<X, X::Tag> for Takes<X> {
    ghost use Rattle.std.specs.Prelude.{◌≡◌};
    ghost use Rattle.calloop_wake.specs.Locks.{IsTaken};

    ghost then = { λ _ me found new. ¬ (found ≡ 1) → IsTaken (X.fits me.0) new.1 };
}

// A look at the word.
struct Looks<X> {
    marker: PhantomData<X>,
}

impl<X: Core> Play<X, X::Tag> for Looks<X> {
    ghost use Rattle.std.specs.Prelude.{◌≡◌};
    ghost use Rattle.calloop_wake.specs.Locks.{WasHintedBy};

    ghost then = { λ _ me found new. (new.0 ≡ me.0) × WasHintedBy (X.fits me.0) X.hints found };
}

// A store: the holder puts the content back.
struct GivesBack;

impl<S, V> Play<S, V> for GivesBack {
    ghost then = { λ _ _ _ _. Unit {0} };
}

/// The content with its word. In a contract it is the tag.
struct Tagged<X: Core> {
    table: Table<X, X::Tag, X::Tag, Keeps<X>, Global>,
}

impl<X: Core> Model for Tagged<X> {
    ghost use Rattle.calloop_wake.specs.Locks.{HasOneSlot};

    ghost Value = { X.Tag };

    ghost view = { λ tagged. tagged.table.shared.key };

    ghost invariant = { λ tagged. HasOneSlot tagged.table.shared.table_id };
}

impl<X: Core> Tagged<X> {
    fn new(alloc: Global, core: X, tag: &X::Tag) -> Result<Tagged<X>, AllocError>
        requires { X.fits tag.now core }
        ensures { IfOk result (λ tagged. tagged ≡ tag.now) }
    {
        let mut slots = match Vec::with_capacity(alloc, 1) {
            Ok(slots) => slots,
            Err(refused) => {
                core.dissolve(Last { of_wake: () });
                return Err(refused);
            }
        };
        slots.push_reserved(core);
        match Table::new(alloc, &[FREE], slots, tag) {
            Ok((table, _seat)) => Ok(Tagged { table }),
            Err(Refused { mut slots }) => {
                if let Some(core) = slots.pop() {
                    core.dissolve(Last { of_wake: () });
                }
                slots.destroy_empty();
                Err(AllocError)
            }
        }
    }

    fn as_shared(&self) -> &Shared<X, X::Tag, X::Tag, Keeps<X>>
        ensures { (result.now.key ≡ self.now) × HasOneSlot result.now.table_id }
    {
        &self.table.shared
    }
}

impl<X: Core> Drop for Tagged<X> {
    fn drop(self) {
        let Self { table } = self;
        let mut closed = table.close();
        let core = closed.take(0);
        closed.free();
        core.dissolve(Last { of_wake: () });
    }
}

/// What the holder of a lock can wait for.
#[derive(Clone, Copy, Debug, PartialEq, Eq)]
pub enum Awaited {
    /// Something was put in, or nothing will come any more.
    Content,
    /// Something was taken out, or nobody will take it any more.
    Room,
}

// The threads that wait for a lock, and those that wait until its content was changed.
#[derive(Drop)]
struct Queues {
    entering: Sleepers,
    for_content: Sleepers,
    for_room: Sleepers,
}

impl Queues {
    fn empty() -> Queues {
        Queues {
            entering: Sleepers::none(),
            for_content: Sleepers::none(),
            for_room: Sleepers::none(),
        }
    }

    fn of(&self, awaited: Awaited) -> &Sleepers {
        match awaited {
            Awaited::Content => &self.for_content,
            Awaited::Room => &self.for_room,
        }
    }
}

/// A lock, under the tag of its content. In a contract `tag` is that tag; in code it is the content with its word.
///
/// Calloop's ends share an eventfd or a pipe, and the kernel keeps its state.
#[derive(Drop)]
pub struct Locked<X: Core> {
    tag: Tagged<X>,
    queues: Queues,
}

impl<X: Core> Locked<X> {
    /// A free lock. Without memory for it, its content is ended.
    pub fn new(alloc: Global, core: X, tag: &X::Tag) -> Result<Locked<X>, AllocError>
        requires { X.fits tag.now core }
        ensures { IfOk result (λ lock. lock.tag ≡ tag.now) }
    {
        Ok(Locked {
            tag: Tagged::new(alloc, core, tag)?,
            queues: Queues::empty(),
        })
    }

    /// Takes the lock, and its content. Waits while another thread holds it.
    pub fn lock<R: Wait>(&self, rt: &R) -> Held<'_, X>
        ensures { (result.shared.now.key ≡ self.now.tag)
            × (result.seat.table_id ≡ result.shared.now.table_id)
            × HasOneSlot result.shared.now.table_id
            × IsTaken (X.fits result.shared.now.key) result.seat.me.1 }
    {
        lock(rt, self.tag.as_shared(), &self.queues)
    }

    /// True if the previous holder left `number` as a hint of the content, and nobody has held the lock since.
    ///
    /// If true, the word is written unchanged: so the next holder sees all that was written before this call, as if this had been
    /// a section of the lock. `async-task` does the same for a wake of a task that is scheduled.
    pub fn has_hint(&self, number: u64) -> bool
        ensures { result ≡ true → WasHinted (X.fits self.now.tag) X.hints number }
    {
        let shared = self.tag.as_shared();
        let Some(word) = number.checked_add(FIRST_HINT) else {
            return false;
        };
        let (found, mut seat) = shared.load_new_seat::<Looks<X>>(0);
        if found != word {
            return false;
        }
        shared.compare_exchange::<Looks<X>>(&mut seat, 0, word, word) == word
    }

    /// Wakes one of the threads that wait for this change. The caller has changed the core, and released the lock since. Enough if
    /// the change serves one thread.
    pub fn notify_one(&self, awaited: Awaited) {
        self.queues.of(awaited).notify_one();
    }

    /// Wakes all threads that wait for this change. The caller has changed the core, and released the lock since.
    pub fn notify_all(&self, awaited: Awaited) {
        self.queues.of(awaited).notify_all();
    }
}

/// The content of a lock, for its holder.
pub struct Held<'a, X: Core> {
    seat: Seat<X, X::Tag>,
    shared: &'a Shared<X, X::Tag, X::Tag, Keeps<X>>,
    queues: &'a Queues,
}

// Takes the lock if it is free.
fn take<'a, X: Core>(
    shared: &'a Shared<X, X::Tag, X::Tag, Keeps<X>>,
    queues: &'a Queues,
) -> Option<Held<'a, X>>
    requires { HasOneSlot shared.now.table_id }
    ensures { IfSome result (λ held. (held.shared.now.key ≡ shared.now.key)
        × (held.seat.table_id ≡ held.shared.now.table_id)
        × HasOneSlot held.shared.now.table_id
        × IsTaken (X.fits held.shared.now.key) held.seat.me.1) }
{
    let (found, seat) = shared.swap_new_seat::<Takes<X>>(0, HELD);
    if found == HELD {
        None
    } else {
        Some(Held {
            seat,
            shared,
            queues,
        })
    }
}

// Looks for a while whether the lock is free.
fn take_soon<'a, X: Core>(
    shared: &'a Shared<X, X::Tag, X::Tag, Keeps<X>>,
    queues: &'a Queues,
) -> Option<Held<'a, X>>
    requires { HasOneSlot shared.now.table_id }
    ensures { IfSome result (λ held. (held.shared.now.key ≡ shared.now.key)
        × (held.seat.table_id ≡ held.shared.now.table_id)
        × HasOneSlot held.shared.now.table_id
        × IsTaken (X.fits held.shared.now.key) held.seat.me.1) }
{
    for _ in 0..LOOKS {
        if shared.peek(0) != HELD {
            if let Some(held) = take(shared, queues) {
                return Some(held);
            }
        }
        spin_loop();
    }
    None
}

// Sleeps until the lock is free.
fn take_late<'a, X: Core, R: Wait>(
    rt: &R,
    shared: &'a Shared<X, X::Tag, X::Tag, Keeps<X>>,
    queues: &'a Queues,
) -> Held<'a, X>
    requires { HasOneSlot shared.now.table_id }
    ensures { (result.shared.now.key ≡ shared.now.key)
        × (result.seat.table_id ≡ result.shared.now.table_id)
        × HasOneSlot result.shared.now.table_id
        × IsTaken (X.fits result.shared.now.key) result.seat.me.1 }
{
    queues.entering.join();
    for _ in rt.forever() {
        let calls = queues.entering.calls();
        if let Some(held) = take_soon(shared, queues) {
            queues.entering.leave();
            return held;
        }
        queues.entering.sleep(rt, calls);
    }
    unreachable!()
}

// Takes the lock. Waits while another thread holds it.
fn lock<'a, X: Core, R: Wait>(
    rt: &R,
    shared: &'a Shared<X, X::Tag, X::Tag, Keeps<X>>,
    queues: &'a Queues,
) -> Held<'a, X>
    requires { HasOneSlot shared.now.table_id }
    ensures { (result.shared.now.key ≡ shared.now.key)
        × (result.seat.table_id ≡ result.shared.now.table_id)
        × HasOneSlot result.shared.now.table_id
        × IsTaken (X.fits result.shared.now.key) result.seat.me.1 }
{
    if let Some(held) = take(shared, queues) {
        return held;
    }
    match take_soon(shared, queues) {
        Some(held) => held,
        None => take_late(rt, shared, queues),
    }
}

impl<'a, X: Core> Held<'a, X> {
    /// Releases the lock, once the content fits its tag again.
    pub fn unlock(self)
        requires { (self.seat.table_id ≡ self.shared.now.table_id)
            × HasOneSlot self.shared.now.table_id
            × IsTaken (X.fits self.shared.now.key) self.seat.me.1 }
    {
        let Held {
            mut seat,
            shared,
            queues,
        } = self;
        shared.store::<GivesBack>(&mut seat, 0, FREE);
        queues.entering.notify_one();
    }

    /// Releases the lock, and leaves this number as a hint, which has to be true of the content. The highest two numbers leave none.
    pub fn unlock_with_hint(self, number: u64)
        requires { (self.seat.table_id ≡ self.shared.now.table_id)
            × HasOneSlot self.shared.now.table_id
            × IsTaken (λ content. X.fits self.shared.now.key content × X.hints number content)
            self.seat.me.1 }
    {
        let Held {
            mut seat,
            shared,
            queues,
        } = self;
        shared.store::<GivesBack>(&mut seat, 0, with_hint(number));
        queues.entering.notify_one();
    }

    /// Releases the lock, and sleeps until it is called for this change, or wakes earlier. Then it holds the lock again.
    pub fn wait<R: Wait>(self, rt: &R, awaited: Awaited) -> Held<'a, X>
        requires { (self.seat.table_id ≡ self.shared.now.table_id)
            × HasOneSlot self.shared.now.table_id
            × IsTaken (X.fits self.shared.now.key) self.seat.me.1 }
        ensures { (result.shared.now.key ≡ self.entry.shared.now.key)
            × (result.seat.table_id ≡ result.shared.now.table_id)
            × HasOneSlot result.shared.now.table_id
            × IsTaken (X.fits result.shared.now.key) result.seat.me.1 }
    {
        let shared = self.shared;
        let queues = self.queues;
        let waiting = queues.of(awaited);
        waiting.join();
        let calls = waiting.calls();
        self.unlock();
        waiting.sleep(rt, calls);
        waiting.leave();
        lock(rt, shared, queues)
    }
}
