//! The places of an executor's futures, under a lock of their own that has the name of its cell. A future may keep a waker, which
//! reaches the cell, so the futures are kept apart from it.
ghost use Rattle.std.specs.Prelude.{◌≡◌, ◌≢◌, ◌+◌, [], ℕ, None, Some, IfOk, IfErr, IfSome, IfNone, is_some, true, false};
ghost use Rattle.slab.specs.Slab.{get as value_at};
ghost use Rattle.calloop_wake.specs.Homes.{place_in, places_of};
ghost use Rattle.calloop_wake.specs.declared.homes.Place.TheVariants.{Empty, Here, Missed};

use super::ghosts::{Count, Name};
use super::locked::Core;
use super::tasks::TaskKey;
use super::{Last, Receipt, Tally};
use counted_slot::Fits;
use slab::Slab;
use std::alloc::{AllocError, Global};
use std::marker::Model;
use std::mem;

/// The right to the places of the futures of the executor of this name. One is made with each cell, and it can't be cloned.
#[derive(Drop)]
pub struct KeepingRight {
    pub(crate) name: Name,
}

/// A task of this key was put into the cell of this name, and its future is still to be kept.
#[derive(Drop)]
pub struct DueReceipt {
    pub(crate) name: Name,
    pub(crate) number: Count,
    pub(crate) key: TaskKey,
    pub(crate) home: usize,
}

/// A task whose future came after a turn had looked for it, put into the cell of this name. Has no `Drop`: the wake that it still
/// needs turns it into its receipt.
#[must_use]
pub struct MissedTask {
    pub(crate) name: Name,
    pub(crate) number: Count,
    pub(crate) key: TaskKey,
}

/// A task that was popped from the cell of this name; its future is to be polled.
#[must_use]
pub struct PoppedTask {
    pub(crate) name: Name,
    pub(crate) key: TaskKey,
    pub(crate) home: usize,
}

impl PoppedTask {
    /// The key by which it is woken.
    pub fn key(&self) -> TaskKey
        ensures { result ≡ self.now.key }
    {
        self.key
    }

    /// The place of its future.
    pub fn home(&self) -> usize
        ensures { result ≡ self.now.home }
    {
        self.home
    }
}

/// A place that was reserved for a future, of the executor of this name. Has no `Drop`: `keep` fills it, or `free` frees it.
#[must_use]
pub struct ReservedPlace {
    pub(crate) name: Name,
    pub(crate) home: usize,
}

impl ReservedPlace {
    /// The number of the place.
    pub fn home(&self) -> usize
        ensures { result ≡ self.now.home }
    {
        self.home
    }
}

/// The place of one future.
#[derive(Drop)]
pub enum Place<F> {
    /// The future is to come, or in its poll.
    Empty,
    /// The future is to come, and a turn has looked for it.
    Missed,
    /// The future of the task of this key.
    Here(TaskKey, F),
}

/// A future that was taken out of its place for its poll.
#[must_use]
pub struct TakenFuture<F> {
    pub future: F,
    pub task: PoppedTask,
}

/// The places of an executor's futures. Has no `Drop`: the lock around it ends it at its last drop.
pub struct Homes<F: Drop> {
    // `None` once the executor is gone.
    places: Option<Slab<Place<F>>>,
    name: Name,
}

impl<F: Drop> Model for Homes<F> {
    ghost use Rattle.std.specs.Prelude.{not, is_some};
    ghost use Rattle.calloop_wake.specs.Homes.{HomesView, places_of};

    ghost Value = { HomesView F };

    ghost view = { λ h. record { places = places_of h.places; gone = not (is_some h.places); name = h.name } };
}

impl<F: Drop> Fits for Homes<F> {
    ghost use Rattle.std.specs.Prelude.{◌≡◌};

    type Tag = Name;

    ghost fits = { λ tag homes. homes.name ≡ tag };
}

impl<F: Drop> Core for Homes<F> {
    fn dissolve(self, last: Last) {
        last.end();
        let Homes { places: _, name: _ } = self;
    }
}

// Puts this into the place, and returns the content before. If there is no such place, this comes back.
fn exchange<F: Drop>(
    places: &mut Slab<Place<F>>,
    home: usize,
    next: Place<F>,
) -> Result<Place<F>, Place<F>>
    ensures was { IfOk result (λ before. value_at places.old home ≡ Some before) }
    ensures is { IfOk result (λ before. value_at places.new home ≡ Some next) }
    ensures none { IfErr result (λ back. (back ≡ next) × (value_at places.old home ≡ None)) }
    ensures same { IfErr result (λ back. value_at places.new home ≡ None) }
    ensures others { (other : ℕ) → other ≢ home
        → value_at places.new other ≡ value_at places.old other }
{
    match places.get_mut(home) {
        Some(place) => Ok(mem::replace(place, next)),
        None => Err(next),
    }
}

impl<F: Drop> Homes<F> {
    /// No future, under the name of the right.
    pub fn new(alloc: Global, right: KeepingRight) -> (Homes<F>, Name)
        ensures homes { result.0 ≡ record { places = []; gone = false; name = right.name } }
        ensures name { result.1 ≡ right.name }
    {
        let KeepingRight { name } = right;
        let homes = Homes {
            places: Some(Slab::new(alloc)),
            name: name.again(),
        };
        (homes, name)
    }

    /// A place for a future that is to come. Fails if the executor is gone, or for lack of memory; then nothing changes.
    pub fn reserve(&mut self) -> Option<Result<ReservedPlace, AllocError>>
        ensures gone { (result ≡ None) → (self.old.gone ≡ true) }
        ensures none { IfNone result (self.new ≡ self.old) }
        ensures refused { IfSome result (λ answer. IfErr answer (λ _. self.new ≡ self.old)) }
        ensures place { IfSome result (λ answer. IfOk answer (λ place.
            (place_in self.old place.home ≡ None)
            × (place_in self.new place.home ≡ Some Empty))) }
        ensures own { IfSome result (λ answer. IfOk answer (λ place.
            place.name ≡ self.old.name)) }
        ensures others { IfSome result (λ answer. IfOk answer (λ place. (other : ℕ)
            → other ≢ place.home → place_in self.new other ≡ place_in self.old other)) }
        ensures name { self.new.name ≡ self.old.name }
    {
        let Some(places) = &mut self.places else {
            return None;
        };
        match places.insert(Place::Empty) {
            Ok(home) => Some(Ok(ReservedPlace {
                name: self.name.again(),
                home,
            })),
            Err(_) => Some(Err(AllocError)),
        }
    }

    // Puts this into the place, and returns the content before, or this itself if there is no such place.
    fn put(&mut self, home: usize, next: Place<F>) -> Result<Place<F>, Place<F>>
        ensures was { IfOk result (λ before. place_in self.old home ≡ Some before) }
        ensures is { IfOk result (λ before. place_in self.new home ≡ Some next) }
        ensures none { IfErr result (λ back. (back ≡ next) × (place_in self.old home ≡ None)) }
        ensures others { (other : ℕ) → other ≢ home
            → place_in self.new other ≡ place_in self.old other }
        ensures name { (self.new.name ≡ self.old.name) × (self.new.gone ≡ self.old.gone) }
    {
        match &mut self.places {
            Some(places) => exchange(places, home, next),
            None => Err(next),
        }
    }

    /// Keeps the future of a task that was put, in its place, and returns the task's receipt, or the task itself if a turn has
    /// looked for the future before: then it has to be woken. The second part is what was in the place, or the future if there is
    /// no such place, since the executor is gone.
    pub fn keep(
        &mut self,
        due: DueReceipt,
        place: ReservedPlace,
        future: F,
    ) -> (Result<Receipt, MissedTask>, Result<Place<F>, Place<F>>)
        requires due { due.name ≡ self.old.name }
        requires place { (place.name ≡ due.name) × (place.home ≡ due.home) }
        ensures receipt { IfOk result.0 (λ receipt.
            receipt ≡ record { name = due.name; number = due.number }) }
        ensures missed { IfErr result.0 (λ missed. missed
            ≡ record { name = due.name; number = due.number; key = due.key }) }
        ensures looked { IfErr result.0 (λ _. place_in self.old due.home ≡ Some Missed) }
        ensures unlooked { IfOk result.0 (λ _. place_in self.old due.home ≢ Some Missed) }
        ensures kept { IfOk result.1 (λ before.
            place_in self.new due.home ≡ Some (Here due.key future)) }
        ensures was { IfOk result.1 (λ before. place_in self.old due.home ≡ Some before) }
        ensures back { IfErr result.1 (λ back. (back ≡ Here due.key future)
            × (place_in self.old due.home ≡ None)) }
        ensures others { (other : ℕ) → other ≢ due.home
            → place_in self.new other ≡ place_in self.old other }
        ensures name { self.new.name ≡ self.old.name }
    {
        let DueReceipt {
            name,
            number,
            key,
            home,
        } = due;
        let ReservedPlace { name: _, home: _ } = place;
        let before = self.put(home, Place::Here(key, future));
        if let Ok(Place::Missed) = &before {
            return (Err(MissedTask { name, number, key }), before);
        }
        (Ok(Receipt { name, number }), before)
    }

    /// Takes the future of a popped task out of its place, for its poll. If it isn't there, the place notes that a turn has looked
    /// for it, and the tally counts that.
    pub fn take(&mut self, popped: PoppedTask, tally: &mut Tally) -> Option<TakenFuture<F>>
        requires { (popped.name ≡ self.old.name) × (tally.old.name ≡ self.old.name) }
        ensures some { IfSome result (λ taken.
            (place_in self.old popped.home ≡ Some (Here popped.key taken.future))
            × (taken.task ≡ popped)) }
        ensures same { IfSome result (λ _. tally.new ≡ tally.old) }
        ensures emptied { IfSome result (λ _. place_in self.new popped.home ≡ Some Empty) }
        ensures none { IfNone result
            (tally.new ≡ record tally.old { misses = tally.old.misses + 1 }) }
        ensures absent { IfNone result ((future : F)
            → place_in self.old popped.home ≢ Some (Here popped.key future)) }
        ensures trace { IfNone result (is_some (place_in self.old popped.home) ≡ true
            → place_in self.new popped.home ≡ Some Missed) }
        ensures others { (other : ℕ) → other ≢ popped.home
            → place_in self.new other ≡ place_in self.old other }
        ensures name { self.new.name ≡ self.old.name }
    {
        if let Some(places) = &mut self.places {
            if let Some(place) = places.get_mut(popped.home) {
                if let Place::Here(key, future) = mem::replace(place, Place::Empty) {
                    if key == popped.key {
                        return Some(TakenFuture {
                            future,
                            task: popped,
                        });
                    }
                }
            }
        }
        self.miss(popped, tally);
        None
    }

    // The future of a popped task is still to come.
    fn miss(&mut self, popped: PoppedTask, tally: &mut Tally)
        ensures tally { tally.new ≡ record tally.old { misses = tally.old.misses + 1 } }
        ensures trace { is_some (place_in self.old popped.home) ≡ true
            → place_in self.new popped.home ≡ Some Missed }
        ensures others { (other : ℕ) → other ≢ popped.home
            → place_in self.new other ≡ place_in self.old other }
        ensures name { self.new.name ≡ self.old.name }
    {
        let PoppedTask {
            name: _,
            key: _,
            home,
        } = popped;
        let before = self.put(home, Place::Missed);
        drop(before);
        tally.misses = tally.misses.next();
    }

    /// Puts a future back into its place after a pending poll. If that place is gone, with the executor for example, it comes back.
    pub fn put_back(&mut self, taken: TakenFuture<F>) -> Result<Place<F>, Place<F>>
        requires { taken.task.name ≡ self.old.name }
        ensures kept { IfOk result (λ before.
            place_in self.new taken.task.home ≡ Some (Here taken.task.key taken.future)) }
        ensures was { IfOk result (λ before. place_in self.old taken.task.home ≡ Some before) }
        ensures back { IfErr result (λ back. (back ≡ Here taken.task.key taken.future)
            × (place_in self.old taken.task.home ≡ None)) }
        ensures others { (other : ℕ) → other ≢ taken.task.home
            → place_in self.new other ≡ place_in self.old other }
        ensures name { self.new.name ≡ self.old.name }
    {
        let TakenFuture { future, task } = taken;
        let PoppedTask { name: _, key, home } = task;
        self.put(home, Place::Here(key, future))
    }

    /// Frees the place of a task whose future returned its result.
    pub fn finish(&mut self, task: PoppedTask) -> Option<Place<F>>
        requires { task.name ≡ self.old.name }
        ensures gives { result ≡ place_in self.old task.home }
        ensures freed { place_in self.new task.home ≡ None }
        ensures others { (other : ℕ) → other ≢ task.home
            → place_in self.new other ≡ place_in self.old other }
        ensures name { self.new.name ≡ self.old.name }
    {
        let PoppedTask {
            name: _,
            key: _,
            home,
        } = task;
        self.vacate(home)
    }

    /// Frees a place that was reserved for a task which wasn't put.
    pub fn free(&mut self, place: ReservedPlace) -> Option<Place<F>>
        requires { place.name ≡ self.old.name }
        ensures gives { result ≡ place_in self.old place.home }
        ensures freed { place_in self.new place.home ≡ None }
        ensures others { (other : ℕ) → other ≢ place.home
            → place_in self.new other ≡ place_in self.old other }
        ensures name { self.new.name ≡ self.old.name }
    {
        let ReservedPlace { name: _, home } = place;
        self.vacate(home)
    }

    // From now on the place is empty, and can be given out again.
    fn vacate(&mut self, home: usize) -> Option<Place<F>>
        ensures gives { result ≡ place_in self.old home }
        ensures freed { place_in self.new home ≡ None }
        ensures others { (other : ℕ) → other ≢ home
            → place_in self.new other ≡ place_in self.old other }
        ensures name { self.new.name ≡ self.old.name }
    {
        let Some(places) = &mut self.places else {
            return None;
        };
        places.try_remove(home)
    }

    /// The executor is gone: its futures are returned, to be dropped outside of the lock.
    pub fn close(&mut self) -> Option<Slab<Place<F>>>
        ensures gives { places_of result ≡ self.old.places }
        ensures gone { self.new.gone ≡ true }
        ensures places { (home : ℕ) → place_in self.new home ≡ None }
        ensures name { self.new.name ≡ self.old.name }
    {
        self.places.take()
    }
}
