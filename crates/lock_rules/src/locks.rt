// The locks that a store keeps.

ghost use Rattle.std.specs.Prelude.{◌≡◌, [], is_ok, if◌then◌else◌, option_map};
ghost use Rattle.lock_rules.specs.Places.{AreInOrder, find, put, without};

use crate::keeping::{find_lock, put_lock, take_lock};
use crate::lock::Lock;
use crate::parts::run_out;
use crate::place::Place;
use arm_value::OutOfMemory;
use std::alloc::Global;
use std::marker::Model;

/// The locks that a store keeps, in the order of their scopes' ids and then of their names, both in
/// small ASCII letters. No two are on one scope with one name.
#[derive(Drop)]
pub struct Locks {
    locks: Vec<Lock>,
    // The place of each lock.
    places: Vec<Place>,
}

impl Model for Locks {
    ghost use Rattle.std.specs.Prelude.{List};
    ghost use Rattle.lock_rules.specs.declared.lock.Lock.{Lock};

    ghost Value = { List Lock };

    ghost use Rattle.lock_rules.specs.Searches.{AreKept};

    ghost view = { λ l. l.locks.items };

    ghost invariant = { λ l. AreKept l.locks.items l.places.items };
}

impl Locks {
    /// No locks. It takes no memory.
    pub fn new(alloc: Global) -> Locks
        ensures { result ≡ [] }
    {
        Locks {
            locks: Vec::new(alloc),
            places: Vec::new(alloc),
        }
    }

    /// The locks, in their order.
    pub fn as_slice(&self) -> &[Lock]
        ensures locks { result.now ≡ self.now }
        ensures in_order { AreInOrder self.now }
    {
        let _places = &self.places;
        self.locks.as_slice()
    }

    /// The lock at a place. It takes no memory.
    pub fn find(&self, place: &Place) -> Option<&Lock>
        ensures { option_map (λ lock. lock.now) result ≡ find place.now self.now }
    {
        find_lock(self.locks.as_slice(), self.places.as_slice(), place)
    }

    /// Keeps the lock, in place of the one that is kept at its place. After `OutOfMemory` the locks
    /// are unchanged.
    pub fn set(&mut self, alloc: Global, lock: Lock) -> Result<(), OutOfMemory>
        ensures { self.new ≡ (if is_ok result then put lock self.old else self.old) }
    {
        match Place::of(alloc, &lock.scope, &lock.name) {
            Ok(place) => put_lock(&mut self.locks, &mut self.places, place, lock),
            Err(_) => run_out(lock),
        }
    }

    /// Removes the lock at a place, where there is one, and returns it. It takes no memory.
    pub fn remove(&mut self, place: &Place) -> Option<Lock>
        ensures removed { result ≡ find place.now self.old }
        ensures locks { self.new ≡ without place.now self.old }
    {
        take_lock(&mut self.locks, &mut self.places, place)
    }
}
