// Locks beside their places, with one more and with one less.

ghost use Rattle.std.specs.Prelude.{◌≡◌, ◌<◌, ◌≤◌, length, slice_set, slice_index_or, if◌then◌else◌, is_ok, option_map};
ghost use Rattle.std.specs.List.{insert, remove};
ghost use Rattle.std.specs.Vec.{vec_capacity};
ghost use Rattle.lock_rules.specs.Places.{place_of, find, put, without};
ghost use Rattle.lock_rules.specs.Searches.{AreKept};

use crate::lock::Lock;
use crate::parts::run_out;
use crate::place::Place;
use crate::searching::search;
use arm_value::OutOfMemory;

/// The lock at a place.
pub(crate) fn find_lock<'a>(locks: &'a [Lock], places: &[Place], place: &Place) -> Option<&'a Lock>
    requires { AreKept locks.now places.now }
    ensures { option_map (λ lock. lock.now) result ≡ find place.now locks.now }
{
    match search(places, place) {
        Ok(i) => Some(&locks[i]),
        Err(_) => None,
    }
}

/// Keeps a lock at its place. After `OutOfMemory` both are unchanged.
pub(crate) fn put_lock(
    locks: &mut Vec<Lock>,
    places: &mut Vec<Place>,
    place: Place,
    lock: Lock,
) -> Result<(), OutOfMemory>
    requires kept { AreKept locks.old.items places.old.items }
    requires its { place ≡ place_of lock }
    ensures kept { AreKept locks.new.items places.new.items }
    ensures locks { locks.new.items
        ≡ (if is_ok result then put lock locks.old.items else locks.old.items) }
{
    match search(places.as_slice(), &place) {
        Ok(i) => {
            replace(locks, places, i, place, lock);
            Ok(())
        }
        Err(i) => add(locks, places, i, place, lock),
    }
}

/// Takes the lock at a place out.
pub(crate) fn take_lock(
    locks: &mut Vec<Lock>,
    places: &mut Vec<Place>,
    place: &Place,
) -> Option<Lock>
    requires { AreKept locks.old.items places.old.items }
    ensures kept { AreKept locks.new.items places.new.items }
    ensures taken { result ≡ find place.now locks.old.items }
    ensures locks { locks.new.items ≡ without place.now locks.old.items }
{
    match search(places.as_slice(), place) {
        Ok(i) => Some(take(locks, places, i)),
        Err(_) => None,
    }
}

// Puts a lock in place of the one at the index.
fn replace(locks: &mut Vec<Lock>, places: &mut Vec<Place>, i: usize, place: Place, lock: Lock)
    requires locks { i < length locks.old.items }
    requires places { i < length places.old.items }
    ensures locks { locks.new.items ≡ slice_set locks.old.items i lock }
    ensures places { places.new.items ≡ slice_set places.old.items i place }
{
    replace_one(locks, i, lock);
    replace_one(places, i, place);
}

// Puts an element in place of the one at the index.
fn replace_one<T: Drop>(elements: &mut Vec<T>, i: usize, element: T)
    requires { i < length elements.old.items }
    ensures { elements.new.items ≡ slice_set elements.old.items i element }
{
    elements[i] = element;
}

// Puts a lock before the one at the index. After `OutOfMemory` both are unchanged.
fn add(
    locks: &mut Vec<Lock>,
    places: &mut Vec<Place>,
    i: usize,
    place: Place,
    lock: Lock,
) -> Result<(), OutOfMemory>
    requires locks { i ≤ length locks.old.items }
    requires places { i ≤ length places.old.items }
    ensures locks { locks.new.items
        ≡ (if is_ok result then insert locks.old.items i lock else locks.old.items) }
    ensures places { places.new.items
        ≡ (if is_ok result then insert places.old.items i place else places.old.items) }
{
    if locks.reserve(1).is_err() {
        return run_out((place, lock));
    }
    match places.insert(i, place) {
        Ok(()) => {
            insert_lock(locks, i, lock);
            Ok(())
        }
        Err(_) => run_out(lock),
    }
}

// Puts a lock before the one at the index, in room that was taken before.
fn insert_lock(locks: &mut Vec<Lock>, i: usize, lock: Lock)
    requires within { i ≤ length locks.old.items }
    requires room { length locks.old.items < vec_capacity locks.old }
    ensures { locks.new.items ≡ insert locks.old.items i lock }
{
    match locks.insert(i, lock) {
        Ok(()) => {}
        Err(_) => unreachable!(),
    }
}

// Takes the lock at the index out.
fn take(locks: &mut Vec<Lock>, places: &mut Vec<Place>, i: usize) -> Lock
    requires locks { i < length locks.old.items }
    requires places { i < length places.old.items }
    ensures lock { result ≡ slice_index_or locks.old.items i result }
    ensures locks { locks.new.items ≡ remove locks.old.items i }
    ensures places { places.new.items ≡ remove places.old.items i }
{
    let _place = places.remove(i);
    locks.remove(i)
}
