// The search for a place.

ghost use Rattle.lock_rules.specs.Searches.{IsFound};

use crate::place::Place;
use std::cmp::Ordering;

/// The index of the place, or the index of the first place that is above it.
pub(crate) fn search(places: &[Place], place: &Place) -> Result<usize, usize>
    ensures { IsFound place.now places.now result }
{
    for i in 0..places.len() {
        match place.compare(&places[i]) {
            Ordering::Less => return Err(i),
            Ordering::Equal => return Ok(i),
            Ordering::Greater => {}
        }
    }
    Err(places.len())
}
