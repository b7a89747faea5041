// The numbers of tasks are looked up.
ghost use Rattle.std.specs.Prelude.{◌≡◌, ◌<◌, ◌∷◌, [], ℕ, List, IfOk, map, length};
ghost use Rattle.arm_ids.specs.declared.id.ResourceId.{ResourceId};
ghost use Rattle.tag_places.specs.Places.{Tag, ArePlaces, first_place};
ghost use Rattle.key_tags.specs.KeyCodes.{key_code};
ghost use Rattle.plan_table.specs.declared.table.Table.{Table};
ghost use Rattle.history_plans.specs.Task.{Task};
ghost use Rattle.plan_numbers.specs.Numbers.{put_tags, enter_tag, leave_tag, AreNumbers};
ghost use Rattle.plan_numbers.specs.Steps.{IsNumberOf};

use crate::numbers::Numbers;
use arm_ids::Key;
use arm_value::OutOfMemory;
use key_tags::key_tag;
use std::alloc::Global;
use tag_places::first_place;

// The tag of a scope.
pub(crate) fn scope_tag(alloc: Global, frame: usize) -> Result<Vec<usize>, OutOfMemory>
    ensures { IfOk result (λ v. v.items ≡ frame ∷ []) }
{
    let mut tag = Vec::new(alloc);
    tag.push(frame)?;
    Ok(tag)
}

// The number of the task of a place.
fn number_of(place: Option<usize>) -> Option<u32>
    ensures { IsNumberOf place result }
{
    match place {
        Some(place) => match u32::try_from(place) {
            Ok(number) => Some(number),
            Err(_) => None,
        },
        None => None,
    }
}

/// The number of the task that puts at a key.
pub fn putter_of(alloc: Global, numbers: &Numbers, key: &Key) -> Result<Option<u32>, OutOfMemory>
    ensures { (t : Table) (us : List Task) (ks : List ResourceId) → AreNumbers t us ks numbers.now
        → IfOk result (λ o. o ≡ first_place (key_code key.now) (put_tags us ks)) }
{
    let tag = key_tag(alloc, key)?;
    Ok(number_of(first_place(&numbers.puts, &tag)))
}

/// The number of the task that enters a scope.
pub fn enter_of(alloc: Global, numbers: &Numbers, frame: usize) -> Result<Option<u32>, OutOfMemory>
    ensures { (t : Table) (us : List Task) (ks : List ResourceId) → AreNumbers t us ks numbers.now
        → IfOk result (λ o. o ≡ first_place (frame ∷ []) (map enter_tag us)) }
{
    let tag = scope_tag(alloc, frame)?;
    Ok(number_of(first_place(&numbers.enters, &tag)))
}

/// The number of the task that leaves a scope.
pub fn leave_of(alloc: Global, numbers: &Numbers, frame: usize) -> Result<Option<u32>, OutOfMemory>
    ensures { (t : Table) (us : List Task) (ks : List ResourceId) → AreNumbers t us ks numbers.now
        → IfOk result (λ o. o ≡ first_place (frame ∷ []) (map leave_tag us)) }
{
    let tag = scope_tag(alloc, frame)?;
    Ok(number_of(first_place(&numbers.leaves, &tag)))
}
