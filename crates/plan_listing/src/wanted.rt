// The name of the nested deployment that a key is that of.
ghost use Rattle.std.specs.Prelude.{◌≡◌, IfOk, ℕ, List};
ghost use Rattle.plan_listing.specs.Hits.{is_at, is_wanted, fits};

use arm_ids::{Key, Place, is_deployment_type};
use arm_value::{OutOfMemory, Text};
use std::alloc::Global;

// Whether the key is one of the group of a place, and of the type of nested deployments.
fn fits(alloc: Global, key: &Key, place: &Place) -> Result<bool, OutOfMemory>
    ensures { IfOk result (λ b. b ≡ fits key.now place.now) }
{
    let parts = key.parts();
    if !parts
        .subscription
        .equals_ignore_case(place.subscription.as_str())
    {
        return Ok(false);
    }
    if !parts.group.equals_ignore_case(place.group.as_str()) {
        return Ok(false);
    }
    let kind = parts.full_type(alloc)?;
    Ok(is_deployment_type(&kind))
}

/// The name that a nested deployment in the group of a place has where the key is that of it, in small letters; none
/// where the key is not that of a nested deployment there.
pub fn wanted_name(alloc: Global, key: &Key, place: &Place) -> Result<Option<Text>, OutOfMemory>
    ensures { IfOk result (λ w. (n : List ℕ) → is_at key.now place.now n ≡ is_wanted w n) }
{
    let parts = key.parts();
    if fits(alloc, key, place)? {
        let name = parts.full_name(alloc)?;
        Ok(Some(name))
    } else {
        Ok(None)
    }
}
