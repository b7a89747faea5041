// Where a deployment is made.

ghost use Rattle.std.specs.Prelude.{◌≡◌, IfOk};
ghost use Rattle.request_places.specs.Places.{place_of};

use arm_ids::Place;
use arm_value::{OutOfMemory, Text};
use std::alloc::Global;

/// Where the deployment of this name is made: in the group, whose location is `westeurope`.
pub fn place_of(
    alloc: Global,
    subscription: &str,
    group: &str,
    deployment: &str,
) -> Result<Place, OutOfMemory>
    ensures { IfOk result (λ p. p ≡ place_of subscription.now group.now deployment.now) }
{
    Ok(Place {
        subscription: Text::of(alloc, subscription)?,
        group: Text::of(alloc, group)?,
        location: Text::of(alloc, "westeurope")?,
        deployment: Text::of(alloc, deployment)?,
    })
}
