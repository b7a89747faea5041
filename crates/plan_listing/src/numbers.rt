// The numbers of the nested deployments of a scope.
ghost use Rattle.std.specs.Prelude.{◌≡◌, map, slice_get};
ghost use Rattle.plan_cells.specs.Resources as cells;
ghost use Rattle.plan_cells.specs.Resources.{nested_from};
ghost use Rattle.plan_table.specs.Listed.{listed_of};

use plan_table::listed::Listed;
use template_tree::Body;

// Whether it is a nested deployment that is not existing.
fn is_nested(listed: &Listed) -> bool
    ensures { result ≡ cells.is_nested (listed_of listed.now) }
{
    if listed.declaration.existing {
        return false;
    }
    match listed.body {
        Body::Deployment(_) => true,
        Body::Members(_) => false,
    }
}

/// The number of the nested deployment at a place among those of these resources.
pub fn nested_number(resources: &[Listed], place: usize) -> Option<usize>
    ensures { result ≡ slice_get (nested_from 0 (map listed_of resources.now)) place }
{
    let mut left = place;
    for number in 0..resources.len() {
        if is_nested(&resources[number]) {
            if left == 0 {
                return Some(number);
            }
            left -= 1;
        }
    }
    None
}
