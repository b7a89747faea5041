// Names that stay inside a folder.
ghost use Rattle.std.specs.Prelude.{◌≡◌};
ghost use Rattle.std.specs.Path.{path_components};
ghost use Rattle.arm_edges.specs.Inside.{stays_inside};

use std::path::{Component, Path};

// Whether the name, taken from some folder on, stays inside that folder.
pub(crate) fn is_inside(name: &str) -> bool
    ensures { result ≡ stays_inside 0 (path_components name.now) }
{
    let mut depth: u64 = 0;
    for part in Path::new(name).components() {
        match part {
            Component::RootDir => return false,
            Component::CurDir => {}
            Component::ParentDir => {
                if depth == 0 {
                    return false;
                }
                depth -= 1;
            }
            Component::Normal(_) => depth = depth.saturating_add(1),
        }
    }
    true
}
