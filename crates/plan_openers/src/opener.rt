// Which instance opened a scope.
ghost use Rattle.std.specs.Prelude.{◌≡◌, ◌<◌, [], length, MatchOption};
ghost use Rattle.plan_table.specs.Found.{scope_at};
ghost use Rattle.plan_refusals.specs.Start.{IsStartTable};
ghost use Rattle.plan_openers.specs.Openers.{IsOpener};

use plan_table::table::Table;

/// An instance of a resource, by the number of the frame of its scope.
#[derive(Clone, Copy)]
pub struct Opener {
    /// The number of the frame of its scope.
    pub frame: usize,
    /// The number of its resource.
    pub resource: usize,
    /// Its index in the loop of the resource, or 0.
    pub copy: usize,
}

/// The instance of a nested deployment that opened a scope; none where the scope is the root.
pub fn opener_of(table: &Table, frame: usize) -> Option<Opener>
    requires table { IsStartTable table.now }
    requires there { frame < length table.now.frames.items }
    ensures opened { MatchOption result (Unit {0}) (IsOpener table.now frame) }
    ensures root { MatchOption result ((scope_at table.now frame).position ≡ []) (λ _. Unit {0}) }
{
    let frame = &table.frames[frame];
    match frame.position.as_slice().first() {
        Some(instance) => Some(Opener {
            frame: frame.around,
            resource: instance.resource,
            copy: instance.copy,
        }),
        None => None,
    }
}
