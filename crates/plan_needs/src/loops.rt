// The names of the loops of each scope.
ghost use Rattle.std.specs.Prelude.{◌≡◌, ◌<◌, map, IfOk, length};
ghost use Rattle.name_tags.specs.Loops.{loop_titles};
ghost use Rattle.plan_table.specs.Opened.{opened_of};
ghost use Rattle.plan_needs.specs.Needs.{scope_loops};

use arm_value::OutOfMemory;
use name_set::NameSet;
use name_tags::loops_of;
use plan_table::frame::Frame;
use std::alloc::Global;

/// The names of the loops of each scope, by the number of its frame.
pub fn loops_of_scopes(alloc: Global, frames: &[Frame]) -> Result<Vec<NameSet>, OutOfMemory>
    ensures { IfOk result (λ v. v.items ≡ map scope_loops (map opened_of frames.now)) }
{
    let mut all = Vec::new(alloc);
    for frame in frames {
        let loops = loops_of(alloc, frame.resources.as_slice())?;
        all.push(loops)?;
    }
    Ok(all)
}
