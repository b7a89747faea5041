// The names of the loops of a template.
ghost use Rattle.std.specs.Prelude.{◌≡◌, ◌++◌, map, IfOk};
ghost use Rattle.plan_table.specs.Listed.{listed_of};
ghost use Rattle.name_tags.specs.Loops.{loop_title, loop_titles};

use arm_value::OutOfMemory;
use name_set::NameSet;
use plan_table::listed::Listed;
use std::alloc::Global;
use template_parts::ResourceCopy;

// The set with the name of the loop.
fn with_loop(
    alloc: Global,
    names: NameSet,
    looping: &Option<ResourceCopy>,
) -> Result<NameSet, OutOfMemory>
    ensures { IfOk result (λ s. s ≡ names ++ loop_title looping.now) }
{
    match looping {
        Some(looping) => names.with(alloc, &looping.name),
        None => Ok(names),
    }
}

/// The names of the loops of these resources.
pub fn loops_of(alloc: Global, resources: &[Listed]) -> Result<NameSet, OutOfMemory>
    ensures { IfOk result (λ s. s ≡ loop_titles (map listed_of resources.now)) }
{
    let mut names = NameSet::new(alloc);
    for resource in resources {
        names = with_loop(alloc, names, &resource.declaration.copy)?;
    }
    Ok(names)
}
