// Members from many names and values at once.
ghost use Rattle.std.specs.Prelude.{◌≡◌, ◌≤◌, map, [], IfOk};
ghost use Rattle.arm_value.specs.Json.{members_nesting, put_each};
ghost use Rattle.arm_value.specs.View.{member, entry};

use crate::memory::OutOfMemory;
use crate::text::Text;
use crate::value::{Field, Fields, Value};
use std::alloc::Global;
use std::collections::BTreeMap;

/// The values by their names, in the order of the bytes of the names; of equal names the last.
///
/// It takes time in the order of n log n for n members.
pub fn sorted(alloc: Global, members: Vec<Field>) -> Result<BTreeMap<String, Value>, OutOfMemory>
    ensures { IfOk result (λ m. map entry m.entries ≡ put_each [] (map member members.items)) }
{
    let mut sorted = BTreeMap::new(alloc);
    for field in members {
        drop(sorted.insert(field.name.into_string(), field.value)?);
    }
    Ok(sorted)
}

// The members of values that are sorted by their names.
fn in_order(alloc: Global, sorted: BTreeMap<String, Value>) -> Result<Fields, OutOfMemory>
    requires { members_nesting (map entry sorted.entries) ≤ 119 }
    ensures { IfOk result (λ f. f ≡ map entry sorted.entries) }
{
    let mut fields = Fields::new();
    for (name, value) in sorted {
        fields.push_last(alloc, Text::from_string(name), value)?;
    }
    Ok(fields)
}

impl Fields {
    /// The members of these names and values; where a name comes again, the later value wins.
    ///
    /// It takes time in the order of n log n for n members. `deepest_member` returns their nesting.
    pub fn from_members(alloc: Global, members: Vec<Field>) -> Result<Fields, OutOfMemory>
        requires { members_nesting (map member members.items) ≤ 119 }
        ensures { IfOk result (λ f. f ≡ put_each [] (map member members.items)) }
    {
        let sorted = sorted(alloc, members)?;
        in_order(alloc, sorted)
    }
}
