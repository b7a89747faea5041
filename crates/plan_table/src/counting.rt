// How many instances a table has, and which are too many.
ghost use Rattle.std.specs.Prelude.{◌≡◌, ◌+◌, ◌<◌, ◌≤◌, length, slice_set, slice_index_or, IfOk, IfErr, Some};
ghost use Rattle.arm_value.specs.View.{json};
ghost use Rattle.plan_filling.specs.Cells.{copies};
ghost use Rattle.plan_table.specs.Counted.{Exceeds};

use arm_value::Value;
use plan_filling::sheet::Halt;
use template_parts::Which;

/// The most instances over all scopes.
pub const MAX_INSTANCES: usize = 2000;

/// The most instances of one template, and the most of one resource.
pub const MAX_INSTANCES_OF_TEMPLATE: usize = 800;

/// The number of instances that a count says, or the number that is too large.
pub fn counted(value: &Value) -> Result<usize, u64>
    ensures number { IfOk result (λ n. n ≡ copies (Some (json value.now))) }
    ensures few { IfOk result (λ n. n ≤ 800) }
    ensures refused { IfErr result (λ n. n ≡ copies (Some (json value.now))) }
    ensures beyond { IfErr result (λ n. 800 < n) }
{
    match value {
        Value::Int(number) => {
            if *number < 0 {
                Ok(0)
            } else if *number <= 800 {
                Ok(*number as usize)
            } else {
                Err(*number as u64)
            }
        }
        _ => Ok(0),
    }
}

/// Counts instances of the template of a frame, unless they are too many.
pub fn add_instances(
    counts: &mut Vec<usize>,
    instances: &mut usize,
    frame: usize,
    count: usize,
) -> Result<(), Halt>
    requires there { frame < length counts.old.items }
    requires few { slice_index_or counts.old.items frame 0 ≤ 800 }
    requires within { instances.old ≤ 2000 }
    requires count { count ≤ 800 }
    ensures counted { IfOk result (λ _. counts.new.items
        ≡ slice_set counts.old.items frame (slice_index_or counts.old.items frame 0 + count)) }
    ensures few { IfOk result (λ _. slice_index_or counts.old.items frame 0 + count ≤ 800) }
    ensures all { IfOk result (λ _. instances.new ≡ instances.old + count) }
    ensures within { IfOk result (λ _. instances.old + count ≤ 2000) }
    ensures beyond { IfErr result (Exceeds (record {
      of_scope = slice_index_or counts.old.items frame 0;
      of_all = instances.old;
      more = count;
    })) }
{
    let all = *instances + count;
    let of_scope = counts[frame] + count;
    if all > MAX_INSTANCES {
        return Err(Halt::Limit(Which::Instances, 2001));
    }
    if of_scope > MAX_INSTANCES_OF_TEMPLATE {
        return Err(Halt::Limit(Which::Resources, of_scope as u64));
    }
    counts[frame] = of_scope;
    *instances = all;
    Ok(())
}
