// Numbers in a row.
ghost use Rattle.std.specs.Prelude.{◌≡◌, ◌≤◌, IfOk, IsTrue, pos, map, option_map};
ghost use Rattle.arm_value.specs.View.{json};
ghost use Rattle.function_numbers.specs.Numbers as row;
ghost use Rattle.function_numbers.specs.Numbers.{counted, is_range};

use crate::arithmetic::two_numbers;
use arm_value::{Items, OutOfMemory, Value};
use std::alloc::Global;

// Whether there are so many numbers from one on.
fn is_range(first: i64, count: i64) -> bool
    ensures { result ≡ is_range first count }
{
    if count < 0 || 10_000 < count {
        return false;
    }
    first <= 2_147_483_647 - count
}

fn counted(alloc: Global, first: i64, count: u32) -> Result<Items, OutOfMemory>
    requires { IsTrue (is_range first (pos count)) }
    ensures { IfOk result (λ items. items ≡ counted first count) }
{
    let mut items = Items::new();
    for i in 0..count {
        items.push(alloc, Value::Int(first + i64::from(i)))?;
    }
    Ok(items)
}

/// `range`: so many numbers, each one above the one before; none of less than 0 or more than 10,000,
/// or where the first and the count together are above 2,147,483,647.
pub fn range(alloc: Global, args: &[Value]) -> Result<Option<Value>, OutOfMemory>
    ensures { IfOk result (λ value. option_map json value ≡ row.range (map json args.now)) }
{
    let Some((first, count)) = two_numbers(args) else {
        return Ok(None);
    };
    if !is_range(first, count) {
        return Ok(None);
    }
    Ok(Some(Value::Array(counted(alloc, first, count as u32)?)))
}
