// Equality and order.
ghost use Rattle.std.specs.Prelude.{◌≡◌, map, option_map};
ghost use Rattle.arm_value.specs.View.{json};
ghost use Rattle.function_numbers.specs.Logic as row;
ghost use Rattle.function_numbers.specs.Logic.{order_of, order_in};

use arm_value::Value;
use std::cmp::Ordering;

/// `equals`: whether two values are equal as trees; names and texts compare exactly.
pub fn equals(args: &[Value]) -> Option<Value>
    ensures { option_map json result ≡ row.equals (map json args.now) }
{
    match args {
        [one, other] => Some(Value::Bool(one.same(other))),
        _ => None,
    }
}

// The order of two numbers, or of two texts by their bytes.
fn order_of(one: &Value, other: &Value) -> Option<Ordering>
    ensures { result ≡ order_of (json one.now) (json other.now) }
{
    match (one, other) {
        (Value::Int(x), Value::Int(y)) => Some(x.cmp(y)),
        (Value::Text(s), Value::Text(t)) => Some(s.as_str().cmp(t.as_str())),
        _ => None,
    }
}

fn order_in(args: &[Value]) -> Option<Ordering>
    ensures { result ≡ order_in (map json args.now) }
{
    match args {
        [one, other] => order_of(one, other),
        _ => None,
    }
}

/// `less`: whether the first of two numbers, or of two texts by their bytes, is below the second.
pub fn less(args: &[Value]) -> Option<Value>
    ensures { option_map json result ≡ row.less (map json args.now) }
{
    Some(Value::Bool(order_in(args)?.is_lt()))
}

/// `lessOrEquals`: whether the first of two numbers or texts is not above the second.
pub fn less_or_equals(args: &[Value]) -> Option<Value>
    ensures { option_map json result ≡ row.less_or_equals (map json args.now) }
{
    Some(Value::Bool(order_in(args)?.is_le()))
}

/// `greater`: whether the first of two numbers or texts is above the second.
pub fn greater(args: &[Value]) -> Option<Value>
    ensures { option_map json result ≡ row.greater (map json args.now) }
{
    Some(Value::Bool(order_in(args)?.is_gt()))
}

/// `greaterOrEquals`: whether the first of two numbers or texts is not below the second.
pub fn greater_or_equals(args: &[Value]) -> Option<Value>
    ensures { option_map json result ≡ row.greater_or_equals (map json args.now) }
{
    Some(Value::Bool(order_in(args)?.is_ge()))
}
