// Sums, differences, products and quotients.
ghost use Rattle.std.specs.Prelude.{◌≡◌, ◌+ℤ◌, ◌-ℤ◌, ◌*ℤ◌, [], ◌∷◌, map, option_map};
ghost use Rattle.arm_value.specs.View.{json};
ghost use Rattle.function_numbers.specs.Numbers as row;
ghost use Rattle.function_numbers.specs.Numbers.{within, two_numbers, quotient, rest_of};

use crate::kinds::number_of;
use arm_value::Value;

fn pair(one: &Value, other: &Value) -> Option<(i64, i64)>
    ensures { result ≡ two_numbers (json one.now ∷ json other.now ∷ []) }
{
    Some((number_of(one)?, number_of(other)?))
}

/// The two numbers that the arguments are.
pub fn two_numbers(args: &[Value]) -> Option<(i64, i64)>
    ensures { result ≡ two_numbers (map json args.now) }
{
    match args {
        [one, other] => pair(one, other),
        _ => None,
    }
}

#[tactic(auto, using(crate::proofs::NumberLemmas::within_is))]
fn sum(x: i64, y: i64) -> Option<i64>
    ensures { result ≡ within (x +ℤ y) }
{
    x.checked_add(y)
}

#[tactic(auto, using(crate::proofs::NumberLemmas::within_is))]
fn difference(x: i64, y: i64) -> Option<i64>
    ensures { result ≡ within (x -ℤ y) }
{
    x.checked_sub(y)
}

#[tactic(auto, using(crate::proofs::NumberLemmas::within_is))]
fn product(x: i64, y: i64) -> Option<i64>
    ensures { result ≡ within (x *ℤ y) }
{
    x.checked_mul(y)
}

fn quotient(x: i64, y: i64) -> Option<i64>
    ensures { result ≡ quotient x y }
{
    x.checked_div(y)
}

// The least number has a remainder by -1, though no quotient.
fn rest_of(x: i64, y: i64) -> Option<i64>
    ensures { result ≡ rest_of x y }
{
    if y == 0 {
        None
    } else {
        Some(x.wrapping_rem(y))
    }
}

/// `add`: the sum of two numbers; none beyond 64 bits.
pub fn add(args: &[Value]) -> Option<Value>
    ensures { option_map json result ≡ row.add (map json args.now) }
{
    let (x, y) = two_numbers(args)?;
    Some(Value::Int(sum(x, y)?))
}

/// `sub`: the first number less the second; none beyond 64 bits.
pub fn sub(args: &[Value]) -> Option<Value>
    ensures { option_map json result ≡ row.sub (map json args.now) }
{
    let (x, y) = two_numbers(args)?;
    Some(Value::Int(difference(x, y)?))
}

/// `mul`: the product of two numbers; none beyond 64 bits.
pub fn mul(args: &[Value]) -> Option<Value>
    ensures { option_map json result ≡ row.mul (map json args.now) }
{
    let (x, y) = two_numbers(args)?;
    Some(Value::Int(product(x, y)?))
}

/// `div`: the first number by the second, cut toward zero; none by 0 and beyond 64 bits.
pub fn div(args: &[Value]) -> Option<Value>
    ensures { option_map json result ≡ row.div (map json args.now) }
{
    let (x, y) = two_numbers(args)?;
    Some(Value::Int(quotient(x, y)?))
}

/// `mod`: what `div` leaves of the first number, with its sign; none by 0.
pub fn remainder(args: &[Value]) -> Option<Value>
    ensures { option_map json result ≡ row.remainder (map json args.now) }
{
    let (x, y) = two_numbers(args)?;
    Some(Value::Int(rest_of(x, y)?))
}
