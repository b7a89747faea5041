// Numbers from texts.
ghost use Rattle.std.specs.Prelude.{◌≡◌, ◌∷◌, [], ◌+◌, ◌*◌, ◌-◌, ◌^◌, chars, nat_lt, map, option_map, option_and_then};
ghost use Rattle.std.specs.Prelude.{if◌then◌else◌};
ghost use Rattle.arm_value.specs.View.{json};
ghost use Rattle.function_numbers.specs.Numbers as row;
ghost use Rattle.function_numbers.specs.Numbers.{is_digit, with_digit, small, numeral, after_minus, below_zero};
ghost use Rattle.function_numbers.specs.Numbers.{from_zero, spelled, whole};

use arm_value::Value;

// The number with one more digit; none where the character is no digit, or from 2 ^ 64 on.
fn with_digit(number: u64, c: char) -> Option<u64>
    ensures { result ≡ option_and_then small (with_digit number c) }
{
    if c < '0' || '9' < c {
        return None;
    }
    let digit = c as u32 - '0' as u32;
    number.checked_mul(10)?.checked_add(u64::from(digit))
}

// The number that digits spell; none from 2 ^ 64 on.
fn numeral(text: &str) -> Option<u64>
    ensures { result ≡ option_and_then small (numeral (chars text.now)) }
{
    if text.is_empty() {
        return None;
    }
    let mut number = 0u64;
    for c in text.chars() {
        match with_digit(number, c) {
            Some(more) => number = more,
            None => return None,
        }
    }
    Some(number)
}

// The characters after a `-` at the front.
fn after_minus(text: &str) -> Option<&str>
    ensures { option_map (λ s. chars s.now) result ≡ after_minus (chars text.now) }
{
    let mut characters = text.chars();
    match characters.next() {
        Some('-') => Some(characters.as_str()),
        _ => None,
    }
}

fn from_zero(number: u64) -> Option<i64>
    ensures { result ≡ from_zero number }
{
    if number <= 0x7fff_ffff_ffff_ffff {
        Some(number as i64)
    } else {
        None
    }
}

fn below_zero(number: u64) -> Option<i64>
    ensures { result ≡ below_zero number }
{
    0i64.checked_sub_unsigned(number)
}

fn spelled(text: &str) -> Option<i64>
    ensures { result ≡ spelled (chars text.now) }
{
    match after_minus(text) {
        Some(digits) => below_zero(numeral(digits)?),
        None => from_zero(numeral(text)?),
    }
}

fn whole(value: &Value) -> Option<i64>
    ensures { result ≡ whole (json value.now) }
{
    match value {
        Value::Int(number) => Some(*number),
        Value::Text(text) => spelled(text.as_str()),
        _ => None,
    }
}

fn as_int(value: &Value) -> Option<Value>
    ensures { option_map json result ≡ row.to_int (json value.now ∷ []) }
{
    Some(Value::Int(whole(value)?))
}

/// `int`: a number itself, or the number of 64 bits that a text spells by digits with at most one
/// `-` before them.
pub fn to_int(args: &[Value]) -> Option<Value>
    ensures { option_map json result ≡ row.to_int (map json args.now) }
{
    match args {
        [value] => as_int(value),
        _ => None,
    }
}
