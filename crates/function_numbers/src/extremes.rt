// The least and the greatest of numbers.
ghost use Rattle.std.specs.Prelude.{◌≡◌, map, option_map, option_and_then};
ghost use Rattle.std.specs.List.{fold};
ghost use Rattle.arm_value.specs.View.{json};
ghost use Rattle.function_numbers.specs.Kinds.{numbers_in};
ghost use Rattle.function_numbers.specs.Numbers as row;
ghost use Rattle.function_numbers.specs.Numbers.{better, compared, best};

use crate::kinds::{items_of, number_of};
use arm_value::Value;

/// Which of some numbers is sought.
#[derive(Clone, Copy)]
pub enum Extreme {
    /// the least
    Least,
    /// the greatest
    Greatest,
}

fn better(extreme: Extreme, x: i64, y: i64) -> i64
    ensures { result ≡ better extreme x y }
{
    match extreme {
        Extreme::Least => x.min(y),
        Extreme::Greatest => x.max(y),
    }
}

// The items of a lone array, else the arguments.
#[tactic(auto, using(crate::proofs::RowLemmas::items_of_row))]
fn compared(args: &[Value]) -> &[Value]
    ensures { map json result.now ≡ compared (map json args.now) }
{
    match args {
        [one] => match items_of(one) {
            Some(items) => items.as_slice(),
            None => args,
        },
        _ => args,
    }
}

// The best of a number and these; none where one is no number.
fn best_from(extreme: Extreme, first: i64, rest: &[Value]) -> Option<i64>
    ensures { result ≡ option_map (fold (better extreme) first) (numbers_in (map json rest.now)) }
{
    let mut best = first;
    for value in rest {
        match number_of(value) {
            Some(number) => best = better(extreme, best, number),
            None => return None,
        }
    }
    Some(best)
}

fn best(extreme: Extreme, values: &[Value]) -> Option<i64>
    ensures { result ≡ option_and_then (best (better extreme)) (numbers_in (map json values.now)) }
{
    match values {
        [first, rest @ ..] => best_from(extreme, number_of(first)?, rest),
        [] => None,
    }
}

/// `min`: the least of the numbers, or of the numbers of one array.
pub fn min(args: &[Value]) -> Option<Value>
    ensures { option_map json result ≡ row.min (map json args.now) }
{
    Some(Value::Int(best(Extreme::Least, compared(args))?))
}

/// `max`: the greatest of the numbers, or of the numbers of one array.
pub fn max(args: &[Value]) -> Option<Value>
    ensures { option_map json result ≡ row.max (map json args.now) }
{
    Some(Value::Int(best(Extreme::Greatest, compared(args))?))
}
