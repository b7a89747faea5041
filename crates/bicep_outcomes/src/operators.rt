//! Operators that look at all their operands.
ghost use Rattle.std.specs.Prelude.{◌≡◌, ◌∷◌, [], map, option_map, pos};
ghost use Rattle.arm_value.specs.Json.{Json, int};
ghost use Rattle.arm_value.specs.View.{json};
ghost use Rattle.function_numbers.specs.Logic as logic;
ghost use Rattle.bicep_meaning.specs.Rows.{operator_value, prefix_value, opposite, same_folded};
ghost use Rattle.bicep_outcomes.specs.Outcomes.{IsFound, Then, both_json, reach_of};

use crate::joins::found;
use crate::stop::Stop;
use arm_env::stop::let_go;
use arm_value::Value;
use bicep_tree::{Operator, Prefix};
use function_numbers::{
    add, div, equals, greater, greater_or_equals, less, less_or_equals, mul, not, remainder, sub,
};

/// How far an operator looks at its operands.
#[derive(Clone, Copy, PartialEq, Eq, Debug)]
pub enum Reach {
    /// `??` looks at the second where the first is null.
    Coalesce,
    /// `||` looks at the second where the first is false.
    Or,
    /// `&&` looks at the second where the first is true.
    And,
    /// Any other looks at both.
    Both,
}

/// How far the operator looks at its operands.
pub fn reach_of(operator: Operator) -> Reach
    ensures { result ≡ reach_of operator }
{
    match operator {
        Operator::Coalesce => Reach::Coalesce,
        Operator::Or => Reach::Or,
        Operator::And => Reach::And,
        Operator::Equals
        | Operator::NotEquals
        | Operator::EqualsInsensitive
        | Operator::NotEqualsInsensitive
        | Operator::Less
        | Operator::LessOrEqual
        | Operator::Greater
        | Operator::GreaterOrEqual
        | Operator::Add
        | Operator::Subtract
        | Operator::Multiply
        | Operator::Divide
        | Operator::Remainder => Reach::Both,
    }
}

// The other truth value.
fn negated(value: Value) -> Option<Value>
    ensures { option_map json result ≡ logic.not (json value ∷ []) }
{
    let args = [value];
    let other = not(&args);
    let_go(args);
    other
}

fn opposite(value: Option<Value>) -> Option<Value>
    ensures { option_map json result ≡ opposite (option_map json value) }
{
    match value {
        Some(value) => negated(value),
        None => None,
    }
}

// Whether two texts are equal but for the case of ASCII letters.
fn same_folded(one: &Value, other: &Value) -> Option<Value>
    ensures { option_map json result ≡ same_folded (json one.now) (json other.now) }
{
    match one {
        Value::Text(one) => match other {
            Value::Text(other) => Some(Value::Bool(other.equals_ignore_case(one.as_str()))),
            _ => None,
        },
        _ => None,
    }
}

fn both_folded(args: &[Value]) -> Option<Value>
    ensures { (x y : Json) → map json args.now ≡ x ∷ y ∷ [] → option_map json result ≡ same_folded x y }
{
    match args {
        [one, other] => same_folded(one, other),
        _ => None,
    }
}

#[tactic(auto, unfolding(bicep_meaning::specs::Rows::operator_value))]
fn by_operator(operator: Operator, args: &[Value]) -> Option<Value>
    ensures { (x y : Json) → map json args.now ≡ x ∷ y ∷ [] → option_map json result ≡ operator_value operator x y }
{
    match operator {
        Operator::Coalesce => None,
        Operator::Or => None,
        Operator::And => None,
        Operator::Equals => equals(args),
        Operator::NotEquals => opposite(equals(args)),
        Operator::EqualsInsensitive => both_folded(args),
        Operator::NotEqualsInsensitive => opposite(both_folded(args)),
        Operator::Less => less(args),
        Operator::LessOrEqual => less_or_equals(args),
        Operator::Greater => greater(args),
        Operator::GreaterOrEqual => greater_or_equals(args),
        Operator::Add => add(args),
        Operator::Subtract => sub(args),
        Operator::Multiply => mul(args),
        Operator::Divide => div(args),
        Operator::Remainder => remainder(args),
    }
}

fn of_both(operator: Operator, operands: (Value, Value)) -> Option<Value>
    ensures { option_map json result ≡ operator_value operator (json operands.0) (json operands.1) }
{
    let (one, other) = operands;
    let args = [one, other];
    let value = by_operator(operator, &args);
    let_go(args);
    value
}

/// What an operator gives of both operands.
pub fn operated(operator: Operator, operands: Result<(Value, Value), Stop>) -> Result<Value, Stop>
    ensures { Then both_json json (λ q. operator_value operator q.0 q.1) operands result }
{
    match operands {
        Ok(operands) => found(of_both(operator, operands)),
        Err(stop) => Err(stop),
    }
}

#[tactic(auto, unfolding(bicep_meaning::specs::Rows::operator_value))]
fn by_prefix(prefix: Prefix, value: Value) -> Option<Value>
    ensures { option_map json result ≡ prefix_value prefix (json value) }
{
    match prefix {
        Prefix::Not => negated(value),
        Prefix::Negate => of_both(Operator::Subtract, (Value::Int(0), value)),
    }
}

/// What a prefix operator gives of its operand.
pub fn prefixed(prefix: Prefix, operand: Result<Value, Stop>) -> Result<Value, Stop>
    ensures { Then json json (prefix_value prefix) operand result }
{
    match operand {
        Ok(value) => found(by_prefix(prefix, value)),
        Err(stop) => Err(stop),
    }
}
