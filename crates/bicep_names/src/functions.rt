// The functions that a Bicep file may call.
ghost use Rattle.std.specs.Prelude.{◌≡◌, map, chars, option_map};
ghost use Rattle.bicep_names.specs.Functions.{reserved, function_named};
ghost use Rattle.bicep_resolved.specs.View.{row_name};
ghost use Rattle.arm_value.specs.Look.{is_among};

use arm_functions::Row;
use arm_value::{Text, folded_eq};

// The functions of templates that no Bicep file calls by name.
const RESERVED: [&str; 24] = [
    "add",
    "sub",
    "mul",
    "div",
    "mod",
    "createArray",
    "createObject",
    "parameters",
    "variables",
    "copyIndex",
    "if",
    "and",
    "or",
    "not",
    "equals",
    "less",
    "lessOrEquals",
    "greater",
    "greaterOrEquals",
    "tryGet",
    "reference",
    "true",
    "false",
    "null",
];

// Whether the name is one of these, whatever the case of its ASCII letters.
fn is_among(name: &str, names: &[&str]) -> bool
    ensures { result ≡ is_among (map (λ n. chars n.now) names.now) (chars name.now) }
{
    for other in names {
        if folded_eq(name, other) {
            return true;
        }
    }
    false
}

// Whether no Bicep file calls the function of that name.
fn is_reserved(name: &str) -> bool
    ensures { result ≡ is_among reserved (chars name.now) }
{
    is_among(name, &RESERVED)
}

/// The row of the function that a name calls, whatever the case of its ASCII letters.
pub fn function_named(name: &Text) -> Option<Row>
    ensures { option_map row_name result ≡ function_named name.now }
{
    if is_reserved(name.as_str()) {
        return None;
    }
    Row::of(name.as_str())
}
