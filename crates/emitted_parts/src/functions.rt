//! Calls of the functions that a Bicep file names.
ghost use Rattle.std.specs.Prelude.{◌≡◌, map, chars, option_map};
ghost use Rattle.arm_expr.specs.Tree.{Trees, call};
ghost use Rattle.arm_value.specs.Look.{fold};
ghost use Rattle.bicep_resolved.specs.View.{row_name};
ghost use Rattle.bicep_emission.specs.Spelled.{spelling_in, spelled};
ghost use Rattle.emitted_parts.specs.Built.{Is, Are, IsText};

use crate::calls::named;
use arm_expr::Expr;
use arm_functions::Row;
use arm_value::{OutOfMemory, Text, folded_eq};
use std::alloc::Global;

// The names with capital letters of functions that a Bicep file may call.
const CAPITALS: [&str; 13] = [
    "base64ToString",
    "endsWith",
    "indexOf",
    "lastIndexOf",
    "objectKeys",
    "padLeft",
    "resourceGroup",
    "resourceId",
    "startsWith",
    "subscriptionResourceId",
    "toLower",
    "toUpper",
    "uniqueString",
];

// The first of these that is the name, whatever the case of its letters.
fn spelling<'a>(name: &str, words: &[&'a str]) -> Option<&'a str>
    ensures { option_map (λ w. chars w.now) result
        ≡ spelling_in (chars name.now) (map (λ w. chars w.now) words.now) }
{
    for word in words {
        if folded_eq(name, word) {
            return Some(word);
        }
    }
    None
}

fn lowered(alloc: Global, name: &str) -> Result<Text, OutOfMemory>
    ensures { IsText (fold (chars name.now)) result }
{
    let lowered = name.to_ascii_lowercase(alloc)?;
    Ok(Text::from_string(lowered))
}

// The name of a function in the usual case of its letters.
fn function_name(alloc: Global, row: &Row) -> Result<Text, OutOfMemory>
    ensures { IsText (spelled (row_name row.now)) result }
{
    match spelling(row.name, &CAPITALS) {
        Some(word) => Text::of(alloc, word),
        None => lowered(alloc, row.name),
    }
}

/// A call of the function of a row.
pub fn function_call(
    alloc: Global,
    row: &Row,
    arguments: Result<Vec<Expr>, OutOfMemory>,
) -> Result<Expr, OutOfMemory>
    ensures { (ts : Trees) → Are ts arguments → Is (call (spelled (row_name row.now)) ts) result }
{
    named(function_name(alloc, row), arguments)
}
