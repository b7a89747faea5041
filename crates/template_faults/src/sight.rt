// Which parameters and variables a template has.

ghost use Rattle.std.specs.Prelude.{◌≡◌, [], IfOk, option_map};
ghost use Rattle.arm_value.specs.Json.{pairs, row};
ghost use Rattle.arm_value.specs.Look.{first_by};
ghost use Rattle.arm_value.specs.View.{json};
ghost use Rattle.template_faults.specs.Sights.{member_names, plain_names, row_names, loop_names, variable_names};
ghost use Rattle.template_faults.specs.Sights.{sight_of};
ghost use Rattle.template_values.specs.Values.{loop_name, names_with};
ghost use Rattle.arm_expr.specs.Brackets.{is_copy};

use arm_value::{Fields, Items, OutOfMemory, Value};
use name_set::NameSet;
use std::alloc::Global;
use template_members::names_of;
use template_parts::run_out;
use template_texts::Sight;
use template_values::{is_copy, loop_name};

// The names of the members.
fn member_names(alloc: Global, value: Option<&Value>) -> Result<NameSet, OutOfMemory>
    ensures { IfOk result (λ names. names ≡ member_names (option_map (λ v. json v.now) value.entry)) }
{
    match value {
        Some(Value::Object(fields)) => names_of(alloc, fields),
        _ => Ok(NameSet::new(alloc)),
    }
}

// The names of the members that are not `copy`.
fn plain_names(alloc: Global, fields: &Fields) -> Result<NameSet, OutOfMemory>
    ensures { IfOk result (λ names. names ≡ plain_names [] (pairs fields.now)) }
{
    let mut names = NameSet::new(alloc);
    for field in fields.as_slice() {
        if !is_copy(&field.name) {
            names = names.with(alloc, &field.name)?;
        }
    }
    Ok(names)
}

// The names with that of a loop.
fn with_loop(alloc: Global, names: NameSet, value: &Value) -> Result<NameSet, OutOfMemory>
    ensures { IfOk result (λ ns. ns ≡ names_with names (loop_name (json value.now))) }
{
    match loop_name(value) {
        Some(name) => names.with(alloc, name),
        None => Ok(names),
    }
}

// The names, and those that loops give.
fn row_names(alloc: Global, names: NameSet, items: &Items) -> Result<NameSet, OutOfMemory>
    ensures { IfOk result (λ ns. ns ≡ row_names names (row items.now)) }
{
    let mut all = names;
    for item in items.as_slice() {
        all = with_loop(alloc, all, item)?;
    }
    Ok(all)
}

// The names, and those that loops give, where there are loops.
fn loop_names(alloc: Global, names: NameSet, loops: Option<&Value>) -> Result<NameSet, OutOfMemory>
    ensures { IfOk result (λ ns. ns ≡ loop_names names (option_map (λ v. json v.now) loops.entry)) }
{
    match loops {
        Some(Value::Array(items)) => row_names(alloc, names, items),
        _ => Ok(names),
    }
}

/// The loops among variables.
pub fn copies_in(variables: &Fields) -> Option<&Value>
    ensures { option_map (λ v. json v.now) result ≡ first_by is_copy (pairs variables.now) }
{
    for field in variables.as_slice() {
        if is_copy(&field.name) {
            return Some(&field.value);
        }
    }
    None
}

// The names of the variables.
fn variable_names(alloc: Global, value: Option<&Value>) -> Result<NameSet, OutOfMemory>
    ensures { IfOk result (λ names. names ≡ variable_names (option_map (λ v. json v.now) value.entry)) }
{
    match value {
        Some(Value::Object(fields)) => {
            let names = plain_names(alloc, fields)?;
            loop_names(alloc, names, copies_in(fields))
        }
        _ => Ok(NameSet::new(alloc)),
    }
}

/// What the expressions of a template see that sees its own names.
#[tactic(auto, using(crate::proofs::WordLemmas::words))]
pub fn sight_of(alloc: Global, value: &Value) -> Result<Sight, OutOfMemory>
    ensures { IfOk result (λ s. s ≡ sight_of (json value.now)) }
{
    let parameters = member_names(alloc, value.look("parameters"))?;
    match variable_names(alloc, value.look("variables")) {
        Ok(variables) => Ok(Sight {
            parameters,
            variables,
        }),
        Err(_) => run_out(parameters),
    }
}
