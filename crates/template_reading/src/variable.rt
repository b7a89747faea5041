// The variables of a template.

ghost use Rattle.std.specs.Prelude.{◌≡◌, ◌++◌, map, option_map, IfOk};
ghost use Rattle.arm_value.specs.View.{json};
ghost use Rattle.template_meaning.specs.Values.{members_in};
ghost use Rattle.template_meaning.specs.Parts.{looped_variable, variables_of};

use crate::content::loop_of;
use crate::part::{Part, copies_in, unlooped_parts_of, with_part};
use crate::values::{copy_text, inside, items_in, members_in};
use arm_value::{Field, ListOf, OutOfMemory, Value};
use std::alloc::Global;
use template_parts::{Content, Variable, run_out};

impl Part for Variable {
    ghost use Rattle.template_meaning.specs.Parts.{variable_of};

    ghost part_of = { variable_of };

    fn read(alloc: Global, field: &Field) -> Result<Variable, OutOfMemory> {
        let name = field.name.copy(alloc)?;
        match field.value.copy(alloc) {
            Ok(value) => Ok(Variable {
                name,
                content: Content::Value(value),
            }),
            Err(_) => run_out(name),
        }
    }
}

// The variable that a loop gives.
fn looped_variable(alloc: Global, value: &Value) -> Result<Variable, OutOfMemory>
    ensures { IfOk result (λ v. v ≡ looped_variable (json value.now)) }
{
    let name = copy_text(alloc, inside(Some(value), "name"))?;
    match loop_of(alloc, value) {
        Ok(content) => Ok(Variable { name, content }),
        Err(_) => run_out(name),
    }
}

// The variables, and then those that the loops give.
fn with_looped(
    alloc: Global,
    variables: ListOf<Variable>,
    loops: &[Value],
) -> Result<ListOf<Variable>, OutOfMemory>
    ensures { IfOk result (λ vs. vs ≡ variables ++ map looped_variable (map json loops.now)) }
{
    let mut all = variables;
    for value in loops {
        match looped_variable(alloc, value) {
            Ok(variable) => all = with_part(all, variable)?,
            Err(_) => return run_out(all),
        }
    }
    Ok(all)
}

/// The variables of an object: its members, in their order, and then those that its loops give.
pub fn variables_in(alloc: Global, value: Option<&Value>) -> Result<ListOf<Variable>, OutOfMemory>
    ensures { IfOk result (λ vs. vs ≡ variables_of (members_in (option_map (λ v. json v.now) value.entry))) }
{
    let fields = members_in(value);
    let plain = unlooped_parts_of::<Variable>(alloc, fields)?;
    with_looped(alloc, plain, items_in(copies_in(fields)))
}
