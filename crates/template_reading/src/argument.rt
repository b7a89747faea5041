// What a nested deployment gives for the parameters of its template.

ghost use Rattle.std.specs.Prelude.{◌≡◌, map, Some, option_map, IfOk};
ghost use Rattle.arm_value.specs.View.{json};
ghost use Rattle.template_meaning.specs.Values.{items_in, members_in};
ghost use Rattle.template_meaning.specs.Parts.{first_in, copies_in};
ghost use Rattle.template_meaning.specs.Resources.{arguments_in};

use crate::content::content_by;
use crate::part::{Part, copies_in, unlooped_parts_of};
use crate::values::{inside, items_in, members_in};
use arm_value::{Field, ListOf, OutOfMemory, Value};
use std::alloc::Global;
use template_parts::{Argument, run_out};

// The first loop of the value.
fn first_loop<'a>(value: &'a Value) -> Option<&'a Value>
    ensures { option_map (λ v. json v.now) result
        ≡ first_in (items_in (copies_in (members_in (Some (json value.now))))) }
{
    match items_in(copies_in(members_in(Some(value)))) {
        [] => None,
        [first, ..] => Some(first),
    }
}

impl Part for Argument {
    ghost use Rattle.template_meaning.specs.Parts.{argument_of};

    ghost part_of = { argument_of };

    fn read(alloc: Global, field: &Field) -> Result<Argument, OutOfMemory> {
        let name = field.name.copy(alloc)?;
        match content_by(alloc, first_loop(&field.value), Some(&field.value)) {
            Ok(content) => Ok(Argument { name, content }),
            Err(_) => run_out(name),
        }
    }
}

/// What the properties of a nested deployment give for parameters, in the order of their names.
pub fn arguments_in(
    alloc: Global,
    properties: Option<&Value>,
) -> Result<ListOf<Argument>, OutOfMemory>
    ensures { IfOk result (λ ps. ps ≡ arguments_in (option_map (λ v. json v.now) properties.entry)) }
{
    unlooped_parts_of::<Argument>(alloc, members_in(inside(properties, "parameters")))
}
