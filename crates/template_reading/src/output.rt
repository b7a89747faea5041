// The outputs of a template.

ghost use Rattle.std.specs.Prelude.{◌≡◌, ◌∷◌, map, Some, option_map, codes, IfOk};
ghost use Rattle.arm_value.specs.View.{json};
ghost use Rattle.template_meaning.specs.Values.{inside, optional, members_in};
ghost use Rattle.template_meaning.specs.Parts.{type_in, output_of};

use crate::content::content_by;
use crate::kind::type_in;
use crate::part::{Part, parts_of};
use crate::values::{inside, members_in, optional};
use arm_value::{Field, ListOf, OutOfMemory, Value};
use std::alloc::Global;
use template_parts::{Content, Output, run_out};

// The output with this value and this condition.
fn output_with(
    alloc: Global,
    field: &Field,
    content: Content,
    condition: Option<Value>,
) -> Result<Output, OutOfMemory>
    ensures { IfOk result (λ o. o ≡ record {
      name = field.now.name;
      kind = type_in (inside (codes "type") (Some (json field.now.value)));
      content = content;
      condition = condition;
      metadata = optional (inside (codes "metadata") (Some (json field.now.value)));
    }) }
{
    let value = Some(&field.value);
    match optional(alloc, inside(value, "metadata")) {
        Ok(metadata) => match field.name.copy(alloc) {
            Ok(name) => Ok(Output {
                name,
                kind: type_in(inside(value, "type")),
                content,
                condition,
                metadata,
            }),
            Err(_) => run_out((content, condition, metadata)),
        },
        Err(_) => run_out((content, condition)),
    }
}

impl Part for Output {
    ghost use Rattle.template_meaning.specs.Parts.{output_of};

    ghost part_of = { output_of };

    fn read(alloc: Global, field: &Field) -> Result<Output, OutOfMemory> {
        let value = Some(&field.value);
        let content = content_by(alloc, inside(value, "copy"), value)?;
        match optional(alloc, inside(value, "condition")) {
            Ok(condition) => output_with(alloc, field, content, condition),
            Err(_) => run_out(content),
        }
    }
}

/// The outputs of an object: its members, in their order.
pub fn outputs_in(alloc: Global, value: Option<&Value>) -> Result<ListOf<Output>, OutOfMemory>
    ensures { IfOk result (λ os. os ≡ map output_of (members_in (option_map (λ v. json v.now) value.entry))) }
{
    parts_of::<Output>(alloc, members_in(value))
}
