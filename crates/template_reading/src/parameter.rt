// The parameters of a template.

ghost use Rattle.std.specs.Prelude.{◌≡◌, ◌∷◌, map, Some, option_map, codes, IfOk};
ghost use Rattle.arm_value.specs.View.{json};
ghost use Rattle.template_meaning.specs.Values.{inside, optional, members_in};
ghost use Rattle.template_meaning.specs.Parts.{type_in, bounds_of, allowed_in, parameter_of};

use crate::kind::type_in;
use crate::part::{Part, parts_of};
use crate::values::{inside, members_in, number_in, optional};
use arm_value::{Field, Items, ListOf, OutOfMemory, Value};
use plain_values::meant_items;
use std::alloc::Global;
use template_parts::{Bounds, Parameter, run_out};

// The bounds of a parameter.
fn bounds_of(value: Option<&Value>) -> Bounds
    ensures { result ≡ bounds_of (option_map (λ v. json v.now) value.entry) }
{
    Bounds {
        min_value: number_in(inside(value, "minValue")),
        max_value: number_in(inside(value, "maxValue")),
        min_length: number_in(inside(value, "minLength")),
        max_length: number_in(inside(value, "maxLength")),
    }
}

// The values that are allowed.
fn allowed_in(alloc: Global, value: Option<&Value>) -> Result<Option<Items>, OutOfMemory>
    ensures { IfOk result (λ o. o ≡ allowed_in (option_map (λ v. json v.now) value.entry)) }
{
    match value {
        Some(value) => match value {
            Value::Array(items) => Ok(Some(meant_items(alloc, items)?)),
            _ => Ok(Some(Items::new())),
        },
        None => Ok(None),
    }
}

// The parameter with this default and these allowed values.
fn parameter_with(
    alloc: Global,
    field: &Field,
    default_value: Option<Value>,
    allowed_values: Option<Items>,
) -> Result<Parameter, OutOfMemory>
    ensures { IfOk result (λ p. p ≡ record {
      name = field.now.name;
      kind = type_in (inside (codes "type") (Some (json field.now.value)));
      default_value = default_value;
      allowed_values = allowed_values;
      bounds = bounds_of (Some (json field.now.value));
      metadata = optional (inside (codes "metadata") (Some (json field.now.value)));
    }) }
{
    let value = Some(&field.value);
    match optional(alloc, inside(value, "metadata")) {
        Ok(metadata) => match field.name.copy(alloc) {
            Ok(name) => Ok(Parameter {
                name,
                kind: type_in(inside(value, "type")),
                default_value,
                allowed_values,
                bounds: bounds_of(value),
                metadata,
            }),
            Err(_) => run_out((default_value, allowed_values, metadata)),
        },
        Err(_) => run_out((default_value, allowed_values)),
    }
}

impl Part for Parameter {
    ghost use Rattle.template_meaning.specs.Parts.{parameter_of};

    ghost part_of = { parameter_of };

    fn read(alloc: Global, field: &Field) -> Result<Parameter, OutOfMemory> {
        let value = Some(&field.value);
        let default_value = optional(alloc, inside(value, "defaultValue"))?;
        match allowed_in(alloc, inside(value, "allowedValues")) {
            Ok(allowed_values) => parameter_with(alloc, field, default_value, allowed_values),
            Err(_) => run_out(default_value),
        }
    }
}

/// The parameters of an object: its members, in their order.
pub fn parameters_in(alloc: Global, value: Option<&Value>) -> Result<ListOf<Parameter>, OutOfMemory>
    ensures { IfOk result (λ ps. ps ≡ map parameter_of (members_in (option_map (λ v. json v.now) value.entry))) }
{
    parts_of::<Parameter>(alloc, members_in(value))
}
