//! How many bytes the compact JSON of a template has.
ghost use Rattle.std.specs.Prelude.{◌≡◌, ◌≤◌, IfOk};
ghost use Rattle.arm_value.specs.Json.{nesting as depth};
ghost use Rattle.arm_value.specs.View.{json};
ghost use Rattle.template_lengths.specs.Lengths.{IsAdded, IsLength, IsLengthOf, OptionKeeps, value_bytes};
ghost use Rattle.template_tree.specs.View.{template_tree};
ghost use Rattle.template_written.specs.Keeps.{Keeps};
ghost use Rattle.template_written.specs.Written.{written};

use arm_value::{OutOfMemory, Value};
use foundation::limits::MAX_JSON_NESTING;
use std::alloc::Global;
use template_nestings::laws::{templates_nest_as_deep, templates_nest_no_deeper};
use template_nestings::nesting;
use template_tree::Template;
use template_writer::write_template;

// How many bytes the compact JSON of a value has.
fn value_length(alloc: Global, value: &Value) -> Result<u64, OutOfMemory>
    ensures { IfOk result (λ n. n ≡ value_bytes (json value.now)) }
{
    match value.to_json(alloc) {
        Ok(bytes) => Ok(bytes.as_slice().len() as u64),
        Err(error) => Err(error),
    }
}

// That of the value that is written of a template.
fn written_length(alloc: Global, template: &Template) -> Result<u64, OutOfMemory>
    requires keeps { Keeps (template_tree template.now) }
    requires nests { depth (written (template_tree template.now)) ≤ 120 }
    ensures { IfOk result (IsLengthOf template.now) }
{
    match write_template(alloc, template) {
        Ok(value) => value_length(alloc, &value),
        Err(error) => Err(error),
    }
}

/// How many bytes the compact JSON of a template has. A template that nests above 120 is not written: 0.
///
/// # Errors
///
/// Out of memory.
pub fn length(alloc: Global, template: &Template) -> Result<u64, OutOfMemory>
    requires { Keeps (template_tree template.now) }
    ensures { IfOk result (IsLength (template_tree template.now)) }
{
    templates_nest_no_deeper();
    templates_nest_as_deep();
    if nesting(template) > MAX_JSON_NESTING as u64 {
        Ok(0)
    } else {
        written_length(alloc, template)
    }
}

/// The bytes with those of a template, where it is there, counted up to 2^64 - 1.
///
/// # Errors
///
/// Out of memory.
pub fn added(alloc: Global, bytes: u64, template: &Option<Template>) -> Result<u64, OutOfMemory>
    requires { OptionKeeps template.now }
    ensures { IfOk result (IsAdded bytes template.now) }
{
    match template {
        Some(template) => match length(alloc, template) {
            Ok(more) => Ok(bytes.saturating_add(more)),
            Err(error) => Err(error),
        },
        None => Ok(bytes),
    }
}
