//! The bytes of a template.
ghost use Rattle.bicep_emit.specs.Clauses as spec;

use arm_value::{Bytes, Value};
use foundation::limits::MAX_TEMPLATE_BYTES;
use function_prints::has_whole_numbers;
use program_parts::EmitFault;
use read_backs::know_characters;
use std::alloc::Global;
use template_parts::Which;
use template_tree::Template;
use template_writer::write_template;
use template_written::written_templates_are_described;

// The bytes, where a template may have so many.
fn short(bytes: Bytes) -> Result<Bytes, EmitFault>
    ensures short { spec.IfOk result (spec.AreShort bytes) }
    ensures fault { spec.IfErr result (spec.AreLong bytes) }
{
    let length = bytes.as_slice().len();
    if length > MAX_TEMPLATE_BYTES {
        Err(EmitFault::Limit(Which::Bytes, length as u64))
    } else {
        Ok(bytes)
    }
}

// The compact JSON of a value.
fn bytes_of(alloc: Global, value: &Value) -> Result<Bytes, EmitFault>
    ensures bytes { spec.IfOk result (spec.AreBytes (spec.json value.now)) }
    ensures fault { spec.IfErr result (spec.HasLongText (spec.json value.now)) }
{
    know_characters(value);
    has_whole_numbers(value);
    match value.to_json(alloc) {
        Ok(bytes) => short(bytes),
        Err(_) => Err(EmitFault::OutOfMemory),
    }
}

/// The compact JSON of a template, as `emit` returns one.
///
/// # Errors
///
/// - `Limit`: the text has more than 4,194,304 bytes: so many.
/// - `OutOfMemory`.
pub fn build_bytes(alloc: Global, template: &Template) -> Result<Bytes, EmitFault>
    requires { spec.MayBeWritten template.now }
    ensures bytes { spec.IfOk result (spec.IsBytesOf template.now) }
    ensures fault { spec.IfErr result (spec.IsBytesFault template.now) }
{
    written_templates_are_described();
    match write_template(alloc, template) {
        Ok(value) => bytes_of(alloc, &value),
        Err(_) => Err(EmitFault::OutOfMemory),
    }
}
