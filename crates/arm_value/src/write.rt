// From a value to its compact text, a token at a time.
ghost use Rattle.std.specs.Prelude.{◌≡◌, ◌≤◌, [], ◌∷◌, ◌++◌, ℕ, List, Some, IfOk, OnOk};
ghost use Rattle.json.specs.Token.{number};
ghost use Rattle.serde_json.specs.Read.{number_of};
ghost use Rattle.serde_json.specs.Find.{of_integer};
ghost use Rattle.serde_json.specs.Written.{compact_text, number_text, unless_float, WritesValue, WritesItems};
ghost use Rattle.serde_json.specs.Written.{WritesMembers};
ghost use Rattle.arm_value.specs.Json.{pairs, row};
ghost use Rattle.arm_value.specs.View.{json};
ghost use Rattle.arm_value.specs.Reading.{data_of, row_data, pairs_data, reading};

use crate::bytes::Bytes;
use crate::memory::OutOfMemory;
use crate::value::{Fields, Items, Value};
use json::Writer;
use std::alloc::Global;

// Writes the value after what was written before.
#[cycle(write)]
fn write(value: &Value, out: &mut Writer) -> Result<(), OutOfMemory>
    ensures ok { OnOk result
        (WritesValue (data_of (json value.now)) out.old.tokens out.new.tokens) }
    ensures before { out.new.before ≡ out.old.before }
{
    match value {
        Value::Null => out.null(),
        Value::Bool(b) => out.boolean(*b),
        Value::Int(n) => write_int(*n, out),
        Value::Text(text) => out.string(text.as_str()),
        Value::Array(items) => {
            out.begin_array()?;
            write_items(items, out)
        }
        Value::Object(fields) => {
            out.begin_object()?;
            write_fields(fields, out)
        }
    }
}

fn write_int(n: i64, out: &mut Writer) -> Result<(), OutOfMemory>
    ensures ok { OnOk result ((s : List ℕ)
        × (out.new.tokens ≡ out.old.tokens ++ number s ∷ [])
        × (number_of s ≡ Some (of_integer n))
        × (unless_float s ≡ number_text (of_integer n))) }
    ensures before { out.new.before ≡ out.old.before }
{
    out.i64(n)
}

// The items, and the closing bracket.
#[cycle(write)]
fn write_items(items: &Items, out: &mut Writer) -> Result<(), OutOfMemory>
    ensures ok { OnOk result
        (WritesItems (row_data (row items.now)) out.old.tokens out.new.tokens) }
    ensures before { out.new.before ≡ out.old.before }
{
    for item in items.as_slice() {
        write(item, out)?;
    }
    out.end_array()
}

// The members, and the closing bracket.
#[cycle(write)]
fn write_fields(fields: &Fields, out: &mut Writer) -> Result<(), OutOfMemory>
    ensures ok { OnOk result
        (WritesMembers (pairs_data (pairs fields.now)) out.old.tokens out.new.tokens) }
    ensures before { out.new.before ≡ out.old.before }
{
    for field in fields.as_slice() {
        out.key(field.name.as_str())?;
        write(&field.value, out)?;
    }
    out.end_object()
}

impl Value {
    /// The compact JSON text, with members in the order of their names' bytes. It reads back as
    /// this value.
    pub fn to_json(&self, alloc: Global) -> Result<Bytes, OutOfMemory>
        ensures text { IfOk result (λ b. b ≡ compact_text (data_of (json self.now))) }
        ensures reads_back { IfOk result (λ b. reading b ≡ Some (data_of (json self.now))) }
    {
        let mut out = Writer::new(Vec::with_capacity(alloc, 128)?);
        write(self, &mut out)?;
        let nesting = self.nesting();
        prove!(nesting <= 120);
        Ok(Bytes::from_vec(out.into_inner()))
    }
}
