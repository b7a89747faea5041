// The outputs of nested deployments.
ghost use Rattle.std.specs.Prelude.{◌≡◌, ◌≤◌, [], true, map, option_map, IfOk};
ghost use Rattle.std.specs.Prelude.{MatchOption, is_ok, if◌then◌else◌};
ghost use Rattle.arm_value.specs.Json.{Json, nesting, object, pairs, put, put_each};
ghost use Rattle.arm_value.specs.View.{json, member};
ghost use Rattle.reading.specs.Knowledge.{told, value, and_then};
ghost use Rattle.arm_env.specs.Find.{output_named};
ghost use Rattle.arm_env.specs.Held.{value_named, output_value, output_member, all_outputs, output_declared};
ghost use Rattle.arm_env.specs.Held.{typed, among};
ghost use Rattle.arm_env.specs.Answer.{outcome_told, gathered, Gives, Sees};
ghost use Rattle.arm_env.specs.Sight.{declared_of};

use crate::entries::{Declared, Entries};
use crate::objects::{with_copy, with_value};
use crate::stop::{Stop, lacks_memory, let_go, outcome, stopped};
use arm_ids::Key;
use arm_value::{Field, Fields, OutOfMemory, Text, Value};
use foundation::limits::MAX_VALUE_NESTING;
use std::alloc::Global;

/// The value of the output of that name of the nested deployment at a key, whichever other outputs
/// there are: no value where it has none, does not have it, or nests deeper than 100.
#[tactic(auto, using(crate::proofs::Answers::answers))]
pub fn value_named<'a, K: Entries>(
    alloc: Global,
    entries: &'a K,
    key: &Key,
    name: &Text,
) -> Result<&'a Value, Stop>
    ensures value { Gives (λ v. json v.now) result
        (told (K.known entries.now) (value_named key.now name.now)) }
    ensures nests { IfOk result (λ v. nesting (json v.now) ≤ 100) }
{
    let value = entries.output(alloc, key, name)?;
    if value.nesting() <= MAX_VALUE_NESTING {
        Ok(value)
    } else {
        Err(Stop::NoValue)
    }
}

/// The value of an output of the nested deployment at a key: no value where it has none, or nests
/// deeper than 100.
pub fn output_value<'a, K: Entries>(
    alloc: Global,
    entries: &'a K,
    key: &Key,
    output: &Declared,
) -> Result<&'a Value, Stop>
    ensures value { Gives (λ v. json v.now) result
        (told (K.known entries.now) (output_value key.now (declared_of output.now))) }
    ensures nests { IfOk result (λ v. nesting (json v.now) ≤ 100) }
{
    value_named(alloc, entries, key, output.name)
}

// The value of an output, or that it has none.
fn output_outcome<'a, K: Entries>(
    alloc: Global,
    entries: &'a K,
    key: &Key,
    output: &Declared,
) -> Result<Option<&'a Value>, Stop>
    ensures { Gives (option_map (λ v. json v.now)) result
        (outcome_told (told (K.known entries.now)
        (output_value key.now (declared_of output.now)))) }
{
    outcome(output_value(alloc, entries, key, output))
}

// Whether each of these outputs has a value.
fn look_at_each<K: Entries>(
    alloc: Global,
    entries: &K,
    key: &Key,
    outputs: &[Declared],
) -> Result<(), Stop>
    ensures { Gives (λ _. true) result (gathered (λ _. true) (K.known entries.now)
        (map (λ x. output_member key.now (declared_of x)) outputs.now)) }
{
    let mut complete = true;
    for output in outputs {
        match output_outcome(alloc, entries, key, output)? {
            Some(_value) => {}
            None => complete = false,
        }
    }
    if complete { Ok(()) } else { Err(Stop::NoValue) }
}

// The type of an output and a value.
fn typed_fields(alloc: Global, output: &Declared, value: Value) -> Result<Fields, OutOfMemory>
    requires { nesting (json value) ≤ 119 }
    ensures { IfOk result (λ f. object (pairs f) ≡ typed (declared_of output.now) (json value)) }
{
    match with_copy(alloc, Fields::new(), "type", output.kind) {
        Ok(fields) => with_value(alloc, fields, "value", value),
        Err(_) => lacks_memory(value),
    }
}

/// An output as `reference` shows it: its type and the value, which nests at most 119.
pub fn typed(alloc: Global, output: &Declared, value: &Value) -> Result<Value, OutOfMemory>
    requires { nesting (json value.now) ≤ 119 }
    ensures { IfOk result (λ v. json v ≡ typed (declared_of output.now) (json value.now)) }
{
    let value = value.copy(alloc)?;
    let fields = typed_fields(alloc, output, value)?;
    Ok(Value::Object(fields))
}

// Puts the member at its name. After `OutOfMemory` the members are unchanged.
fn put_field(alloc: Global, fields: &mut Fields, field: Field) -> Result<(), OutOfMemory>
    requires { nesting (json field.value) ≤ 119 }
    ensures { fields.new
        ≡ (if is_ok result then put field.name (json field.value) fields.old else fields.old) }
{
    let Field { name, value } = field;
    fields.set(alloc, name.as_str(), value)
}

// The outputs as `reference` shows them.
fn output_fields<K: Entries>(
    alloc: Global,
    entries: &K,
    key: &Key,
    outputs: &[Declared],
) -> Result<Fields, Stop>
    ensures { Gives (λ f. f) result (gathered (put_each []) (K.known entries.now)
        (map (λ x. output_member key.now (declared_of x)) outputs.now)) }
{
    let mut complete = true;
    let mut fields = Fields::new();
    for output in outputs {
        match member_outcome(alloc, entries, key, output)? {
            Some(member) => put_field(alloc, &mut fields, member)?,
            None => complete = false,
        }
    }
    if complete {
        Ok(fields)
    } else {
        Err(Stop::NoValue)
    }
}

// The name and the value of an output, or that it has none.
#[tactic(auto, using(crate::proofs::Answers::answers))]
fn member_outcome<K: Entries>(
    alloc: Global,
    entries: &K,
    key: &Key,
    output: &Declared,
) -> Result<Option<Field>, Stop>
    ensures value { Gives (option_map member) result
        (outcome_told (told (K.known entries.now)
        (output_member key.now (declared_of output.now)))) }
    ensures nests { IfOk result
        (λ o. MatchOption o (Unit {0}) (λ f. nesting (json f.value) ≤ 119)) }
{
    match output_value(alloc, entries, key, output) {
        Ok(value) => Ok(Some(Field {
            name: output.name.copy(alloc)?,
            value: typed(alloc, output, value)?,
        })),
        Err(Stop::NoValue) => Ok(None),
        Err(Stop::Waits(cell)) => Err(Stop::Waits(cell)),
        Err(Stop::OutOfMemory) => Err(Stop::OutOfMemory),
    }
}

/// Looks at each output of the nested deployment at a key: waits for the first that is not known
/// yet, else no value where one of them has none or nests deeper than 100.
#[tactic(auto, using(crate::proofs::Answers::answers))]
pub fn look_at_outputs<K: Entries>(alloc: Global, entries: &K, key: &Key) -> Result<(), Stop>
    ensures { Sees result (told (K.known entries.now) (all_outputs key.now)) }
{
    let outputs = entries.outputs(alloc, key)?;
    let looked = look_at_each(alloc, entries, key, outputs.as_slice());
    let_go(outputs);
    looked
}

/// The outputs of the nested deployment at a key as `reference` shows them, by their names: waits
/// for the first that is not known yet, else no value where one of them has none or nests deeper
/// than 100.
#[tactic(auto, using(crate::proofs::Answers::answers))]
pub fn fields_at<K: Entries>(alloc: Global, entries: &K, key: &Key) -> Result<Fields, Stop>
    ensures { Gives (λ f. f) result
        (and_then (told (K.known entries.now) (all_outputs key.now))
        (λ ms. value (put_each [] ms))) }
{
    let outputs = entries.outputs(alloc, key)?;
    let fields = output_fields(alloc, entries, key, outputs.as_slice());
    let_go(outputs);
    fields
}

// The first output of the name.
fn find_declared<'a>(outputs: &[Declared<'a>], name: &Text) -> Option<Declared<'a>>
    ensures { option_map declared_of result ≡ output_named name.now (map declared_of outputs.now) }
{
    for output in outputs {
        if output.name.equals_ignore_case(name.as_str()) {
            return Some(Declared {
                name: output.name,
                kind: output.kind,
            });
        }
    }
    None
}

// The first output of the name, where all have values.
fn declared_among<'a, K: Entries>(
    alloc: Global,
    entries: &'a K,
    key: &Key,
    name: &Text,
    outputs: &[Declared<'a>],
) -> Result<Declared<'a>, Stop>
    ensures { Gives declared_of result (told (K.known entries.now)
        (among (record { key = key.now; name = name.now }) (map declared_of outputs.now))) }
{
    look_at_each(alloc, entries, key, outputs)?;
    match find_declared(outputs, name) {
        Some(output) => Ok(output),
        None => Err(Stop::NoValue),
    }
}

/// The output of that name of the nested deployment at a key as it is declared, after a look at all
/// its outputs.
#[tactic(auto, using(crate::proofs::Answers::answers))]
pub fn output_declared<'a, K: Entries>(
    alloc: Global,
    entries: &'a K,
    key: &Key,
    name: &Text,
) -> Result<Declared<'a>, Stop>
    ensures { Gives declared_of result (told (K.known entries.now)
        (output_declared (record { key = key.now; name = name.now }))) }
{
    let outputs = entries.outputs(alloc, key)?;
    let output = declared_among(alloc, entries, key, name, outputs.as_slice());
    let_go(outputs);
    output
}
