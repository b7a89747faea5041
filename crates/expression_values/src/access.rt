// Accesses to parts of values, and the values of which no part is accessed.
ghost use Rattle.std.specs.Prelude.{◌≡◌, ◌∷◌, [], chars, map, option_map, codes, None};
ghost use Rattle.arm_value.specs.Json.{Json, put_each, text, object, pairs};
ghost use Rattle.arm_value.specs.View.{json};
ghost use Rattle.arm_env.specs.Knowledge.{told, finished};
ghost use Rattle.arm_env.specs.Held as held;
ghost use Rattle.arm_env.specs.Held.{is_word, capped, forced, no_part, output_at, part_of_output, access, access_by};
ghost use Rattle.arm_env.specs.Answer.{Gives, Sees};
ghost use Rattle.expression_values.specs.Meaning.{indexed};
ghost use Rattle.arm_env.specs.Part.{kept};
ghost use Rattle.arm_env.specs.Object.{object_of};
ghost use Rattle.arm_env.specs.Sight.{held_of, declared_of};

use arm_env::entries::Entries;
use arm_env::held::{Held, keep, keep_copy, lend, own_part, part_of};
use arm_env::objects::with_value;
use arm_env::outputs::{
    fields_at, look_at_outputs, output_declared, output_value, typed, value_named,
};
use arm_env::stop::{Stop, let_go, stopped};
use arm_ids::Key;
use arm_value::{Fields, Text, Value};
use std::alloc::Global;

// Whether the index is the word, whatever the case of its letters.
fn is_word(word: &str, index: &Value) -> bool
    ensures { result ≡ is_word (chars word.now) (json index.now) }
{
    match index {
        Value::Text(name) => name.equals_ignore_case(word),
        _ => false,
    }
}

// A part that a nested deployment does not have.
#[tactic(auto, using(crate::proofs::Answers::answers))]
fn no_part<'a, K: Entries>(alloc: Global, entries: &'a K, key: &Key) -> Result<Held<'a>, Stop>
    ensures { Gives held_of result (told (K.known entries.now) (no_part key.now)) }
{
    look_at_outputs(alloc, entries, key)?;
    Err(Stop::NoValue)
}

// The same, where the key is dropped.
fn no_part_at<'a, K: Entries>(alloc: Global, entries: &'a K, key: Key) -> Result<Held<'a>, Stop>
    ensures { Gives held_of result (told (K.known entries.now) (no_part key)) }
{
    let part = no_part(alloc, entries, &key);
    let_go(key);
    part
}

#[tactic(auto, using(crate::proofs::Answers::answers, arm_env::proofs::Words::words))]
fn part_of_deployment<'a, K: Entries>(
    alloc: Global,
    entries: &'a K,
    key: Key,
    index: &Value,
) -> Result<Held<'a>, Stop>
    ensures { Gives held_of result
        (told (K.known entries.now) (access (held.deployment key) (json index.now))) }
{
    if is_word("outputs", index) {
        return Ok(Held::Outputs(key));
    }
    no_part_at(alloc, entries, key)
}

#[tactic(auto, using(crate::proofs::Answers::answers))]
fn output_at<'a, K: Entries>(
    alloc: Global,
    entries: &'a K,
    key: Key,
    index: &Value,
) -> Result<Held<'a>, Stop>
    ensures { Gives held_of result
        (told (K.known entries.now) (output_at key (json index.now))) }
{
    match index {
        Value::Text(name) => match name.copy(alloc) {
            Ok(name) => Ok(Held::Output { key, name }),
            Err(_) => stopped(Stop::OutOfMemory, key),
        },
        _ => no_part_at(alloc, entries, key),
    }
}

// The type of an output.
#[tactic(auto, using(crate::proofs::Answers::answers))]
fn kind_of<'a, K: Entries>(
    alloc: Global,
    entries: &'a K,
    key: &Key,
    name: &Text,
) -> Result<Held<'a>, Stop>
    ensures { Gives held_of result (told (K.known entries.now)
        (held.kind_of_output (record { key = key.now; name = name.now }))) }
{
    let output = output_declared(alloc, entries, key, name)?;
    Ok(Held::Owned(Value::Text(output.kind.copy(alloc)?)))
}

#[tactic(auto, using(crate::proofs::Answers::answers, arm_env::proofs::Words::words))]
fn part_of_output<'a, K: Entries>(
    alloc: Global,
    entries: &'a K,
    key: &Key,
    name: &Text,
    index: &Value,
) -> Result<Held<'a>, Stop>
    ensures { Gives held_of result (told (K.known entries.now)
        (part_of_output (record { key = key.now; name = name.now }) (json index.now))) }
{
    if is_word("value", index) {
        return lend(Some(value_named(alloc, entries, key, name)?));
    }
    if is_word("type", index) {
        return kind_of(alloc, entries, key, name);
    }
    no_part(alloc, entries, key)
}

/// The part under a name or at a place.
#[tactic(auto, using(crate::proofs::Answers::answers))]
pub(crate) fn access<'a, K: Entries>(
    alloc: Global,
    entries: &'a K,
    base: Held<'a>,
    index: &Value,
) -> Result<Held<'a>, Stop>
    ensures { Gives held_of result
        (told (K.known entries.now) (access (held_of base.entry) (json index.now))) }
{
    match base {
        Held::Owned(value) => own_part(alloc, value, index),
        Held::Lent(value) => lend(part_of(value, index)),
        Held::Whole(value) => lend(part_of(value, index)),
        Held::Deployment(key) => part_of_deployment(alloc, entries, key, index),
        Held::Outputs(key) => output_at(alloc, entries, key, index),
        Held::Output { key, name } => {
            let part = part_of_output(alloc, entries, &key, &name, index);
            let_go((key, name));
            part
        }
    }
}

// The part at an index, which is dropped.
fn access_at<'a, K: Entries>(
    alloc: Global,
    entries: &'a K,
    base: Held<'a>,
    index: Value,
) -> Result<Held<'a>, Stop>
    ensures { Gives held_of result
        (told (K.known entries.now) (access (held_of base.entry) (json index))) }
{
    let part = access(alloc, entries, base, &index);
    let_go(index);
    part
}

// Looks at all outputs of the nested deployment, and at one of them.
fn look_at_output<K: Entries>(
    alloc: Global,
    entries: &K,
    key: &Key,
    name: &Text,
) -> Result<(), Stop>
    ensures { Sees result (told (K.known entries.now)
        (forced (held.one_output (record { key = key.now; name = name.now })))) }
{
    let output = output_declared(alloc, entries, key, name)?;
    let _value = output_value(alloc, entries, key, &output)?;
    Ok(())
}

// Looks at all that the whole looks at.
fn look_at_all<'a, K: Entries>(alloc: Global, entries: &'a K, base: &Held<'a>) -> Result<(), Stop>
    ensures { Sees result (told (K.known entries.now) (forced (held_of base.now))) }
{
    match base {
        Held::Owned(_value) => Ok(()),
        Held::Lent(_value) => Ok(()),
        Held::Whole(_value) => Ok(()),
        Held::Deployment(key) => look_at_outputs(alloc, entries, key),
        Held::Outputs(key) => look_at_outputs(alloc, entries, key),
        Held::Output { key, name } => look_at_output(alloc, entries, key, name),
    }
}

// No value, after a look at all that the whole looks at.
#[tactic(auto, using(crate::proofs::Answers::answers))]
fn nothing_in<'a, K: Entries>(
    alloc: Global,
    entries: &'a K,
    base: Held<'a>,
) -> Result<Held<'a>, Stop>
    ensures { Gives held_of result
        (told (K.known entries.now) (access_by (held_of base.entry) None)) }
{
    let looked = look_at_all(alloc, entries, &base);
    let_go(base);
    match looked {
        Ok(()) => Err(Stop::NoValue),
        Err(stop) => Err(stop),
    }
}

/// The part at an index that may have no value.
#[tactic(auto, using(crate::proofs::Answers::answers))]
pub(crate) fn access_by<'a, K: Entries>(
    alloc: Global,
    entries: &'a K,
    base: Held<'a>,
    index: Option<Value>,
) -> Result<Held<'a>, Stop>
    ensures { Gives held_of result
        (told (K.known entries.now) (access_by (held_of base.entry) (option_map json index))) }
{
    match index {
        Some(index) => access_at(alloc, entries, base, index),
        None => nothing_in(alloc, entries, base),
    }
}

/// The part at an index, where the whole may have no value.
#[tactic(auto, using(crate::proofs::Answers::answers))]
pub(crate) fn indexed<'a, K: Entries>(
    alloc: Global,
    entries: &'a K,
    base: Option<Held<'a>>,
    index: Option<Value>,
) -> Result<Held<'a>, Stop>
    ensures { Gives held_of result (told (K.known entries.now)
        (indexed (option_map held_of base.entry) (option_map json index))) }
{
    match base {
        Some(base) => access_by(alloc, entries, base, index),
        None => stopped(Stop::NoValue, index),
    }
}

/// The part under a name.
pub(crate) fn member<'a, K: Entries>(
    alloc: Global,
    entries: &'a K,
    base: Held<'a>,
    name: &Text,
) -> Result<Held<'a>, Stop>
    ensures { Gives held_of result
        (told (K.known entries.now) (access (held_of base.entry) (text name.now))) }
{
    match name.copy(alloc) {
        Ok(name) => access_at(alloc, entries, base, Value::Text(name)),
        Err(_) => stopped(Stop::OutOfMemory, base),
    }
}

// The nested deployment at a key, as `reference` shows it.
fn shown(alloc: Global, fields: Fields) -> Result<Value, Stop>
    ensures { Gives json result
        (finished (kept (object_of ((codes "outputs", object (pairs fields)) ∷ [])))) }
{
    let outputs = keep(Value::Object(fields))?;
    let whole = with_value(alloc, Fields::new(), "outputs", outputs)?;
    keep(Value::Object(whole))
}

#[tactic(auto, using(crate::proofs::Answers::answers))]
fn used_output<K: Entries>(
    alloc: Global,
    entries: &K,
    key: &Key,
    name: &Text,
) -> Result<Value, Stop>
    ensures { Gives json result (told (K.known entries.now)
        (capped (forced (held.one_output (record { key = key.now; name = name.now }))))) }
{
    let output = output_declared(alloc, entries, key, name)?;
    let value = output_value(alloc, entries, key, &output)?;
    keep(typed(alloc, &output, value)?)
}

#[tactic(auto, using(crate::proofs::Answers::answers))]
fn used_deployment<K: Entries>(alloc: Global, entries: &K, key: Key) -> Result<Value, Stop>
    ensures { Gives json result
        (told (K.known entries.now) (capped (forced (held.deployment key)))) }
{
    let fields = fields_at(alloc, entries, &key);
    let_go(key);
    shown(alloc, fields?)
}

#[tactic(auto, using(crate::proofs::Answers::answers))]
fn used_outputs<K: Entries>(alloc: Global, entries: &K, key: Key) -> Result<Value, Stop>
    ensures { Gives json result
        (told (K.known entries.now) (capped (forced (held.outputs key)))) }
{
    let fields = fields_at(alloc, entries, &key);
    let_go(key);
    keep(Value::Object(fields?))
}

/// The value of what is held, where no part of it is accessed.
#[tactic(auto, using(crate::proofs::Answers::answers))]
pub(crate) fn used<'a, K: Entries>(
    alloc: Global,
    entries: &'a K,
    held: Held<'a>,
) -> Result<Value, Stop>
    ensures { Gives json result
        (told (K.known entries.now) (capped (forced (held_of held.entry)))) }
{
    match held {
        Held::Owned(value) => keep(value),
        Held::Lent(value) => keep_copy(alloc, value),
        Held::Whole(value) => keep_copy(alloc, value),
        Held::Deployment(key) => used_deployment(alloc, entries, key),
        Held::Outputs(key) => used_outputs(alloc, entries, key),
        Held::Output { key, name } => {
            let value = used_output(alloc, entries, &key, &name);
            let_go((key, name));
            value
        }
    }
}
