// The objects that describe where a template is deployed.
ghost use Rattle.std.specs.Prelude.{◌≡◌, ◌∷◌, ◌≤◌, [], chars, string_bytes, codes, map, IfOk};
ghost use Rattle.arm_value.specs.Json.{Json, text, put, put_each, nesting, object};
ghost use Rattle.arm_value.specs.View.{json};
ghost use Rattle.arm_ids.specs.Segments.{slashed};
ghost use Rattle.arm_env.specs.Object as object;
ghost use Rattle.arm_env.specs.Object.{group_id};

use crate::ids::{group_text, subscription_text};
use crate::stop::lacks_memory;
use arm_ids::Place;
use arm_value::{Fields, OutOfMemory, Text, Value};
use std::alloc::Global;

/// The members with a value, which nests at most 119, put at the exact name.
pub fn with_value(
    alloc: Global,
    fields: Fields,
    name: &str,
    value: Value,
) -> Result<Fields, OutOfMemory>
    requires { nesting (json value) ≤ 119 }
    ensures { IfOk result (λ f. f ≡ put (chars name.now) (json value) fields) }
{
    let mut fields = fields;
    match fields.set(alloc, name, value) {
        Ok(()) => Ok(fields),
        Err(_) => lacks_memory(fields),
    }
}

/// The members with a copy of a text put at the exact name.
pub fn with_copy(
    alloc: Global,
    fields: Fields,
    name: &str,
    value: &Text,
) -> Result<Fields, OutOfMemory>
    ensures { IfOk result (λ f. f ≡ put (chars name.now) (text value.now) fields) }
{
    match value.copy(alloc) {
        Ok(copy) => with_value(alloc, fields, name, Value::Text(copy)),
        Err(_) => lacks_memory(fields),
    }
}

// The members with a word put at the name.
fn with_word(alloc: Global, fields: Fields, name: &str, word: &str) -> Result<Fields, OutOfMemory>
    ensures { IfOk result (λ f. f ≡ put (chars name.now) (text (chars word.now)) fields) }
{
    match Text::of(alloc, word) {
        Ok(text) => with_value(alloc, fields, name, Value::Text(text)),
        Err(_) => lacks_memory(fields),
    }
}

/// `subscription()`: the id of the place's subscription, and its name.
pub fn subscription(alloc: Global, place: &Place) -> Result<Value, OutOfMemory>
    ensures { IfOk result (λ v. json v ≡ object.subscription place.now) }
{
    let id = Text::from_string(subscription_text(alloc, &place.subscription)?);
    let fields = with_value(alloc, Fields::new(), "id", Value::Text(id))?;
    let fields = with_copy(alloc, fields, "subscriptionId", &place.subscription)?;
    Ok(Value::Object(fields))
}

// `/subscriptions/s/resourceGroups/g`
fn group_id(alloc: Global, place: &Place) -> Result<Text, OutOfMemory>
    ensures { IfOk result (λ t. t ≡ group_id place.now) }
{
    let id = group_text(alloc, &place.subscription, &place.group)?;
    Ok(Text::from_string(id))
}

// The members with the state of a group put among them.
#[tactic(auto, using(crate::proofs::Words::words))]
fn with_state(alloc: Global, fields: Fields) -> Result<Fields, OutOfMemory>
    ensures { IfOk result (λ f. f ≡ put (codes "properties") object.group_properties fields) }
{
    match with_word(alloc, Fields::new(), "provisioningState", "Succeeded") {
        Ok(state) => with_value(alloc, fields, "properties", Value::Object(state)),
        Err(_) => lacks_memory(fields),
    }
}

// The members with those put among them that are the same for all groups.
#[tactic(auto, using(crate::proofs::Words::words))]
fn with_group_members(alloc: Global, fields: Fields) -> Result<Fields, OutOfMemory>
    ensures { IfOk result (λ f. f ≡ put_each fields object.group_members) }
{
    let fields = with_state(alloc, fields)?;
    let fields = with_value(alloc, fields, "tags", Value::Object(Fields::new()))?;
    let fields = with_word(alloc, fields, "type", "Microsoft.Resources/resourceGroups")?;
    Ok(fields)
}

/// `resourceGroup()`: the place's group.
pub fn resource_group(alloc: Global, place: &Place) -> Result<Value, OutOfMemory>
    ensures { IfOk result (λ v. json v ≡ object.resource_group place.now) }
{
    let id = group_id(alloc, place)?;
    let fields = with_value(alloc, Fields::new(), "id", Value::Text(id))?;
    let fields = with_copy(alloc, fields, "location", &place.location)?;
    let fields = with_copy(alloc, fields, "name", &place.group)?;
    let fields = with_group_members(alloc, fields)?;
    Ok(Value::Object(fields))
}

/// `deployment()`: the name of the deployment.
#[tactic(auto, using(crate::proofs::Words::words))]
pub fn deployment(alloc: Global, place: &Place) -> Result<Value, OutOfMemory>
    ensures { IfOk result (λ v. json v ≡ object.deployment place.now) }
{
    let fields = with_copy(alloc, Fields::new(), "name", &place.deployment)?;
    Ok(Value::Object(fields))
}
