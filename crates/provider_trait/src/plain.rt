// The plain state of a put.

ghost use Rattle.std.specs.Prelude.{◌≡◌, ◌≤◌, ◌++◌, chars, codes, string_bytes, IfOk, option_map};
ghost use Rattle.arm_value.specs.View.{json};
ghost use Rattle.arm_value.specs.Json.{nesting, put, text as json_text};
ghost use Rattle.provider_trait.specs.declared.act.Act.TheVariants.{Put};
ghost use Rattle.provider_trait.specs.declared.answer.Answer.TheVariants.{Stored};
ghost use Rattle.provider_trait.specs.Plain.{object_of, members_of, members_found};
ghost use Rattle.provider_trait.specs.Plain.{endpoint, endpoints, with_endpoints, is_storage};
ghost use Rattle.provider_trait.specs.Plain.{stored_properties, state_named};

use crate::answer::Answer;
use crate::job::Job;
use crate::named::Named;
use crate::parts::{run_out, with_text, with_value};
use crate::state::{State, StateFault};
use arm_value::{Fields, OutOfMemory, Text, Value};
use std::alloc::{AllocError, Global};

/// A put that is stored in its plain state.
pub(crate) fn stored(alloc: Global, named: &Named, job: &Job) -> Result<Answer, OutOfMemory>
    requires { job.now.act ≡ Put }
    ensures { IfOk result (λ a. a
        ≡ Stored (state_named named.now.kind named.now.name job.now.id job.now.api job.now.body)) }
{
    let value = state_of(alloc, named, job.id(), job.api(), job.body())?;
    match State::of(alloc, value) {
        Ok(state) => Ok(Answer::Stored(state)),
        Err(StateFault::OutOfMemory) => Err(AllocError),
        Err(StateFault::TooDeep) => unreachable!(),
    }
}

// The state of a resource of this type and name.
fn state_of(
    alloc: Global,
    named: &Named,
    id: &Text,
    api: &Text,
    body: &Value,
) -> Result<Value, OutOfMemory>
    requires { nesting (json body.now) ≤ 100 }
    ensures state { IfOk result (λ v. json v
        ≡ state_named named.now.kind named.now.name id.now api.now (json body.now)) }
    ensures shallow { IfOk result (λ v. nesting (json v) ≤ 110) }
{
    let members = members(alloc, body)?;
    let identified = with_text(alloc, members, "id", id)?;
    let versioned = with_text(alloc, identified, "apiVersion", api)?;
    let titled = with_text(alloc, versioned, "name", &named.name)?;
    let typed = with_text(alloc, titled, "type", &named.kind)?;
    Ok(Value::Object(with_properties(alloc, typed, named, body)?))
}

// The members with the properties of the stored resource.
fn with_properties(
    alloc: Global,
    members: Fields,
    named: &Named,
    body: &Value,
) -> Result<Fields, OutOfMemory>
    requires { nesting (json body.now) ≤ 100 }
    ensures { IfOk result (λ ms. ms ≡ put (chars (codes "properties"))
        (object_of (stored_properties named.now.kind named.now.name (json body.now))) members) }
{
    match properties_of(alloc, named, body) {
        Ok(properties) => with_value(alloc, members, "properties", Value::Object(properties)),
        Err(_) => run_out(members),
    }
}

// The properties of the stored resource.
fn properties_of(alloc: Global, named: &Named, body: &Value) -> Result<Fields, OutOfMemory>
    ensures { IfOk result (λ ms. ms
        ≡ stored_properties named.now.kind named.now.name (json body.now)) }
{
    let found = found_members(alloc, body.look("properties"))?;
    let provisioned = with_words(alloc, found, "provisioningState", "Succeeded")?;
    Ok(with_endpoints(alloc, provisioned, named)?)
}

// The members with the words as a text at the name.
fn with_words(
    alloc: Global,
    members: Fields,
    name: &str,
    words: &str,
) -> Result<Fields, OutOfMemory>
    ensures { IfOk result (λ ms. ms ≡ put (chars name.now) (json_text (chars words.now)) members) }
{
    match Text::of(alloc, words) {
        Ok(text) => with_value(alloc, members, name, Value::Text(text)),
        Err(_) => run_out(members),
    }
}

// The properties, for a storage account with its endpoints.
fn with_endpoints(alloc: Global, properties: Fields, named: &Named) -> Result<Fields, OutOfMemory>
    ensures { IfOk result (λ ms. ms
        ≡ with_endpoints (is_storage named.now.kind) named.now.name properties) }
{
    if named.is_storage() {
        return with_primary(alloc, properties, &named.name);
    }
    Ok(properties)
}

// The properties with the endpoints of a storage account of this name.
fn with_primary(alloc: Global, properties: Fields, name: &Text) -> Result<Fields, OutOfMemory>
    ensures { IfOk result (λ ms. ms
        ≡ put (chars (codes "primaryEndpoints")) (object_of (endpoints name.now)) properties) }
{
    match endpoints(alloc, name) {
        Ok(endpoints) => with_value(
            alloc,
            properties,
            "primaryEndpoints",
            Value::Object(endpoints),
        ),
        Err(_) => run_out(properties),
    }
}

// The members of what was found, none where nothing was.
fn found_members(alloc: Global, found: Option<&Value>) -> Result<Fields, OutOfMemory>
    ensures { IfOk result (λ ms. ms ≡ members_found (option_map (λ v. json v.now) found.entry)) }
{
    match found {
        Some(value) => members(alloc, value),
        None => Ok(Fields::new()),
    }
}

// The members of an object, and none of anything else.
fn members(alloc: Global, value: &Value) -> Result<Fields, OutOfMemory>
    ensures { IfOk result (λ ms. ms ≡ members_of (json value.now)) }
{
    match value {
        Value::Object(members) => members.copy(alloc),
        Value::Null => Ok(Fields::new()),
        Value::Bool(_) => Ok(Fields::new()),
        Value::Int(_) => Ok(Fields::new()),
        Value::Text(_) => Ok(Fields::new()),
        Value::Array(_) => Ok(Fields::new()),
    }
}

// The addresses of the four services of a storage account of this name.
fn endpoints(alloc: Global, name: &Text) -> Result<Fields, OutOfMemory>
    ensures { IfOk result (λ ms. ms ≡ endpoints name.now) }
{
    let one = with_endpoint(alloc, Fields::new(), name, "blob")?;
    let two = with_endpoint(alloc, one, name, "file")?;
    let three = with_endpoint(alloc, two, name, "queue")?;
    Ok(with_endpoint(alloc, three, name, "table")?)
}

// The members with the address of this service at its name.
fn with_endpoint(
    alloc: Global,
    members: Fields,
    name: &Text,
    service: &str,
) -> Result<Fields, OutOfMemory>
    ensures { IfOk result (λ ms. ms ≡ put (chars service.now)
        (json_text (endpoint name.now (chars service.now))) members) }
{
    match endpoint(alloc, name, service) {
        Ok(address) => with_value(alloc, members, service, Value::Text(address)),
        Err(_) => run_out(members),
    }
}

// The address of one of these services.
fn endpoint(alloc: Global, name: &Text, service: &str) -> Result<Text, OutOfMemory>
    ensures { IfOk result (λ t. t ≡ endpoint name.now (chars service.now)) }
{
    let address = address(alloc, name.as_str(), service)?;
    Ok(Text::from_string(address))
}

fn address(alloc: Global, name: &str, service: &str) -> Result<String, OutOfMemory>
    ensures { IfOk result (λ s. string_bytes s
        ≡ codes "https://" ++ (name.now
        ++ (codes "." ++ (service.now ++ codes ".core.windows.net/")))) }
{
    format!(in alloc; "https://{name}.{service}.core.windows.net/")
}
