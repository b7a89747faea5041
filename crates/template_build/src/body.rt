// The bodies of resources.

ghost use Rattle.std.specs.Prelude.{◌≡◌, ◌≤◌, ◌++◌, ◌∷◌, [], Some, IfOk, if◌then◌else◌};
ghost use Rattle.arm_value.specs.Json.{nesting, IsInOrder};
ghost use Rattle.arm_value.specs.View.{json};
ghost use Rattle.template_meaning.specs.Values.{members_in};
ghost use Rattle.template_meaning.specs.Resources.{is_declaring, is_beside, is_outside, body_of};

use arm_value::{Field, Fields, OutOfMemory, Text, Value};
use std::alloc::Global;
use template_parts::run_out;

// Whether a member of this name declares the resource.
fn is_declaring(name: &Text) -> bool
    ensures { result ≡ is_declaring name.now }
{
    name.equals_ignore_case("type")
        || name.equals_ignore_case("apiVersion")
        || name.equals_ignore_case("name")
        || name.equals_ignore_case("condition")
        || name.equals_ignore_case("dependsOn")
        || name.equals_ignore_case("copy")
}

// Whether a member of this name is beside the declaration and the body, or is one that no resource has.
fn is_beside(name: &Text) -> bool
    ensures { result ≡ is_beside name.now }
{
    name.equals_ignore_case("resources")
        || name.equals_ignore_case("comments")
        || name.equals_ignore_case("metadata")
        || name.equals_ignore_case("scope")
        || name.equals_ignore_case("subscriptionId")
        || name.equals_ignore_case("resourceGroup")
}

// Whether a member of this name is none of the body of a resource with the symbolic name.
fn is_outside(symbol: &Option<Text>, name: &Text) -> bool
    ensures { result ≡ is_outside symbol.now name.now }
{
    if is_declaring(name) || is_beside(name) {
        return true;
    }
    symbol.is_some() && name.equals_ignore_case("existing")
}

// The members with one more, whose name comes after all the others.
fn put_last(
    alloc: Global,
    mut members: Fields,
    name: Text,
    value: Value,
) -> Result<Fields, OutOfMemory>
    requires nests { nesting (json value) ≤ 119 }
    requires last { IsInOrder (members ++ (name, json value) ∷ []) }
    ensures { IfOk result (λ ms. ms ≡ members ++ (name, json value) ∷ []) }
{
    match members.push_last(alloc, name, value) {
        Ok(()) => Ok(members),
        Err(_) => run_out(members),
    }
}

// The members with a copy of one more, whose name comes after all the others.
fn with_member(
    alloc: Global,
    members: Fields,
    name: &Text,
    value: &Value,
) -> Result<Fields, OutOfMemory>
    requires nests { nesting (json value.now) ≤ 119 }
    requires last { IsInOrder (members ++ (name.now, json value.now) ∷ []) }
    ensures { IfOk result (λ ms. ms ≡ members ++ (name.now, json value.now) ∷ []) }
{
    match name.copy(alloc) {
        Ok(name) => match value.copy(alloc) {
            Ok(value) => put_last(alloc, members, name, value),
            Err(_) => run_out((members, name)),
        },
        Err(_) => run_out(members),
    }
}

// The body with a copy of the member, unless that is none of the body of a resource with the symbolic name.
fn with_field(
    alloc: Global,
    symbol: &Option<Text>,
    body: Fields,
    field: &Field,
) -> Result<Fields, OutOfMemory>
    requires nests { nesting (json field.now.value) ≤ 119 }
    requires last { IsInOrder (body ++ (field.now.name, json field.now.value) ∷ []) }
    ensures { IfOk result (λ ms. ms ≡ (if is_outside symbol.now field.now.name then body
        else body ++ (field.now.name, json field.now.value) ∷ [])) }
{
    if is_outside(symbol, &field.name) {
        return Ok(body);
    }
    with_member(alloc, body, &field.name, &field.value)
}

// The members of the body of a resource with the symbolic name.
fn body_of(alloc: Global, symbol: &Option<Text>, fields: &Fields) -> Result<Fields, OutOfMemory>
    ensures { IfOk result (λ ms. ms ≡ body_of symbol.now fields.now) }
{
    let mut body = Fields::new();
    for field in fields.as_slice() {
        body = with_field(alloc, symbol, body, field)?;
    }
    Ok(body)
}

/// The members of the body of a resource with the symbolic name.
pub fn body_in(alloc: Global, symbol: &Option<Text>, value: &Value) -> Result<Fields, OutOfMemory>
    ensures { IfOk result (λ ms. ms ≡ body_of symbol.now (members_in (Some (json value.now)))) }
{
    match value {
        Value::Object(fields) => body_of(alloc, symbol, fields),
        _ => Ok(Fields::new()),
    }
}
