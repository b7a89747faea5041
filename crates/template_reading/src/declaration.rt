// What declares a resource.

ghost use Rattle.std.specs.Prelude.{◌≡◌, Some, option_map, codes, is_some, ◌&&◌, IfOk};
ghost use Rattle.arm_value.specs.View.{json};
ghost use Rattle.template_meaning.specs.Values.{inside, optional, value_in, text_in, is_true, items_in};
ghost use Rattle.template_meaning.specs.Resources.{batch_size, batches_of, copy_by, copy_in, declaration_of};

use crate::values::{
    copy_items, copy_text, copy_value, inside, is_true, is_word, number_in, optional,
};
use arm_value::{Items, OutOfMemory, Text, Value};
use std::alloc::Global;
use template_parts::{Batches, Declaration, ResourceCopy, run_out};

// The size of a batch, which is 1 where none is given.
fn batch_size(size: Option<i64>) -> u32
    ensures { result ≡ batch_size size }
{
    match size {
        Some(n) => if n >= 0 && n <= 800 { n as u32 } else { 1 },
        None => 1,
    }
}

// How the instances of a loop are batched.
fn batches_of(value: Option<&Value>) -> Batches
    ensures { result ≡ batches_of (option_map (λ v. json v.now) value.entry) }
{
    if is_word(inside(value, "mode"), "serial") {
        return Batches::Serial(batch_size(number_in(inside(value, "batchSize"))));
    }
    Batches::Parallel
}

// The loop of a resource.
fn copy_by(alloc: Global, value: &Value) -> Result<ResourceCopy, OutOfMemory>
    ensures { IfOk result (λ c. c ≡ copy_by (Some (json value.now))) }
{
    let name = copy_text(alloc, inside(Some(value), "name"))?;
    match copy_value(alloc, inside(Some(value), "count")) {
        Ok(count) => Ok(ResourceCopy {
            name,
            count,
            batches: batches_of(Some(value)),
        }),
        Err(_) => run_out(name),
    }
}

// The loop of a resource, where there is one.
fn copy_in(alloc: Global, value: Option<&Value>) -> Result<Option<ResourceCopy>, OutOfMemory>
    ensures { IfOk result (λ c. c ≡ copy_in (option_map (λ v. json v.now) value.entry)) }
{
    match value {
        Some(value) => Ok(Some(copy_by(alloc, value)?)),
        None => Ok(None),
    }
}

// The type and its version.
fn texts_of(alloc: Global, value: Option<&Value>) -> Result<(Text, Text), OutOfMemory>
    ensures { IfOk result (λ t. t ≡ (
      text_in (inside (codes "type") (option_map (λ v. json v.now) value.entry)),
      text_in (inside (codes "apiVersion") (option_map (λ v. json v.now) value.entry)),
    )) }
{
    let kind = copy_text(alloc, inside(value, "type"))?;
    match copy_text(alloc, inside(value, "apiVersion")) {
        Ok(api_version) => Ok((kind, api_version)),
        Err(_) => run_out(kind),
    }
}

// The name and the condition.
fn name_of(alloc: Global, value: Option<&Value>) -> Result<(Value, Option<Value>), OutOfMemory>
    ensures { IfOk result (λ t. t ≡ (
      value_in (inside (codes "name") (option_map (λ v. json v.now) value.entry)),
      optional (inside (codes "condition") (option_map (λ v. json v.now) value.entry)),
    )) }
{
    let name = copy_value(alloc, inside(value, "name"))?;
    match optional(alloc, inside(value, "condition")) {
        Ok(condition) => Ok((name, condition)),
        Err(_) => run_out(name),
    }
}

// What the resource depends on, its loop and its metadata.
fn rest_of(
    alloc: Global,
    value: Option<&Value>,
) -> Result<(Items, Option<ResourceCopy>, Option<Value>), OutOfMemory>
    ensures { IfOk result (λ t. t ≡ (
      items_in (inside (codes "dependsOn") (option_map (λ v. json v.now) value.entry)),
      copy_in (inside (codes "copy") (option_map (λ v. json v.now) value.entry)),
      optional (inside (codes "metadata") (option_map (λ v. json v.now) value.entry)),
    )) }
{
    let depends_on = copy_items(alloc, inside(value, "dependsOn"))?;
    match copy_in(alloc, inside(value, "copy")) {
        Ok(copy) => match optional(alloc, inside(value, "metadata")) {
            Ok(metadata) => Ok((depends_on, copy, metadata)),
            Err(_) => run_out((depends_on, copy)),
        },
        Err(_) => run_out(depends_on),
    }
}

// Whether the resource exists already, which only one with a symbolic name may.
fn exists(symbol: &Option<Text>, value: Option<&Value>) -> bool
    ensures { result ≡ (is_some symbol.now
        && is_true (inside (codes "existing") (option_map (λ v. json v.now) value.entry))) }
{
    symbol.is_some() && is_true(inside(value, "existing"))
}

// The declaration of these parts.
fn joined(
    symbol: Option<Text>,
    existing: bool,
    texts: (Text, Text),
    name: (Value, Option<Value>),
    rest: (Items, Option<ResourceCopy>, Option<Value>),
) -> Declaration
    ensures { result ≡ record {
      symbol = symbol;
      existing = existing;
      kind = texts.0;
      api_version = texts.1;
      name = name.0;
      condition = name.1;
      depends_on = rest.0;
      copy = rest.1;
      metadata = rest.2;
    } }
{
    Declaration {
        symbol,
        existing,
        kind: texts.0,
        api_version: texts.1,
        name: name.0,
        condition: name.1,
        depends_on: rest.0,
        copy: rest.1,
        metadata: rest.2,
    }
}

/// What declares the resource with this symbolic name.
pub fn declaration_of(
    alloc: Global,
    symbol: Option<Text>,
    value: Option<&Value>,
) -> Result<Declaration, OutOfMemory>
    ensures { IfOk result (λ d. d ≡ declaration_of symbol (option_map (λ v. json v.now) value.entry)) }
{
    match texts_of(alloc, value) {
        Ok(texts) => match name_of(alloc, value) {
            Ok(name) => match rest_of(alloc, value) {
                Ok(rest) => {
                    let existing = exists(&symbol, value);
                    Ok(joined(symbol, existing, texts, name, rest))
                }
                Err(_) => run_out((symbol, texts, name)),
            },
            Err(_) => run_out((symbol, texts)),
        },
        Err(_) => run_out(symbol),
    }
}
