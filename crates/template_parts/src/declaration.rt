// The members of a resource that are no part of its body.
ghost use Rattle.std.specs.Prelude.{◌≡◌, IfOk};

use crate::copied::{Copied, copy_option, run_out};
use crate::looping::ResourceCopy;
use arm_value::{Items, OutOfMemory, Text, Value};
use std::alloc::Global;

/// The members of a resource that declare it.
#[derive(Drop)]
pub struct Declaration {
    /// Its symbolic name, in a template that has such.
    pub symbol: Option<Text>,
    /// Whether it exists already and is not put. Only a resource with a symbolic name may exist.
    pub existing: bool,
    /// Its type, which is no expression. A child has one segment; the type of its parent comes before it.
    pub kind: Text,
    /// The version of its type, which is no expression.
    pub api_version: Text,
    /// Its name, which may be an expression. That of a child has one segment.
    pub name: Value,
    /// Its condition; without one it is always put.
    pub condition: Option<Value>,
    /// What it depends on by name.
    pub depends_on: Items,
    /// Its loop.
    pub copy: Option<ResourceCopy>,
    /// Metadata, which is not used.
    pub metadata: Option<Value>,
}

// The three texts of a declaration.
fn copy_texts(
    alloc: Global,
    declaration: &Declaration,
) -> Result<(Option<Text>, Text, Text), OutOfMemory>
    ensures { IfOk result (λ t. t
        ≡ (declaration.now.symbol, declaration.now.kind, declaration.now.api_version)) }
{
    let symbol = copy_option(alloc, &declaration.symbol)?;
    match declaration.kind.copy(alloc) {
        Ok(kind) => match declaration.api_version.copy(alloc) {
            Ok(api_version) => Ok((symbol, kind, api_version)),
            Err(_) => run_out((symbol, kind)),
        },
        Err(_) => run_out(symbol),
    }
}

// The name and the condition of a declaration.
fn copy_name(
    alloc: Global,
    declaration: &Declaration,
) -> Result<(Value, Option<Value>), OutOfMemory>
    ensures { IfOk result (λ t. t ≡ (declaration.now.name, declaration.now.condition)) }
{
    let name = declaration.name.copy(alloc)?;
    match copy_option(alloc, &declaration.condition) {
        Ok(condition) => Ok((name, condition)),
        Err(_) => run_out(name),
    }
}

// What a declaration depends on, its loop and its metadata.
fn copy_rest(
    alloc: Global,
    declaration: &Declaration,
) -> Result<(Items, Option<ResourceCopy>, Option<Value>), OutOfMemory>
    ensures { IfOk result (λ t. t
        ≡ (declaration.now.depends_on, declaration.now.copy, declaration.now.metadata)) }
{
    let depends_on = declaration.depends_on.copy(alloc)?;
    match copy_option(alloc, &declaration.copy) {
        Ok(copy) => match copy_option(alloc, &declaration.metadata) {
            Ok(metadata) => Ok((depends_on, copy, metadata)),
            Err(_) => run_out((depends_on, copy)),
        },
        Err(_) => run_out(depends_on),
    }
}

// The declaration of these parts.
fn joined(
    existing: bool,
    texts: (Option<Text>, Text, Text),
    name: (Value, Option<Value>),
    rest: (Items, Option<ResourceCopy>, Option<Value>),
) -> Declaration
    ensures { result ≡ record {
      symbol = texts.0;
      existing = existing;
      kind = texts.1;
      api_version = texts.2;
      name = name.0;
      condition = name.1;
      depends_on = rest.0;
      copy = rest.1;
      metadata = rest.2;
    } }
{
    Declaration {
        symbol: texts.0,
        existing,
        kind: texts.1,
        api_version: texts.2,
        name: name.0,
        condition: name.1,
        depends_on: rest.0,
        copy: rest.1,
        metadata: rest.2,
    }
}

impl Copied for Declaration {
    fn copied(&self, alloc: Global) -> Result<Declaration, OutOfMemory> {
        let texts = copy_texts(alloc, self)?;
        match copy_name(alloc, self) {
            Ok(name) => match copy_rest(alloc, self) {
                Ok(rest) => Ok(joined(self.existing, texts, name, rest)),
                Err(_) => run_out((texts, name)),
            },
            Err(_) => run_out(texts),
        }
    }
}
