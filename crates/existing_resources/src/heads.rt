//! Existing resources of a template.
ghost use Rattle.std.specs.Prelude.{◌≡◌, [], true};
ghost use Rattle.existing_resources.specs.Existing as spec;

use arm_value::{Fields, OutOfMemory, Text};
use bicep_declared::DeclaredBody;
use emitted_parts::lacks;
use emitted_resources::{Needs, Table, head};
use std::alloc::Global;
use template_parts::Declaration;
use template_tree::{Body, Resource, Resources};

// The whole type and the version of a resource.
fn typed(alloc: Global, table: &Table, number: usize) -> Result<(Text, Text), OutOfMemory>
    ensures { spec.IfOk result (λ k. (k.0 ≡ (spec.type_of (spec.file_in table.now) number).kind)
        × (k.1 ≡ (spec.type_of (spec.file_in table.now) number).version)) }
{
    let kind = table.kind_of(alloc, number)?;
    match table.version_of(alloc, number) {
        Ok(version) => Ok((kind, version)),
        Err(_) => lacks(kind),
    }
}

// What declares the resource, as if it were put.
fn declaration(
    alloc: Global,
    table: &Table,
    number: usize,
    symbol: &Text,
    body: &DeclaredBody,
    needs: Needs,
) -> Result<Declaration, OutOfMemory>
    requires { spec.IsFilled table.now }
    ensures { spec.IfOk result (spec.IsDeclared table.now number (spec.body_tree body.now) symbol.now needs) }
{
    match typed(alloc, table, number) {
        Ok(kind) => head(alloc, table, number, symbol, body, kind, needs),
        Err(_) => lacks(needs),
    }
}

// The same of a resource that exists.
fn marked(declaration: Declaration) -> Declaration
    ensures { result ≡ record declaration { existing = true } }
{
    let mut marked = declaration;
    marked.existing = true;
    marked
}

// What declares the existing resource.
fn existing_head(
    alloc: Global,
    table: &Table,
    number: usize,
    symbol: &Text,
    body: &DeclaredBody,
    needs: Needs,
) -> Result<Declaration, OutOfMemory>
    requires { spec.IsFilled table.now }
    ensures { spec.IfOk result (spec.IsExistingHead table.now number (spec.body_tree body.now) symbol.now needs) }
{
    match declaration(alloc, table, number, symbol, body, needs) {
        Ok(declaration) => Ok(marked(declaration)),
        Err(error) => Err(error),
    }
}

/// The existing resource of a template that an existing resource of a file becomes, by the number of its symbol, by
/// this symbol, and by its body, with a table of all declarations of the file. It has no body.
///
/// # Errors
///
/// `OutOfMemory`, also where its name, its condition or its count is beyond the limits of expressions.
pub fn existing(
    alloc: Global,
    table: &Table,
    number: usize,
    symbol: &Text,
    body: &DeclaredBody,
    needs: Needs,
) -> Result<Resource, OutOfMemory>
    requires { spec.IsFilled table.now }
    ensures head { spec.IfOk result (λ r. spec.IsExistingHead table.now number (spec.body_tree body.now) symbol.now
        needs r.declaration) }
    ensures body { spec.IfOk result (λ r. spec.IsEmpty (spec.template_body r.body)) }
    ensures childless { spec.IfOk result (λ r. r.resources ≡ []) }
{
    match existing_head(alloc, table, number, symbol, body, needs) {
        Ok(declaration) => Ok(Resource {
            declaration,
            body: Body::Members(Fields::new()),
            resources: Resources::new(alloc),
        }),
        Err(error) => Err(error),
    }
}
