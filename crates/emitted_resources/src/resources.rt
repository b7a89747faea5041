//! Resources of a template.
ghost use Rattle.std.specs.Prelude.{◌≡◌, [], IfOk};
ghost use Rattle.template_tree.specs.View.{body_tree as template_body};
ghost use Rattle.bicep_declared.specs.View.{body_tree};
ghost use Rattle.bicep_meaning.specs.Files.{type_of};
ghost use Rattle.bicep_meaning.specs.Instances.{resource_kind};
ghost use Rattle.emission_laws.specs.Sound.{IsSound};
ghost use Rattle.emitted_values.specs.Built.{AreFields};
ghost use Rattle.emitted_values.specs.Seen.{file_in, whole_in};
ghost use Rattle.emitted_values.specs.Filled.{IsFilled};
ghost use Rattle.emitted_resources.specs.Limits.{MembersFit, members_at};
ghost use Rattle.emitted_resources.specs.Resources.{IsHead, HasMembers};

use crate::bodies::members;
use crate::heads::head;
use crate::needs::Needs;
use crate::turns::turns_around;
use arm_value::{Fields, OutOfMemory, Text};
use bicep_declared::DeclaredBody;
use emitted_expressions::{lacks, letting_go};
use emitted_values::Table;
use std::alloc::Global;
use template_parts::Declaration;
use template_tree::{Body, Resource, Resources};

// The whole type and the version of a resource.
fn typed(alloc: Global, table: &Table, number: usize) -> Result<(Text, Text), OutOfMemory>
    ensures { IfOk result (λ k. (k.0 ≡ (type_of (file_in table.now) number).kind)
        × (k.1 ≡ (type_of (file_in table.now) number).version)) }
{
    let kind = table.kind_of(alloc, number)?;
    match table.version_of(alloc, number) {
        Ok(version) => Ok((kind, version)),
        Err(_) => lacks(kind),
    }
}

// What declares the resource of a number.
fn resource_head(
    alloc: Global,
    table: &Table,
    number: usize,
    symbol: &Text,
    body: &DeclaredBody,
    needs: Needs,
) -> Result<Declaration, OutOfMemory>
    requires { IsFilled table.now }
    ensures { IfOk result (IsHead (whole_in table.now) number (body_tree body.now).each
        (resource_kind (file_in table.now) number) symbol.now needs) }
{
    match typed(alloc, table, number) {
        Ok(kind) => head(alloc, table, number, symbol, body, kind, needs),
        Err(_) => lacks(needs),
    }
}

// The members that the fields of a resource become.
fn fields(
    alloc: Global,
    table: &Table,
    number: usize,
    body: &DeclaredBody,
) -> Result<Fields, OutOfMemory>
    requires filled { IsFilled table.now }
    requires sound { IsSound (file_in table.now) }
    requires fits { MembersFit (members_at table.now number (body_tree body.now)) }
    ensures { AreFields (members_at table.now number (body_tree body.now)) result }
{
    match turns_around(alloc, table, number, body) {
        Ok(turns) => {
            let built = members(alloc, table, body.fields.as_slice(), turns.as_slice());
            letting_go(built, turns)
        }
        Err(error) => Err(error),
    }
}

/// The resource of a template that a resource of a file becomes, by the number of its symbol, by this symbol, and by
/// its body, with a table of all declarations of the file. Its members are known to be within the limits of templates.
///
/// # Errors
///
/// `OutOfMemory`, also where its name, its condition or its count is beyond the limits of expressions.
pub fn resource(
    alloc: Global,
    table: &Table,
    number: usize,
    symbol: &Text,
    body: &DeclaredBody,
    needs: Needs,
) -> Result<Resource, OutOfMemory>
    requires filled { IsFilled table.now }
    requires sound { IsSound (file_in table.now) }
    requires fits { MembersFit (members_at table.now number (body_tree body.now)) }
    ensures head { IfOk result (λ r. IsHead (whole_in table.now) number (body_tree body.now).each
        (resource_kind (file_in table.now) number) symbol.now needs r.declaration) }
    ensures body { IfOk result (λ r. HasMembers (members_at table.now number (body_tree body.now))
        (template_body r.body)) }
    ensures childless { IfOk result (λ r. r.resources ≡ []) }
{
    match fields(alloc, table, number, body) {
        Ok(fields) => match resource_head(alloc, table, number, symbol, body, needs) {
            Ok(declaration) => Ok(Resource {
                declaration,
                body: Body::Members(fields),
                resources: Resources::new(alloc),
            }),
            Err(_) => lacks(fields),
        },
        Err(_) => lacks(needs),
    }
}
