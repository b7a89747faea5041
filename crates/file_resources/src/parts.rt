//! What one declaration becomes.
ghost use Rattle.std.specs.Prelude.{◌≡◌, true, Some, IfOk, is_some, option_map};
ghost use Rattle.template_tree.specs.View.{resource_tree, template_tree};
ghost use Rattle.bicep_declared.specs.View.{declared_tree, body_tree};
ghost use Rattle.bicep_meaning.specs.Files.{declaration, symbol_name};
ghost use Rattle.emitted_modules.specs.Seen.{file_in};
ghost use Rattle.emitted_modules.specs.Limits.{MembersFit, members_at};
ghost use Rattle.file_resources.specs.Built.{IsResourceOf, IsExistingOf, IsModuleOf, IsModuleWith, IsBuilt};
ghost use Rattle.file_resources.specs.Built.{HasMetadata};
ghost use Rattle.file_resources.specs.Fits.{IsReady, AreMentioned, ArgumentsFitAt, MayBeBuilt};
ghost use Rattle.file_resources.specs.Fits.{IsResourceBy};

use crate::needs::{existing_needs, needs};
use arm_value::{OutOfMemory, Text, Value};
use bicep_declared::{Declared, DeclaredBody};
use emitted_modules::{Table, module, resource};
use emitted_parts::{lacks, letting_go};
use existing_resources::existing;
use std::alloc::Global;
use std::collections::BTreeSet;
use template_parts::Form;
use template_tree::{Resource, Template};

// The name of the symbol of a declaration.
fn symbol_of<'a>(table: &'a Table, number: usize) -> &'a Text
    requires ready { IsReady table.now }
    requires declared { is_some (declaration (file_in table.now) number) ≡ true }
    ensures { symbol_name (file_in table.now) number ≡ Some result.now }
{
    match table.name_of(number) {
        Some(symbol) => symbol,
        None => unreachable!(),
    }
}

// The resource of a number.
fn resource_of(
    alloc: Global,
    table: &Table,
    form: Form,
    mentioned: &[BTreeSet<usize>],
    metadata: &[Option<Value>],
    number: usize,
    body: &DeclaredBody,
) -> Result<Resource, OutOfMemory>
    requires ready { IsReady table.now }
    requires mentioned { AreMentioned table.now mentioned.now }
    requires declared { is_some (declaration (file_in table.now) number) ≡ true }
    requires fits { MembersFit (members_at table.now number (body_tree body.now)) }
    ensures resource { IfOk result (λ r. IsResourceOf form table.now number (body_tree body.now) (resource_tree r)) }
    ensures metadata { IfOk result (λ r. HasMetadata metadata.now number (resource_tree r)) }
{
    let symbol = symbol_of(table, number);
    match needs(alloc, table, form, mentioned, metadata, number, symbol) {
        Ok(needs) => resource(alloc, table, number, symbol, body, needs),
        Err(error) => Err(error),
    }
}

// The existing resource of a number.
fn existing_of(
    alloc: Global,
    table: &Table,
    form: Form,
    metadata: &[Option<Value>],
    number: usize,
    body: &DeclaredBody,
) -> Result<Resource, OutOfMemory>
    requires ready { IsReady table.now }
    requires declared { is_some (declaration (file_in table.now) number) ≡ true }
    ensures resource { IfOk result (λ r. IsExistingOf form table.now number (body_tree body.now) (resource_tree r)) }
    ensures metadata { IfOk result (λ r. HasMetadata metadata.now number (resource_tree r)) }
{
    let symbol = symbol_of(table, number);
    match existing_needs(alloc, table, form, metadata, number, symbol) {
        Ok(needs) => existing(alloc, table, number, symbol, body, needs),
        Err(error) => Err(error),
    }
}

// The module of a number, with the template of its file.
fn module_of(
    alloc: Global,
    table: &Table,
    form: Form,
    mentioned: &[BTreeSet<usize>],
    metadata: &[Option<Value>],
    number: usize,
    body: &DeclaredBody,
    template: Template,
) -> Result<Resource, OutOfMemory>
    requires ready { IsReady table.now }
    requires mentioned { AreMentioned table.now mentioned.now }
    requires declared { is_some (declaration (file_in table.now) number) ≡ true }
    requires fits { ArgumentsFitAt table.now number (body_tree body.now) }
    ensures resource { IfOk result (λ r. IsModuleOf form table.now number (body_tree body.now)
        (template_tree template) (resource_tree r)) }
    ensures metadata { IfOk result (λ r. HasMetadata metadata.now number (resource_tree r)) }
{
    let symbol = symbol_of(table, number);
    match needs(alloc, table, form, mentioned, metadata, number, symbol) {
        Ok(needs) => module(alloc, table, number, symbol, body, needs, template),
        Err(_) => lacks(template),
    }
}

// The module of a number, whose template is there.
fn module_with(
    alloc: Global,
    table: &Table,
    form: Form,
    mentioned: &[BTreeSet<usize>],
    metadata: &[Option<Value>],
    number: usize,
    body: &DeclaredBody,
    template: Option<Template>,
) -> Result<Resource, OutOfMemory>
    requires ready { IsReady table.now }
    requires mentioned { AreMentioned table.now mentioned.now }
    requires declared { is_some (declaration (file_in table.now) number) ≡ true }
    requires fits { ArgumentsFitAt table.now number (body_tree body.now) }
    requires there { is_some template ≡ true }
    ensures resource { IfOk result (λ r. IsModuleWith form table.now number (body_tree body.now)
        (option_map template_tree template) (resource_tree r)) }
    ensures metadata { IfOk result (λ r. HasMetadata metadata.now number (resource_tree r)) }
{
    match template {
        Some(template) => module_of(
            alloc, table, form, mentioned, metadata, number, body, template,
        ),
        None => unreachable!(),
    }
}

/// The resource of a declaration of a resource, or of a module with the template of its file. `metadata` has its
/// metadata by its number.
pub(crate) fn part(
    alloc: Global,
    table: &Table,
    form: Form,
    mentioned: &[BTreeSet<usize>],
    metadata: &[Option<Value>],
    number: usize,
    declared: &Declared,
    template: Option<Template>,
) -> Result<Resource, OutOfMemory>
    requires ready { IsReady table.now }
    requires mentioned { AreMentioned table.now mentioned.now }
    requires declared { declaration (file_in table.now) number ≡ Some (declared_tree declared.now) }
    requires resource { IsResourceBy (declaration (file_in table.now) number) }
    requires built { MayBeBuilt table.now number (is_some template) }
    ensures built { IfOk result (λ r. IsBuilt form table.now number (option_map template_tree template)
        (resource_tree r)) }
    ensures metadata { IfOk result (λ r. HasMetadata metadata.now number (resource_tree r)) }
{
    match declared {
        Declared::Resource(_, _, existing, body) => {
            if *existing {
                let made = existing_of(alloc, table, form, metadata, number, body);
                letting_go(made, template)
            } else {
                let made = resource_of(alloc, table, form, mentioned, metadata, number, body);
                letting_go(made, template)
            }
        }
        Declared::Module(_, body) => {
            module_with(
                alloc, table, form, mentioned, metadata, number, body, template,
            )
        }
        Declared::Parameter(_, _) | Declared::ParameterWith(_, _, _) | Declared::Variable(_, _) => {
            unreachable!()
        }
    }
}
