//! Nested deployments.
ghost use Rattle.std.specs.Prelude.{◌≡◌, [], IfOk};
ghost use Rattle.template_tree.specs.View.{template_tree, body_tree as template_body};
ghost use Rattle.bicep_declared.specs.View.{body_tree};
ghost use Rattle.bicep_meaning.specs.Instances.{module_kind};
ghost use Rattle.declaration_laws.specs.Sound.{IsSound};
ghost use Rattle.emitted_resources.specs.Files.{frames_around};
ghost use Rattle.emitted_resources.specs.Seen.{file_in, whole_in};
ghost use Rattle.emitted_resources.specs.Filled.{IsFilled, emission_sight};
ghost use Rattle.emitted_resources.specs.Resources.{IsHead};
ghost use Rattle.emitted_modules.specs.Arguments.{arguments_in, ArgumentsFit, AreArguments};
ghost use Rattle.emitted_modules.specs.Modules.{IsDeployment};

use crate::arguments::arguments;
use crate::fields::arguments_of;
use arm_ids::DEPLOYMENT_TYPE;
use arm_value::{ListOf, OutOfMemory, Text};
use bicep_declared::DeclaredBody;
use emitted_parts::{lacks, letting_go};
use emitted_resources::{Needs, Table, head, turns_around};
use std::alloc::Global;
use template_parts::{Argument, Declaration, Scope};
use template_tree::{Body, Deployment, Resource, Resources, Template};

// The type and the version of a nested deployment.
fn typed(alloc: Global) -> Result<(Text, Text), OutOfMemory>
    ensures { IfOk result (λ k. (k.0 ≡ module_kind.type) × (k.1 ≡ module_kind.api)) }
{
    let kind = Text::of(alloc, DEPLOYMENT_TYPE)?;
    match Text::of(alloc, "2022-09-01") {
        Ok(version) => Ok((kind, version)),
        Err(_) => lacks(kind),
    }
}

// What declares the nested deployment of a module.
fn module_head(
    alloc: Global,
    table: &Table,
    number: usize,
    symbol: &Text,
    body: &DeclaredBody,
    needs: Needs,
) -> Result<Declaration, OutOfMemory>
    requires { IsFilled table.now }
    ensures { IfOk result (IsHead (whole_in table.now) number (body_tree body.now).each module_kind symbol.now needs) }
{
    match typed(alloc) {
        Ok(kind) => head(alloc, table, number, symbol, body, kind, needs),
        Err(_) => lacks(needs),
    }
}

// The arguments of a module.
fn module_arguments(
    alloc: Global,
    table: &Table,
    number: usize,
    body: &DeclaredBody,
) -> Result<ListOf<Argument>, OutOfMemory>
    requires filled { IsFilled table.now }
    requires sound { IsSound (file_in table.now) }
    requires fits { ArgumentsFit (emission_sight table.now)
        (frames_around (whole_in table.now) number (body_tree body.now).each)
        (arguments_in (body_tree body.now).fields) }
    ensures { IfOk result (AreArguments (emission_sight table.now)
        (frames_around (whole_in table.now) number (body_tree body.now).each)
        (arguments_in (body_tree body.now).fields)) }
{
    match turns_around(alloc, table, number, body) {
        Ok(turns) => {
            let members = arguments_of(body.fields.as_slice());
            letting_go(arguments(alloc, table, members, turns.as_slice()), turns)
        }
        Err(error) => Err(error),
    }
}

/// The nested deployment that a module becomes, by the number of its symbol, by this symbol, by its body, and by the
/// template of its file, with a table of all declarations of the file that declares it. Its arguments are within the
/// limits of templates.
///
/// # Errors
///
/// `OutOfMemory`, also where its name, its condition or its count is beyond the limits of expressions.
pub fn module(
    alloc: Global,
    table: &Table,
    number: usize,
    symbol: &Text,
    body: &DeclaredBody,
    needs: Needs,
    template: Template,
) -> Result<Resource, OutOfMemory>
    requires filled { IsFilled table.now }
    requires sound { IsSound (file_in table.now) }
    requires fits { ArgumentsFit (emission_sight table.now)
        (frames_around (whole_in table.now) number (body_tree body.now).each)
        (arguments_in (body_tree body.now).fields) }
    ensures head { IfOk result (λ r. IsHead (whole_in table.now) number (body_tree body.now).each module_kind
        symbol.now needs r.declaration) }
    ensures body { IfOk result (λ r. IsDeployment table.now number (body_tree body.now) (template_tree template)
        (template_body r.body)) }
    ensures childless { IfOk result (λ r. r.resources ≡ []) }
{
    match module_arguments(alloc, table, number, body) {
        Ok(parameters) => match module_head(alloc, table, number, symbol, body, needs) {
            Ok(declaration) => Ok(Resource {
                declaration,
                body: Body::Deployment(Deployment {
                    scope: Scope::Inner,
                    parameters,
                    template,
                }),
                resources: Resources::new(alloc),
            }),
            Err(_) => lacks((parameters, template)),
        },
        Err(_) => lacks((needs, template)),
    }
}
