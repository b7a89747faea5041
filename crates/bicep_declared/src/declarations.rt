// Declarations whose names are found.
ghost use Rattle.std.specs.Prelude.{[], option_map, Some, None};
ghost use Rattle.bicep_tree.specs.View as view;
ghost use Rattle.bicep_tree.specs.View.{tree_of};
ghost use Rattle.bicep_found.specs.Found.{Found, Gives, found, mapped};
ghost use Rattle.bicep_names.specs.Resolve.{resolved, resolved_value};
ghost use Rattle.bicep_names.specs.Scope.{scope};
ghost use Rattle.bicep_declared.specs.Declare as spec;
ghost use Rattle.bicep_declared.specs.Declarations.{BodyTree};
ghost use Rattle.bicep_declared.specs.View.{body_tree, declared_tree, output_tree, site_tree};

use crate::bodies::body_of;
use crate::declared::{Declared, DeclaredBody, DeclaredOutput};
use crate::sites::Site;
use bicep_found::Stop;
use bicep_found::join::lacks;
use bicep_names::{Outputs, Symbols, resolve, resolve_value};
use bicep_tree::{Body, Declaration, Expr, Quoted, Resource, TypeName, Value};
use std::alloc::Global;

fn parameter_with(
    alloc: Global,
    symbols: &Symbols,
    outputs: &[Outputs],
    at: usize,
    kind: TypeName,
    default: &Expr,
) -> Result<Option<Declared>, Stop>
    ensures { Gives (option_map declared_tree) result (mapped (spec.some_parameter at kind)
        (resolved (scope symbols.now outputs.now) (tree_of default.now) [])) }
{
    match resolve(alloc, symbols, outputs, &[], default) {
        Ok(default) => Ok(Some(Declared::ParameterWith(at, kind, default))),
        Err(stop) => Err(stop),
    }
}

fn variable(
    alloc: Global,
    symbols: &Symbols,
    outputs: &[Outputs],
    at: usize,
    value: &Value,
) -> Result<Option<Declared>, Stop>
    ensures { Gives (option_map declared_tree) result (mapped (spec.some_variable at)
        (resolved_value (scope symbols.now outputs.now) (view.value_of value.now) [])) }
{
    match resolve_value(alloc, symbols, outputs, &[], value) {
        Ok(value) => Ok(Some(Declared::Variable(at, value))),
        Err(stop) => Err(stop),
    }
}

// A resource with this body.
fn resource_with(
    alloc: Global,
    at: usize,
    path: &Quoted,
    existing: bool,
    body: DeclaredBody,
) -> Result<Option<Declared>, Stop>
    ensures { Gives (option_map declared_tree) result
        (found (spec.some_resource at path.now existing (body_tree body))) }
{
    match path.text.copy(alloc) {
        Ok(text) => {
            let path = Quoted { at: path.at, text };
            Ok(Some(Declared::Resource(at, path, existing, body)))
        }
        Err(_) => lacks(body, Stop::OutOfMemory),
    }
}

// A resource whose body is found.
fn resource_of(
    alloc: Global,
    at: usize,
    path: &Quoted,
    existing: bool,
    body: Result<DeclaredBody, Stop>,
) -> Result<Option<Declared>, Stop>
    ensures { (f : Found BodyTree) → Gives body_tree body f
        → Gives (option_map declared_tree) result (mapped (spec.some_resource at path.now existing) f) }
{
    match body {
        Ok(body) => resource_with(alloc, at, path, existing, body),
        Err(stop) => Err(stop),
    }
}

#[tactic(auto, using(bicep_tree::proofs::ViewLemmas::structs))]
fn resource(
    alloc: Global,
    symbols: &Symbols,
    outputs: &[Outputs],
    resource: &Resource,
) -> Result<Option<Declared>, Stop>
    ensures { Gives (option_map declared_tree) result
        (spec.resource_of (scope symbols.now outputs.now) (view.resource_of resource.now)) }
{
    let body = body_of(alloc, symbols, outputs, &resource.body);
    resource_of(
        alloc,
        resource.name.at,
        &resource.path,
        resource.existing,
        body,
    )
}

fn module(
    alloc: Global,
    symbols: &Symbols,
    outputs: &[Outputs],
    at: usize,
    body: &Body,
) -> Result<Option<Declared>, Stop>
    ensures { Gives (option_map declared_tree) result (mapped (spec.some_module at)
        (spec.body_of (scope symbols.now outputs.now) (view.body_of body.now))) }
{
    match body_of(alloc, symbols, outputs, body) {
        Ok(body) => Ok(Some(Declared::Module(at, body))),
        Err(stop) => Err(stop),
    }
}

// What a statement declares, where it has a symbol.
fn declared_by(
    alloc: Global,
    symbols: &Symbols,
    outputs: &[Outputs],
    declaration: &Declaration,
) -> Result<Option<Declared>, Stop>
    ensures { Gives (option_map declared_tree) result
        (spec.declared (scope symbols.now outputs.now) (view.declaration_of declaration.now)) }
{
    match declaration {
        Declaration::Metadata(_, _, _)
        | Declaration::TargetScope(_, _)
        | Declaration::Output(_, _, _, _) => Ok(None),
        Declaration::Param(_, name, kind) => Ok(Some(Declared::Parameter(name.at, *kind))),
        Declaration::ParamWith(_, name, kind, default) => {
            parameter_with(alloc, symbols, outputs, name.at, *kind, default)
        }
        Declaration::Var(_, name, value) => variable(alloc, symbols, outputs, name.at, value),
        Declaration::Resource(found) => resource(alloc, symbols, outputs, found),
        Declaration::Module(_, name, _, body) => { module(alloc, symbols, outputs, name.at, body) }
    }
}

/// What a declaration is, where it has a symbol.
pub(crate) fn declared(
    alloc: Global,
    symbols: &Symbols,
    outputs: &[Outputs],
    site: Site<'_>,
) -> Result<Option<Declared>, Stop>
    ensures { Gives (option_map declared_tree) result
        (spec.declared (scope symbols.now outputs.now) (site_tree site.entry)) }
{
    match site {
        Site::Statement(declaration) => declared_by(alloc, symbols, outputs, declaration),
        Site::Nested(found) => resource(alloc, symbols, outputs, found),
    }
}

fn output_with(
    alloc: Global,
    symbols: &Symbols,
    outputs: &[Outputs],
    at: usize,
    kind: TypeName,
    value: &Value,
) -> Result<Option<DeclaredOutput>, Stop>
    ensures { Gives (option_map output_tree) result (mapped (spec.some_output at kind)
        (resolved_value (scope symbols.now outputs.now) (view.value_of value.now) [])) }
{
    match resolve_value(alloc, symbols, outputs, &[], value) {
        Ok(value) => Ok(Some(DeclaredOutput { at, kind, value })),
        Err(stop) => Err(stop),
    }
}

fn output_by(
    alloc: Global,
    symbols: &Symbols,
    outputs: &[Outputs],
    declaration: &Declaration,
) -> Result<Option<DeclaredOutput>, Stop>
    ensures { Gives (option_map output_tree) result
        (spec.output_declared (scope symbols.now outputs.now) (view.declaration_of declaration.now)) }
{
    match declaration {
        Declaration::Output(_, name, kind, value) => {
            output_with(alloc, symbols, outputs, name.at, *kind, value)
        }
        Declaration::Metadata(_, _, _)
        | Declaration::TargetScope(_, _)
        | Declaration::Param(_, _, _)
        | Declaration::ParamWith(_, _, _, _)
        | Declaration::Var(_, _, _)
        | Declaration::Resource(_)
        | Declaration::Module(_, _, _, _) => Ok(None),
    }
}

/// The output that a declaration is, where it is one.
pub(crate) fn output_declared(
    alloc: Global,
    symbols: &Symbols,
    outputs: &[Outputs],
    site: Site<'_>,
) -> Result<Option<DeclaredOutput>, Stop>
    ensures { Gives (option_map output_tree) result
        (spec.output_declared (scope symbols.now outputs.now) (site_tree site.entry)) }
{
    match site {
        Site::Statement(declaration) => output_by(alloc, symbols, outputs, declaration),
        Site::Nested(_) => Ok(None),
    }
}
