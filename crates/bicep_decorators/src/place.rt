// Where decorators are.
ghost use Rattle.std.specs.Prelude.{◌≡◌};
ghost use Rattle.bicep_tree.specs.View.{body_of, declaration_of, resource_of};
ghost use Rattle.bicep_decorators.specs.Decorators.{body_place, resource_place, place_of};

use bicep_tree::{Body, Declaration, Resource, TypeName};

/// Where decorators are.
#[derive(Clone, Copy, PartialEq, Eq)]
pub enum Place {
    /// Before a parameter of that type.
    Parameter(TypeName),
    /// Before an output.
    Output,
    /// Before a loop of resources or modules.
    Loop,
    /// Before any other declaration.
    Other,
}

#[tactic(auto, using(bicep_tree::proofs::ViewLemmas::enums))]
fn body_place(body: &Body) -> Place
    ensures { result ≡ body_place (body_of body.now) }
{
    match body {
        Body::Plain(_) => Place::Other,
        Body::If(_, _, _) => Place::Other,
        Body::Each(_, _) => Place::Loop,
        Body::EachIf(_, _, _, _) => Place::Loop,
    }
}

/// The place before a resource.
#[tactic(auto, using(bicep_tree::proofs::ViewLemmas::structs))]
pub(crate) fn resource_place(resource: &Resource) -> Place
    ensures { result ≡ resource_place (resource_of resource.now) }
{
    body_place(&resource.body)
}

/// The place before a declaration.
pub(crate) fn place_of(declaration: &Declaration) -> Place
    ensures { result ≡ place_of (declaration_of declaration.now) }
{
    match declaration {
        Declaration::Metadata(_, _, _) => Place::Other,
        Declaration::TargetScope(_, _) => Place::Other,
        Declaration::Param(_, _, kind) => Place::Parameter(*kind),
        Declaration::ParamWith(_, _, kind, _) => Place::Parameter(*kind),
        Declaration::Var(_, _, _) => Place::Other,
        Declaration::Output(_, _, _, _) => Place::Output,
        Declaration::Resource(resource) => resource_place(resource),
        Declaration::Module(_, _, _, body) => body_place(body),
    }
}
