//! The decorators of a kind.
ghost use Rattle.std.specs.Prelude.{◌≡◌, map, option_map};
ghost use Rattle.bicep_decorators.specs.Decorators.{function_text};
ghost use Rattle.bicep_tree.specs.Tree.{trees};
ghost use Rattle.bicep_tree.specs.Tree as tree;
ghost use Rattle.bicep_tree.specs.View as view;
ghost use Rattle.parameter_rules.specs.Kinds as spec;

use arm_value::Text;
use bicep_decorators::{DecoratorKind, decorator_named};
use bicep_tree::{Decorator, Expr, Function};

// Kinds by numbers.
fn number_of(kind: DecoratorKind) -> u8
    ensures { result ≡ spec.number_of kind }
{
    match kind {
        DecoratorKind::Description => 0,
        DecoratorKind::Metadata => 1,
        DecoratorKind::Allowed => 2,
        DecoratorKind::Secure => 3,
        DecoratorKind::MinLength => 4,
        DecoratorKind::MaxLength => 5,
        DecoratorKind::MinValue => 6,
        DecoratorKind::MaxValue => 7,
        DecoratorKind::BatchSize => 8,
    }
}

fn is_kind(kind: DecoratorKind, found: Option<DecoratorKind>) -> bool
    ensures { result ≡ spec.is_kind kind found }
{
    match found {
        Some(found) => number_of(found) == number_of(kind),
        None => false,
    }
}

// The name of a decorator, without `sys.`.
fn name_of(function: &Function) -> &Text
    ensures { result.now ≡ function_text function.now }
{
    match function {
        Function::Plain(name) => &name.text,
        Function::Qualified(_, _, name) => &name.text,
    }
}

#[tactic(auto, using(bicep_tree::proofs::ViewLemmas::structs))]
fn is_of(kind: DecoratorKind, decorator: &Decorator) -> bool
    ensures { result ≡ spec.is_of kind (view.decorator_of decorator.now) }
{
    is_kind(kind, decorator_named(name_of(&decorator.function)))
}

#[tactic(auto, using(bicep_tree::proofs::ViewLemmas::structs))]
fn arguments(decorator: &Decorator) -> &[Expr]
    ensures { trees (map view.tree_of result.now) ≡ spec.arguments (view.decorator_of decorator.now) }
{
    decorator.arguments.as_slice()
}

/// The arguments of the first decorator of a kind.
pub(crate) fn arguments_of(kind: DecoratorKind, decorators: &[Decorator]) -> Option<&[Expr]>
    ensures { option_map (λ es. trees (map view.tree_of es.now)) result
        ≡ spec.arguments_of kind (tree.decorators (map view.decorator_of decorators.now)) }
{
    for decorator in decorators {
        if is_of(kind, decorator) {
            return Some(arguments(decorator));
        }
    }
    None
}
