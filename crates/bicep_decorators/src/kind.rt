// Kinds of decorators, by their names.
ghost use Rattle.std.specs.Prelude.{◌≡◌, chars, true};
ghost use Rattle.bicep_decorators.specs.Decorators.{bound_named, decorator_named, may_be, is_secret};
ghost use Rattle.bicep_decorators.specs.Decorators.{is_sized, is_number, on_parameter, on_output, on_loop};

use crate::place::Place;
use arm_value::Text;
use bicep_tree::{TypeName, is_word};

/// A decorator that there is.
#[derive(Clone, Copy, PartialEq, Eq)]
pub enum DecoratorKind {
    /// `@description`
    Description,
    /// `@metadata`
    Metadata,
    /// `@allowed`
    Allowed,
    /// `@secure`
    Secure,
    /// `@minLength`
    MinLength,
    /// `@maxLength`
    MaxLength,
    /// `@minValue`
    MinValue,
    /// `@maxValue`
    MaxValue,
    /// `@batchSize`
    BatchSize,
}

// The decorator of that name that bounds a value or a loop.
#[tactic(auto, unfolding(crate::specs::Decorators::bound_named))]
fn bound_named(name: &str) -> Option<DecoratorKind>
    ensures { result ≡ bound_named (chars name.now) }
{
    if is_word(name, "minLength") {
        return Some(DecoratorKind::MinLength);
    }
    if is_word(name, "maxLength") {
        return Some(DecoratorKind::MaxLength);
    }
    if is_word(name, "minValue") {
        return Some(DecoratorKind::MinValue);
    }
    if is_word(name, "maxValue") {
        return Some(DecoratorKind::MaxValue);
    }
    if is_word(name, "batchSize") {
        return Some(DecoratorKind::BatchSize);
    }
    None
}

#[tactic(auto, unfolding(crate::specs::Decorators::decorator_named))]
fn word_named(name: &str) -> Option<DecoratorKind>
    ensures { result ≡ decorator_named (chars name.now) }
{
    if is_word(name, "description") {
        return Some(DecoratorKind::Description);
    }
    if is_word(name, "metadata") {
        return Some(DecoratorKind::Metadata);
    }
    if is_word(name, "allowed") {
        return Some(DecoratorKind::Allowed);
    }
    if is_word(name, "secure") {
        return Some(DecoratorKind::Secure);
    }
    bound_named(name)
}

/// The decorator of that name, letter by letter.
pub fn decorator_named(name: &Text) -> Option<DecoratorKind>
    ensures { result ≡ decorator_named name.now }
{
    word_named(name.as_str())
}

fn is_secret(kind: TypeName) -> bool
    ensures { result ≡ is_secret kind }
{
    match kind {
        TypeName::String | TypeName::Object => true,
        TypeName::Int | TypeName::Bool | TypeName::Array => false,
    }
}

fn is_sized(kind: TypeName) -> bool
    ensures { result ≡ is_sized kind }
{
    match kind {
        TypeName::String | TypeName::Array => true,
        TypeName::Int | TypeName::Bool | TypeName::Object => false,
    }
}

fn is_number(kind: TypeName) -> bool
    ensures { result ≡ is_number kind }
{
    match kind {
        TypeName::Int => true,
        TypeName::String | TypeName::Bool | TypeName::Object | TypeName::Array => false,
    }
}

fn on_any(place: Place) -> bool
    ensures { result ≡ on_parameter (λ t. true) place }
{
    match place {
        Place::Parameter(_) => true,
        Place::Output | Place::Loop | Place::Other => false,
    }
}

fn on_secret(place: Place) -> bool
    ensures { result ≡ on_parameter is_secret place }
{
    match place {
        Place::Parameter(kind) => is_secret(kind),
        Place::Output | Place::Loop | Place::Other => false,
    }
}

fn on_sized(place: Place) -> bool
    ensures { result ≡ on_parameter is_sized place }
{
    match place {
        Place::Parameter(kind) => is_sized(kind),
        Place::Output | Place::Loop | Place::Other => false,
    }
}

fn on_number(place: Place) -> bool
    ensures { result ≡ on_parameter is_number place }
{
    match place {
        Place::Parameter(kind) => is_number(kind),
        Place::Output | Place::Loop | Place::Other => false,
    }
}

fn on_output(place: Place) -> bool
    ensures { result ≡ on_output place }
{
    match place {
        Place::Output => true,
        Place::Parameter(_) | Place::Loop | Place::Other => false,
    }
}

fn on_loop(place: Place) -> bool
    ensures { result ≡ on_loop place }
{
    match place {
        Place::Loop => true,
        Place::Parameter(_) | Place::Output | Place::Other => false,
    }
}

/// Whether a decorator of that kind may be at the place.
pub(crate) fn may_be(place: Place, kind: DecoratorKind) -> bool
    ensures { result ≡ may_be place kind }
{
    match kind {
        DecoratorKind::Description => true,
        DecoratorKind::Metadata => on_any(place) || on_output(place),
        DecoratorKind::Allowed => on_any(place),
        DecoratorKind::Secure => on_secret(place),
        DecoratorKind::MinLength | DecoratorKind::MaxLength => on_sized(place),
        DecoratorKind::MinValue | DecoratorKind::MaxValue => on_number(place),
        DecoratorKind::BatchSize => on_loop(place),
    }
}
