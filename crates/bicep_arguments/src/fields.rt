// The arguments that the body of a module has.
ghost use Rattle.std.specs.Prelude.{◌≡◌, map, option_map, bytes_eq, codes};
ghost use Rattle.bicep_tree.specs.Symbol.{label_text};
ghost use Rattle.bicep_tree.specs.Tree as tree;
ghost use Rattle.bicep_tree.specs.View as view;
ghost use Rattle.bicep_arguments.specs.Arguments as spec;
ghost use Rattle.bicep_tree.specs.Declarations.{body_members};
ghost use Rattle.bicep_tree.specs.Declarations.{object_members};

use bicep_tree::{Body, Expr, Label, Member, Object, Value, is_word};

#[tactic(auto, using(bicep_tree::proofs::ViewLemmas::structs))]
fn object_members(object: &Object) -> &[Member]
    ensures { tree.members (map view.member_of result.now) ≡ object_members (view.object_of object.now) }
{
    object.members.as_slice()
}

// The members of the object that an expression is, parentheses left out.
#[tactic(auto, using(bicep_tree::proofs::ViewLemmas::enums))]
fn object_in(e: &Expr) -> Option<&[Member]>
    ensures { option_map (λ ms. tree.members (map view.member_of ms.now)) result ≡ spec.object_in (view.tree_of e.now) }
{
    match e {
        Expr::Object(object) => Some(object_members(object)),
        Expr::Parentheses(_, inner) => object_in(inner),
        Expr::Name(..)
        | Expr::Literal(..)
        | Expr::Interpolated(..)
        | Expr::Array(..)
        | Expr::Call(..)
        | Expr::Access(..)
        | Expr::Index(..)
        | Expr::NotNull(..)
        | Expr::Prefix(..)
        | Expr::Binary(..)
        | Expr::Conditional(..) => None,
    }
}

/// The members of the object that a value is.
#[tactic(auto, using(bicep_tree::proofs::ViewLemmas::enums))]
pub(crate) fn object_of(value: &Value) -> Option<&[Member]>
    ensures { option_map (λ ms. tree.members (map view.member_of ms.now)) result
        ≡ spec.object_of (view.value_of value.now) }
{
    match value {
        Value::Plain(e) => object_in(e),
        Value::Each(_, _) => None,
    }
}

fn is_params(label: &Label) -> bool
    ensures { result ≡ bytes_eq (label_text label.now) (codes "params") }
{
    is_word(label.text().as_str(), "params")
}

// The value of a field `params`.
#[tactic(auto, using(bicep_tree::proofs::ViewLemmas::enums))]
fn params_of(member: &Member) -> Option<&Value>
    ensures { option_map (λ v. view.value_of v.now) result
        ≡ spec.params_of (view.member_of member.now) }
{
    match member {
        Member::Property(label, value) => if is_params(label) { Some(value) } else { None },
        Member::Child(_, _) => None,
    }
}

/// The value of the first field `params`.
pub(crate) fn params_in(members: &[Member]) -> Option<&Value>
    ensures { option_map (λ v. view.value_of v.now) result
        ≡ spec.params_in (tree.members (map view.member_of members.now)) }
{
    for member in members {
        match params_of(member) {
            Some(value) => return Some(value),
            None => {}
        }
    }
    None
}

/// The members of the body of a module.
#[tactic(auto, using(bicep_tree::proofs::ViewLemmas::enums))]
pub(crate) fn body_members(body: &Body) -> &[Member]
    ensures { tree.members (map view.member_of result.now) ≡ body_members (view.body_of body.now) }
{
    match body {
        Body::Plain(object)
        | Body::If(_, _, object)
        | Body::Each(_, object)
        | Body::EachIf(_, _, _, object) => object_members(object),
    }
}
