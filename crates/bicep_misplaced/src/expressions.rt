// What is misplaced in an expression.
ghost use Rattle.std.specs.Prelude.{◌≡◌, map};
ghost use Rattle.bicep_tree.specs.Tree as tree;
ghost use Rattle.bicep_tree.specs.View as view;
ghost use Rattle.bicep_misplaced.specs.Expressions as spec;

use crate::spot::Spot;
use crate::words::is_bad_name;
use bicep_tree::{Expr, Hole, Label, Member, Object, Value};

// Where the parts of an operator, a call, an access or an interpolated text are.
fn inner(spot: Spot) -> Spot
    ensures { result ≡ spec.inner spot }
{
    match spot {
        Spot::Outside => Spot::Outside,
        Spot::Field | Spot::Inside => Spot::Inside,
    }
}

fn bad_label(spot: Spot, label: &Label) -> Option<usize>
    ensures { result ≡ spec.bad_label spot label.now }
{
    if is_bad_name(spot, label.text()) {
        return Some(label.at());
    }
    None
}

/// The first misplaced thing in an expression.
#[cycle(bad)]
#[tactic(auto, using(bicep_tree::proofs::ViewLemmas::enums))]
pub(crate) fn bad_in(spot: Spot, e: &Expr) -> Option<usize>
    ensures { result ≡ spec.bad_in spot (view.tree_of e.now) }
{
    match e {
        Expr::Name(_) => None,
        Expr::Literal(_, _) => None,
        Expr::Interpolated(_, _, holes) => bad_in_holes(inner(spot), holes.as_slice()),
        Expr::Object(object) => bad_in_object(spot, object),
        Expr::Array(_, items) => bad_in_all(spot, items.as_slice()),
        Expr::Parentheses(_, part) => bad_in(inner(spot), part),
        Expr::Call(_, arguments) => bad_in_all(inner(spot), arguments.as_slice()),
        Expr::Access(whole, _, _) => bad_in(inner(spot), whole),
        Expr::Index(whole, _, index) => match bad_in(inner(spot), whole) {
            Some(at) => Some(at),
            None => bad_in(inner(spot), index),
        },
        Expr::NotNull(part) => bad_in(inner(spot), part),
        Expr::Prefix(_, _, operand) => bad_in(inner(spot), operand),
        Expr::Binary(_, first, second) => match bad_in(inner(spot), first) {
            Some(at) => Some(at),
            None => bad_in(inner(spot), second),
        },
        Expr::Conditional(condition, yes, no) => match bad_in(inner(spot), condition) {
            Some(at) => Some(at),
            None => match bad_in(inner(spot), yes) {
                Some(at) => Some(at),
                None => bad_in(inner(spot), no),
            },
        },
    }
}

/// The first misplaced thing in these expressions.
#[cycle(bad)]
pub(crate) fn bad_in_all(spot: Spot, es: &[Expr]) -> Option<usize>
    ensures { result ≡ spec.bad_in_all spot (tree.trees (map view.tree_of es.now)) }
{
    for e in es {
        match bad_in(spot, e) {
            Some(at) => return Some(at),
            None => {}
        }
    }
    None
}

#[cycle(bad)]
fn bad_in_holes(spot: Spot, holes: &[Hole]) -> Option<usize>
    ensures { result ≡ spec.bad_in_holes spot (tree.holes (map view.hole_of holes.now)) }
{
    for hole in holes {
        match bad_in_hole(spot, hole) {
            Some(at) => return Some(at),
            None => {}
        }
    }
    None
}

#[cycle(bad)]
#[tactic(auto, using(bicep_tree::proofs::ViewLemmas::structs))]
fn bad_in_hole(spot: Spot, hole: &Hole) -> Option<usize>
    ensures { result ≡ spec.bad_in spot (view.hole_of hole.now).0 }
{
    bad_in(spot, &hole.value)
}

#[cycle(bad)]
#[tactic(auto, using(bicep_tree::proofs::ViewLemmas::structs))]
fn bad_in_object(spot: Spot, object: &Object) -> Option<usize>
    ensures { result ≡ spec.bad_in_object spot (view.object_of object.now) }
{
    bad_in_members(spot, object.members.as_slice())
}

#[cycle(bad)]
fn bad_in_members(spot: Spot, members: &[Member]) -> Option<usize>
    ensures { result ≡ spec.bad_in_members spot (tree.members (map view.member_of members.now)) }
{
    for member in members {
        match bad_in_member(spot, member) {
            Some(at) => return Some(at),
            None => {}
        }
    }
    None
}

#[cycle(bad)]
#[tactic(auto, using(bicep_tree::proofs::ViewLemmas::enums, bicep_tree::proofs::ViewLemmas::structs))]
fn bad_in_member(spot: Spot, member: &Member) -> Option<usize>
    ensures { result ≡ spec.bad_in_member spot (view.member_of member.now) }
{
    match member {
        Member::Property(label, value) => match bad_label(spot, label) {
            Some(at) => Some(at),
            None => bad_in_value(spot, value),
        },
        Member::Child(_, resource) => Some(resource.at),
    }
}

// A for-expression is the value of a property only in the value of a field.
#[cycle(bad)]
#[tactic(auto, using(bicep_tree::proofs::ViewLemmas::enums, bicep_tree::proofs::ViewLemmas::structs))]
fn bad_in_value(spot: Spot, value: &Value) -> Option<usize>
    ensures { result ≡ spec.bad_in_value spot (view.value_of value.now) }
{
    match value {
        Value::Plain(e) => bad_in(spot, e),
        Value::Each(each, body) => match spot {
            Spot::Outside | Spot::Inside => Some(each.at),
            Spot::Field => match bad_in(Spot::Inside, &each.over) {
                Some(at) => Some(at),
                None => bad_in(Spot::Inside, body),
            },
        },
    }
}
