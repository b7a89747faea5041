// Expressions that call functions that are there, and name parameters and variables that are there.

ghost use Rattle.std.specs.Prelude.{◌≡◌, IfOk, map, option_map};
ghost use Rattle.arm_expr.specs.Tree.{trees};
ghost use Rattle.arm_expr.specs.View.{tree_of};
ghost use Rattle.template_texts.specs.Sound.{is_called, as_text, text_named, is_there, is_found, is_good_call};
ghost use Rattle.template_texts.specs.Sound.{is_sound, are_sound};

use crate::sight::Sight;
use arm_expr::Expr;
use arm_functions::Row;
use arm_value::{OutOfMemory, Text};
use name_set::NameSet;
use std::alloc::Global;

// Whether there is a function of this name that takes so many arguments.
fn is_called(name: &Text, count: usize) -> bool
    ensures { result ≡ is_called name.now count }
{
    match Row::of(name.as_str()) {
        Some(row) => row.arity.admits(count),
        None => false,
    }
}

// The text that an expression is.
#[tactic(auto, using(arm_expr::proofs::ViewLemmas::views))]
fn as_text(e: &Expr) -> Option<&Text>
    ensures { option_map (λ t. t.now) result ≡ as_text (tree_of e.now) }
{
    match e {
        Expr::Text(text) => Some(text),
        Expr::Int(_) => None,
        Expr::Call(_, _) => None,
        Expr::Member(_, _) => None,
        Expr::Index(_, _) => None,
    }
}

// The text that is the one argument of a call.
fn text_named(arguments: &[Expr]) -> Option<&Text>
    ensures { option_map (λ t. t.now) result ≡ text_named (trees (map tree_of arguments.now)) }
{
    match arguments {
        [] => None,
        [argument] => as_text(argument),
        [_, _, ..] => None,
    }
}

// Whether the name, where there is one, is among these.
fn is_there(alloc: Global, names: &NameSet, name: Option<&Text>) -> Result<bool, OutOfMemory>
    ensures { IfOk result (λ b. b ≡ is_there names.now (option_map (λ t. t.now) name.entry)) }
{
    match name {
        Some(name) => names.has(alloc, name),
        None => Ok(true),
    }
}

// Whether a call of `parameters` or `variables` names one that is there.
#[tactic(auto, using(crate::proofs::WordLemmas::words))]
fn is_found(
    alloc: Global,
    here: &Sight,
    name: &Text,
    arguments: &[Expr],
) -> Result<bool, OutOfMemory>
    ensures { IfOk result (λ b. b ≡ is_found here.now name.now (trees (map tree_of arguments.now))) }
{
    if name.equals_ignore_case("parameters") {
        return is_there(alloc, &here.parameters, text_named(arguments));
    }
    if name.equals_ignore_case("variables") {
        return is_there(alloc, &here.variables, text_named(arguments));
    }
    Ok(true)
}

// Whether the function that is called is there, takes so many arguments, and names what is there.
#[tactic(auto, using(crate::proofs::SoundLemmas::count_trees))]
fn is_good_call(
    alloc: Global,
    here: &Sight,
    name: &Text,
    arguments: &[Expr],
) -> Result<bool, OutOfMemory>
    ensures { IfOk result (λ b. b ≡ is_good_call here.now name.now (trees (map tree_of arguments.now))) }
{
    if is_called(name, arguments.len()) {
        is_found(alloc, here, name, arguments)
    } else {
        Ok(false)
    }
}

/// Whether each function that the expression calls is there and takes so many arguments, and whether each parameter
/// and variable that it names by a literal is there.
#[cycle(sound)]
#[tactic(auto, using(arm_expr::proofs::ViewLemmas::views))]
pub fn is_sound(alloc: Global, here: &Sight, e: &Expr) -> Result<bool, OutOfMemory>
    ensures { IfOk result (λ b. b ≡ is_sound here.now (tree_of e.now)) }
{
    match e {
        Expr::Text(_) => Ok(true),
        Expr::Int(_) => Ok(true),
        Expr::Call(name, arguments) => {
            if is_good_call(alloc, here, name, arguments)? {
                are_sound(alloc, here, arguments)
            } else {
                Ok(false)
            }
        }
        Expr::Member(inner, _) => is_sound(alloc, here, inner),
        Expr::Index(base, index) => {
            if is_sound(alloc, here, base)? {
                is_sound(alloc, here, index)
            } else {
                Ok(false)
            }
        }
    }
}

// Whether each of the expressions does.
#[cycle(sound)]
#[tactic(auto, using(arm_expr::proofs::ViewLemmas::views))]
fn are_sound(alloc: Global, here: &Sight, es: &[Expr]) -> Result<bool, OutOfMemory>
    ensures { IfOk result (λ b. b ≡ are_sound here.now (trees (map tree_of es.now))) }
{
    for e in es {
        if !is_sound(alloc, here, e)? {
            return Ok(false);
        }
    }
    Ok(true)
}
