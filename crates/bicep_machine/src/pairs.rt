// `for (x, i)`: two names between parentheses, which were read as the arguments of a call.

ghost use Rattle.std.specs.Prelude.{◌≡◌, None, map, option_map};
ghost use Rattle.bicep_tree.specs.Tree.{call, trees};
ghost use Rattle.bicep_tree.specs.View.{tree_of};
ghost use Rattle.bicep_machine.specs.Closing.{pair_of};
ghost use Rattle.bicep_machine.specs.Folding.{name_within, word_before, both_of, two_names};

use crate::kept::nothing;
use bicep_tree::{Expr, Function, Name};

// The name, where there is an expression and it is one.
#[tactic(auto, using(bicep_tree::proofs::ViewLemmas::enums))]
fn name_of(e: Option<Expr>) -> Option<Name>
    ensures { result ≡ name_within (option_map tree_of e) }
{
    match e {
        Some(Expr::Name(name)) => Some(name),
        _ => None,
    }
}

// The two names, where there are two expressions and both are names.
fn two_names(mut arguments: Vec<Expr>) -> Option<(Name, Name)>
    ensures { result ≡ two_names (trees (map tree_of arguments.items)) }
{
    let second = arguments.pop();
    let first = arguments.pop();
    let is_pair = arguments.is_empty();
    let names = both_of(name_of(first), name_of(second));
    if is_pair { names } else { None }
}

fn both_of(first: Option<Name>, second: Option<Name>) -> Option<(Name, Name)>
    ensures { result ≡ both_of first second }
{
    match first {
        None => None,
        Some(first) => match second {
            None => None,
            Some(second) => Some((first, second)),
        },
    }
}

// The word with the two names, where there are two.
fn word_before(word: Name, names: Option<(Name, Name)>) -> Option<(Name, Name, Name)>
    ensures { result ≡ word_before word names }
{
    match names {
        None => nothing(word),
        Some((first, second)) => Some((word, first, second)),
    }
}

// The word of a call and the two names after it.
#[tactic(auto, using(bicep_tree::proofs::ViewLemmas::enums, crate::proofs::PairLemmas::pairs))]
fn pair_in(function: Function, arguments: Vec<Expr>) -> Option<(Name, Name, Name)>
    ensures { result ≡ pair_of (call function (trees (map tree_of arguments.items))) }
{
    match function {
        Function::Plain(word) => word_before(word, two_names(arguments)),
        other => nothing((other, arguments)),
    }
}

/// The word and the two names, where the expression is a call of a word with two names.
#[tactic(auto, using(bicep_tree::proofs::ViewLemmas::enums, crate::proofs::PairLemmas::pairs))]
pub fn pair_of(e: Expr) -> Option<(Name, Name, Name)>
    ensures { result ≡ pair_of (tree_of e) }
{
    match e {
        Expr::Call(function, arguments) => pair_in(function, arguments),
        _ => None,
    }
}
