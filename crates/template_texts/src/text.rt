// Why a text of a template is refused.

ghost use Rattle.std.specs.Prelude.{◌≡◌, IfOk, length, chars, true};
ghost use Rattle.arm_expr.specs.Brackets.{is_bracketed, meaning};
ghost use Rattle.arm_expr.specs.View.{tree_of};
ghost use Rattle.template_texts.specs.Texts.{spelling, reads_no_state, is_read, tree_fault, spelling_fault};
ghost use Rattle.template_texts.specs.Texts.{meaning_fault, text_fault, IsSpelling};

use crate::reference::has_reference;
use crate::sight::{Place, Sight};
use crate::sound::is_sound;
use arm_expr::{Expr, ExprFault, Meaning, meaning_of, read};
use arm_value::{OutOfMemory, Path, Text};
use std::alloc::{AllocError, Global};
use template_parts::{TemplateFault, Which};

// Whether a text there may not read the state of a resource.
fn reads_no_state(place: Place) -> bool
    ensures { result ≡ reads_no_state place }
{
    match place {
        Place::Variable => true,
        Place::Unread => false,
        Place::Elsewhere => false,
    }
}

// Whether texts there are read.
fn is_read(place: Place) -> bool
    ensures { result ≡ is_read place }
{
    match place {
        Place::Variable => true,
        Place::Unread => false,
        Place::Elsewhere => true,
    }
}

// Why the expression is refused.
fn tree_fault(
    alloc: Global,
    here: &Sight,
    place: Place,
    e: &Expr,
) -> Result<Option<TemplateFault>, OutOfMemory>
    ensures { IfOk result (λ f. f ≡ tree_fault here.now place (tree_of e.now)) }
{
    if !is_sound(alloc, here, e)? {
        return Ok(Some(TemplateFault::BadExpression(Path::root(alloc))));
    }
    if reads_no_state(place) && has_reference(e) {
        return Ok(Some(TemplateFault::ReferenceInVariable(Path::root(alloc))));
    }
    Ok(None)
}

// What a text in brackets spells.
fn spelling(alloc: Global, text: &Text) -> Result<Expr, ExprFault>
    requires { is_bracketed text.now ≡ true }
    ensures { IsSpelling (spelling text.now) result }
{
    read(alloc, text.as_str())
}

fn count(text: &str) -> usize
    ensures { result ≡ length (chars text.now) }
{
    text.chars().count()
}

// The number of characters.
fn characters(text: &Text) -> usize
    ensures { result ≡ length text.now }
{
    count(text.as_str())
}

// Why a text in brackets is refused.
fn expression_fault(
    alloc: Global,
    here: &Sight,
    place: Place,
    text: &Text,
) -> Result<Option<TemplateFault>, OutOfMemory>
    requires { is_bracketed text.now ≡ true }
    ensures { IfOk result (λ f. f ≡ spelling_fault here.now place text.now (spelling text.now)) }
{
    match spelling(alloc, text) {
        Ok(e) => tree_fault(alloc, here, place, &e),
        Err(ExprFault::TooLong) => Ok(Some(TemplateFault::Limit(
            Which::Expression,
            characters(text) as u64,
        ))),
        Err(ExprFault::NotAnExpression) => {
            Ok(Some(TemplateFault::BadExpression(Path::root(alloc))))
        }
        Err(ExprFault::TooDeep) => Ok(Some(TemplateFault::Limit(Which::Nesting, 65))),
        Err(ExprFault::OutOfMemory) => Err(AllocError),
    }
}

// Why a text that is read is refused.
fn meaning_fault(
    alloc: Global,
    here: &Sight,
    place: Place,
    text: &Text,
) -> Result<Option<TemplateFault>, OutOfMemory>
    ensures { IfOk result (λ f. f ≡ meaning_fault here.now place text.now (meaning text.now)) }
{
    match meaning_of(text.as_str()) {
        Meaning::Plain(_) => Ok(None),
        Meaning::Expression => expression_fault(alloc, here, place, text),
    }
}

/// Why the text of a template is refused, with the path of the text itself; none where it is not.
///
/// A plain text is never refused, nor is a text in a place where none is read. An expression is refused with `Limit`
/// where its text has more than 24,576 characters; else with `BadExpression` where the text spells none; else with
/// `Limit` where it nests above 64, which counts as 65; else with `BadExpression` where it calls a function that is not
/// there or with too few or too many arguments, or names by a literal a parameter or a variable that is not there; else
/// with `ReferenceInVariable` where it is in a variable or a default and calls `reference`.
pub fn text_fault(
    alloc: Global,
    here: &Sight,
    place: Place,
    text: &Text,
) -> Result<Option<TemplateFault>, OutOfMemory>
    ensures { IfOk result (λ f. f ≡ text_fault here.now place text.now) }
{
    if is_read(place) {
        meaning_fault(alloc, here, place, text)
    } else {
        Ok(None)
    }
}
