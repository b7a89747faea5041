// Whether a text is a title of a scope.
ghost use Rattle.std.specs.Prelude.{◌≡◌, Some, IfOk};
ghost use Rattle.template_tree.specs.Tree.{TemplateTree};
ghost use Rattle.plan_cells.specs.Resources.{resources_in};
ghost use Rattle.plan_faults.specs.Dependencies.{is_title, has_symbol};
ghost use Rattle.dependency_titles.specs.Titles.{titles_in, is_any_indexed};

use crate::indexed::base_of;
use crate::titles::ScopeTitles;
use arm_value::{OutOfMemory, Text};
use name_set::TextSet;
use std::alloc::Global;
use template_parts::Form;

// Whether the text is one of these with an index.
fn is_any_indexed(alloc: Global, names: &TextSet, text: &Text) -> Result<bool, OutOfMemory>
    ensures { IfOk result (λ b. b ≡ is_any_indexed names.now text.now) }
{
    match base_of(alloc, text)? {
        Some(base) => names.has(alloc, &base),
        None => Ok(false),
    }
}

// Whether the text is a symbolic name, or that of an existing resource with an index.
fn has_symbol(alloc: Global, titles: &ScopeTitles, text: &Text) -> Result<bool, OutOfMemory>
    ensures { IfOk result (λ b. (u : TemplateTree) → titles.now ≡ titles_in (resources_in u)
        → b ≡ has_symbol text.now (Some u)) }
{
    if titles.symbols.has(alloc, text)? {
        Ok(true)
    } else {
        is_any_indexed(alloc, &titles.looped, text)
    }
}

/// Whether the text is the name of a loop in the first form, or a symbolic name in the second, in a scope of the form
/// that has these titles.
pub fn is_title(
    alloc: Global,
    form: Form,
    titles: &ScopeTitles,
    text: &Text,
) -> Result<bool, OutOfMemory>
    ensures { IfOk result (λ b. (u : TemplateTree) → titles.now ≡ titles_in (resources_in u)
        → b ≡ is_title form (Some u) text.now) }
{
    match form {
        Form::One => titles.loops.has(alloc, text),
        Form::Two => has_symbol(alloc, titles, text),
    }
}
