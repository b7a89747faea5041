// For each symbol those that its declaration mentions.
ghost use Rattle.std.specs.Prelude.{◌≡◌, ◌<◌, ◌^◌, ◌++◌, ◌∷◌, [], length, map, IfOk, OnOk};
ghost use Rattle.bicep_declared.specs.View.{declared_tree};
ghost use Rattle.bicep_circles.specs.Links.{mentioned, links};
ghost use Rattle.bicep_circles.specs.Nodes as spec;

use crate::declarations::mentioned;
use arm_value::OutOfMemory;
use bicep_declared::Declared;
use bicep_symbols::Entry;
use std::alloc::Global;

// Adds what the declaration of a symbol mentions.
fn push_mentions(
    alloc: Global,
    out: &mut Vec<Vec<usize>>,
    entry: &Entry,
    declaration: &Declared,
) -> Result<(), OutOfMemory>
    ensures { OnOk result (map (λ v. v.items) out.new.items ≡ map (λ v. v.items) out.old.items
        ++ mentioned entry.now.kind (declared_tree declaration.now) ∷ []) }
{
    let mentions = mentioned(alloc, entry.kind, declaration)?;
    out.push(mentions)?;
    Ok(())
}

/// For each symbol those that its declaration mentions, and the resource in which it is nested, once for each place.
/// The declarations have these symbols.
///
/// # Errors
///
/// `OutOfMemory`.
#[tactic(auto, using(crate::proofs::Appends::appends))]
pub fn symbol_links(
    alloc: Global,
    entries: &[Entry],
    declarations: &[Declared],
) -> Result<Vec<Vec<usize>>, OutOfMemory>
    ensures { IfOk result (λ v. map (λ x. x.items) v.items
        ≡ links (map (λ e. e.kind) entries.now) (map declared_tree declarations.now)) }
{
    let mut out = Vec::new(alloc);
    let mut rest = declarations;
    for entry in entries {
        match rest {
            [] => return Ok(out),
            [first, after @ ..] => {
                push_mentions(alloc, &mut out, entry, first)?;
                rest = after;
            }
        }
    }
    Ok(out)
}

// Adds a number that is below the count.
fn push_below(out: &mut Vec<u32>, count: usize, number: usize) -> Result<(), OutOfMemory>
    requires { count < 2 ^ 32 }
    ensures { OnOk result (out.new.items ≡ out.old.items ++ spec.below count (number ∷ [])) }
{
    if number < count {
        out.push(number as u32)?;
    }
    Ok(())
}

// Those of the numbers that are below the count.
fn below(alloc: Global, count: usize, numbers: &[usize]) -> Result<Vec<u32>, OutOfMemory>
    requires { count < 2 ^ 32 }
    ensures { IfOk result (λ v. v.items ≡ spec.below count numbers.now) }
{
    let mut out = Vec::new(alloc);
    for number in numbers {
        push_below(&mut out, count, *number)?;
    }
    Ok(out)
}

fn push_list(
    alloc: Global,
    out: &mut Vec<Vec<u32>>,
    count: usize,
    numbers: &[usize],
) -> Result<(), OutOfMemory>
    requires { count < 2 ^ 32 }
    ensures { OnOk result (map (λ v. v.items) out.new.items
        ≡ map (λ v. v.items) out.old.items ++ spec.below count numbers.now ∷ []) }
{
    let list = below(alloc, count, numbers)?;
    out.push(list)?;
    Ok(())
}

/// The lists without the numbers that are too large.
pub(crate) fn all_below(alloc: Global, lists: &[Vec<usize>]) -> Result<Vec<Vec<u32>>, OutOfMemory>
    requires { length lists.now < 2 ^ 32 }
    ensures { IfOk result (λ v. map (λ x. x.items) v.items ≡ spec.all_below (map (λ x. x.items) lists.now)) }
{
    let count = lists.len();
    let mut out = Vec::new(alloc);
    for list in lists {
        push_list(alloc, &mut out, count, list.as_slice())?;
    }
    Ok(out)
}
