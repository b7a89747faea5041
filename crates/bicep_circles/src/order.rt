// An order of the symbols of a file in which each comes after those that its declaration mentions.
ghost use Rattle.std.specs.Prelude.{◌≡◌, ◌<◌, ◌^◌, ℕ, List, length, map, IfOk};
ghost use Rattle.bicep_program.specs.Graphs.{AreWithin};
ghost use Rattle.bicep_declared.specs.View.{declared_tree};
ghost use Rattle.bicep_circles.specs.Links.{links};
ghost use Rattle.bicep_circles.specs.Nodes.{all_below};
ghost use Rattle.bicep_circles.specs.Orders.{AreSorted};

use crate::graph::graph_of;
use crate::links::{all_below, symbol_links};
use arm_value::OutOfMemory;
use bicep_declared::Declared;
use bicep_symbols::Entry;
use depend_graph::Sorted;
use std::alloc::{AllocError, Global};

// An order in which each number comes after those of its list, or a circle of numbers.
fn order_among(alloc: Global, lists: &[Vec<u32>]) -> Result<Sorted, OutOfMemory>
    requires few { length lists.now < 2 ^ 32 }
    requires within { AreWithin (length lists.now) (map (λ x. x.items) lists.now) }
    ensures { (whole : List (List ℕ)) → map (λ x. x.items) lists.now ≡ all_below whole
        → IfOk result (AreSorted whole) }
{
    let graph = graph_of(alloc, lists)?;
    graph.order(alloc)
}

/// The numbers of the symbols, each after those that its declaration mentions; or a circle: symbols each of whose
/// declarations mentions the next, and the last the first, beginning with the symbol that is declared first. The
/// declarations have these symbols.
///
/// # Errors
///
/// `OutOfMemory`, also where there are more than 4,294,967,295 symbols.
pub fn symbol_order(
    alloc: Global,
    entries: &[Entry],
    declarations: &[Declared],
) -> Result<Sorted, OutOfMemory>
    ensures { IfOk result (AreSorted
        (links (map (λ e. e.kind) entries.now) (map declared_tree declarations.now))) }
{
    let mentions = symbol_links(alloc, entries, declarations)?;
    if mentions.len() > u32::MAX as usize {
        return Err(AllocError);
    }
    let lists = all_below(alloc, mentions.as_slice())?;
    order_among(alloc, lists.as_slice())
}
