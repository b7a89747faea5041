// For each symbol of a file the resources and modules that it mentions.
ghost use Rattle.std.specs.Prelude.{◌≡◌, ◌<◌, [], length, map, replicate, slice_set, IfOk, OnOk};
ghost use Rattle.depend_graph.specs.Sets.{keys_of_each};
ghost use Rattle.bicep_declared.specs.View.{declared_tree};
ghost use Rattle.bicep_mentions.specs.Links.{links};
ghost use Rattle.bicep_mentions.specs.Orders.{IsLinkOrder};
ghost use Rattle.bicep_dependencies.specs.Dependencies.{AreDependencies};
ghost use Rattle.bicep_dependencies.specs.Steps.{IsNext};

use crate::collecting::set_of;
use arm_value::OutOfMemory;
use bicep_declared::Declared;
use bicep_mentions::symbol_links;
use bicep_symbols::Entry;
use std::alloc::Global;
use std::collections::BTreeSet;

// A number of empty sets.
fn empty_sets(alloc: Global, count: usize) -> Result<Vec<BTreeSet<usize>>, OutOfMemory>
    ensures { IfOk result (λ v. keys_of_each v.items ≡ replicate count []) }
{
    let mut sets = Vec::new(alloc);
    for _ in 0..count {
        sets.push(BTreeSet::new(alloc))?;
    }
    Ok(sets)
}

// Puts a set in its place.
fn put(sets: &mut Vec<BTreeSet<usize>>, place: usize, set: BTreeSet<usize>)
    requires { place < length sets.old.items }
    ensures { keys_of_each sets.new.items ≡ slice_set (keys_of_each sets.old.items) place set.keys }
{
    sets[place] = set;
}

// Puts in its place what the mentions of a symbol lead to.
fn fill(
    alloc: Global,
    sets: &mut Vec<BTreeSet<usize>>,
    declarations: &[Declared],
    mentions: &[usize],
    place: usize,
) -> Result<(), OutOfMemory>
    requires { place < length sets.old.items }
    ensures { OnOk result (IsNext (map declared_tree declarations.now) mentions.now place
        (keys_of_each sets.old.items) (keys_of_each sets.new.items)) }
{
    let set = set_of(alloc, sets.as_slice(), declarations, mentions)?;
    put(sets, place, set);
    Ok(())
}

/// For each symbol of a file, in the order of the declarations, the numbers of the resources and modules that its
/// declaration mentions, directly or through variables. Each symbol comes in `order` after those that its declaration
/// mentions. Existing resources are among these numbers, and what is around a nested resource.
///
/// It takes time in the order of the mentions and of the sizes of the sets to which these lead, and a logarithm.
///
/// # Errors
///
/// `OutOfMemory`.
pub fn dependencies(
    alloc: Global,
    entries: &[Entry],
    declarations: &[Declared],
    order: &[u32],
) -> Result<Vec<BTreeSet<usize>>, OutOfMemory>
    requires { IsLinkOrder (links (map (λ e. e.kind) entries.now) (map declared_tree declarations.now)) order.now }
    ensures size { IfOk result (λ sets. length sets.items ≡ length declarations.now) }
    ensures each { IfOk result (λ sets. AreDependencies (map (λ e. e.kind) entries.now)
        (map declared_tree declarations.now) (keys_of_each sets.items)) }
{
    let mentions = symbol_links(alloc, entries, declarations)?;
    let mut sets = empty_sets(alloc, declarations.len())?;
    for node in order {
        let place = *node as usize;
        fill(
            alloc,
            &mut sets,
            declarations,
            mentions[place].as_slice(),
            place,
        )?;
    }
    Ok(sets)
}
