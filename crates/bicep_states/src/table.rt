// Which symbols of a file read state.
ghost use Rattle.std.specs.Prelude.{◌≡◌, ◌<◌, false, length, map, replicate, slice_set, IfOk};
ghost use Rattle.bicep_mentions.specs.Links.{links};
ghost use Rattle.bicep_mentions.specs.Orders.{IsLinkOrder};
ghost use Rattle.bicep_declared.specs.View.{declared_tree};
ghost use Rattle.bicep_mentions.specs.Entries.{state_reads};
ghost use Rattle.bicep_mentions.specs.Names as spec;
ghost use Rattle.bicep_mentions.specs.Agreement.{IsKnown};
ghost use Rattle.bicep_states.specs.View.{known};

use crate::names::{own_reads, whole_reads};
use arm_value::OutOfMemory;
use bicep_declared::Declared;
use bicep_names::Kind;
use bicep_symbols::Entry;
use std::alloc::Global;

/// Which symbols of a file read state, by their numbers.
#[derive(Drop)]
pub struct StateTable {
    /// Whether the value of a variable reads state, or the name of a resource or a module.
    pub own: Vec<bool>,
    /// Whether the name of a resource reads state, or that of one of its parents.
    pub whole: Vec<bool>,
}

impl StateTable {
    /// Whether the value of the variable of that number reads state, or the name of the resource or module.
    pub fn own_reads(&self, number: usize) -> bool
        ensures { result ≡ (known self.now).own number }
    {
        self.own.get(number).copied().unwrap_or(false)
    }

    /// Whether the name of the resource of that number reads state, or that of one of its parents.
    pub fn whole_reads(&self, number: usize) -> bool
        ensures { result ≡ (known self.now).whole number }
    {
        self.whole.get(number).copied().unwrap_or(false)
    }
}

// What is known of a symbol.
#[derive(Clone, Copy)]
struct Reads {
    own: bool,
    whole: bool,
}

fn reads_of(
    alloc: Global,
    table: &StateTable,
    kind: Kind,
    declaration: &Declared,
) -> Result<Reads, OutOfMemory>
    ensures own { IfOk result (λ r. r.own ≡ spec.own_reads (known table.now) (declared_tree declaration.now)) }
    ensures whole { IfOk result (λ r. r.whole ≡ spec.whole_reads (known table.now) kind
        (declared_tree declaration.now)) }
{
    let own = own_reads(alloc, table, declaration)?;
    let whole = whole_reads(alloc, table, kind, declaration)?;
    Ok(Reads { own, whole })
}

// Marks what is known of a symbol.
fn mark(table: &mut StateTable, place: usize, reads: Reads)
    requires own { place < length table.old.own.items }
    requires whole { place < length table.old.whole.items }
    ensures own { table.new.own.items ≡ slice_set table.old.own.items place reads.own }
    ensures whole { table.new.whole.items ≡ slice_set table.old.whole.items place reads.whole }
{
    table.own[place] = reads.own;
    table.whole[place] = reads.whole;
}

// A table in which no symbol reads state.
fn empty_table(alloc: Global, count: usize) -> Result<StateTable, OutOfMemory>
    ensures own { IfOk result (λ t. t.own.items ≡ replicate count false) }
    ensures whole { IfOk result (λ t. t.whole.items ≡ replicate count false) }
{
    Ok(StateTable {
        own: vec![in alloc; false; count]?,
        whole: vec![in alloc; false; count]?,
    })
}

/// Which symbols of a file read state, where each comes in the order after those that its declaration mentions.
///
/// It takes time in the order of the declarations.
///
/// # Errors
///
/// `OutOfMemory`.
pub fn state_table(
    alloc: Global,
    entries: &[Entry],
    declarations: &[Declared],
    order: &[u32],
) -> Result<StateTable, OutOfMemory>
    requires { IsLinkOrder (links (map (λ e. e.kind) entries.now) (map declared_tree declarations.now)) order.now }
    ensures { IfOk result (λ t. IsKnown (known t)
        (state_reads (map (λ e. e.kind) entries.now) (map declared_tree declarations.now))) }
{
    let mut table = empty_table(alloc, declarations.len())?;
    for node in order {
        let place = *node as usize;
        let reads = reads_of(alloc, &table, entries[place].kind, &declarations[place])?;
        mark(&mut table, place, reads);
    }
    Ok(table)
}
