// The resources and modules to which mentions lead.
ghost use Rattle.std.specs.Prelude.{◌≡◌, ◌||◌, ◌==◌, ℕ, [], map, slice_index_or, OnOk, IfOk};
ghost use Rattle.depend_graph.specs.Sets.{keys_of_each};
ghost use Rattle.bicep_declared.specs.View.{declared_tree};
ghost use Rattle.bicep_dependencies.specs.Dependencies.{has};
ghost use Rattle.bicep_dependencies.specs.Steps as spec;

use arm_value::OutOfMemory;
use bicep_declared::Declared;
use std::alloc::{AllocError, Global};
use std::collections::BTreeSet;

// Adds a number.
fn add(out: &mut BTreeSet<usize>, number: usize) -> Result<(), OutOfMemory>
    ensures { OnOk result ((n : ℕ) → has out.new.keys n ≡ ((number == n) || has out.old.keys n)) }
{
    match out.insert(number) {
        Ok(_) => Ok(()),
        Err(_) => Err(AllocError),
    }
}

// Adds all of a set.
fn add_all(out: &mut BTreeSet<usize>, numbers: &BTreeSet<usize>) -> Result<(), OutOfMemory>
    ensures { OnOk result ((n : ℕ) → has out.new.keys n ≡ (has numbers.now.keys n || has out.old.keys n)) }
{
    for number in numbers {
        add(out, *number)?;
    }
    Ok(())
}

// Adds all of the set of a variable.
fn add_set(
    out: &mut BTreeSet<usize>,
    sets: &[BTreeSet<usize>],
    number: usize,
) -> Result<(), OutOfMemory>
    ensures { OnOk result ((n : ℕ) → has out.new.keys n
        ≡ (has (slice_index_or (keys_of_each sets.now) number []) n || has out.old.keys n)) }
{
    match sets.get(number) {
        Some(set) => add_all(out, set),
        None => Ok(()),
    }
}

// Adds the resources and modules to which a mention of a symbol leads.
fn add_mention(
    out: &mut BTreeSet<usize>,
    sets: &[BTreeSet<usize>],
    declarations: &[Declared],
    number: usize,
) -> Result<(), OutOfMemory>
    ensures { OnOk result ((n : ℕ) → has out.new.keys n
        ≡ (spec.leads (map declared_tree declarations.now) (keys_of_each sets.now) n number
        || has out.old.keys n)) }
{
    match declarations.get(number) {
        Some(Declared::Variable(_, _)) => add_set(out, sets, number),
        Some(Declared::Resource(_, _, _, _) | Declared::Module(_, _)) => add(out, number),
        Some(Declared::Parameter(_, _) | Declared::ParameterWith(_, _, _)) | None => Ok(()),
    }
}

/// The resources and modules to which mentions of these symbols lead.
pub(crate) fn set_of(
    alloc: Global,
    sets: &[BTreeSet<usize>],
    declarations: &[Declared],
    mentions: &[usize],
) -> Result<BTreeSet<usize>, OutOfMemory>
    ensures { IfOk result (λ s. (n : ℕ) → has s.keys n
        ≡ spec.any_leads (map declared_tree declarations.now) (keys_of_each sets.now) n mentions.now) }
{
    let mut out = BTreeSet::new(alloc);
    for number in mentions {
        add_mention(&mut out, sets, declarations, *number)?;
    }
    Ok(out)
}
