// Names of loops, and what a name stands for.
ghost use Rattle.std.specs.Prelude.{◌≡◌, map, ◌∷◌, IfOk, IfErr};
ghost use Rattle.bicep_names.specs.Scope.{in_loop, loop_from, meaning_of};

use crate::kind::{Named, symbol};
use crate::symbols::Symbols;
use arm_value::Text;
use bicep_found::Stop;
use bicep_resolved::Meaning;
use bicep_tree::LoopNames;
use std::alloc::Global;

// The item or the index of a loop that is so many loops outwards.
fn in_loop(outwards: usize, name: &Text, names: &LoopNames) -> Option<Meaning>
    ensures { result ≡ in_loop outwards name.now names.now }
{
    match names {
        LoopNames::Item(item) => if name.is_same(&item.text) {
            Some(Meaning::Item(outwards))
        } else {
            None
        },
        LoopNames::Both(item, index) => if name.is_same(&item.text) {
            Some(Meaning::Item(outwards))
        } else if name.is_same(&index.text) {
            Some(Meaning::Index(outwards))
        } else {
            None
        },
    }
}

fn in_loops(name: &Text, loops: &[&LoopNames]) -> Option<Meaning>
    ensures { result ≡ loop_from 0 name.now (map (λ l. l.now) loops.now) }
{
    for (outwards, names) in loops.iter().enumerate() {
        if let Some(meaning) = in_loop(outwards, name, names) {
            return Some(meaning);
        }
    }
    None
}

/// What a name stands for inside loops, of which the nearest is the first.
#[tactic(auto, unfolding(crate::specs::Scope::meaning_of))]
pub fn meaning_of(symbols: &Symbols, loops: &[&LoopNames], name: &Text) -> Option<Named>
    ensures { result ≡ meaning_of symbols.now (map (λ l. l.now) loops.now) name.now }
{
    match in_loops(name, loops) {
        Some(meaning) => Some(Named::Value(meaning)),
        None => match symbols.find(name) {
            Some((number, kind)) => Some(symbol(kind, number)),
            None => None,
        },
    }
}

// The loops, with one inside them all.
pub(crate) fn within<'a>(
    alloc: Global,
    names: &'a LoopNames,
    loops: &[&'a LoopNames],
) -> Result<Vec<&'a LoopNames>, Stop>
    ensures ok { IfOk result (λ v. map (λ l. l.now) v.items ≡ names.now ∷ map (λ l. l.now) loops.now) }
    ensures err { IfErr result (λ stop. stop ≡ Stop.OutOfMemory) }
{
    let mut inner = Vec::new(alloc);
    if inner.push(names).is_err() {
        return Err(Stop::OutOfMemory);
    }
    for outer in loops {
        if inner.push(*outer).is_err() {
            return Err(Stop::OutOfMemory);
        }
    }
    Ok(inner)
}
