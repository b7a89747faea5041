// Symbols of different names.
ghost use Rattle.std.specs.Prelude.{◌≡◌, ◌∷◌, ◌++◌, [], ℕ, List, false, map, chars, IfOk, IfErr, OnOk, Err, None};
ghost use Rattle.std.specs.Prelude.{encode_utf8_all};
ghost use Rattle.name_set.specs.Names.{is_named};
ghost use Rattle.bicep_names.specs.Scope.{symbol_from};
ghost use Rattle.bicep_symbols.specs.Entries as spec;
ghost use Rattle.bicep_symbols.specs.Repeated.{taken, symbol_name, repeated_symbol, IsAmong, IsTwice};

use crate::entry::Entry;
use crate::fault::NameFault;
use arm_value::{OutOfMemory, Text};
use bicep_names::Symbols;
use name_set::NameSet;
use std::alloc::Global;

/// Drops a value, since a name is at fault.
pub(crate) fn refuse<A: Drop, B>(_value: A, fault: NameFault) -> Result<B, NameFault>
    ensures { result ≡ Err fault }
{
    Err(fault)
}

fn with_word(alloc: Global, names: NameSet, word: &str) -> Result<NameSet, OutOfMemory>
    ensures { IfOk result (λ s. s ≡ names ++ chars word.now ∷ []) }
{
    let text = Text::of(alloc, word)?;
    names.with(alloc, &text)
}

// The names that no symbol has.
fn taken(alloc: Global) -> Result<NameSet, OutOfMemory>
    ensures { IfOk result (λ s. s ≡ taken) }
{
    let names = with_word(alloc, NameSet::new(alloc), "sys")?;
    with_word(alloc, names, "az")
}

// Adds a symbol whose name is none of these, and its name to these.
fn add(
    alloc: Global,
    symbols: &mut Symbols,
    names: NameSet,
    entry: &Entry,
) -> Result<NameSet, NameFault>
    requires { (q : List ℕ) → is_named names q ≡ false → symbol_from 0 (encode_utf8_all q) symbols.old ≡ None }
    ensures fresh { OnOk result (is_named names entry.now.name ≡ false) }
    ensures names { IfOk result (λ s. s ≡ names ++ entry.now.name ∷ []) }
    ensures symbols { OnOk result (symbols.new ≡ symbols.old ++ spec.entry_bytes (spec.symbol_of entry.now) ∷ []) }
    ensures fault { IfErr result (IsAmong names (symbol_name (spec.symbol_of entry.now))) }
{
    match names.has(alloc, &entry.name) {
        Ok(false) => {}
        Ok(true) => return refuse(names, NameFault::Twice(entry.at)),
        Err(_) => return refuse(names, NameFault::OutOfMemory),
    }
    match symbols.add(alloc, &entry.name, entry.kind) {
        Ok(()) => {}
        Err(_) => return refuse(names, NameFault::OutOfMemory),
    }
    match names.with(alloc, &entry.name) {
        Ok(names) => Ok(names),
        Err(_) => Err(NameFault::OutOfMemory),
    }
}

/// The symbols of these entries, or the offset of the first name that is taken or was given before.
pub(crate) fn register(alloc: Global, entries: &[Entry]) -> Result<Symbols, NameFault>
    ensures symbols { IfOk result (λ s. s ≡ spec.looked_up (map spec.symbol_of entries.now)) }
    ensures once { OnOk result (repeated_symbol (map spec.symbol_of entries.now) ≡ None) }
    ensures fault { IfErr result (IsTwice (repeated_symbol (map spec.symbol_of entries.now))) }
{
    let mut names = match taken(alloc) {
        Ok(names) => names,
        Err(_) => return Err(NameFault::OutOfMemory),
    };
    let mut symbols = Symbols::new(alloc);
    for entry in entries {
        match add(alloc, &mut symbols, names, entry) {
            Ok(more) => names = more,
            Err(fault) => return refuse(symbols, fault),
        }
    }
    Ok(symbols)
}
