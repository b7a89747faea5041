// What becomes known.
ghost use Rattle.std.specs.Prelude.{◌≡◌, ◌++◌, ◌∷◌, [], ℕ, IfOk, IfErr, length};
ghost use Rattle.key_tags.specs.KeyCodes.{key_code};
ghost use Rattle.point_rows.specs.declared.later.Entry.TheVariants.{Missing};
ghost use Rattle.point_rows.specs.Rows.{entry_at, AreIndexed, IsFit, HasState, HasSame};

use crate::later::{Entry, Later, StateAt};
use arm_ids::Key;
use arm_value::{OutOfMemory, Value};
use key_tags::key_tag;
use plan_table::table::Table;
use std::alloc::Global;
use tag_places::{add_place, no_places};
use template_parts::run_out;

// As many entries, each of which has nothing.
fn no_entries(alloc: Global, count: usize) -> Result<Vec<Entry>, OutOfMemory>
    ensures count { IfOk result (λ v. length v.items ≡ count) }
    ensures none { IfOk result (λ v. (j : ℕ) → entry_at v.items j ≡ Missing) }
{
    let mut entries = Vec::new(alloc);
    'entries: for _ in 0..count {
        entries.push(Entry::Missing)?;
    }
    Ok(entries)
}

/// Nothing became known after the start.
pub fn nothing(alloc: Global, table: &Table) -> Result<Later, OutOfMemory>
    ensures fit { IfOk result (λ l. IsFit table.now l) }
    ensures entries { IfOk result (λ l. (j : ℕ) → entry_at l.entries.items j ≡ Missing) }
    ensures states { IfOk result (λ l. l.states.items ≡ []) }
{
    let entries = no_entries(alloc, table.lines.len())?;
    Ok(Later {
        entries,
        states: Vec::new(alloc),
        places: no_places(alloc),
    })
}

// The state is known, of which the key has this tag.
fn add_state(later: &mut Later, tag: Vec<usize>, known: StateAt) -> Result<(), OutOfMemory>
    requires indexed { AreIndexed later.old }
    requires tag { tag.items ≡ key_code known.key }
    ensures indexed { AreIndexed later.new }
    ensures added { IfOk result (λ _. HasState later.old known later.new) }
    ensures unchanged { IfErr result (λ _. HasSame later.old later.new) }
{
    match later.states.reserve(1) {
        Ok(()) => {}
        Err(_) => return run_out((tag, known)),
    }
    match add_place(&mut later.places, tag, later.states.len()) {
        Ok(()) => {
            later.states.push_reserved(known);
            Ok(())
        }
        Err(_) => run_out(known),
    }
}

/// The state at a key is known. After `OutOfMemory` nothing more is known.
pub fn keep_state(alloc: Global, later: &mut Later, known: StateAt) -> Result<(), OutOfMemory>
    requires indexed { AreIndexed later.old }
    ensures indexed { AreIndexed later.new }
    ensures added { IfOk result (λ _. HasState later.old known later.new) }
    ensures unchanged { IfErr result (λ _. HasSame later.old later.new) }
{
    match key_tag(alloc, &known.key) {
        Ok(tag) => add_state(later, tag, known),
        Err(_) => run_out(known),
    }
}
