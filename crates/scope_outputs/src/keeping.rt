// The outputs of a scope that was left are kept.
ghost use Rattle.std.specs.Prelude.{◌≡◌, ◌<◌, length, ℕ, true};
ghost use Rattle.reading.specs.World.{Each};
ghost use Rattle.plan_table.specs.declared.table.Table.{Table};
ghost use Rattle.plan_sight.specs.Ready.{IsReady};
ghost use Rattle.point_rows.specs.Rows.{entry_at, IsFit};
ghost use Rattle.scope_outputs.specs.Outputs.{names_of, is_missing, Keeps, Leaves, AreNoted, IsKept};

use crate::telling::Noted;
use arm_env::stop::let_go;
use point_rows::later::{Entry, Later};

// Whether nothing is kept of the line.
fn is_missing(later: &Later, at: usize) -> bool
    requires { at < length later.now.entries.items }
    ensures { result ≡ is_missing (entry_at later.now.entries.items at) }
{
    match &later.entries[at] {
        Entry::Missing => true,
        Entry::Value(_) => false,
        Entry::Away => false,
    }
}

// Puts the entry of a line in the place of another.
fn set_entry(later: &mut Later, at: usize, entry: Entry)
    requires within { at < length later.old.entries.items }
    requires missing { true ≡ is_missing (entry_at later.old.entries.items at) }
    ensures { Keeps at entry later.old later.new }
{
    later.entries[at] = entry;
}

// Keeps what became known by a line, if nothing is kept of it.
fn keep_entry(later: &mut Later, at: usize, entry: Entry)
    requires { at < length later.old.entries.items }
    ensures { Keeps at entry later.old later.new }
{
    if is_missing(later, at) {
        set_entry(later, at, entry);
    } else {
        let_go(entry);
    }
}

/// Keeps the outputs of a scope, which was left. It takes no memory.
pub fn keep(later: &mut Later, told: Vec<Noted>)
    requires { Each (λ n. n.at < length later.old.entries.items) told.items }
    ensures leaves { (t : Table) (f : ℕ) → IsReady t → IsFit t later.old
        → AreNoted t later.old f (names_of t f) told.items → Leaves t f later.old later.new }
    ensures kept { (t : Table) (f : ℕ) → IsReady t → IsFit t later.old
        → AreNoted t later.old f (names_of t f) told.items
        → Each (IsKept t later.new f) (names_of t f) }
{
    for noted in told {
        keep_entry(later, noted.at, noted.entry);
    }
}
