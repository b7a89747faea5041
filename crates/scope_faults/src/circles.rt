// What parameters and variables of a scope that wait for one another read besides.
ghost use Rattle.std.specs.Prelude.{◌≡◌, ◌<◌, length, IfOk};
ghost use Rattle.reading.specs.World.{Each};
ghost use Rattle.deploy_cells.specs.Cells.{Cell};
ghost use Rattle.plan_table.specs.declared.table.Table as tables;
ghost use Rattle.plan_sight.specs.Ready.{IsReady};
ghost use Rattle.scope_outputs.specs.Symbols.{IsComplete};
ghost use Rattle.point_rows.specs.declared.later.Later as laters;
ghost use Rattle.point_rows.specs.declared.later.Entry.TheVariants.{Away, Missing};
ghost use Rattle.point_rows.specs.Rows.{entry_at, IsFit};
ghost use Rattle.scope_outputs.specs.Entries.{AreTold, AreOwnLines, IsAnswerNow};
ghost use Rattle.scope_faults.specs.Circles.{is_open, open_of, set_all, IsLineLack, AreLineLacks, AreOpenLines};
ghost use Rattle.scope_faults.specs.Circles.{IsCircleLack};

use arm_env::stop::let_go;
use arm_value::OutOfMemory;
use plan_filling::sheet::Answer;
use plan_sight::lack::Lack;
use plan_table::table::Table;
use point_rows::later::{Entry, Later};
use scope_outputs::answer::entry_told;
use scope_outputs::lines::lines_of;
use scope_outputs::register::Register;
use std::alloc::Global;

// Whether the line has no entry.
fn is_open(later: &Later, at: usize) -> bool
    requires { at < length later.now.entries.items }
    ensures { result ≡ is_open (entry_at later.now.entries.items at) }
{
    match &later.entries[at] {
        Entry::Missing => true,
        Entry::Value(_) => false,
        Entry::Away => false,
    }
}

// Those of the lines that have no entry.
fn open_of(alloc: Global, later: &Later, lines: &[usize]) -> Result<Vec<usize>, OutOfMemory>
    requires { Each (λ j. j < length later.now.entries.items) lines.now }
    ensures { IfOk result (λ v. v.items ≡ open_of later.now.entries.items lines.now) }
{
    let mut vacant = Vec::new(alloc);
    'each: for at in lines {
        if is_open(later, *at) {
            vacant.push(*at)?;
        }
    }
    Ok(vacant)
}

// The lines of the parameters and variables of a scope that have no entry.
fn open_lines(
    alloc: Global,
    table: &Table,
    later: &Later,
    frame: usize,
) -> Result<Vec<usize>, OutOfMemory>
    requires ready { IsReady table.now }
    requires fit { IsFit table.now later.now }
    requires there { frame < length table.now.frames.items }
    ensures { IfOk result (λ v. AreOpenLines table.now later.now frame v.items) }
{
    let lines = lines_of(alloc, table, frame)?;
    open_of(alloc, later, lines.as_slice())
}

// Each of the lines is said to have no value.
fn set_away(later: &mut Later, lines: &[usize])
    requires { Each (λ j. j < length later.old.entries.items) lines.now }
    ensures entries { later.new.entries.items ≡ set_all Away lines.now later.old.entries.items }
    ensures states { later.new.states.items ≡ later.old.states.items }
    ensures places { later.new.places ≡ later.old.places }
{
    'each: for at in lines {
        later.entries[*at] = Entry::Away;
    }
}

// Nothing is said of the lines.
fn set_missing(later: &mut Later, lines: &[usize])
    requires { Each (λ j. j < length later.old.entries.items) lines.now }
    ensures entries { later.new.entries.items ≡ set_all Missing lines.now later.old.entries.items }
    ensures states { later.new.states.items ≡ later.old.states.items }
    ensures places { later.new.places ≡ later.old.places }
{
    'each: for at in lines {
        later.entries[*at] = Entry::Missing;
    }
}

// What the cell of a line waits for.
fn line_lack(answer: Answer) -> Option<Lack>
    ensures { (t : tables.Table) (l : laters.Later) (c : Cell) → IsAnswerNow t l c answer → IsLineLack t l c result }
{
    match answer {
        Answer::Value(value) => {
            let_go(value);
            None
        }
        Answer::Empty => None,
        Answer::State(key) => Some(Lack::State(key)),
        Answer::Waits(line) => Some(Lack::Line(line)),
    }
}

// What the first of the lines waits for that waits.
fn lines_lack(
    alloc: Global,
    register: &Register,
    later: &Later,
    frame: usize,
    lines: &[usize],
) -> Result<Option<Lack>, OutOfMemory>
    requires complete { IsComplete register.now }
    requires fit { IsFit register.now.table later.now }
    requires own { AreOwnLines register.now.table frame lines.now }
    ensures { IfOk result (AreLineLacks register.now.table later.now lines.now) }
{
    'each: for at in lines {
        match line_lack(entry_told(alloc, register, later, *at)?) {
            Some(lack) => return Ok(Some(lack)),
            None => {}
        }
    }
    Ok(None)
}

/// What the parameters and variables of a scope wait for where each of them that has no entry counts as one that has no
/// value, or that none waits. The entries are unchanged.
pub fn circle_lack(
    alloc: Global,
    register: &Register,
    later: &mut Later,
    frame: usize,
) -> Result<Option<Lack>, OutOfMemory>
    requires complete { IsComplete register.now }
    requires fit { IsFit register.now.table later.old }
    requires told { AreTold register.now.table later.old }
    requires there { frame < length register.now.table.frames.items }
    ensures entries { later.new.entries.items ≡ later.old.entries.items }
    ensures states { later.new.states.items ≡ later.old.states.items }
    ensures places { later.new.places ≡ later.old.places }
    ensures lack { IfOk result (IsCircleLack register.now.table later.old frame) }
{
    let vacant = open_lines(alloc, &register.table, later, frame)?;
    set_away(later, vacant.as_slice());
    let lack = lines_lack(alloc, register, later, frame, vacant.as_slice());
    set_missing(later, vacant.as_slice());
    lack
}
