// The sheet of a deployment at its start.
ghost use Rattle.std.specs.Prelude.{◌≡◌, ◌<◌, length, Some, IfOk};
ghost use Rattle.arm_value.specs.View.{json};
ghost use Rattle.reading.specs.Knowledge.{value};
ghost use Rattle.plan_cells.specs.Meaning.{rule};
ghost use Rattle.plan_filling.specs.Rows.{row_at};
ghost use Rattle.plan_filling.specs.Sound.{Tells};
ghost use Rattle.plan_table.specs.declared.table.Table.{Table};
ghost use Rattle.plan_table.specs.declared.line.Spot.{Spot};
ghost use Rattle.plan_table.specs.Lines.{cell_of, line_at};
ghost use Rattle.plan_table.specs.Whole.{whole_of, scopes_of, rows_in, IsLaid};
ghost use Rattle.plan_sight.specs.Ready.{IsReady};
ghost use Rattle.plan_sight.specs.Seen.{Lacks};
ghost use Rattle.plan_telling.specs.Symbols.{IsComplete};
ghost use Rattle.plan_values.specs.Values.{told_raw};
ghost use Rattle.plan_start.specs.Sheets.{IsSheet, AreOfScopes, IsAnswer};

use arm_env::stop::let_go;
use arm_ids::Key;
use arm_value::{OutOfMemory, Value};
use plan_filling::sheet::{Answer, Halt, Sheet, Stage};
use plan_sight::lack::Lack;
use plan_sight::rules::meets_rule;
use plan_table::table::Table;
use plan_telling::register::{Register, kept_of};
use plan_values::values::raw_value;
use std::alloc::{AllocError, Global};
use template_parts::run_out;

/// The cells of a deployment, which are filled with what is known at its start.
#[derive(Drop)]
pub struct Start<'a> {
    /// The table, with the symbolic names of its scopes.
    pub register: Register<'a>,
}

// What a cell is by its value, where the rule of the cell is met or not.
fn answer_by(met: bool, raw: Value) -> Answer
    ensures { (t : Table) (s : Spot) → met ≡ rule (whole_of t) (cell_of (scopes_of t) s) (json raw)
        → told_raw t s ≡ value (Some (json raw)) → IsAnswer t s result }
{
    if met {
        Answer::Value(raw)
    } else {
        let_go(raw);
        Answer::Empty
    }
}

// What a cell is by its value, which has to meet its rule.
fn ruled(alloc: Global, table: &Table, at: usize, raw: Value) -> Result<Answer, OutOfMemory>
    requires ready { IsReady table.now }
    requires listed { at < length table.now.lines.items }
    requires told { told_raw table.now (line_at table.now.lines.items at).spot ≡ value (Some (json raw)) }
    ensures { IfOk result (IsAnswer table.now (line_at table.now.lines.items at).spot) }
{
    match meets_rule(alloc, table, at, &raw) {
        Ok(met) => Ok(answer_by(met, raw)),
        Err(_) => run_out(raw),
    }
}

// What a cell is where its reading returns nothing.
fn lacking(lack: Lack) -> Result<Answer, OutOfMemory>
    ensures { (t : Table) (s : Spot) → Lacks t lack (told_raw t s) → IfOk result (IsAnswer t s) }
{
    match lack {
        Lack::NotThere => Ok(Answer::Empty),
        Lack::NoValue => Ok(Answer::Empty),
        Lack::Line(at) => Ok(Answer::Waits(at)),
        Lack::State(key) => Ok(Answer::State(key)),
        Lack::OutOfMemory => Err(AllocError),
    }
}

// What the cell of a line is.
fn answer_at(alloc: Global, register: &Register, at: usize) -> Result<Answer, OutOfMemory>
    requires complete { IsComplete register.now }
    requires listed { at < length register.now.table.lines.items }
    ensures { IfOk result (Tells (whole_of register.now.table) (rows_in register.now.table)
        (row_at (rows_in register.now.table) at).cell) }
{
    match raw_value(alloc, register, at) {
        Ok(value) => ruled(alloc, &register.table, at, value),
        Err(lack) => lacking(lack),
    }
}

/// Keeps the symbolic names of the first scope of which none are kept, if there is one.
pub(crate) fn keep_next(alloc: Global, register: &mut Register) -> Result<(), OutOfMemory>
    requires laid { IsLaid register.old.table }
    requires kept { AreOfScopes register.old }
    ensures table { register.new.table ≡ register.old.table }
    ensures kept { AreOfScopes register.new }
{
    let number = register.kept.len();
    if number < register.table.frames.len() {
        let kept = kept_of(alloc, &register.table.frames[number])?;
        register.kept.push(kept)?;
    }
    Ok(())
}

impl<'a> Sheet for Start<'a> {
    ghost rows = { λ s. rows_in s.register.table };

    ghost whole = { λ s. whole_of s.register.table };

    ghost laid = { λ s. IsSheet s.register };

    fn len(&self) -> usize {
        self.register.table.len()
    }

    fn stage(&self, at: usize) -> Stage {
        self.register.table.stage(at)
    }

    fn tell(&self, alloc: Global, at: usize) -> Result<Answer, OutOfMemory> {
        answer_at(alloc, &self.register, at)
    }

    fn begin(&mut self, at: usize) {
        self.register.table.begin(at)
    }

    fn leave_empty(&mut self, at: usize) {
        self.register.table.leave_empty(at)
    }

    fn wait_for(&mut self, at: usize, key: Key) {
        self.register.table.wait_for(at, key)
    }

    fn wait_as(&mut self, alloc: Global, at: usize, other: usize) -> Result<(), OutOfMemory> {
        self.register.table.wait_as(alloc, at, other)
    }

    fn fill(&mut self, alloc: Global, at: usize, value: Value) -> Result<(), Halt> {
        match self.register.table.fill(alloc, at, value) {
            Ok(()) => match keep_next(alloc, &mut self.register) {
                Ok(()) => Ok(()),
                Err(_) => Err(Halt::OutOfMemory),
            },
            Err(halt) => Err(halt),
        }
    }
}
