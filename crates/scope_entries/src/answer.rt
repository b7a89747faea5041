// What is told of a parameter or a variable at a point, by the line that it has.
ghost use Rattle.std.specs.Prelude.{◌≡◌, ◌<◌, length, Some, IfOk};
ghost use Rattle.arm_value.specs.View.{json};
ghost use Rattle.reading.specs.Knowledge.{value};
ghost use Rattle.plan_cells.specs.Meaning.{rule};
ghost use Rattle.plan_table.specs.declared.table.Table.{Table};
ghost use Rattle.plan_table.specs.declared.line.Spot.{Spot};
ghost use Rattle.plan_table.specs.Lines.{cell_of, line_at};
ghost use Rattle.plan_table.specs.Whole.{whole_of, scopes_of};
ghost use Rattle.plan_sight.specs.Ready.{IsReady};
ghost use Rattle.plan_sight.specs.Seen.{Lacks, Shows};
ghost use Rattle.point_cells.specs.Symbols.{IsComplete};
ghost use Rattle.point_rows.specs.declared.later.Later.{Later};
ghost use Rattle.point_rows.specs.Rows.{IsFit, IsEntrySpot};
ghost use Rattle.point_cells.specs.RawNow.{raw_now};
ghost use Rattle.scope_entries.specs.Entries.{IsAnswerNow};

use arm_env::stop::let_go;
use arm_value::{OutOfMemory, Value};
use plan_filling::sheet::Answer;
use plan_sight::lack::Lack;
use plan_sight::rules::meets_rule;
use plan_table::line::Spot;
use plan_table::table::Table;
use point_cells::parameters::parameter_told;
use point_cells::register::Register;
use point_cells::values::variable_told;
use point_rows::later::Later;
use std::alloc::{AllocError, Global};
use template_parts::run_out;

/// What is told of the value of the parameter or variable of a line, before its rule is asked.
pub fn raw_told(alloc: Global, register: &Register, later: &Later, at: usize) -> Result<Value, Lack>
    requires complete { IsComplete register.now }
    requires fit { IsFit register.now.table later.now }
    requires listed { at < length register.now.table.lines.items }
    requires entry { IsEntrySpot (line_at register.now.table.lines.items at).spot }
    ensures { Shows json register.now.table result
        (raw_now register.now.table later.now (line_at register.now.table.lines.items at).spot) }
{
    match register.table.lines[at].spot {
        Spot::Parameter(frame, number) => parameter_told(alloc, register, later, frame, number),
        Spot::Variable(frame, number) => variable_told(alloc, register, later, frame, number),
        Spot::Offered(_, _) => unreachable!(),
        Spot::Output(_, _) => unreachable!(),
        Spot::Count(_, _) => unreachable!(),
        Spot::Included(_, _, _) => unreachable!(),
        Spot::Name(_, _, _) => unreachable!(),
        Spot::Deployments(_) => unreachable!(),
    }
}

// What a cell is by its value, where the rule of the cell is met or not.
fn answer_by(met: bool, raw: Value) -> Answer
    ensures { (t : Table) (l : Later) (s : Spot) → met ≡ rule (whole_of t) (cell_of (scopes_of t) s) (json raw)
        → raw_now t l s ≡ value (Some (json raw)) → IsAnswerNow t l (cell_of (scopes_of t) s) result }
{
    if met {
        Answer::Value(raw)
    } else {
        let_go(raw);
        Answer::Empty
    }
}

// What the cell of a line is by its value, which has to meet its rule.
fn ruled(alloc: Global, table: &Table, at: usize, raw: Value) -> Result<Answer, OutOfMemory>
    requires ready { IsReady table.now }
    requires listed { at < length table.now.lines.items }
    ensures { (l : Later) → raw_now table.now l (line_at table.now.lines.items at).spot ≡ value (Some (json raw))
        → IfOk result (IsAnswerNow table.now l
        (cell_of (scopes_of table.now) (line_at table.now.lines.items at).spot)) }
{
    match meets_rule(alloc, table, at, &raw) {
        Ok(met) => Ok(answer_by(met, raw)),
        Err(_) => run_out(raw),
    }
}

// What a cell is where its reading returns nothing.
fn lacking(lack: Lack) -> Result<Answer, OutOfMemory>
    ensures { (t : Table) (l : Later) (s : Spot) → Lacks t lack (raw_now t l s)
        → IfOk result (IsAnswerNow t l (cell_of (scopes_of t) s)) }
{
    match lack {
        Lack::NotThere => Ok(Answer::Empty),
        Lack::NoValue => Ok(Answer::Empty),
        Lack::Line(at) => Ok(Answer::Waits(at)),
        Lack::State(key) => Ok(Answer::State(key)),
        Lack::OutOfMemory => Err(AllocError),
    }
}

/// What is told at a point of the parameter or variable of a line, which has to meet its rule.
pub fn entry_told(
    alloc: Global,
    register: &Register,
    later: &Later,
    at: usize,
) -> Result<Answer, OutOfMemory>
    requires complete { IsComplete register.now }
    requires fit { IsFit register.now.table later.now }
    requires listed { at < length register.now.table.lines.items }
    requires entry { IsEntrySpot (line_at register.now.table.lines.items at).spot }
    ensures { IfOk result (IsAnswerNow register.now.table later.now
        (cell_of (scopes_of register.now.table) (line_at register.now.table.lines.items at).spot)) }
{
    match raw_told(alloc, register, later, at) {
        Ok(value) => ruled(alloc, &register.table, at, value),
        Err(lack) => lacking(lack),
    }
}
