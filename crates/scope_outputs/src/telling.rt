// What is told of one output at a point.
ghost use Rattle.std.specs.Prelude.{◌≡◌, false, Option, Some, IfOk, IfErr, MatchOption};
ghost use Rattle.arm_value.specs.Json.{Json, bool};
ghost use Rattle.template_parameters.specs.Rule.{is_bool};
ghost use Rattle.arm_value.specs.View.{json};
ghost use Rattle.deploy_cells.specs.Cells.{offered, output};
ghost use Rattle.deploy_cells.specs.Guarded.{Reads};
ghost use Rattle.plan_cells.specs.Meaning.{raw};
ghost use Rattle.plan_table.specs.declared.table.Table.{Table};
ghost use Rattle.plan_table.specs.declared.line.Spot.{Spot};
ghost use Rattle.plan_table.specs.declared.line.Spot.TheVariants as spot;
ghost use Rattle.plan_table.specs.Lines.{name_at, cell_of};
ghost use Rattle.plan_table.specs.Whole.{whole_of, scopes_of};
ghost use Rattle.plan_sight.specs.Seen.{Lacks, Stops, Yields};
ghost use Rattle.scope_entries.specs.Symbols.{IsComplete};
ghost use Rattle.scope_entries.specs.Values.{IsSpot};
ghost use Rattle.point_rows.specs.declared.later.Later.{Later};
ghost use Rattle.point_rows.specs.Rows.{told_now, IsFit};
ghost use Rattle.scope_entries.specs.RawNow.{raw_now};
ghost use Rattle.scope_entries.specs.Entries.{plain_now};
ghost use Rattle.scope_outputs.specs.Outputs.{names_of, position_of, reading_of, IsOffered};

use arm_env::stop::let_go;
use arm_value::Value;
use plan_sight::lack::Lack;
use plan_sight::rules::is_of;
use point_rows::later::{Entry, Later};
use scope_entries::declared::output_at;
use scope_entries::register::Register;
use scope_entries::values::{offered_told, output_told};
use std::alloc::Global;

/// An output as it was told: the line of its condition, and its value or that its condition is false.
#[derive(Drop)]
pub struct Noted {
    /// The line of its condition.
    pub at: usize,
    /// What becomes known by that line.
    pub entry: Entry,
}

// Why a cell has no value, by what its reading lacks before its rule is asked.
fn lack_of_cell(lack: Lack) -> Lack
    ensures { (t : Table) (l : Later) (s : Spot) (r : Reads Json) → raw (whole_of t) (cell_of (scopes_of t) s) ≡ Some r
        → Lacks t lack (raw_now t l s) → Stops {A = Option Json} t result (plain_now t l (cell_of (scopes_of t) s)) }
{
    match lack {
        Lack::NotThere => Lack::NoValue,
        Lack::NoValue => Lack::NoValue,
        Lack::Line(at) => Lack::Line(at),
        Lack::State(key) => Lack::State(key),
        Lack::OutOfMemory => Lack::OutOfMemory,
    }
}

// Whether the value is true, if it is true or false.
fn truth_of(condition: &Value) -> Option<bool>
    ensures { MatchOption result (is_bool (json condition.now) ≡ false) (λ b. json condition.now ≡ bool b) }
{
    match condition {
        Value::Bool(truth) => Some(*truth),
        _ => None,
    }
}

/// Whether the condition of an output is true.
pub fn condition_told(
    alloc: Global,
    register: &Register,
    later: &Later,
    frame: usize,
    number: usize,
) -> Result<bool, Lack>
    requires complete { IsComplete register.now }
    requires fit { IsFit register.now.table later.now }
    requires spot { IsSpot register.now.table (spot.Offered frame number) }
    ensures { Yields (λ b. Some (bool b)) register.now.table result (plain_now register.now.table later.now
        (offered (position_of register.now.table frame) (name_at (names_of register.now.table frame) number))) }
{
    match offered_told(alloc, register, later, frame, number) {
        Ok(condition) => {
            let truth = truth_of(&condition);
            let_go(condition);
            match truth {
                Some(truth) => Ok(truth),
                None => Err(Lack::NoValue),
            }
        }
        Err(lack) => Err(lack_of_cell(lack)),
    }
}

// The value of an output, whatever its condition is.
fn value_told(
    alloc: Global,
    register: &Register,
    later: &Later,
    frame: usize,
    number: usize,
) -> Result<Value, Lack>
    requires complete { IsComplete register.now }
    requires fit { IsFit register.now.table later.now }
    requires spot { IsSpot register.now.table (spot.Output frame number) }
    ensures { Yields (λ v. Some (json v)) register.now.table result (plain_now register.now.table later.now
        (output (position_of register.now.table frame) (name_at (names_of register.now.table frame) number))) }
{
    let declared = output_at(register, frame, number);
    match output_told(alloc, register, later, frame, number) {
        Ok(value) => {
            if is_of(declared.kind, &value) {
                Ok(value)
            } else {
                let_go(value);
                Err(Lack::NoValue)
            }
        }
        Err(lack) => Err(lack_of_cell(lack)),
    }
}

/// What is told of an output: its value, or that its condition is false.
pub fn entry_told(
    alloc: Global,
    register: &Register,
    later: &Later,
    frame: usize,
    number: usize,
) -> Result<Entry, Lack>
    requires complete { IsComplete register.now }
    requires fit { IsFit register.now.table later.now }
    requires spot { IsSpot register.now.table (spot.Output frame number) }
    ensures told { IfOk result (IsOffered register.now.table later.now frame
        (name_at (names_of register.now.table frame) number)) }
    ensures lack { IfErr result (λ e. Stops {A = Option Json} register.now.table e (told_now register.now.table
        later.now (reading_of register.now.table frame (name_at (names_of register.now.table frame) number)))) }
{
    match condition_told(alloc, register, later, frame, number) {
        Ok(truth) => {
            if truth {
                match value_told(alloc, register, later, frame, number) {
                    Ok(value) => Ok(Entry::Value(value)),
                    Err(lack) => Err(lack),
                }
            } else {
                Ok(Entry::Away)
            }
        }
        Err(lack) => Err(lack),
    }
}
