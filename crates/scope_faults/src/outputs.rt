// The first output of a scope that has no value, and its fault.
ghost use Rattle.std.specs.Prelude.{◌≡◌, ◌<◌, length, IfOk, Option};
ghost use Rattle.arm_value.specs.Json.{Json};
ghost use Rattle.reading.specs.Knowledge.{Told, no_value};
ghost use Rattle.deploy_cells.specs.Cells.{Cell, output};
ghost use Rattle.plan_table.specs.declared.table.Table as tables;
ghost use Rattle.plan_sight.specs.Seen.{Stops};
ghost use Rattle.scope_outputs.specs.Symbols.{IsComplete};
ghost use Rattle.point_rows.specs.Rows.{IsFit};
ghost use Rattle.scope_outputs.specs.Outputs.{names_of, position_of};
ghost use Rattle.scope_faults.specs.Faults.{output_at, output_told, IsOutputLook, IsOutputLack, IsNothing};
ghost use Rattle.scope_faults.specs.Faults.{AreOutputLacks, HasCondition, IsBroken, IsOutputBroken, SaysOutput};
ghost use Rattle.scope_faults.specs.Faults.{IsLeaveFault};

use crate::paths::output_path;
use crate::values::{no_fault, said_of};
use arm_env::stop::let_go;
use arm_value::OutOfMemory;
use plan_sight::lack::Lack;
use point_rows::later::Later;
use scope_outputs::declared::output_at;
use scope_outputs::offering::output_count;
use scope_outputs::register::Register;
use scope_outputs::telling::{condition_told, entry_told};
use scope_outputs::values::output_told;
use std::alloc::{AllocError, Global};
use task_standings::TaskFault;
use template_parts::{BindFault, run_out};

/// What a look at an output found.
#[derive(Drop)]
pub enum OutputLook {
    /// It is told.
    Told,
    /// It has no value.
    Nothing,
    /// It waits for this.
    Lacks(Lack),
}

// What is found where an output lacks this.
fn look_by(lack: Lack) -> Result<OutputLook, OutOfMemory>
    ensures { (t : tables.Table) (u : Told Cell (Option Json)) → Stops t lack u → IfOk result (IsOutputLook t u) }
{
    match lack {
        Lack::NotThere => Ok(OutputLook::Nothing),
        Lack::NoValue => Ok(OutputLook::Nothing),
        Lack::Line(line) => Ok(OutputLook::Lacks(Lack::Line(line))),
        Lack::State(key) => Ok(OutputLook::Lacks(Lack::State(key))),
        Lack::OutOfMemory => Err(AllocError),
    }
}

// Looks at the output of a number.
fn look(
    alloc: Global,
    register: &Register,
    later: &Later,
    frame: usize,
    number: usize,
) -> Result<OutputLook, OutOfMemory>
    requires complete { IsComplete register.now }
    requires fit { IsFit register.now.table later.now }
    requires there { frame < length register.now.table.frames.items }
    requires number { number < length (names_of register.now.table frame) }
    ensures { IfOk result
        (IsOutputLook register.now.table (output_told register.now.table later.now frame number)) }
{
    match entry_told(alloc, register, later, frame, number) {
        Ok(entry) => {
            let_go(entry);
            Ok(OutputLook::Told)
        }
        Err(lack) => look_by(lack),
    }
}

// What an output waits for.
fn lack_of(look: OutputLook) -> Option<Lack>
    ensures { (t : tables.Table) (u : Told Cell (Option Json)) → IsOutputLook t u look → IsOutputLack t u result }
{
    match look {
        OutputLook::Told => None,
        OutputLook::Nothing => None,
        OutputLook::Lacks(lack) => Some(lack),
    }
}

// Whether an output has no value.
fn is_nothing(look: OutputLook) -> bool
    ensures { (t : tables.Table) (u : Told Cell (Option Json)) → IsOutputLook t u look → IsNothing u result }
{
    match look {
        OutputLook::Told => false,
        OutputLook::Nothing => true,
        OutputLook::Lacks(lack) => {
            let_go(lack);
            false
        }
    }
}

/// What one of the outputs of a scope waits for, if one waits.
pub fn outputs_lack(
    alloc: Global,
    register: &Register,
    later: &Later,
    frame: usize,
) -> Result<Option<Lack>, OutOfMemory>
    requires complete { IsComplete register.now }
    requires fit { IsFit register.now.table later.now }
    requires there { frame < length register.now.table.frames.items }
    ensures { IfOk result (AreOutputLacks register.now.table later.now frame) }
{
    'outputs: for number in 0..output_count(register, frame) {
        match lack_of(look(alloc, register, later, frame, number)?) {
            Some(lack) => return Ok(Some(lack)),
            None => {}
        }
    }
    Ok(None)
}

// An output whose value is not of its type, if a value is told.
fn wrong_type(
    alloc: Global,
    register: &Register,
    later: &Later,
    frame: usize,
    number: usize,
) -> Result<Option<BindFault>, OutOfMemory>
    requires complete { IsComplete register.now }
    requires fit { IsFit register.now.table later.now }
    requires there { frame < length register.now.table.frames.items }
    requires number { number < length (names_of register.now.table frame) }
    requires none { output_told register.now.table later.now frame number ≡ no_value }
    requires condition { HasCondition register.now.table later.now (position_of register.now.table frame)
        (output_at register.now.table frame number) }
    ensures { IfOk result (IsBroken register.now.table later.now
        (output (position_of register.now.table frame) (output_at register.now.table frame number))) }
{
    match output_told(alloc, register, later, frame, number) {
        Ok(value) => {
            let_go(value);
            let name = output_at(register, frame, number).name.copy(alloc)?;
            Ok(Some(BindFault::WrongType(name)))
        }
        Err(lack) => no_fault(lack),
    }
}

// How the value of an output that has none breaks its rule, if its condition is known and a value is told.
fn broken_at(
    alloc: Global,
    register: &Register,
    later: &Later,
    frame: usize,
    number: usize,
) -> Result<Option<BindFault>, OutOfMemory>
    requires complete { IsComplete register.now }
    requires fit { IsFit register.now.table later.now }
    requires there { frame < length register.now.table.frames.items }
    requires number { number < length (names_of register.now.table frame) }
    requires none { output_told register.now.table later.now frame number ≡ no_value }
    ensures { IfOk result (IsOutputBroken register.now.table later.now (position_of register.now.table frame)
        (output_at register.now.table frame number)) }
{
    match condition_told(alloc, register, later, frame, number) {
        Ok(_) => wrong_type(alloc, register, later, frame, number),
        Err(lack) => no_fault(lack),
    }
}

// The fault of an output that has no value.
fn fault_at(
    alloc: Global,
    register: &Register,
    later: &Later,
    frame: usize,
    number: usize,
) -> Result<TaskFault, OutOfMemory>
    requires complete { IsComplete register.now }
    requires fit { IsFit register.now.table later.now }
    requires there { frame < length register.now.table.frames.items }
    requires number { number < length (names_of register.now.table frame) }
    requires none { output_told register.now.table later.now frame number ≡ no_value }
    ensures { IfOk result (SaysOutput register.now.table later.now (position_of register.now.table frame)
        (output_at register.now.table frame number)) }
{
    let path = output_path(alloc, &register.table, frame, number)?;
    match broken_at(alloc, register, later, frame, number) {
        Ok(broken) => Ok(said_of(path, broken)),
        Err(_) => run_out(path),
    }
}

/// The fault of the first output of a scope that has no value, if there is one: that the value which is told of it is
/// not of its type, or that its condition or its text has no value.
pub fn output_fault(
    alloc: Global,
    register: &Register,
    later: &Later,
    frame: usize,
) -> Result<Option<TaskFault>, OutOfMemory>
    requires complete { IsComplete register.now }
    requires fit { IsFit register.now.table later.now }
    requires there { frame < length register.now.table.frames.items }
    ensures { IfOk result (IsLeaveFault register.now.table later.now frame) }
{
    'outputs: for number in 0..output_count(register, frame) {
        if is_nothing(look(alloc, register, later, frame, number)?) {
            return Ok(Some(fault_at(alloc, register, later, frame, number)?));
        }
    }
    Ok(None)
}
