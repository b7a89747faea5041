// Why there is no plan, by what a reading lacks that must have a value at the start.
ghost use Rattle.std.specs.Prelude.{◌≡◌, ◌<◌, length, List, IfOk};
ghost use Rattle.arm_ids.specs.Held.{HeldResource};
ghost use Rattle.reading.specs.Knowledge.{missing};
ghost use Rattle.template_parts.specs.declared.mode.Mode.{Mode};
ghost use Rattle.plan_filling.specs.Rows.{row_at};
ghost use Rattle.plan_filling.specs.Final.{Leads};
ghost use Rattle.plan_filling.specs.Steps.{Filled};
ghost use Rattle.plan_sight.specs.declared.lack.Lack.TheVariants.{Line};
ghost use Rattle.plan_table.specs.Whole.{whole_of, rows_in, IsLaid};
ghost use Rattle.plan_elements.specs.Elements.{IsLacking};
ghost use Rattle.plan_faults.specs.Faults.{IsFault};
ghost use Rattle.lack_faults.specs.Lacks.{known_by_lines, IsLackAt};

use arm_env::stop::let_go;
use arm_ids::Key;
use arm_value::{OutOfMemory, Path};
use plan_faults::PlanFault;
use plan_openers::Opener;
use plan_paths::element_path;
use plan_sight::lack::Lack;
use plan_table::frame::Instance;
use plan_table::line::State;
use plan_table::table::Table;
use std::alloc::Global;

// The key of the state for which the cell of a line waits, itself or through others.
fn late_key(alloc: Global, table: &Table, at: usize) -> Result<Key, OutOfMemory>
    requires filled { Filled (whole_of table.now) (rows_in table.now) }
    requires listed { at < length (rows_in table.now) }
    requires missing { known_by_lines table.now (row_at (rows_in table.now) at).cell ≡ missing }
    ensures { IfOk result (λ k. Leads (whole_of table.now) (known_by_lines table.now)
        (row_at (rows_in table.now) at).cell k) }
{
    match &table.lines[at].state {
        State::Late(key) => key.copy(alloc),
        State::New => unreachable!(),
        State::Open => unreachable!(),
        State::Value(_) => unreachable!(),
        State::Empty => unreachable!(),
    }
}

// What is at the path waits for the cell of a line, which waits for a state.
fn late_fault(alloc: Global, table: &Table, path: Path, at: usize) -> PlanFault
    requires filled { Filled (whole_of table.now) (rows_in table.now) }
    requires lack { IsLackAt table.now path (Line at) }
    ensures { (mode : Mode) (held : List HeldResource) → IsFault (whole_of table.now) mode held result }
{
    match late_key(alloc, table, at) {
        Ok(key) => PlanFault::NotStartKnown(path, key),
        Err(_) => PlanFault::OutOfMemory,
    }
}

/// Why there is no plan, where what is at a path lacks this.
pub fn lack_fault(alloc: Global, table: &Table, path: Path, lack: Lack) -> PlanFault
    requires filled { Filled (whole_of table.now) (rows_in table.now) }
    requires lack { IsLackAt table.now path lack }
    ensures { (mode : Mode) (held : List HeldResource) → IsFault (whole_of table.now) mode held result }
{
    match lack {
        Lack::NoValue => PlanFault::NoValue(path),
        Lack::State(key) => PlanFault::NotStartKnown(path, key),
        Lack::Line(at) => late_fault(alloc, table, path, at),
        Lack::NotThere => unreachable!(),
        Lack::OutOfMemory => PlanFault::OutOfMemory,
    }
}

/// Why there is no plan, where an element of `dependsOn` of an instance lacks this.
pub fn element_fault(
    alloc: Global,
    table: &Table,
    opener: Opener,
    element: usize,
    lack: Lack,
) -> PlanFault
    requires laid { IsLaid table.now }
    requires filled { Filled (whole_of table.now) (rows_in table.now) }
    requires lack { IsLacking table.now opener element lack }
    ensures { (mode : Mode) (held : List HeldResource) → IsFault (whole_of table.now) mode held result }
{
    let instance = Instance {
        resource: opener.resource,
        copy: opener.copy,
    };
    match element_path(alloc, table, opener.frame, instance, element) {
        Ok(path) => lack_fault(alloc, table, path, lack),
        Err(_) => {
            let_go(lack);
            PlanFault::OutOfMemory
        }
    }
}
