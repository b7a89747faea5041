// Why there is no plan, where cells wait for one another.
ghost use Rattle.std.specs.Prelude.{◌≡◌, ◌<◌, ◌≤◌, ◌∷◌, ◌++◌, [], List, length, drop, IfOk, map, true, false};
ghost use Rattle.std.specs.Prelude.{MatchOption};
ghost use Rattle.reading.specs.World.{Each};
ghost use Rattle.arm_ids.specs.Held.{HeldResource};
ghost use Rattle.template_parts.specs.declared.mode.Mode.{Mode};
ghost use Rattle.plan_cells.specs.Children.{Has};
ghost use Rattle.plan_filling.specs.Rows.{row_at};
ghost use Rattle.plan_filling.specs.Sound.{Sound};
ghost use Rattle.plan_filling.specs.Steps.{IsCircle};
ghost use Rattle.plan_refusals.specs.Refusals.{is_titled};
ghost use Rattle.plan_table.specs.Whole.{whole_of, rows_in, IsLaid};
ghost use Rattle.plan_tasks.specs.Answered.{is_asked};
ghost use Rattle.plan_paths.specs.CellPaths.{cell_path};
ghost use Rattle.fault_finding.specs.Circles.{place_in, IsRound};
ghost use Rattle.plan_faults.specs.Faults.{IsFault};

use arm_env::stop::let_go;
use arm_value::{OutOfMemory, Path, Paths};
use plan_faults::PlanFault;
use plan_filling::visit::Circle;
use plan_paths::line_path;
use plan_settling::is_asked;
use plan_table::table::Table;
use std::alloc::Global;
use template_parts::run_out;

// The first place of a number, or the length of the list.
fn place_in(places: &[usize], wanted: usize) -> usize
    ensures first { result ≡ place_in wanted places.now }
    ensures within { result ≤ length places.now }
{
    for number in 0..places.len() {
        if places[number] == wanted {
            return number;
        }
    }
    places.len()
}

// All places of a circle.
fn places_of(circle: Circle) -> Result<Vec<usize>, OutOfMemory>
    ensures { IfOk result (λ v. v.items ≡ circle.places.items ++ circle.last ∷ []) }
{
    let mut places = circle.places;
    places.push(circle.last)?;
    Ok(places)
}

// Whether the cell of a line is a count, a condition or a name.
fn is_asked_at(table: &Table, at: usize) -> bool
    ensures { result ≡ is_asked (row_at (rows_in table.now) at).cell }
{
    if at < table.lines.len() {
        is_asked(table.lines[at].spot)
    } else {
        false
    }
}

// The first of these lines that is of a count, a condition or a name.
fn find_asked(table: &Table, round: &[usize]) -> Option<usize>
    ensures some { MatchOption result (Unit {0}) (λ at. Has at round.now
        × (is_asked (row_at (rows_in table.now) at).cell ≡ true)) }
    ensures none { MatchOption result
        (Each (λ at. is_asked (row_at (rows_in table.now) at).cell ≡ false) round.now) (λ _. Unit {0}) }
{
    'places: for at in round {
        if is_asked_at(table, *at) {
            return Some(*at);
        }
    }
    None
}

// The path of the cell of a line.
fn path_at(alloc: Global, table: &Table, at: usize) -> Result<Path, OutOfMemory>
    requires laid { IsLaid table.now }
    requires sound { Sound (whole_of table.now) (rows_in table.now) }
    requires listed { at < length (rows_in table.now) }
    ensures { IfOk result (λ p. p ≡ cell_path (whole_of table.now).template (row_at (rows_in table.now) at).cell) }
{
    line_path(alloc, table, at)
}

// The list with one path more.
fn with_path(mut paths: Paths, path: Path) -> Result<Paths, OutOfMemory>
    ensures { IfOk result (λ ps. ps ≡ paths ++ path ∷ []) }
{
    match paths.push(path) {
        Ok(()) => Ok(paths),
        Err(_) => run_out(paths),
    }
}

// The paths of these lines.
fn paths_of(alloc: Global, table: &Table, round: &[usize]) -> Result<Paths, OutOfMemory>
    requires laid { IsLaid table.now }
    requires sound { Sound (whole_of table.now) (rows_in table.now) }
    requires titled { Each (λ at. is_titled (row_at (rows_in table.now) at).cell ≡ true) round.now }
    ensures { IfOk result (λ ps. ps ≡ map (λ at. cell_path (whole_of table.now).template
        (row_at (rows_in table.now) at).cell) round.now) }
{
    let mut paths = Paths::new(alloc);
    'places: for at in round {
        match path_at(alloc, table, *at) {
            Ok(path) => paths = with_path(paths, path)?,
            Err(_) => return run_out(paths),
        }
    }
    Ok(paths)
}

// Why there is no plan, where these lines wait for one another.
fn round_fault(alloc: Global, table: &Table, round: &[usize]) -> PlanFault
    requires laid { IsLaid table.now }
    requires sound { Sound (whole_of table.now) (rows_in table.now) }
    requires round { IsRound (whole_of table.now) (rows_in table.now) round.now }
    ensures { (mode : Mode) (held : List HeldResource) → IsFault (whole_of table.now) mode held result }
{
    match find_asked(table, round) {
        Some(at) => match path_at(alloc, table, at) {
            Ok(path) => PlanFault::NoValue(path),
            Err(_) => PlanFault::OutOfMemory,
        },
        None => match paths_of(alloc, table, round) {
            Ok(paths) => PlanFault::Circle(paths),
            Err(_) => PlanFault::OutOfMemory,
        },
    }
}

// Why there is no plan, where the lines of these places wait for one another from the first place of a number on.
fn fault_from(alloc: Global, table: &Table, places: &[usize], back: usize) -> PlanFault
    requires laid { IsLaid table.now }
    requires sound { Sound (whole_of table.now) (rows_in table.now) }
    requires round { IsRound (whole_of table.now) (rows_in table.now) (drop (place_in back places.now) places.now) }
    ensures { (mode : Mode) (held : List HeldResource) → IsFault (whole_of table.now) mode held result }
{
    let first = place_in(places, back);
    round_fault(alloc, table, &places[first..])
}

/// Why there is no plan, where cells of a sheet wait for one another.
pub fn circle_fault(alloc: Global, table: &Table, circle: Circle) -> PlanFault
    requires laid { IsLaid table.now }
    requires sound { Sound (whole_of table.now) (rows_in table.now) }
    requires circle { IsCircle (whole_of table.now) (rows_in table.now) circle.places.items circle.last circle.back }
    ensures { (mode : Mode) (held : List HeldResource) → IsFault (whole_of table.now) mode held result }
{
    let back = circle.back;
    match places_of(circle) {
        Ok(places) => {
            let fault = fault_from(alloc, table, places.as_slice(), back);
            let_go(places);
            fault
        }
        Err(_) => PlanFault::OutOfMemory,
    }
}
