// What is known of a deployment at its start.
ghost use Rattle.std.specs.Prelude.{◌≡◌, ◌≤◌, ◌^◌, length, map, Err, IfOk, IfErr, MatchOption};
ghost use Rattle.template_parameters.specs.Binding.{bound_view};
ghost use Rattle.template_tree.specs.View.{template_tree};
ghost use Rattle.plan_cells.specs.Children.{NamesDiffer, roots};
ghost use Rattle.plan_filling.specs.Rows.{fresh};
ghost use Rattle.plan_filling.specs.Limits.{IsHalted};
ghost use Rattle.plan_filling.specs.Sound.{Sound};
ghost use Rattle.plan_filling.specs.Steps.{IsCircle, Filled};
ghost use Rattle.plan_table.specs.Whole.{whole_of, rows_in, IsLaid};
ghost use Rattle.plan_table.specs.Counted.{IsCounted};
ghost use Rattle.plan_start.specs.Sheets.{IsSheet};

use crate::sheet::{Start, keep_next};
use arm_ids::Place;
use arm_value::OutOfMemory;
use plan_filling::laws::new_sheets_are_sound;
use plan_filling::sheet::Halt;
use plan_filling::visit::{Circle, fill_all};
use plan_listing::words::TypeTexts;
use plan_table::begun::begin_table;
use plan_table::table::Table;
use plan_telling::register::Register;
use std::alloc::Global;
use template_parts::{Bound, run_out};
use template_tree::Template;

/// A sheet that was filled as far as it goes, and the cells that wait for one another, if there are such.
#[derive(Drop)]
pub struct Outcome<'a> {
    /// The sheet.
    pub start: Start<'a>,
    /// The cells that wait for one another.
    pub circle: Option<Circle>,
}

// Halts; the part is dropped.
fn halted<T: Drop, R: Drop>(halt: Halt, _part: T) -> Result<R, Halt>
    ensures { result ≡ Err halt }
{
    Err(halt)
}

// The sheet of this table.
fn begin_with<'a>(
    alloc: Global,
    table: Table<'a>,
    types: TypeTexts,
) -> Result<Start<'a>, OutOfMemory>
    requires laid { IsLaid table }
    requires counted { IsCounted table }
    ensures sheet { IfOk result (λ s. IsSheet s.register) }
    ensures table { IfOk result (λ s. s.register.table ≡ table.entry) }
{
    let mut register = Register {
        table,
        types,
        kept: Vec::new(alloc),
    };
    match keep_next(alloc, &mut register) {
        Ok(()) => Ok(Start { register }),
        Err(_) => run_out(register),
    }
}

// The sheet of a deployment of which no cell is begun.
fn begin_start<'a>(
    alloc: Global,
    template: &'a Template,
    bound: &'a Bound,
    place: &'a Place,
) -> Result<Start<'a>, OutOfMemory>
    ensures sheet { IfOk result (λ s. IsSheet s.register) }
    ensures whole { IfOk result (λ s. whole_of s.register.table ≡ record {
      template = template_tree template.now;
      bound = map bound_view bound.now;
      place = place.now;
    }) }
    ensures rows { IfOk result (λ s. rows_in s.register.table ≡ map fresh (roots (whole_of s.register.table))) }
    ensures few { IfOk result (λ s. length (rows_in s.register.table) ≤ 2 ^ 32) }
{
    let types = TypeTexts::new(alloc)?;
    match begin_table(alloc, template, bound, place) {
        Ok(table) => begin_with(alloc, table, types),
        Err(_) => run_out(types),
    }
}

/// What is known of a deployment at its start: a sheet that is filled, or one in which cells wait for one another.
pub fn known_at_start<'a>(
    alloc: Global,
    template: &'a Template,
    bound: &'a Bound,
    place: &'a Place,
) -> Result<Outcome<'a>, Halt>
    requires names_differ { NamesDiffer (template_tree template.now) }
    ensures whole { IfOk result (λ o. whole_of o.start.register.table ≡ record {
      template = template_tree template.now;
      bound = map bound_view bound.now;
      place = place.now;
    }) }
    ensures sheet { IfOk result (λ o. IsSheet o.start.register) }
    ensures sound { IfOk result (λ o. Sound (whole_of o.start.register.table) (rows_in o.start.register.table)) }
    ensures filled { IfOk result (λ o. MatchOption o.circle
        (Filled (whole_of o.start.register.table) (rows_in o.start.register.table))
        (λ c. IsCircle (whole_of o.start.register.table) (rows_in o.start.register.table) c.places.items c.last
        c.back)) }
    ensures halted { IfErr result (IsHalted (record {
      template = template_tree template.now;
      bound = map bound_view bound.now;
      place = place.now;
    })) }
{
    new_sheets_are_sound();
    let mut start = begin_start(alloc, template, bound, place)?;
    match fill_all(alloc, &mut start) {
        Ok(circle) => Ok(Outcome { start, circle }),
        Err(halt) => halted(halt, start),
    }
}
