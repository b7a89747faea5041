// A table of the root alone.
ghost use Rattle.std.specs.Prelude.{◌≡◌, ◌≤◌, ◌^◌, ◌∷◌, [], map, length, IfOk};
ghost use Rattle.reading.specs.World.{Each};
ghost use Rattle.template_parameters.specs.Binding.{bound_view};
ghost use Rattle.template_tree.specs.View.{template_tree};
ghost use Rattle.plan_filling.specs.Children.{roots};
ghost use Rattle.plan_filling.specs.Rows.{fresh};
ghost use Rattle.plan_table.specs.Opened.{opened_of};
ghost use Rattle.plan_table.specs.Lines.{IsPlaced, new_line};
ghost use Rattle.plan_table.specs.Keys.{Indexes};
ghost use Rattle.plan_table.specs.Whole.{whole_of, scopes_of, rows_in, IsLaid};
ghost use Rattle.plan_table.specs.Counted.{IsCounted};

use crate::frame::{Frame, root_frame};
use crate::line::Spot;
use crate::listing::list_spots;
use crate::spots::spots_of_scope;
use crate::table::Table;
use arm_ids::Place;
use arm_value::OutOfMemory;
use std::alloc::Global;
use std::collections::BTreeMap;
use template_parts::{Bound, run_out};
use template_tree::Template;

// A table with this frame alone, and no line.
fn table_with<'a>(
    alloc: Global,
    template: &'a Template,
    bound: &'a Bound,
    place: &'a Place,
    frame: Frame<'a>,
) -> Result<Table<'a>, OutOfMemory>
    ensures template { IfOk result (λ t. t.template.now ≡ template.now) }
    ensures bound { IfOk result (λ t. t.bound.now ≡ bound.now) }
    ensures place { IfOk result (λ t. t.place.now ≡ place.now) }
    ensures frame { IfOk result (λ t. scopes_of t ≡ opened_of frame.entry ∷ []) }
    ensures lines { IfOk result (λ t. t.lines.items ≡ []) }
    ensures index { IfOk result (λ t. t.index.entries ≡ []) }
    ensures counts { IfOk result (λ t. t.counts.items ≡ 0 ∷ []) }
    ensures instances { IfOk result (λ t. t.instances ≡ 0) }
{
    let mut frames = Vec::new(alloc);
    let mut counts = Vec::new(alloc);
    match frames.push(frame) {
        Ok(()) => match counts.push(0) {
            Ok(()) => Ok(Table {
                template,
                bound,
                place,
                frames,
                lines: Vec::new(alloc),
                index: BTreeMap::new(alloc),
                counts,
                instances: 0,
            }),
            Err(_) => run_out((frames, counts)),
        },
        Err(refused) => run_out((refused, frames, counts)),
    }
}

// Lists the cells of the root.
fn list_root<'a>(alloc: Global, table: Table<'a>, spots: &[Spot]) -> Result<Table<'a>, OutOfMemory>
    requires placed { Each (IsPlaced (scopes_of table)) spots.now }
    requires lines { table.lines.items ≡ [] }
    requires index { table.index.entries ≡ [] }
    ensures template { IfOk result (λ t. t.template.now ≡ table.entry.template.now) }
    ensures bound { IfOk result (λ t. t.bound.now ≡ table.entry.bound.now) }
    ensures place { IfOk result (λ t. t.place.now ≡ table.entry.place.now) }
    ensures frames { IfOk result (λ t. scopes_of t ≡ scopes_of table.entry) }
    ensures counts { IfOk result (λ t. t.counts.items ≡ table.entry.counts.items) }
    ensures instances { IfOk result (λ t. t.instances ≡ table.entry.instances) }
    ensures lines { IfOk result (λ t. t.lines.items ≡ map new_line spots.now) }
    ensures indexed { IfOk result (λ t. Indexes (scopes_of table.entry) t.index t.lines.items) }
{
    let mut table = table;
    let begun = &mut table;
    match list_spots(
        alloc,
        begun.frames.as_slice(),
        &mut begun.lines,
        &mut begun.index,
        spots,
    ) {
        Ok(()) => Ok(table),
        Err(_) => run_out(table),
    }
}

/// The table of the root alone, of which no cell is begun.
pub fn begin_table<'a>(
    alloc: Global,
    template: &'a Template,
    bound: &'a Bound,
    place: &'a Place,
) -> Result<Table<'a>, OutOfMemory>
    ensures whole { IfOk result (λ t. whole_of t ≡ record {
      template = template_tree template.now;
      bound = map bound_view bound.now;
      place = place.now;
    }) }
    ensures laid { IfOk result IsLaid }
    ensures counted { IfOk result IsCounted }
    ensures rows { IfOk result (λ t. rows_in t ≡ map fresh (roots (whole_of t))) }
    ensures few { IfOk result (λ t. length (rows_in t) ≤ 2 ^ 32) }
{
    let frame = root_frame(alloc, template)?;
    match spots_of_scope(alloc, 0, &frame) {
        Err(_) => run_out(frame),
        Ok(spots) => if spots.len() > 4294967296 {
            run_out((spots, frame))
        } else {
            let table = table_with(alloc, template, bound, place, frame)?;
            list_root(alloc, table, spots.as_slice())
        },
    }
}
