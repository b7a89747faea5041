// New lines, each found by its key.
ghost use Rattle.std.specs.Prelude.{◌≡◌, ◌++◌, ◌∷◌, [], IfOk, map, length};
ghost use Rattle.reading.specs.World.{Each};
ghost use Rattle.plan_table.specs.Opened.{opened_of};
ghost use Rattle.plan_table.specs.Lines.{IsPlaced, new_line};
ghost use Rattle.plan_table.specs.Keys.{Indexes};

use crate::frame::Frame;
use crate::keys::key_at;
use crate::line::{Line, Spot, State};
use arm_value::OutOfMemory;
use std::alloc::Global;
use std::collections::BTreeMap;
use template_parts::run_out;

/// The number of the line of each key.
pub type Index = BTreeMap<Vec<usize>, usize>;

// A line that is not begun.
fn new_line(spot: Spot) -> Line
    ensures { result ≡ new_line spot }
{
    Line {
        spot,
        state: State::New,
        opened: 0,
    }
}

// Lists the cell of a spot last.
fn list_spot(
    alloc: Global,
    frames: &[Frame],
    lines: &mut Vec<Line>,
    index: &mut Index,
    spot: Spot,
) -> Result<(), OutOfMemory>
    requires placed { IsPlaced (map opened_of frames.now) spot }
    requires indexed { Indexes (map opened_of frames.now) index.old lines.old.items }
    ensures listed { IfOk result (λ _. lines.new.items ≡ lines.old.items ++ new_line spot ∷ []) }
    ensures indexed { IfOk result (λ _. Indexes (map opened_of frames.now) index.new lines.new.items) }
{
    let key = key_at(alloc, frames, spot)?;
    let number = lines.len();
    match lines.push(new_line(spot)) {
        Ok(()) => {
            index.insert(key, number)?;
            Ok(())
        }
        Err(refused) => run_out((refused, key)),
    }
}

/// Lists the cells of these spots last, in their order.
pub fn list_spots(
    alloc: Global,
    frames: &[Frame],
    lines: &mut Vec<Line>,
    index: &mut Index,
    spots: &[Spot],
) -> Result<(), OutOfMemory>
    requires placed { Each (IsPlaced (map opened_of frames.now)) spots.now }
    requires indexed { Indexes (map opened_of frames.now) index.old lines.old.items }
    ensures listed { IfOk result (λ _. lines.new.items ≡ lines.old.items ++ map new_line spots.now) }
    ensures indexed { IfOk result (λ _. Indexes (map opened_of frames.now) index.new lines.new.items) }
{
    for spot in spots {
        list_spot(alloc, frames, lines, index, *spot)?;
    }
    Ok(())
}
