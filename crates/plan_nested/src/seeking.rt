// Where the nested deployment at a key is, sought outwards from a scope.
ghost use Rattle.std.specs.Prelude.{◌≡◌, ◌<◌, length, IfOk, MatchOption};
ghost use Rattle.arm_value.specs.View.{json};
ghost use Rattle.reading.specs.Knowledge.{value};
ghost use Rattle.reading.specs.Reading.{read};
ghost use Rattle.deploy_cells.specs.Guarded.{Reads};
ghost use Rattle.deploy_cells.specs.Cells.{deployments};
ghost use Rattle.deploy_cells.specs.Listing.{sought};
ghost use Rattle.plan_sight.specs.Scopes.{visible};
ghost use Rattle.plan_sight.specs.Sites as sites;
ghost use Rattle.plan_table.specs.Whole.{whole_of, scopes_of};
ghost use Rattle.plan_table.specs.Laid.{IsOpened};
ghost use Rattle.plan_table.specs.Found.{scope_at};
ghost use Rattle.plan_sight.specs.Ready.{IsReady, told_in};
ghost use Rattle.plan_sight.specs.Seen.{Yields};
ghost use Rattle.plan_listing.specs.Hits.{is_at, is_wanted};
ghost use Rattle.plan_nested.specs.Sighted.{found_of, IsThere, HereOr, FindsIn, here_first, IsIncluded, IsFound, Leads};

use arm_ids::{Key, Place};
use arm_value::{OutOfMemory, Text, Value};
use plan_listing::listing::{Sought, seek_listed};
use plan_listing::numbers::nested_number;
use plan_listing::wanted::wanted_name;
use plan_sight::lack::Lack;
use plan_sight::look::read_at;
use plan_table::table::Table;
use std::alloc::Global;

/// Where the nested deployment at a key was found.
#[derive(Clone, Copy)]
pub enum Sighting {
    /// An instance that is included has it; this is the number of the frame of its scope.
    Scope(usize),
    /// There are only instances that their conditions leave away.
    LeftAway,
    /// There is none.
    Nowhere,
}

/// The value of the cell that lists the nested deployments of a scope.
pub fn read_deployments<'t>(
    alloc: Global,
    table: &'t Table,
    frame: usize,
) -> Result<&'t Value, Lack>
    requires ready { IsReady table.now }
    requires there { frame < length table.now.frames.items }
    ensures { Yields (λ v. json v.now) table.now result
        (told_in table.now (read (deployments (scope_at table.now frame).position))) }
{
    match table.deployments_line(alloc, frame) {
        Ok(Some(at)) => read_at(table, at),
        Ok(None) => unreachable!(),
        Err(_) => Err(Lack::OutOfMemory),
    }
}

// The frame of the scope that an instance opened.
fn frame_opened(
    alloc: Global,
    table: &Table,
    frame: usize,
    resource: usize,
    copy: usize,
) -> Result<usize, OutOfMemory>
    requires ready { IsReady table.now }
    requires there { frame < length table.now.frames.items }
    requires included { IsIncluded table.now frame resource copy }
    ensures { IfOk result (λ g. IsOpened (scopes_of table.now) g frame resource copy) }
{
    let line = table.included_line(alloc, frame, resource, copy)?;
    match line {
        Some(at) => Ok(table.lines[at].opened),
        None => unreachable!(),
    }
}

// The scope of the instance that was found among the nested deployments of a scope.
fn scope_found(
    alloc: Global,
    table: &Table,
    frame: usize,
    number: usize,
    copy: usize,
) -> Result<usize, OutOfMemory>
    requires ready { IsReady table.now }
    requires there { frame < length table.now.frames.items }
    requires found { IsFound table.now frame number copy }
    ensures { IfOk result (Leads table.now frame number copy) }
{
    match nested_number(table.frames[frame].resources.as_slice(), number) {
        Some(resource) => frame_opened(alloc, table, frame, resource, copy),
        None => unreachable!(),
    }
}

// What the listing of a scope finds, or nothing where what is sought is not here.
fn find_listed(
    alloc: Global,
    table: &Table,
    frame: usize,
    listing: &Value,
    wanted: &Option<Text>,
) -> Result<Option<Sighting>, OutOfMemory>
    requires ready { IsReady table.now }
    requires there { frame < length table.now.frames.items }
    requires listed { told_in table.now (read (deployments (scope_at table.now frame).position))
        ≡ value (json listing.now) }
    ensures { IfOk result (FindsIn table.now frame (sought (is_wanted wanted.now) (json listing.now))) }
{
    match seek_listed(listing, wanted) {
        Sought::Found(number, copy) => {
            let inside = scope_found(alloc, table, frame, number, copy)?;
            Ok(Some(Sighting::Scope(inside)))
        }
        Sought::LeftAway => Ok(Some(Sighting::LeftAway)),
        Sought::NotHere => Ok(None),
    }
}

// What is found in a scope itself.
fn seek_here(
    alloc: Global,
    table: &Table,
    frame: usize,
    wanted: &Option<Text>,
) -> Result<Option<Sighting>, Lack>
    requires ready { IsReady table.now }
    requires there { frame < length table.now.frames.items }
    ensures told { (rest : Reads sites.Found) → HereOr table.now result rest
        (told_in table.now (here_first table.now frame (is_wanted wanted.now) rest)) }
    ensures there { IfOk result (λ o. MatchOption o (Unit {0}) (IsThere table.now)) }
{
    match read_deployments(alloc, table, frame) {
        Ok(listing) => match find_listed(alloc, table, frame, listing, wanted) {
            Ok(found) => Ok(found),
            Err(_) => Err(Lack::OutOfMemory),
        },
        Err(lack) => Err(lack),
    }
}

// Where the nested deployment with a name is: in the scope of a frame, or else outwards through outer scopes.
fn seek_wanted(
    alloc: Global,
    table: &Table,
    frame: usize,
    wanted: &Option<Text>,
) -> Result<Sighting, Lack>
    requires ready { IsReady table.now }
    requires there { frame < length table.now.frames.items }
    ensures told { Yields (found_of table.now) table.now result (told_in table.now
        (sites.seek (whole_of table.now).template (is_wanted wanted.now)
        (visible (whole_of table.now).template (scope_at table.now frame).position))) }
    ensures there { IfOk result (IsThere table.now) }
{
    let mut at = frame;
    'scopes: loop {
        match seek_here(alloc, table, at, wanted) {
            Ok(Some(sighting)) => return Ok(sighting),
            Ok(None) => {}
            Err(lack) => return Err(lack),
        }
        if table.frames[at].own {
            return Ok(Sighting::Nowhere);
        }
        at = table.frames[at].around;
    }
}

/// Where the nested deployment at a key is: in the scope of a frame, or else outwards through outer scopes.
pub fn seek(
    alloc: Global,
    table: &Table,
    frame: usize,
    key: &Key,
    place: &Place,
) -> Result<Sighting, Lack>
    requires ready { IsReady table.now }
    requires there { frame < length table.now.frames.items }
    ensures told { Yields (found_of table.now) table.now result (told_in table.now
        (sites.seek (whole_of table.now).template (is_at key.now place.now)
        (visible (whole_of table.now).template (scope_at table.now frame).position))) }
    ensures there { IfOk result (IsThere table.now) }
{
    match wanted_name(alloc, key, place) {
        Ok(wanted) => seek_wanted(alloc, table, frame, &wanted),
        Err(_) => Err(Lack::OutOfMemory),
    }
}
