// What is told of sources at a site.
ghost use Rattle.std.specs.Prelude.{◌≡◌, ◌<◌, false, length, map};
ghost use Rattle.arm_value.specs.View.{json};
ghost use Rattle.arm_eval.specs.Titles.{titled};
ghost use Rattle.arm_eval.specs.Words.{listed_in};
ghost use Rattle.reading.specs.Reading.{through};
ghost use Rattle.plan_sight.specs.Sites.{titles_at, surroundings};
ghost use Rattle.plan_table.specs.Found.{scope_at};
ghost use Rattle.plan_table.specs.Whole.{whole_of};
ghost use Rattle.plan_sight.specs.Ready.{told_in};
ghost use Rattle.plan_sight.specs.Seen.{Yields};
ghost use Rattle.plan_sights.specs.Seats.{seat_of};
ghost use Rattle.plan_telling.specs.Symbols.{IsComplete, symbolic, symbols_at};
ghost use Rattle.plan_telling.specs.Sources.{meaning_of, site_in, read_at, read_in, followed_in};

use crate::lacks::lack_of;
use crate::register::Register;
use crate::site::{Site, Texts};
use crate::source::{Source, titled_by, value_by};
use crate::symbols::{Symbolic, lent, symbols_of};
use arm_env::entries::Around;
use arm_env::stop::let_go;
use arm_eval::Titles;
use arm_eval::symbols::Listed;
use arm_ids::Place;
use arm_value::Value;
use plan_places::place::place_of;
use plan_sight::lack::Lack;
use plan_sights::sight::Sight;
use std::alloc::Global;

// What is told of a source where a text is an id alone, or the name of a resource.
fn told_plainly(
    alloc: Global,
    register: &Register,
    site: &Site,
    place: &Place,
    by_names: bool,
    source: &Source,
) -> Result<Value, Lack>
    requires complete { IsComplete register.now }
    requires there { site.now.frame < length register.now.table.frames.items }
    ensures { Yields json register.now.table result (told_in register.now.table (followed_in
        (seat_of register.now.table site.now.frame place.now site.now.loops.now by_names)
        (meaning_of source.now (surroundings (site_in register.now.table site.now) place.now)))) }
{
    let sight = Sight {
        table: &register.table,
        types: &register.types,
        frame: site.frame,
        place,
        loops: site.loops,
        by_names,
    };
    let around = Around {
        loops: site.loops,
        place,
    };
    match value_by(alloc, &sight, &around, source) {
        Ok(value) => Ok(value),
        Err(stop) => Err(lack_of(alloc, register, site.frame, place, by_names, stop)),
    }
}

// What is told of a source where a text is one of these symbolic names.
fn told_titled(
    alloc: Global,
    register: &Register,
    site: &Site,
    place: &Place,
    symbols: &[Listed],
    source: &Source,
) -> Result<Value, Lack>
    requires complete { IsComplete register.now }
    requires there { site.now.frame < length register.now.table.frames.items }
    requires symbols { map listed_in symbols.now ≡ symbols_at (scope_at register.now.table site.now.frame) }
    ensures { Yields json register.now.table result (told_in register.now.table (followed_in
        (seat_of register.now.table site.now.frame place.now site.now.loops.now false)
        (through (titled (titles_at (whole_of register.now.table).template
        (scope_at register.now.table site.now.frame).position) place.now)
        (meaning_of source.now (surroundings (site_in register.now.table site.now) place.now))))) }
{
    let sight = Sight {
        table: &register.table,
        types: &register.types,
        frame: site.frame,
        place,
        loops: site.loops,
        by_names: false,
    };
    let titles = Titles {
        symbols,
        loops: register.table.frames[site.frame].loops.as_slice(),
    };
    let around = Around {
        loops: site.loops,
        place,
    };
    match titled_by(alloc, &sight, &titles, &around, source) {
        Ok(value) => Ok(value),
        Err(stop) => Err(lack_of(alloc, register, site.frame, place, false, stop)),
    }
}

// What is told of a source where a text is one of these symbolic names.
fn told_lent(
    alloc: Global,
    register: &Register,
    site: &Site,
    place: &Place,
    symbols: &[Symbolic],
    source: &Source,
) -> Result<Value, Lack>
    requires complete { IsComplete register.now }
    requires there { site.now.frame < length register.now.table.frames.items }
    requires symbols { map symbolic symbols.now ≡ symbols_at (scope_at register.now.table site.now.frame) }
    ensures { Yields json register.now.table result (told_in register.now.table (followed_in
        (seat_of register.now.table site.now.frame place.now site.now.loops.now false)
        (through (titled (titles_at (whole_of register.now.table).template
        (scope_at register.now.table site.now.frame).position) place.now)
        (meaning_of source.now (surroundings (site_in register.now.table site.now) place.now))))) }
{
    match lent(alloc, symbols) {
        Ok(list) => {
            let told = told_titled(alloc, register, site, place, list.as_slice(), source);
            let_go(list);
            told
        }
        Err(_) => Err(Lack::OutOfMemory),
    }
}

// What is told of a source where a text is a symbolic name, of a scope of which none are kept.
fn told_anew(
    alloc: Global,
    register: &Register,
    site: &Site,
    place: &Place,
    source: &Source,
) -> Result<Value, Lack>
    requires complete { IsComplete register.now }
    requires there { site.now.frame < length register.now.table.frames.items }
    ensures { Yields json register.now.table result (told_in register.now.table (followed_in
        (seat_of register.now.table site.now.frame place.now site.now.loops.now false)
        (through (titled (titles_at (whole_of register.now.table).template
        (scope_at register.now.table site.now.frame).position) place.now)
        (meaning_of source.now (surroundings (site_in register.now.table site.now) place.now))))) }
{
    match symbols_of(
        alloc,
        register.table.frames[site.frame].resources.as_slice(),
    ) {
        Ok(symbols) => {
            let told = told_lent(alloc, register, site, place, symbols.as_slice(), source);
            let_go(symbols);
            told
        }
        Err(_) => Err(Lack::OutOfMemory),
    }
}

// What is told of a source where a text is a symbolic name.
fn told_by_symbols(
    alloc: Global,
    register: &Register,
    site: &Site,
    place: &Place,
    source: &Source,
) -> Result<Value, Lack>
    requires complete { IsComplete register.now }
    requires there { site.now.frame < length register.now.table.frames.items }
    ensures { Yields json register.now.table result (told_in register.now.table (followed_in
        (seat_of register.now.table site.now.frame place.now site.now.loops.now false)
        (through (titled (titles_at (whole_of register.now.table).template
        (scope_at register.now.table site.now.frame).position) place.now)
        (meaning_of source.now (surroundings (site_in register.now.table site.now) place.now))))) }
{
    match register.kept_at(site.frame) {
        Some(symbols) => told_lent(alloc, register, site, place, symbols, source),
        None => told_anew(alloc, register, site, place, source),
    }
}

// What is told of a source in a place.
fn told_in_place(
    alloc: Global,
    register: &Register,
    site: &Site,
    place: &Place,
    source: &Source,
) -> Result<Value, Lack>
    requires complete { IsComplete register.now }
    requires there { site.now.frame < length register.now.table.frames.items }
    ensures { Yields json register.now.table result (told_in register.now.table
        (read_in register.now.table (site_in register.now.table site.now) source.now place.now)) }
{
    match site.texts {
        Texts::IdsAlone => told_plainly(alloc, register, site, place, false, source),
        Texts::Names => told_plainly(alloc, register, site, place, true, source),
        Texts::Symbols => told_by_symbols(alloc, register, site, place, source),
    }
}

/// What is told of a source at a site, in the place of its scope.
pub fn told_at(
    alloc: Global,
    register: &Register,
    site: &Site,
    source: &Source,
) -> Result<Value, Lack>
    requires complete { IsComplete register.now }
    requires there { site.now.frame < length register.now.table.frames.items }
    ensures { Yields json register.now.table result (told_in register.now.table
        (read_at register.now.table (site_in register.now.table site.now) source.now)) }
{
    match place_of(alloc, &register.table, site.frame) {
        Ok(place) => {
            let told = told_in_place(alloc, register, site, &place, source);
            let_go(place);
            told
        }
        Err(lack) => Err(lack),
    }
}
