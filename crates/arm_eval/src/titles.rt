// What is known in a template of the second form, where texts of `reference` are symbolic names.
ghost use Rattle.std.specs.Prelude.{◌≡◌, Some, IfOk, map};
ghost use Rattle.arm_value.specs.Json.{Json};
ghost use Rattle.arm_value.specs.View.{json};
ghost use Rattle.arm_ids.specs.declared.id.ResourceId.{ResourceId};
ghost use Rattle.reading.specs.Reading.{through};
ghost use Rattle.reading.specs.Knowledge.{Told, told, waits};
ghost use Rattle.arm_env.specs.Look.{Look, Looking, named};
ghost use Rattle.arm_env.specs.Cell.{look_of};
ghost use Rattle.arm_env.specs.Answer.{Gives, Stops};
ghost use Rattle.arm_env.specs.Sight.{here};
ghost use Rattle.arm_eval.specs.Titles as naming;
ghost use Rattle.arm_eval.specs.Titles.{alone, titled, known_through, held_back, title_loops, title_of, unnamed};
ghost use Rattle.arm_eval.specs.Words.{listed_in, title_in, titles_in};

use crate::copying::loops_inside;
use crate::symbols::{Listed, Title, key_at, title_of};
use crate::tree::said_value;
use arm_env::cell::Cell;
use arm_env::entries::{Around, Declared, Entries};
use arm_env::env::{Looping, Symbol};
use arm_env::stop::{Stop, let_go, stopped};
use arm_ids::{Key, Place};
use arm_value::{OutOfMemory, Text, Value};
use std::alloc::Global;

/// The symbols of a template instance, and what reading their titles needs besides.
#[derive(Drop)]
pub struct Titles<'a> {
    /// The symbols, with the names of their loops.
    pub symbols: &'a [Listed<'a>],
    /// The loops around the template instance, the nearest first.
    pub loops: &'a [Looping],
}

// What is known inside a title, where a text is an id alone.
#[derive(Drop)]
struct Alone<'a, K> {
    entries: &'a K,
}

impl<'e, K: Entries> Entries for Alone<'e, K> {
    ghost known = { λ s. known_through alone (K.known s.entries.now) };

    #[tactic(auto, using(crate::proofs::CellLemmas::alone_cells))]
    fn parameter<'a>(&'a self, alloc: Global, name: &Text) -> Result<&'a Value, Stop> {
        self.entries.parameter(alloc, name)
    }

    #[tactic(auto, using(crate::proofs::CellLemmas::alone_cells))]
    fn variable<'a>(&'a self, alloc: Global, name: &Text) -> Result<&'a Value, Stop> {
        self.entries.variable(alloc, name)
    }

    #[tactic(auto, using(crate::proofs::CellLemmas::alone_cells))]
    fn output<'a>(&'a self, alloc: Global, key: &Key, name: &Text) -> Result<&'a Value, Stop> {
        self.entries.output(alloc, key, name)
    }

    #[tactic(auto, using(crate::proofs::CellLemmas::alone_cells))]
    fn state<'a>(&'a self, alloc: Global, key: &Key) -> Result<&'a Value, Stop> {
        self.entries.state(alloc, key)
    }

    #[tactic(auto, using(crate::proofs::CellLemmas::alone_cells))]
    fn named(&self, _alloc: Global, _text: &Text) -> Result<Key, Stop> {
        Err(Stop::NoValue)
    }

    #[tactic(auto, using(crate::proofs::CellLemmas::alone_cells))]
    fn is_deployment(&self, alloc: Global, key: &Key) -> Result<bool, Stop> {
        self.entries.is_deployment(alloc, key)
    }

    #[tactic(auto, using(crate::proofs::CellLemmas::alone_cells))]
    fn outputs<'a>(&'a self, alloc: Global, key: &Key) -> Result<Vec<Declared<'a>>, Stop> {
        self.entries.outputs(alloc, key)
    }
}

// The value of a title.
fn title_value<K: Entries>(
    alloc: Global,
    entries: &K,
    around: &Around,
    title: &Text,
) -> Result<Value, Stop>
    ensures { Gives json result
        (told (K.known entries.now) (naming.title_value (here around.now) title.now)) }
{
    let alone = Alone { entries };
    said_value(alloc, &alone, around, title)
}

// The loops of a title: that of its symbol, before those around the template instance.
fn title_loops(
    alloc: Global,
    loops: &[Looping],
    title: &Title,
    index: u32,
) -> Result<Vec<Looping>, OutOfMemory>
    ensures { IfOk result (λ ls. ls.items
        ≡ title_loops loops.now (title_in title.now) (Some index)) }
{
    let name = match title.listed.copy {
        Some(name) => Some(name.copy(alloc)?),
        None => None,
    };
    let nearest = Looping {
        name,
        index,
        main: true,
    };
    loops_inside(alloc, loops, nearest)
}

// The value of the title of a symbol.
fn value_of_title<K: Entries>(
    alloc: Global,
    entries: &K,
    titles: &Titles,
    place: &Place,
    title: &Title,
) -> Result<Value, Stop>
    ensures { Gives json result (told (K.known entries.now) (naming.title_value (record {
      loops = title_loops titles.now.loops.now (title_in title.now) title.now.index;
      place = place.now;
    }) title.now.listed.symbol.now.title)) }
{
    match title.index {
        Some(index) => {
            let loops = title_loops(alloc, titles.loops, title, index)?;
            let around = Around {
                loops: loops.as_slice(),
                place,
            };
            let value = title_value(alloc, entries, &around, &title.listed.symbol.title);
            let_go(loops);
            value
        }
        None => {
            let around = Around {
                loops: titles.loops,
                place,
            };
            title_value(alloc, entries, &around, &title.listed.symbol.title)
        }
    }
}

// The key of the resource that a symbol means.
fn key_of<K: Entries>(
    alloc: Global,
    entries: &K,
    titles: &Titles,
    place: &Place,
    title: &Title,
) -> Result<Key, Stop>
    ensures { Gives (λ k. k) result (told (K.known entries.now)
        (naming.key_of (titles_in titles.now) place.now (title_in title.now))) }
{
    let value = value_of_title(alloc, entries, titles, place, title)?;
    let key = key_at(alloc, place, &title.listed.symbol.kind, &value);
    let_go(value);
    match key? {
        Some(key) => Ok(key),
        None => Err(Stop::NoValue),
    }
}

// The key of the resource that a text means.
fn key_sought<K: Entries>(
    alloc: Global,
    entries: &K,
    titles: &Titles,
    place: &Place,
    text: &Text,
) -> Result<Key, Stop>
    ensures { Gives (λ k. k) result (told (K.known entries.now)
        (naming.key_sought (titles_in titles.now) place.now
        (title_of (titles_in titles.now).symbols text.now))) }
{
    match title_of(alloc, titles.symbols, text)? {
        Some(title) => key_of(alloc, entries, titles, place, &title),
        None => Err(Stop::NoValue),
    }
}

// The same stop, where the text is waited for in place of what its title waits for.
fn held_back(alloc: Global, stop: Stop, text: &Text) -> Stop
    ensures { (t : Told Look ResourceId) → Stops stop t
        → Stops result (held_back (named text.now) t) }
{
    match stop {
        Stop::NoValue => Stop::NoValue,
        Stop::Waits(cell) => {
            let_go(cell);
            match text.copy(alloc) {
                Ok(text) => Stop::Waits(Cell::Named(text)),
                Err(_) => Stop::OutOfMemory,
            }
        }
        Stop::OutOfMemory => Stop::OutOfMemory,
    }
}

// What is known where texts are symbolic names.
#[derive(Drop)]
pub(crate) struct Titled<'a, K> {
    pub(crate) entries: &'a K,
    pub(crate) titles: &'a Titles<'a>,
    pub(crate) place: &'a Place,
}

impl<'e, K: Entries> Entries for Titled<'e, K> {
    ghost known = { λ s. known_through (titled (titles_in s.titles.now) s.place.now)
        (K.known s.entries.now) };

    #[tactic(auto, using(crate::proofs::CellLemmas::titled_cells))]
    fn parameter<'a>(&'a self, alloc: Global, name: &Text) -> Result<&'a Value, Stop> {
        self.entries.parameter(alloc, name)
    }

    #[tactic(auto, using(crate::proofs::CellLemmas::titled_cells))]
    fn variable<'a>(&'a self, alloc: Global, name: &Text) -> Result<&'a Value, Stop> {
        self.entries.variable(alloc, name)
    }

    #[tactic(auto, using(crate::proofs::CellLemmas::titled_cells))]
    fn output<'a>(&'a self, alloc: Global, key: &Key, name: &Text) -> Result<&'a Value, Stop> {
        self.entries.output(alloc, key, name)
    }

    #[tactic(auto, using(crate::proofs::CellLemmas::titled_cells))]
    fn state<'a>(&'a self, alloc: Global, key: &Key) -> Result<&'a Value, Stop> {
        self.entries.state(alloc, key)
    }

    #[tactic(auto, using(crate::proofs::CellLemmas::titled_cells))]
    fn named(&self, alloc: Global, text: &Text) -> Result<Key, Stop> {
        match key_sought(alloc, self.entries, self.titles, self.place, text) {
            Ok(key) => Ok(key),
            Err(stop) => Err(held_back(alloc, stop, text)),
        }
    }

    #[tactic(auto, using(crate::proofs::CellLemmas::titled_cells))]
    fn is_deployment(&self, alloc: Global, key: &Key) -> Result<bool, Stop> {
        self.entries.is_deployment(alloc, key)
    }

    #[tactic(auto, using(crate::proofs::CellLemmas::titled_cells))]
    fn outputs<'a>(&'a self, alloc: Global, key: &Key) -> Result<Vec<Declared<'a>>, Stop> {
        self.entries.outputs(alloc, key)
    }
}

// What the title of a text waits for first.
fn awaited_for<K: Entries>(
    alloc: Global,
    entries: &K,
    titles: &Titles,
    place: &Place,
    text: Text,
) -> Result<Value, Stop>
    ensures { (r : Looking Json)
        → told (known_through (titled (titles_in titles.now) place.now) (K.known entries.now)) r
        ≡ waits (named text) → Gives json result
        (told (K.known entries.now) (through (titled (titles_in titles.now) place.now) r)) }
{
    let key = key_sought(alloc, entries, titles, place, &text);
    let_go(text);
    match key {
        Ok(key) => stopped(Stop::NoValue, key),
        Err(stop) => Err(stop),
    }
}

// The first cell that is not known yet, where texts are symbolic names.
fn resolved_cell<K: Entries>(
    alloc: Global,
    entries: &K,
    titles: &Titles,
    place: &Place,
    cell: Cell,
) -> Result<Value, Stop>
    ensures { (r : Looking Json)
        → told (known_through (titled (titles_in titles.now) place.now) (K.known entries.now)) r
        ≡ waits (look_of cell) → Gives json result
        (told (K.known entries.now) (through (titled (titles_in titles.now) place.now) r)) }
{
    match cell {
        Cell::Parameter(name) => Err(Stop::Waits(Cell::Parameter(name))),
        Cell::Variable(name) => Err(Stop::Waits(Cell::Variable(name))),
        Cell::Output(key, name) => Err(Stop::Waits(Cell::Output(key, name))),
        Cell::State(key) => Err(Stop::Waits(Cell::State(key))),
        Cell::Named(text) => awaited_for(alloc, entries, titles, place, text),
        Cell::Deployment(key) => Err(Stop::Waits(Cell::Deployment(key))),
        Cell::Outputs(key) => Err(Stop::Waits(Cell::Outputs(key))),
    }
}

// What was found where texts are symbolic names, with the first cell that is not known yet.
pub(crate) fn resolved<K: Entries>(
    alloc: Global,
    entries: &K,
    titles: &Titles,
    place: &Place,
    found: Result<Value, Stop>,
) -> Result<Value, Stop>
    ensures { (r : Looking Json) → Gives json found
        (told (known_through (titled (titles_in titles.now) place.now) (K.known entries.now)) r)
        → Gives json result
        (told (K.known entries.now) (through (titled (titles_in titles.now) place.now) r)) }
{
    match found {
        Ok(value) => Ok(value),
        Err(Stop::NoValue) => Err(Stop::NoValue),
        Err(Stop::Waits(cell)) => resolved_cell(alloc, entries, titles, place, cell),
        Err(Stop::OutOfMemory) => Err(Stop::OutOfMemory),
    }
}

/// The symbols, whose loops have no names.
pub(crate) fn unnamed<'a>(
    alloc: Global,
    symbols: &'a [Symbol],
) -> Result<Vec<Listed<'a>>, OutOfMemory>
    ensures { IfOk result (λ list. map listed_in list.items ≡ map unnamed symbols.now) }
{
    let mut list = Vec::new(alloc);
    for symbol in symbols {
        list.push(Listed { symbol, copy: None })?;
    }
    Ok(list)
}
