// The titles of scopes.
ghost use Rattle.std.specs.Prelude.{◌≡◌, ◌++◌, map, IfOk};
ghost use Rattle.plan_table.specs.Listed.{listed_of};
ghost use Rattle.plan_table.specs.Opened.{opened_of};
ghost use Rattle.dependency_titles.specs.Titles.{symbol_title, symbol_titles, looped_title, looped_titles};
ghost use Rattle.dependency_titles.specs.Titles.{titles_in, scope_titles};

use arm_value::{OutOfMemory, Text};
use name_set::{NameSet, TextSet};
use name_tags::loops_of;
use plan_table::frame::Frame;
use plan_table::listed::Listed;
use std::alloc::Global;
use template_parts::{Declaration, run_out};

/// The titles of a scope.
#[derive(Drop)]
pub struct ScopeTitles {
    /// The names of its loops.
    pub loops: NameSet,
    /// The symbolic names of its resources.
    pub symbols: TextSet,
    /// The symbolic names of its existing resources that have a loop.
    pub looped: TextSet,
}

// The set with the symbolic name.
fn with_symbol(alloc: Global, set: TextSet, symbol: &Option<Text>) -> Result<TextSet, OutOfMemory>
    ensures { IfOk result (λ s. s ≡ set ++ symbol_title symbol.now) }
{
    match symbol {
        Some(symbol) => set.with(alloc, symbol),
        None => Ok(set),
    }
}

// The set with the symbolic name, where the resource is existing and has a loop.
fn with_looped(
    alloc: Global,
    set: TextSet,
    declaration: &Declaration,
) -> Result<TextSet, OutOfMemory>
    ensures { IfOk result (λ s. s ≡ set ++ looped_title declaration.now) }
{
    if declaration.existing && declaration.copy.is_some() {
        with_symbol(alloc, set, &declaration.symbol)
    } else {
        Ok(set)
    }
}

// The symbolic names of these resources.
fn symbols_of(alloc: Global, resources: &[Listed]) -> Result<TextSet, OutOfMemory>
    ensures { IfOk result (λ s. s ≡ symbol_titles (map listed_of resources.now)) }
{
    let mut set = TextSet::new(alloc);
    for resource in resources {
        set = with_symbol(alloc, set, &resource.declaration.symbol)?;
    }
    Ok(set)
}

// The symbolic names of those of these resources that are existing and have a loop.
fn looped_of(alloc: Global, resources: &[Listed]) -> Result<TextSet, OutOfMemory>
    ensures { IfOk result (λ s. s ≡ looped_titles (map listed_of resources.now)) }
{
    let mut set = TextSet::new(alloc);
    for resource in resources {
        set = with_looped(alloc, set, resource.declaration)?;
    }
    Ok(set)
}

// The titles of these resources.
fn titles_of(alloc: Global, resources: &[Listed]) -> Result<ScopeTitles, OutOfMemory>
    ensures { IfOk result (λ t. t ≡ titles_in (map listed_of resources.now)) }
{
    let loops = loops_of(alloc, resources)?;
    match symbols_of(alloc, resources) {
        Ok(symbols) => match looped_of(alloc, resources) {
            Ok(looped) => Ok(ScopeTitles {
                loops,
                symbols,
                looped,
            }),
            Err(_) => run_out((loops, symbols)),
        },
        Err(_) => run_out(loops),
    }
}

/// The titles of each scope, by the number of its frame.
pub fn titles_of_scopes(alloc: Global, frames: &[Frame]) -> Result<Vec<ScopeTitles>, OutOfMemory>
    ensures { IfOk result (λ v. v.items ≡ map scope_titles (map opened_of frames.now)) }
{
    let mut all = Vec::new(alloc);
    for frame in frames {
        let titles = titles_of(alloc, frame.resources.as_slice())?;
        all.push(titles)?;
    }
    Ok(all)
}
