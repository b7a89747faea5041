// The symbolic names of the resources of a scope.
ghost use Rattle.std.specs.Prelude.{◌≡◌, ◌++◌, IfOk, Some, is_some, map, option_map};
ghost use Rattle.arm_value.specs.View.{json};
ghost use Rattle.arm_eval.specs.Words.{listed_in};
ghost use Rattle.plan_sight.specs.Sites.{symbol_by, symbols_in, title_in};
ghost use Rattle.plan_table.specs.Listed.{listed_of};
ghost use Rattle.plan_telling.specs.Symbols.{symbolic, if_symbolic};

use arm_env::env::Symbol;
use arm_eval::symbols as titles;
use arm_value::{OutOfMemory, Text, Value};
use plan_table::listed::Listed;
use std::alloc::Global;
use template_parts::{ResourceCopy, run_out};

/// A resource with a symbolic name.
#[derive(Drop)]
pub struct Symbolic {
    /// The symbolic name, the type, and the name as it is written.
    pub symbol: Symbol,
    /// The name of its loop, if it has one.
    pub copy: Option<Text>,
}

// The name of a loop.
fn loop_name(alloc: Global, copy: &Option<ResourceCopy>) -> Result<Option<Text>, OutOfMemory>
    ensures { IfOk result (λ n. n ≡ option_map (λ c. c.name) copy.now) }
{
    match copy {
        Some(looping) => Ok(Some(looping.name.copy(alloc)?)),
        None => Ok(None),
    }
}

// The symbol of a resource, by its symbolic name and its name.
fn symbol_of(
    alloc: Global,
    listed: &Listed,
    name: &Text,
    title: &Text,
) -> Result<Symbol, OutOfMemory>
    ensures { IfOk result (λ s. s ≡ record {
      name = name.now;
      kind = listed.now.kind;
      title = title.now;
      looped = is_some listed.now.declaration.now.copy;
    }) }
{
    let name = name.copy(alloc)?;
    let kind = listed.kind.copy(alloc)?;
    let title = title.copy(alloc)?;
    let looped = listed.declaration.copy.is_some();
    Ok(Symbol {
        name,
        kind,
        title,
        looped,
    })
}

// The resource by its symbolic name and its name, with the name of its loop.
fn symbolic_of(
    alloc: Global,
    listed: &Listed,
    name: &Text,
    title: &Text,
) -> Result<Symbolic, OutOfMemory>
    ensures { IfOk result (λ s. if_symbolic (Some s)
        ≡ symbol_by (listed_of listed.now) (Some name.now) (Some title.now)) }
{
    let symbol = symbol_of(alloc, listed, name, title)?;
    match loop_name(alloc, &listed.declaration.copy) {
        Ok(copy) => Ok(Symbolic { symbol, copy }),
        Err(_) => run_out(symbol),
    }
}

// The resource where it has a symbolic name, and a text as its name.
fn if_symbolic(alloc: Global, listed: &Listed) -> Result<Option<Symbolic>, OutOfMemory>
    ensures { IfOk result (λ s. if_symbolic s ≡ symbol_by (listed_of listed.now)
        listed.now.declaration.now.symbol (title_in (json listed.now.declaration.now.name))) }
{
    match &listed.declaration.symbol {
        Some(name) => match &listed.declaration.name {
            Value::Text(title) => Ok(Some(symbolic_of(alloc, listed, name, title)?)),
            _ => Ok(None),
        },
        None => Ok(None),
    }
}

// Adds a resource, if there is one.
fn push_symbolic(symbols: &mut Vec<Symbolic>, symbol: Option<Symbolic>) -> Result<(), OutOfMemory>
    ensures { IfOk result (λ _. map symbolic symbols.new.items
        ≡ map symbolic symbols.old.items ++ if_symbolic symbol) }
{
    match symbol {
        Some(symbol) => {
            symbols.push(symbol)?;
            Ok(())
        }
        None => Ok(()),
    }
}

/// The resources with symbolic names among these, in order.
pub fn symbols_of(alloc: Global, resources: &[Listed]) -> Result<Vec<Symbolic>, OutOfMemory>
    ensures { IfOk result (λ s. map symbolic s.items ≡ symbols_in (map listed_of resources.now)) }
{
    let mut symbols = Vec::new(alloc);
    for listed in resources {
        match if_symbolic(alloc, listed) {
            Ok(symbol) => push_symbolic(&mut symbols, symbol)?,
            Err(_) => return run_out(symbols),
        }
    }
    Ok(symbols)
}

// The resource as the evaluator has it.
fn listed_by<'a>(resource: &'a Symbolic) -> titles::Listed<'a>
    ensures { listed_in result ≡ symbolic resource.now }
{
    let symbol = &resource.symbol;
    match &resource.copy {
        Some(name) => titles::Listed {
            symbol,
            copy: Some(name),
        },
        None => titles::Listed { symbol, copy: None },
    }
}

/// The resources as the evaluator has them.
pub fn lent<'a>(
    alloc: Global,
    symbols: &'a [Symbolic],
) -> Result<Vec<titles::Listed<'a>>, OutOfMemory>
    ensures { IfOk result (λ list. map listed_in list.items ≡ map symbolic symbols.now) }
{
    let mut list = Vec::new(alloc);
    for symbol in symbols {
        list.push(listed_by(symbol))?;
    }
    Ok(list)
}
