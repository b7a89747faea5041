//! The order of the resources of a template.
ghost use Rattle.std.specs.Prelude.{◌≡◌, [], IfOk, encode_utf8_all};
ghost use Rattle.source_worlds.specs.Numbers as worlds;
ghost use Rattle.declared_table.specs.Seen.{file_in};
ghost use Rattle.template_numbers.specs.Named as spec;

use crate::listed::listed;
use arm_value::OutOfMemory;
use declared_table::Table;
use emitted_parts::letting_go;
use std::alloc::{AllocError, Global};
use std::collections::BTreeSet;
use template_parts::Form;

// Numbers with the names of their symbols, in byte order of the names.
type Named<'a> = BTreeSet<(&'a str, usize)>;

// The name of a symbol, which is empty where there is no symbol of the number.
fn name_of<'a>(table: &'a Table, number: usize) -> &'a str
    ensures { result.now ≡ encode_utf8_all (worlds.name_of (file_in table.now) number) }
{
    match table.name_of(number) {
        Some(name) => name.as_str(),
        None => "",
    }
}

// The numbers with one more, and its name.
fn with_name<'a>(
    table: &'a Table,
    number: usize,
    others: Named<'a>,
) -> Result<Named<'a>, OutOfMemory>
    ensures { IfOk result (spec.IsOneMore (file_in table.now) number others.entry) }
{
    let mut all = others;
    match all.insert((name_of(table, number), number)) {
        Ok(_) => Ok(all),
        Err(_) => Err(AllocError),
    }
}

// The numbers with their names.
fn with_names<'a>(
    none: Named<'a>,
    table: &'a Table,
    numbers: &[usize],
) -> Result<Named<'a>, OutOfMemory>
    requires none { none.keys ≡ [] }
    requires increase { spec.Increase numbers.now }
    ensures { IfOk result (spec.AreNamed (file_in table.now) numbers.now) }
{
    let mut named = none;
    let mut left = numbers.len();
    'numbers: while left > 0 {
        left -= 1;
        named = with_name(table, numbers[left], named)?;
    }
    Ok(named)
}

// The numbers alone.
fn without_names(alloc: Global, named: &Named) -> Result<Vec<usize>, OutOfMemory>
    ensures { IfOk result (λ ns. ns.items ≡ spec.numbers_in named.now) }
{
    let mut all = Vec::new(alloc);
    for key in named {
        all.push(key.1)?;
    }
    Ok(all)
}

// The numbers in the order of names, by a set that is empty before.
fn sorted<'a>(
    alloc: Global,
    none: Named<'a>,
    table: &'a Table,
    numbers: &[usize],
) -> Result<Vec<usize>, OutOfMemory>
    requires none { none.keys ≡ [] }
    requires increase { spec.Increase numbers.now }
    ensures { IfOk result (λ ns. ns.items ≡ worlds.by_name (file_in table.now) numbers.now) }
{
    let named = with_names(none, table, numbers)?;
    letting_go(without_names(alloc, &named), named)
}

// The numbers in the order of names.
fn by_name<'a>(
    alloc: Global,
    table: &'a Table,
    numbers: &[usize],
) -> Result<Vec<usize>, OutOfMemory>
    requires { spec.Increase numbers.now }
    ensures { IfOk result (λ ns. ns.items ≡ worlds.by_name (file_in table.now) numbers.now) }
{
    let none: Named<'a> = BTreeSet::new(alloc);
    sorted(alloc, none, table, numbers)
}

/// The numbers of the symbols of the resources and modules of the template of a file, in its order: in the first form
/// those that are put, in the order of the source, and in the second all, existing ones among them, in byte order of
/// the names of symbols.
///
/// # Errors
///
/// `OutOfMemory`.
pub fn numbers(alloc: Global, table: &Table, form: Form) -> Result<Vec<usize>, OutOfMemory>
    ensures { IfOk result (λ ns. ns.items ≡ worlds.in_template form (file_in table.now)) }
{
    let all = listed(alloc, form, table.file().declared.declarations.as_slice())?;
    match form {
        Form::One => Ok(all),
        Form::Two => letting_go(by_name(alloc, table, all.as_slice()), all),
    }
}
