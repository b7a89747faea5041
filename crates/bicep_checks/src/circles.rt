// Circles among the symbols of the files of a program, and variables that read state.
ghost use Rattle.std.specs.Prelude.{◌≡◌, List, map, IfOk, IfErr, OnOk};
ghost use Rattle.bicep_symbols.specs.Entries.{symbol_of};
ghost use Rattle.bicep_circles.specs.Orders.{IsLinkOrder, AreSorted};
ghost use Rattle.bicep_program.specs.Program.{ProgramFile};
ghost use Rattle.resolved_program.specs.Programs.{IsResolved};
ghost use Rattle.resolved_program.specs.Faults.{first_in};
ghost use Rattle.resolved_program.specs.View.{file_view};
ghost use Rattle.bicep_checks.specs.Faults as spec;
ghost use Rattle.bicep_checks.specs.Order.{HasNone, IsAnswer};
ghost use Rattle.bicep_checks.specs.Steps.{AreFree, IsWalked, IsCircleFault, in_file};

use crate::fault::CheckFault;
use arm_value::{OutOfMemory, Text, Texts};
use bicep_circles::symbol_order;
use bicep_states::{misplaced_variable, state_table};
use bicep_symbols::Entry;
use depend_graph::Sorted;
use resolved_program::ResolvedFile;
use std::alloc::Global;

// The name of the symbol of that number.
fn name_at(alloc: Global, entries: &[Entry], number: u32) -> Result<Text, OutOfMemory>
    ensures { IfOk result (λ t. t ≡ spec.name_at (map symbol_of entries.now) number) }
{
    match entries.get(number as usize) {
        Some(entry) => entry.name.copy(alloc),
        None => Text::of(alloc, ""),
    }
}

fn names_of(alloc: Global, entries: &[Entry], numbers: &[u32]) -> Result<Texts, OutOfMemory>
    ensures { IfOk result (λ ts. ts ≡ map (spec.name_at (map symbol_of entries.now)) numbers.now) }
{
    let mut names = Texts::new(alloc);
    for number in numbers {
        names.push(name_at(alloc, entries, *number)?)?;
    }
    Ok(names)
}

// The symbols of a file, each after those that its declaration mentions, or a circle of them.
fn order_in(alloc: Global, file: &ResolvedFile) -> Result<Sorted, OutOfMemory>
    ensures { IfOk result (AreSorted (spec.links_of (file_view file.now))) }
{
    symbol_order(
        alloc,
        file.entries.as_slice(),
        file.declared.declarations.as_slice(),
    )
}

// The first variable of a file that reads state and is a for-expression, where its symbols have that order.
fn state_place(
    alloc: Global,
    file: &ResolvedFile,
    order: &[u32],
) -> Result<Option<usize>, OutOfMemory>
    requires { IsLinkOrder (spec.links_of (file_view file.now)) order.now }
    ensures { IfOk result (λ o. o ≡ spec.state_place (file_view file.now)) }
{
    let declarations = file.declared.declarations.as_slice();
    let table = state_table(alloc, file.entries.as_slice(), declarations, order)?;
    Ok(misplaced_variable(&table, declarations))
}

/// What the mentions of the symbols of a file say.
#[derive(Drop)]
pub enum Walked {
    /// There is no circle. The offset of the first variable that reads state and is a for-expression.
    Free(Option<usize>),
    /// The names of symbols each of which mentions the next, and the last the first.
    Circle(Texts),
}

fn walk_symbols(alloc: Global, file: &ResolvedFile) -> Result<Walked, OutOfMemory>
    ensures { IfOk result (IsWalked (file_view file.now)) }
{
    match order_in(alloc, file)? {
        Sorted::Order(order) => {
            let place = state_place(alloc, file, order.as_slice())?;
            Ok(Walked::Free(place))
        }
        Sorted::Circle(numbers) => {
            let names = names_of(alloc, file.entries.as_slice(), numbers.as_slice())?;
            Ok(Walked::Circle(names))
        }
    }
}

// What was found before, else what is found in the file of that number.
fn earlier(
    before: Option<(usize, usize)>,
    number: usize,
    place: Option<usize>,
) -> Option<(usize, usize)>
    ensures { result ≡ spec.either before (in_file number place) }
{
    match before {
        Some(found) => Some(found),
        None => match place {
            Some(at) => Some((number, at)),
            None => None,
        },
    }
}

// The first variable that reads state and is a for-expression, and the number of its file, where there is no circle.
fn all_walked(alloc: Global, files: &[ResolvedFile]) -> Result<Option<(usize, usize)>, CheckFault>
    ensures free { OnOk result (AreFree (map file_view files.now)) }
    ensures place { IfOk result (λ o. o ≡ first_in spec.state_place (map file_view files.now)) }
    ensures fault { IfErr result (IsCircleFault (map file_view files.now)) }
{
    let mut first = None;
    for (number, file) in files.iter().enumerate() {
        match walk_symbols(alloc, file) {
            Ok(Walked::Free(place)) => {
                first = earlier(first, number, place);
            }
            Ok(Walked::Circle(names)) => return Err(CheckFault::SymbolCycle(number, names)),
            Err(_) => return Err(CheckFault::OutOfMemory),
        }
    }
    Ok(first)
}

/// That no symbols mention each other in a circle; then the first variable that reads state and is a for-expression,
/// and the number of its file.
pub(crate) fn check_circles(
    alloc: Global,
    resolved: &[ResolvedFile],
) -> Result<Option<(usize, usize)>, CheckFault>
    ensures place { IfOk result (λ o. o ≡ first_in spec.state_place (map file_view resolved.now)) }
    ensures free { (files : List ProgramFile) → IsResolved files (map file_view resolved.now) → HasNone 2 files
        → OnOk result (HasNone 3 files) }
    ensures fault { (files : List ProgramFile) → IsResolved files (map file_view resolved.now) → HasNone 2 files
        → IfErr result (IsAnswer files) }
{
    all_walked(alloc, resolved)
}
