//! What the templates of all files of a program are made of.
ghost use Rattle.program_parts.specs.Clauses as spec;

use bicep_program::SourceFile;
use file_templates::{EmitFault, FileOrder, FileParts, file_loops, file_parts};
use resolved_program::ResolvedFile;
use std::alloc::Global;
use template_parts::Form;

// The fault; the part is dropped.
fn refuse<T: Drop, R: Drop>(fault: EmitFault, _part: T) -> Result<R, EmitFault>
    ensures { spec.IsRefused fault result }
{
    Err(fault)
}

// The text of a number.
fn source_at(sources: &[SourceFile], number: usize) -> Option<&SourceFile>
    ensures { spec.IfSome result (λ x. spec.IsAt sources.now number x.now) }
{
    sources.get(number)
}

// What the names of the file of a number are.
fn file_at(files: &[ResolvedFile], number: usize) -> Option<&ResolvedFile>
    ensures { spec.IfSome result (λ x. spec.IsAt files.now number x.now) }
{
    files.get(number)
}

// The items with one more.
fn with_last<T: Drop>(items: Vec<T>, item: T) -> Result<Vec<T>, EmitFault>
    ensures added { spec.IfOk result (λ v. spec.HasLast items.items item v.items) }
    ensures fault { spec.IfErr result spec.IsMemoryFault }
{
    let mut items = items;
    match items.push(item) {
        Ok(()) => Ok(items),
        Err(_) => refuse(EmitFault::OutOfMemory, items),
    }
}

// The order of the file of a number, with its text.
fn order_by(
    alloc: Global,
    sources: &[SourceFile],
    files: &[ResolvedFile],
    source: &SourceFile,
    number: usize,
) -> Result<FileOrder, EmitFault>
    requires { spec.IsReadWith sources.now files.now number source.now }
    ensures order { spec.IfOk result (spec.IsOrderAt sources.now files.now number) }
    ensures fault { spec.IfErr result (spec.IsProgramFault sources.now files.now) }
{
    match file_at(files, number) {
        Some(file) => file_loops(alloc, source, file),
        None => Err(EmitFault::OutOfMemory),
    }
}

// The order of the file of a number.
fn order_at(
    alloc: Global,
    sources: &[SourceFile],
    files: &[ResolvedFile],
    number: usize,
) -> Result<FileOrder, EmitFault>
    requires { spec.IsRead sources.now files.now }
    ensures order { spec.IfOk result (spec.IsOrderAt sources.now files.now number) }
    ensures fault { spec.IfErr result (spec.IsProgramFault sources.now files.now) }
{
    match source_at(sources, number) {
        Some(source) => order_by(alloc, sources, files, source, number),
        None => Err(EmitFault::OutOfMemory),
    }
}

// The orders of the first files with that of the next one.
fn with_order(
    alloc: Global,
    sources: &[SourceFile],
    files: &[ResolvedFile],
    orders: Vec<FileOrder>,
) -> Result<Vec<FileOrder>, EmitFault>
    requires read { spec.IsRead sources.now files.now }
    requires orders { spec.AreOrders sources.now files.now orders.items }
    ensures more { spec.IfOk result (spec.HaveOneMoreOrder sources.now files.now orders.items) }
    ensures fault { spec.IfErr result (spec.IsProgramFault sources.now files.now) }
{
    match order_at(alloc, sources, files, orders.as_slice().len()) {
        Ok(order) => with_last(orders, order),
        Err(fault) => refuse(fault, orders),
    }
}

/// The orders of the declarations of all files of a checked program, with the batches of their loops. `sources` are the
/// texts, and `files` what their names are.
///
/// # Errors
///
/// - `Limit`: a batch has more than 800 instances.
/// - `OutOfMemory`.
pub fn file_orders(
    alloc: Global,
    sources: &[SourceFile],
    files: &[ResolvedFile],
) -> Result<Vec<FileOrder>, EmitFault>
    requires { spec.IsRead sources.now files.now }
    ensures orders { spec.IfOk result (spec.AreAllOrders sources.now files.now) }
    ensures fault { spec.IfErr result (spec.IsProgramFault sources.now files.now) }
{
    let mut all = Vec::new(alloc);
    for _ in 0..files.len() {
        match with_order(alloc, sources, files, all) {
            Ok(more) => all = more,
            Err(fault) => return Err(fault),
        }
    }
    Ok(all)
}

// The parts of the file of a number, with its text.
fn part_by<'a>(
    alloc: Global,
    form: Form,
    sources: &[SourceFile],
    files: &'a [ResolvedFile],
    source: &SourceFile,
    order: &'a FileOrder,
    number: usize,
) -> Result<FileParts<'a>, EmitFault>
    requires read { spec.IsReadWith sources.now files.now number source.now }
    requires order { spec.IsOrderAt sources.now files.now number order.now }
    ensures part { spec.IfOk result (spec.IsPartAt form sources.now files.now number) }
    ensures fault { spec.IfErr result (spec.IsProgramFault sources.now files.now) }
{
    match file_at(files, number) {
        Some(file) => file_parts(alloc, form, source, file, files, order),
        None => Err(EmitFault::OutOfMemory),
    }
}

// The parts of the file of a number.
fn part_at<'a>(
    alloc: Global,
    form: Form,
    sources: &[SourceFile],
    files: &'a [ResolvedFile],
    order: &'a FileOrder,
    number: usize,
) -> Result<FileParts<'a>, EmitFault>
    requires read { spec.IsRead sources.now files.now }
    requires order { spec.IsOrderAt sources.now files.now number order.now }
    ensures part { spec.IfOk result (spec.IsPartAt form sources.now files.now number) }
    ensures fault { spec.IfErr result (spec.IsProgramFault sources.now files.now) }
{
    match source_at(sources, number) {
        Some(source) => part_by(alloc, form, sources, files, source, order, number),
        None => Err(EmitFault::OutOfMemory),
    }
}

// The parts of the first files with those of the next one.
fn with_part<'a>(
    alloc: Global,
    form: Form,
    sources: &[SourceFile],
    files: &'a [ResolvedFile],
    order: &'a FileOrder,
    parts: Vec<FileParts<'a>>,
) -> Result<Vec<FileParts<'a>>, EmitFault>
    requires read { spec.IsRead sources.now files.now }
    requires order { spec.IsNextOrder sources.now files.now parts.items order.now }
    requires parts { spec.AreParts form sources.now files.now parts.items }
    ensures more { spec.IfOk result (spec.HaveOneMorePart form sources.now files.now parts.entry.items) }
    ensures fault { spec.IfErr result (spec.IsProgramFault sources.now files.now) }
{
    match part_at(alloc, form, sources, files, order, parts.as_slice().len()) {
        Ok(part) => with_last(parts, part),
        Err(fault) => refuse(fault, parts),
    }
}

// The parts of all files, in a list that is empty before.
fn parts_in<'a>(
    alloc: Global,
    form: Form,
    sources: &[SourceFile],
    files: &'a [ResolvedFile],
    orders: &'a [FileOrder],
    empty: Vec<FileParts<'a>>,
) -> Result<Vec<FileParts<'a>>, EmitFault>
    requires read { spec.IsRead sources.now files.now }
    requires orders { spec.AreOrdersOfAll sources.now files.now orders.now }
    requires empty { spec.IsEmpty empty.items }
    ensures parts { spec.IfOk result (spec.AreAllParts form sources.now files.now) }
    ensures fault { spec.IfErr result (spec.IsProgramFault sources.now files.now) }
{
    let mut all = empty;
    for order in orders {
        match with_part(alloc, form, sources, files, order, all) {
            Ok(more) => all = more,
            Err(fault) => return Err(fault),
        }
    }
    Ok(all)
}

/// What the templates of all files of a checked program are made of in a form, by the numbers of the files. `orders`
/// is what `file_orders` returned.
///
/// # Errors
///
/// - `Limit`: a file has more than 256 parameters, 512 variables, 64 outputs or 800 resources, with their number.
/// - `OutOfMemory`.
pub fn program_parts<'a>(
    alloc: Global,
    form: Form,
    sources: &[SourceFile],
    files: &'a [ResolvedFile],
    orders: &'a [FileOrder],
) -> Result<Vec<FileParts<'a>>, EmitFault>
    requires read { spec.IsRead sources.now files.now }
    requires orders { spec.AreOrdersOfAll sources.now files.now orders.now }
    ensures parts { spec.IfOk result (spec.AreAllParts form sources.now files.now) }
    ensures fault { spec.IfErr result (spec.IsProgramFault sources.now files.now) }
{
    parts_in(alloc, form, sources, files, orders, Vec::new(alloc))
}
