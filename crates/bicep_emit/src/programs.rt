//! The template of a program: that of its main file, with those of its modules in it.
ghost use Rattle.bicep_emit.specs.Clauses as spec;

use arm_value::OutOfMemory;
use bicep_names::Kind;
use bicep_program::{Program, SourceFile};
use bicep_symbols::Entry;
use bicep_types::Checked;
use foundation::limits::{MAX_JSON_NESTING, MAX_TEMPLATE_BYTES};
use program_parts::{
    EmitFault, FileOrder, FileParts, checked_files_have_kinds, file_orders, file_template,
    module_number, outputs_are_of_the_program, parts_within_the_limits_can_be_filled,
    program_parts, whole_limits, whole_templates_are_emitted,
};
use resolved_program::ResolvedFile;
use std::alloc::Global;
use template_lengths::added;
use template_nestings::laws::templates_nest_no_deeper;
use template_nestings::nesting;
use template_parts::{Form, Which, run_out};
use template_tree::Template;

// How deep modules are in one another at most, where the template nests at most 120: each adds four arrays and objects
// around its template.
const MAX_MODULE_DEPTH: u32 = 30;

// The fault; the part is dropped.
fn refuse<T: Drop, R: Drop>(fault: EmitFault, _part: T) -> Result<R, EmitFault>
    ensures { spec.IsRefused fault result }
{
    Err(fault)
}

// What the template of the file of a number is made of.
fn part_at<'p, 'a>(parts: &'p [FileParts<'a>], number: usize) -> Option<&'p FileParts<'a>>
    ensures { spec.IfSome result (λ x. spec.IsAt parts.now number x.now) }
{
    parts.get(number)
}

// One less, where it is not 0.
fn below(depth: u32) -> Option<u32>
    ensures { spec.IsBelow depth result }
{
    if depth == 0 { None } else { Some(depth - 1) }
}

// Templates of modules, by the numbers of their symbols, and how many bytes they have together at least.
#[derive(Drop)]
struct Inner {
    templates: Vec<Option<Template>>,
    bytes: u64,
}

// The template, where there was memory for it.
fn or_fault(template: Result<Template, OutOfMemory>) -> Result<Template, EmitFault>
    ensures { spec.IsOrFault template result }
{
    match template {
        Ok(template) => Ok(template),
        Err(_) => Err(EmitFault::OutOfMemory),
    }
}

// The templates with one more.
fn with_last(
    templates: Vec<Option<Template>>,
    template: Option<Template>,
) -> Result<Vec<Option<Template>>, OutOfMemory>
    ensures { spec.IfOk result (spec.HasLastItem templates.items template) }
{
    let mut templates = templates;
    match templates.push(template) {
        Ok(()) => Ok(templates),
        Err(_) => run_out(templates),
    }
}

// These templates, where there was memory for them, which have together so many bytes at least.
fn inner_of(
    templates: Result<Vec<Option<Template>>, OutOfMemory>,
    bytes: u64,
) -> Result<Inner, EmitFault>
    ensures { spec.IsInnerOf templates bytes result }
{
    match templates {
        Ok(templates) => Ok(Inner { templates, bytes }),
        Err(_) => Err(EmitFault::OutOfMemory),
    }
}

// The templates with one more, where they have no more bytes than a template may have.
fn short_enough(
    templates: Vec<Option<Template>>,
    template: Option<Template>,
    bytes: u64,
) -> Result<Inner, EmitFault>
    ensures last { spec.IfOk result (spec.HasLast templates.items template bytes) }
    ensures fault { spec.IfErr result (spec.IsTooMany bytes) }
{
    if bytes > MAX_TEMPLATE_BYTES as u64 {
        refuse(EmitFault::Limit(Which::Bytes, bytes), (templates, template))
    } else {
        inner_of(with_last(templates, template), bytes)
    }
}

// The templates with one more, and their bytes.
fn counted(alloc: Global, inner: Inner, template: Option<Template>) -> Result<Inner, EmitFault>
    requires keeps { spec.OptionKeeps template }
    requires least { spec.IsLeast inner }
    ensures last { spec.IfOk result (spec.HasOneMore inner template) }
    ensures fault { spec.IfErr result (spec.IsOneTooMany inner template) }
{
    match added(alloc, inner.bytes, &template) {
        Ok(bytes) => short_enough(inner.templates, template, bytes),
        Err(_) => refuse(EmitFault::OutOfMemory, (inner, template)),
    }
}

// The template of the file of a number, with those of its modules, which are in one another at most so deep.
#[cycle(files)]
fn whole_file(
    alloc: Global,
    parts: &[FileParts],
    number: usize,
    depth: u32,
) -> Result<Template, EmitFault>
    requires { spec.CanBeWhole parts.now number depth }
    ensures whole { spec.IfOk result (spec.IsWholeIn parts.now number) }
    ensures fault { spec.IfErr result (spec.IsInnerFault parts.now) }
{
    match part_at(parts, number) {
        Some(part) => whole_of(alloc, parts, part, depth),
        None => Err(EmitFault::OutOfMemory),
    }
}

// The template of a file of the program.
#[cycle(files)]
fn whole_of(
    alloc: Global,
    parts: &[FileParts],
    part: &FileParts,
    depth: u32,
) -> Result<Template, EmitFault>
    requires { spec.CanBeWholePart parts.now part.now depth }
    ensures whole { spec.IsWholeAtEach parts.now part.now result }
    ensures fault { spec.IfErr result (spec.IsInnerFault parts.now) }
{
    parts_within_the_limits_can_be_filled();
    checked_files_have_kinds();
    outputs_are_of_the_program();
    match modules(alloc, parts, part.table.file().entries.as_slice(), depth) {
        Ok(inner) => or_fault(file_template(alloc, part, inner.templates)),
        Err(fault) => Err(fault),
    }
}

// The templates of the modules among these symbols, by their numbers.
#[cycle(files)]
fn modules(
    alloc: Global,
    parts: &[FileParts],
    entries: &[Entry],
    depth: u32,
) -> Result<Inner, EmitFault>
    requires { spec.CanBeModules parts.now entries.now depth }
    ensures modules { spec.IfOk result (spec.AreModulesIn parts.now entries.now) }
    ensures fault { spec.IfErr result (spec.IsModulesFault parts.now entries.now) }
{
    let mut all = Inner {
        templates: Vec::new(alloc),
        bytes: 0,
    };
    for entry in entries {
        match with_module(alloc, parts, entry.kind, depth, all) {
            Ok(more) => all = more,
            Err(fault) => return Err(fault),
        }
    }
    Ok(all)
}

// The templates with that of a symbol, where it is a module.
#[cycle(files)]
fn with_module(
    alloc: Global,
    parts: &[FileParts],
    kind: Kind,
    depth: u32,
    inner: Inner,
) -> Result<Inner, EmitFault>
    requires { spec.CanBeNext parts.now kind depth inner }
    ensures module { spec.IfOk result (spec.HasModule parts.now kind inner) }
    ensures fault { spec.IfErr result (spec.IsModuleFault parts.now kind inner) }
{
    match module(alloc, parts, kind, depth) {
        Ok(template) => counted(alloc, inner, template),
        Err(fault) => refuse(fault, inner),
    }
}

// The template of a symbol, where it is a module.
#[cycle(files)]
fn module(
    alloc: Global,
    parts: &[FileParts],
    kind: Kind,
    depth: u32,
) -> Result<Option<Template>, EmitFault>
    requires { spec.CanBeModule parts.now kind depth }
    ensures module { spec.IfOk result (spec.IsModuleFor parts.now kind) }
    ensures fault { spec.IfErr result (spec.IsInnerFault parts.now) }
{
    match module_number(kind) {
        Some(number) => deeper(alloc, parts, number, depth),
        None => Ok(None),
    }
}

// The template of the file of a module.
#[cycle(files)]
fn deeper(
    alloc: Global,
    parts: &[FileParts],
    number: usize,
    depth: u32,
) -> Result<Option<Template>, EmitFault>
    requires { spec.CanBeInner parts.now number depth }
    ensures inner { spec.IfOk result (spec.IsInner parts.now number) }
    ensures fault { spec.IfErr result (spec.IsInnerFault parts.now) }
{
    match below(depth) {
        Some(less) => match whole_file(alloc, parts, number, less) {
            Ok(template) => Ok(Some(template)),
            Err(fault) => Err(fault),
        },
        None => unreachable!(),
    }
}

// How deep a template nests, where that is above 120.
fn above(depth: u64) -> Option<u64>
    ensures { spec.IsAbove depth result }
{
    if depth > MAX_JSON_NESTING as u64 {
        Some(depth)
    } else {
        None
    }
}

// The template, where what is written of it nests at most 120.
fn within(template: Template) -> Result<Template, EmitFault>
    ensures within { spec.IfOk result (spec.IsWithin template) }
    ensures fault { spec.IfErr result (spec.IsNestingFault template) }
{
    templates_nest_no_deeper();
    match above(nesting(&template)) {
        Some(depth) => refuse(EmitFault::Limit(Which::Nesting, depth), template),
        None => Ok(template),
    }
}

// The template of a program that is beyond no limit, by what its files are made of.
fn built(alloc: Global, parts: &[FileParts]) -> Result<Template, EmitFault>
    requires known { spec.AreOfProgram parts.now }
    requires within { spec.IsWholeWithin parts.now }
    ensures whole { spec.IfOk result (spec.IsWholeAndWithin parts.now) }
    ensures fault { spec.IfErr result (spec.IsBuiltFault parts.now) }
{
    match whole_file(alloc, parts, 0, MAX_MODULE_DEPTH) {
        Ok(template) => within(template),
        Err(fault) => Err(fault),
    }
}

// The template of a program, by what its files are made of.
fn limited(alloc: Global, parts: &[FileParts]) -> Result<Template, EmitFault>
    requires { spec.AreOfProgram parts.now }
    ensures whole { spec.IfOk result (spec.IsWholeAndWithin parts.now) }
    ensures fault { spec.IfErr result (spec.IsPartsFault parts.now) }
{
    match whole_limits(alloc, parts) {
        Ok(()) => built(alloc, parts),
        Err(fault) => Err(fault),
    }
}

// The template of a program, with the orders of the declarations of its files.
fn ordered(
    alloc: Global,
    form: Form,
    sources: &[SourceFile],
    files: &[ResolvedFile],
    orders: &[FileOrder],
) -> Result<Template, EmitFault>
    requires read { spec.IsRead sources.now files.now }
    requires orders { spec.AreOrdersOfAll sources.now files.now orders.now }
    ensures whole { spec.IfOk result (spec.IsWholeProgram form sources.now files.now) }
    ensures fault { spec.IfErr result (spec.IsEmissionFault form sources.now files.now) }
{
    match program_parts(alloc, form, sources, files, orders) {
        Ok(parts) => limited(alloc, parts.as_slice()),
        Err(fault) => Err(fault),
    }
}

/// The template of a program in a form: that of its main file, in which each module is a nested deployment with
/// the template of its own file. `program` is what `load` of `bicep_program` returned, and `checked` what `check` of
/// `bicep_types` returned for it.
///
/// # Errors
///
/// - `Limit`: a quantity of the template is beyond its limit, with its number.
///   Modules that are in one another above 30 deep count as 31 deep. `Limit(Bytes, n)`: the templates of modules of one
///   file, which are all in the template of this file, have together n bytes, more than 4,194,304.
/// - `TooDeep`: an expression nests above 64, and no other limit is passed.
/// - `OutOfMemory`.
pub fn emit(
    alloc: Global,
    program: &Program,
    checked: &Checked,
    form: Form,
) -> Result<Template, EmitFault>
    requires loaded { spec.IsLoaded program.now }
    requires checked { spec.IsCheckedAs program.now checked.now }
    requires none { spec.HasNoFault program.now }
    ensures emitted { spec.IfOk result (spec.IsEmission form program.now checked.now) }
    ensures fault { spec.IfErr result (spec.IsEmitFault form program.now checked.now) }
{
    whole_templates_are_emitted();
    let sources = program.files.as_slice();
    let files = checked.resolved.files.as_slice();
    match file_orders(alloc, sources, files) {
        Ok(orders) => ordered(alloc, form, sources, files, orders.as_slice()),
        Err(fault) => Err(fault),
    }
}
