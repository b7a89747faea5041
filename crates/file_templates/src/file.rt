//! The template of a file: its order, its table, what it is made of, what it takes of the limits, and the template.
ghost use Rattle.file_templates.specs.Clauses as spec;

use crate::fault::{EmitFault, refuse};
use arm_value::OutOfMemory;
use bicep_dependencies::dependencies;
use bicep_program::SourceFile;
use file_metadata::{FileMetadata, metadata_of_file};
use file_tables::{FileOrder, file_order, file_table};
use parameter_rules::parameters;
use resolved_program::ResolvedFile;
use source_templates::laws::{
    symbols_have_the_same_numbers, templates_are_of_their_texts,
    templates_have_the_existing_resources_of_texts, templates_have_the_metadata_of_texts,
};
use source_templates::{
    Measure, Table, checked_files_are_placed, checked_files_have_kinds, checked_names_differ,
    first_beyond, measured_file, nested_templates_are_given, parameters_are_there, template,
    templates_have_few_parts, templates_have_the_parts_of_the_file, templates_keep_the_rules,
};
use std::alloc::Global;
use std::collections::BTreeSet;
use symbol_decorators::{BatchFault, batches};
use template_parts::{Batches, Form, Parameter, Which};
use template_tree::Template;

// The fault of a file whose loops have no batches.
fn batch_fault(fault: BatchFault) -> EmitFault
    ensures { spec.IsFaultOf fault result }
{
    match fault {
        BatchFault::TooLarge(size) => EmitFault::Limit(Which::Batch, size),
        BatchFault::OutOfMemory => EmitFault::OutOfMemory,
    }
}

// The order of the declarations of a file, with these batches.
fn order_with(
    alloc: Global,
    file: &ResolvedFile,
    batches: &[Batches],
) -> Result<FileOrder, EmitFault>
    requires { spec.IsOfChecked file.now }
    ensures order { spec.IfOk result (spec.IsOrderFor file.now) }
    ensures batches { spec.IfOk result (spec.HasBatches file.now batches.now) }
    ensures fault { spec.IfErr result spec.IsMemoryFault }
{
    match file_order(alloc, file, batches) {
        Ok(order) => Ok(order),
        Err(_) => Err(EmitFault::OutOfMemory),
    }
}

/// The order of the declarations of a file of a checked program, with the batches that its decorators give. `source` is
/// its text, and `file` what its names are.
///
/// # Errors
///
/// - `Limit`: a batch has more than 800 instances.
/// - `OutOfMemory`.
pub fn file_loops(
    alloc: Global,
    source: &SourceFile,
    file: &ResolvedFile,
) -> Result<FileOrder, EmitFault>
    requires { spec.IsOfChecked file.now }
    ensures order { spec.IfOk result (spec.IsOrderFor file.now) }
    ensures loops { spec.IfOk result (spec.HasLoops (spec.text_of source.now) file.now) }
    ensures fault { spec.IfErr result (spec.IsBatchFault (spec.text_of source.now)) }
{
    match batches(alloc, source.file.as_slice()) {
        Ok(batches) => order_with(alloc, file, batches.as_slice()),
        Err(fault) => Err(batch_fault(fault)),
    }
}

/// What a template is made of, beside the table of its file and the templates of its modules.
#[derive(Drop)]
pub struct Parts {
    /// By the number of each symbol its parameter, without the default.
    pub rules: Vec<Option<Parameter>>,
    /// The metadata of the symbols and of the outputs, by their numbers.
    pub metadata: FileMetadata,
    /// By the number of each symbol the resources and modules that its declaration mentions.
    pub mentioned: Vec<BTreeSet<usize>>,
    /// What the template takes of the limits, without the templates of its modules.
    pub measure: Measure,
}

/// What the template of a file is made of, beside the templates of its modules.
#[derive(Drop)]
pub struct FileParts<'a> {
    /// The form of the template.
    pub form: Form,
    /// What the declarations of the file become.
    pub table: Table<'a>,
    /// The other parts.
    pub parts: Parts,
}

// The parameters of a file.
fn rules_of(
    alloc: Global,
    source: &SourceFile,
    file: &ResolvedFile,
) -> Result<Vec<Option<Parameter>>, OutOfMemory>
    requires { spec.IsShallow source.now }
    ensures { spec.IfOk result (spec.AreRulesOf (spec.text_of source.now) file.now) }
{
    parameters(
        alloc,
        file.entries.as_slice(),
        file.declared.declarations.as_slice(),
        source.file.as_slice(),
    )
}

// What the declarations of a file mention.
fn mentions_of(
    alloc: Global,
    file: &ResolvedFile,
    order: &[u32],
) -> Result<Vec<BTreeSet<usize>>, OutOfMemory>
    requires { spec.HasOrder file.now order.now }
    ensures { spec.IfOk result (spec.AreMentionsOf file.now) }
{
    dependencies(
        alloc,
        file.entries.as_slice(),
        file.declared.declarations.as_slice(),
        order,
    )
}

// The metadata of a file.
fn metadata_of(alloc: Global, source: &SourceFile) -> Result<FileMetadata, OutOfMemory>
    requires { spec.IsShallow source.now }
    ensures { spec.IfOk result (spec.IsMetadataOf (spec.text_of source.now)) }
{
    metadata_of_file(alloc, source.file.as_slice())
}

// What the template of the file takes, without those of its modules.
fn measure_of(
    alloc: Global,
    table: &Table,
    form: Form,
    rules: &[Option<Parameter>],
    metadata: &FileMetadata,
    mentioned: &[BTreeSet<usize>],
) -> Result<Measure, OutOfMemory>
    requires table { spec.IsOfFile table.now }
    requires mentioned { spec.AreMentioned table.now mentioned.now }
    ensures { spec.IfOk result (spec.IsMeasureOf form table.now rules.now metadata.now) }
{
    measured_file(
        alloc,
        table,
        form,
        rules,
        metadata.symbols.as_slice(),
        metadata.outputs.as_slice(),
        mentioned,
        &[],
    )
}

// These parts, with what the template takes of the limits.
fn measured_parts(
    alloc: Global,
    table: &Table,
    form: Form,
    rules: Vec<Option<Parameter>>,
    metadata: FileMetadata,
    mentioned: Vec<BTreeSet<usize>>,
) -> Result<Parts, EmitFault>
    requires table { spec.IsOfFile table.now }
    requires mentioned { spec.AreMentioned table.now mentioned.items }
    ensures parts { spec.IfOk result (spec.AreParts form table.now rules.items metadata mentioned.items) }
    ensures fault { spec.IfErr result spec.IsMemoryFault }
{
    match measure_of(
        alloc,
        table,
        form,
        rules.as_slice(),
        &metadata,
        mentioned.as_slice(),
    ) {
        Ok(measure) => Ok(Parts {
            rules,
            metadata,
            mentioned,
            measure,
        }),
        Err(_) => refuse(EmitFault::OutOfMemory, (rules, metadata, mentioned)),
    }
}

// The same with what the declarations of the file mention.
fn mentioned_parts(
    alloc: Global,
    form: Form,
    file: &ResolvedFile,
    order: &[u32],
    table: &Table,
    rules: Vec<Option<Parameter>>,
    metadata: FileMetadata,
) -> Result<Parts, EmitFault>
    requires order { spec.HasOrder file.now order.now }
    requires table { spec.IsTabledBySome file.now table.now }
    ensures parts { spec.IfOk result (spec.AreMentionedParts form table.now rules.items metadata) }
    ensures fault { spec.IfErr result spec.IsMemoryFault }
{
    match mentions_of(alloc, file, order) {
        Ok(mentioned) => measured_parts(alloc, table, form, rules, metadata, mentioned),
        Err(_) => refuse(EmitFault::OutOfMemory, (rules, metadata)),
    }
}

// The same with the metadata of the file.
fn ruled_parts(
    alloc: Global,
    form: Form,
    source: &SourceFile,
    file: &ResolvedFile,
    order: &[u32],
    table: &Table,
    rules: Vec<Option<Parameter>>,
) -> Result<Parts, EmitFault>
    requires text { spec.IsShallow source.now }
    requires order { spec.HasOrder file.now order.now }
    requires table { spec.IsTabledBySome file.now table.now }
    ensures parts { spec.IfOk result (spec.AreRuledParts form (spec.text_of source.now) table.now rules.items) }
    ensures fault { spec.IfErr result spec.IsMemoryFault }
{
    match metadata_of(alloc, source) {
        Ok(metadata) => mentioned_parts(alloc, form, file, order, table, rules, metadata),
        Err(_) => refuse(EmitFault::OutOfMemory, rules),
    }
}

// What the template of the file of a table is made of.
fn parts_of(
    alloc: Global,
    form: Form,
    source: &SourceFile,
    file: &ResolvedFile,
    order: &[u32],
    table: &Table,
) -> Result<Parts, EmitFault>
    requires text { spec.IsShallow source.now }
    requires order { spec.HasOrder file.now order.now }
    requires table { spec.IsTabledIn (spec.text_of source.now) file.now table.now }
    ensures parts { spec.IfOk result (spec.ArePartsOf form (spec.text_of source.now) table.now) }
    ensures fault { spec.IfErr result spec.IsMemoryFault }
{
    parameters_are_there();
    match rules_of(alloc, source, file) {
        Ok(rules) => ruled_parts(alloc, form, source, file, order, table, rules),
        Err(_) => Err(EmitFault::OutOfMemory),
    }
}

// The fault of a template with so many parts.
fn count_fault(beyond: (Which, u64)) -> EmitFault
    ensures { spec.IsCount beyond result }
{
    EmitFault::Limit(beyond.0, beyond.1)
}

// What the template of the file of a table is made of, where none of its lists is too long.
fn counted_parts(
    alloc: Global,
    form: Form,
    source: &SourceFile,
    file: &ResolvedFile,
    order: &[u32],
    table: &Table,
) -> Result<Parts, EmitFault>
    requires text { spec.IsShallow source.now }
    requires order { spec.HasOrder file.now order.now }
    requires table { spec.IsTabledIn (spec.text_of source.now) file.now table.now }
    ensures parts { spec.IfOk result (spec.AreCountedParts form (spec.text_of source.now) table.now) }
    ensures fault { spec.IfErr result (spec.IsCountOrMemory table.now) }
{
    match first_beyond(table) {
        Some(beyond) => Err(count_fault(beyond)),
        None => parts_of(alloc, form, source, file, order, table),
    }
}

// The same with the table.
fn tabled<'a>(
    alloc: Global,
    form: Form,
    source: &SourceFile,
    file: &ResolvedFile,
    order: &[u32],
    table: Table<'a>,
) -> Result<FileParts<'a>, EmitFault>
    requires text { spec.IsShallow source.now }
    requires order { spec.HasOrder file.now order.now }
    requires table { spec.IsTabledIn (spec.text_of source.now) file.now table }
    ensures parts { spec.IfOk result (spec.AreWithTable form (spec.text_of source.now) table.entry) }
    ensures fault { spec.IfErr result (spec.IsCountOrMemory table.entry) }
{
    match counted_parts(alloc, form, source, file, order, &table) {
        Ok(parts) => Ok(FileParts { form, table, parts }),
        Err(fault) => refuse(fault, table),
    }
}

/// What the template of a file of a checked program is made of in a form, beside the templates of its modules. `source`
/// is its text, `file` what its names are, `files` are all files of the program, and `order` is what `file_loops`
/// returned.
///
/// # Errors
///
/// - `Limit`: there are more than 256 parameters, 512 variables, 64 outputs or 800 resources, with their number.
/// - `OutOfMemory`.
pub fn file_parts<'a>(
    alloc: Global,
    form: Form,
    source: &SourceFile,
    file: &'a ResolvedFile,
    files: &'a [ResolvedFile],
    order: &'a FileOrder,
) -> Result<FileParts<'a>, EmitFault>
    requires text { spec.IsShallow source.now }
    requires checked { spec.IsOfProgram files.now file.now }
    requires order { spec.IsOrderFor file.now order.now }
    requires loops { spec.HasLoops (spec.text_of source.now) file.now order.now }
    ensures parts { spec.IfOk result (spec.ArePartsFor form (spec.text_of source.now) file.now files.now) }
    ensures fault { spec.IfErr result (spec.IsFileFault (spec.text_of source.now) file.now files.now) }
{
    checked_files_are_placed();
    checked_files_have_kinds();
    checked_names_differ();
    match file_table(alloc, file, files, order) {
        Ok(table) => tabled(alloc, form, source, file, order.order.as_slice(), table),
        Err(_) => Err(EmitFault::OutOfMemory),
    }
}

// The template of the file of a table, which is beyond no limit.
fn made(
    alloc: Global,
    table: &Table,
    form: Form,
    rules: &[Option<Parameter>],
    metadata: &FileMetadata,
    mentioned: &[BTreeSet<usize>],
    templates: Vec<Option<Template>>,
) -> Result<Template, OutOfMemory>
    requires ready { spec.IsReady table.now }
    requires fits { spec.CanBeMade form table.now rules.now }
    requires mentioned { spec.AreMentioned table.now mentioned.now }
    requires given { spec.AreGivenIn table.now (spec.templates_of templates.items) }
    ensures text { spec.IfOk result (spec.IsOfEachText form table.now rules.now (spec.templates_of templates.items)) }
    ensures keeps { spec.IfOk result (spec.IsKeptBy table.now (spec.templates_of templates.items)) }
    ensures metadata { spec.IfOk result (spec.IsNotedForEach form table.now rules.now metadata.now) }
    ensures few { spec.IfOk result (spec.HasFewIn table.now) }
{
    templates_keep_the_rules();
    templates_have_the_parts_of_the_file();
    templates_are_of_their_texts();
    symbols_have_the_same_numbers();
    nested_templates_are_given();
    templates_have_the_existing_resources_of_texts();
    templates_have_the_metadata_of_texts();
    templates_have_few_parts();
    template(
        alloc,
        table,
        form,
        rules,
        metadata.symbols.as_slice(),
        metadata.outputs.as_slice(),
        mentioned,
        templates,
    )
}

/// The template of a file of a checked program. `parts` are what `file_parts` returned, which take no more than the
/// limits of templates. `templates` has by the number of each symbol the template of the file of its module, where it
/// is that of a module.
///
/// # Errors
///
/// `OutOfMemory`.
pub fn file_template(
    alloc: Global,
    parts: &FileParts,
    templates: Vec<Option<Template>>,
) -> Result<Template, OutOfMemory>
    requires parts { spec.CanBeFilled parts.now }
    requires given { spec.AreGivenIn parts.now.table (spec.templates_of templates.items) }
    ensures made { spec.IsMadeForEach parts.now (spec.templates_of templates.items) result }
    ensures keeps { spec.KeepsForEach parts.now (spec.templates_of templates.items) result }
    ensures metadata { spec.HasMetadataForEach parts.now result }
    ensures few { spec.HasFewForEach parts.now result }
{
    made(
        alloc,
        &parts.table,
        parts.form,
        parts.parts.rules.as_slice(),
        &parts.parts.metadata,
        parts.parts.mentioned.as_slice(),
        templates,
    )
}
