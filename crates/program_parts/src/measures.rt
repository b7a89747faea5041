//! What the template of a program takes of the limits, before it is made.
ghost use Rattle.program_parts.specs.Clauses as spec;

use arm_value::OutOfMemory;
use bicep_names::Kind;
use bicep_symbols::Entry;
use file_templates::{EmitFault, FileParts, Measure};
use measured_trees::Beyond;
use std::alloc::Global;
use template_parts::Which;

// How many files may be in one another: each module adds four arrays and objects around its template, so that what is
// inside 31 files nests above 120.
const MAX_FILE_DEPTH: usize = 31;

/// The number of the file of a module, by the kind of its symbol.
pub fn module_number(kind: Kind) -> Option<usize>
    ensures { spec.IsModuleOf kind result }
{
    match kind {
        Kind::Module(file) | Kind::ModuleLoop(file) => Some(file),
        Kind::Parameter | Kind::Variable | Kind::Resource(_) | Kind::ResourceLoop(_) => None,
    }
}

// What the template of the file of a number takes.
fn measure_at(measures: &[Measure], number: usize) -> Measure
    ensures { spec.IsMeasureAt measures.now number result }
{
    measures.get(number).copied().unwrap_or(Measure {
        longest: 0,
        deepest: 0,
        depth: 0,
    })
}

// What the template of a module takes, in the template that it is in.
fn inside(measure: Measure) -> Measure
    ensures { spec.IsInside measure result }
{
    measure.enclosed().enclosed().enclosed().enclosed()
}

// What the template of a symbol takes, where it is a module.
fn module_measure(measures: &[Measure], kind: Kind) -> Measure
    ensures { spec.IsModuleMeasure measures.now kind result }
{
    match module_number(kind) {
        Some(number) => inside(measure_at(measures, number)),
        None => Measure::nothing(),
    }
}

// What the templates of the modules among these symbols take.
fn inner_measure(measures: &[Measure], entries: &[Entry]) -> Measure
    ensures { spec.IsInnerMeasure measures.now entries.now result }
{
    let mut all = Measure::nothing();
    for entry in entries {
        all = all.with(module_measure(measures, entry.kind));
    }
    all.ended()
}

// What the template of a file takes, with those of its modules.
fn part_measure(part: &FileParts, measures: &[Measure]) -> Measure
    requires { spec.IsMeasured part.now }
    ensures { spec.IsPartMeasure part.now measures.now result }
{
    let inner = inner_measure(measures, part.table.file().entries.as_slice());
    part.parts.measure.with(inner)
}

// What the templates of all files take, by what those of their modules take.
fn more_measures(
    alloc: Global,
    parts: &[FileParts],
    measures: &[Measure],
) -> Result<Vec<Measure>, OutOfMemory>
    requires { spec.AreMeasured parts.now }
    ensures { spec.AreMoreMeasures parts.now measures.now result }
{
    let mut all = Vec::new(alloc);
    for part in parts {
        all.push(part_measure(part, measures))?;
    }
    Ok(all)
}

// What the templates of all files take, with those of modules that are not too deep in one another.
fn all_measures(alloc: Global, parts: &[FileParts]) -> Result<Vec<Measure>, OutOfMemory>
    requires { spec.AreMeasured parts.now }
    ensures { spec.IfOk result (spec.AreAllMeasures parts.now) }
{
    let mut all = Vec::new(alloc);
    for _ in 0..MAX_FILE_DEPTH {
        match more_measures(alloc, parts, all.as_slice()) {
            Ok(more) => all = more,
            Err(error) => return Err(error),
        }
    }
    Ok(all)
}

// What the template of the program takes.
fn whole_measure(alloc: Global, parts: &[FileParts]) -> Result<Measure, OutOfMemory>
    requires { spec.AreMeasured parts.now }
    ensures { spec.IfOk result (spec.IsWholeMeasure parts.now) }
{
    match all_measures(alloc, parts) {
        Ok(all) => Ok(measure_at(all.as_slice(), 0)),
        Err(error) => Err(error),
    }
}

// The fault of a template that is beyond a limit.
fn beyond_fault(beyond: Beyond) -> EmitFault
    ensures { spec.IsOfBeyond beyond result }
{
    match beyond {
        Beyond::Characters(count) => EmitFault::Limit(Which::Expression, count),
        Beyond::Depth(depth) => EmitFault::Limit(Which::Nesting, depth),
        Beyond::TooDeep => EmitFault::TooDeep,
    }
}

// Nothing, where what takes so much is beyond no limit.
fn limits(measure: Measure) -> Result<(), EmitFault>
    ensures fits { spec.IsBeyondNone measure result }
    ensures fault { spec.HasLimitFault measure result }
{
    match measure.beyond(0) {
        None => Ok(()),
        Some(beyond) => Err(beyond_fault(beyond)),
    }
}

/// Nothing, where the template of a program is beyond no limit, by what its files are made of. No template is made.
///
/// # Errors
///
/// - `Limit`: the text of an expression has more than 24,576 characters, or arrays and objects nest above 120, with the
///   number that is beyond the limit. Modules that are above 30 deep in one another count as 31 deep.
/// - `TooDeep`: an expression nests above 64, and no other limit is passed.
/// - `OutOfMemory`.
pub fn whole_limits(alloc: Global, parts: &[FileParts]) -> Result<(), EmitFault>
    requires { spec.AreMeasured parts.now }
    ensures fits { spec.OnOk result (spec.IsWholeWithin parts.now) }
    ensures fault { spec.IfErr result (spec.IsWholeFault parts.now) }
{
    match whole_measure(alloc, parts) {
        Ok(measure) => limits(measure),
        Err(_) => Err(EmitFault::OutOfMemory),
    }
}
