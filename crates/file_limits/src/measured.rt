//! What the template of a file takes of the limits.
ghost use Rattle.std.specs.Prelude.{◌≡◌, [], Some, IfOk, MatchOption, option_map, slice_index_or};
ghost use Rattle.depend_graph.specs.Sets.{keys_of_each};
ghost use Rattle.bicep_resolved.specs.View.{value_of};
ghost use Rattle.bicep_declared.specs.View.{body_tree, output_tree};
ghost use Rattle.measured_trees.specs.Extremes.{Extremes};
ghost use Rattle.measured_trees.specs.Measures.{IsOf};
ghost use Rattle.emitted_templates.specs.Fits.{IsReady, AreMentioned};
ghost use Rattle.file_limits.specs.Extremes as spec;

use arm_value::{Items, OutOfMemory, Text, Value};
use bicep_declared::{Declared, DeclaredBody, DeclaredOutput};
use bicep_resolved::SourceValue;
use emitted_templates::{
    Measure, Table, measured_arguments, measured_content, measured_default, measured_dependencies,
    measured_head, measured_resource,
};
use std::alloc::Global;
use std::collections::BTreeSet;
use template_parts::{Form, Parameter};

// What nests so deep and has no expression.
fn plain_measure(depth: u64) -> Measure
    ensures { IsOf (spec.plain depth) result }
{
    Measure {
        longest: 0,
        deepest: 0,
        depth,
    }
}

fn allowed_depth(allowed: &Option<Items>) -> u64
    ensures { result ≡ spec.allowed_depth allowed.now }
{
    match allowed {
        Some(items) => items.depth() as u64 + 1,
        None => 0,
    }
}

fn value_depth(value: &Option<Value>) -> u64
    ensures { result ≡ spec.value_depth value.now }
{
    match value {
        Some(value) => value.nesting() as u64,
        None => 0,
    }
}

// How deep the members of a parameter nest, but for its default.
fn rule_depth(rule: &Option<Parameter>) -> u64
    ensures { result ≡ spec.rule_depth rule.now }
{
    match rule {
        Some(rule) => allowed_depth(&rule.allowed_values).max(value_depth(&rule.metadata)),
        None => 0,
    }
}

// What the member `metadata` of an object takes.
fn measured_metadata(metadata: &Option<Value>) -> Measure
    ensures { IsOf (spec.noted metadata.now) result }
{
    plain_measure(value_depth(metadata)).enclosed()
}

// The same for a number.
fn metadata_in(metadata: &[Option<Value>], number: usize) -> Measure
    ensures { IsOf (spec.noted (spec.metadata_at metadata.now number)) result }
{
    match metadata.get(number) {
        Some(metadata) => measured_metadata(metadata),
        None => measured_metadata(&None),
    }
}

// What the default of a declaration takes.
fn measured_default_of(
    alloc: Global,
    table: &Table,
    number: usize,
    declared: &Declared,
) -> Result<Measure, OutOfMemory>
    requires ready { IsReady table.now }
    requires declared { spec.Declares table.now number declared.now }
    ensures { IfOk result (IsOf (spec.default_in table.now number)) }
{
    match declared {
        Declared::ParameterWith(_, _, value) => measured_default(alloc, table, value),
        Declared::Parameter(_, _)
        | Declared::Variable(_, _)
        | Declared::Resource(_, _, _, _)
        | Declared::Module(_, _) => Ok(Measure::nothing()),
    }
}

// What the object of a parameter takes.
fn measured_parameter(
    alloc: Global,
    table: &Table,
    number: usize,
    declared: &Declared,
    rule: &Option<Parameter>,
) -> Result<Measure, OutOfMemory>
    requires ready { IsReady table.now }
    requires declared { spec.Declares table.now number declared.now }
    ensures { IfOk result (IsOf (spec.parameter_extremes table.now rule.now number)) }
{
    let default = measured_default_of(alloc, table, number, declared)?;
    Ok(default.with(plain_measure(rule_depth(rule))).enclosed())
}

// What the parameter of a number takes, by the rules of all.
fn parameter_in(
    alloc: Global,
    table: &Table,
    rules: &[Option<Parameter>],
    number: usize,
    declared: &Declared,
) -> Result<Measure, OutOfMemory>
    requires ready { IsReady table.now }
    requires declared { spec.Declares table.now number declared.now }
    ensures { IfOk result (IsOf (spec.ruled_extremes table.now rules.now number)) }
{
    match rules.get(number) {
        Some(rule) => measured_parameter(alloc, table, number, declared, rule),
        None => measured_parameter(alloc, table, number, declared, &None),
    }
}

// What the value of a variable of a name takes.
fn measured_entry(
    alloc: Global,
    table: &Table,
    name: Option<&Text>,
    value: &SourceValue,
) -> Result<Measure, OutOfMemory>
    requires ready { IsReady table.now }
    ensures { IfOk result (IsOf (spec.named_extremes table.now (option_map (λ t. t.now) name.entry)
        (value_of value.now))) }
{
    match name {
        Some(name) => measured_content(alloc, table, Some(name), value, &[]),
        None => Ok(Measure::nothing()),
    }
}

// What a variable takes, where it has an entry.
fn measured_variable(
    alloc: Global,
    table: &Table,
    number: usize,
    value: &SourceValue,
) -> Result<Measure, OutOfMemory>
    requires ready { IsReady table.now }
    requires declared { spec.DeclaresVariable table.now number (value_of value.now) }
    ensures { IfOk result (IsOf (spec.variable_extremes table.now number)) }
{
    if table.is_entry(number) {
        measured_entry(alloc, table, table.name_of(number), value)
    } else {
        Ok(Measure::nothing())
    }
}

// Whether a value has one item for each of a list.
#[tactic(auto, using(bicep_resolved::proofs::ViewLemmas::enums))]
fn is_loop(value: &SourceValue) -> bool
    ensures { result ≡ spec.is_loop (value_of value.now) }
{
    match value {
        SourceValue::Plain(_) => false,
        SourceValue::Each(_, _) => true,
    }
}

// What the object of an output takes, by what the value of a variable does.
fn output_object(looped: bool, value: Measure) -> Measure
    ensures { (x : Extremes) → IsOf x value → IsOf (spec.output_object looped x) result }
{
    if looped { value } else { value.enclosed() }
}

// What the object of an output takes.
fn measured_output(
    alloc: Global,
    table: &Table,
    declared: &DeclaredOutput,
) -> Result<Measure, OutOfMemory>
    requires ready { IsReady table.now }
    ensures { IfOk result (IsOf (spec.content_extremes table.now (value_of declared.now.value))) }
{
    let value = measured_content(alloc, table, None, &declared.value, &[])?;
    Ok(output_object(is_loop(&declared.value), value))
}

// The same with the metadata of the output of a number.
fn noted_output(
    alloc: Global,
    table: &Table,
    metadata: &[Option<Value>],
    number: usize,
    declared: &DeclaredOutput,
) -> Result<Measure, OutOfMemory>
    requires ready { IsReady table.now }
    ensures { IfOk result (IsOf (spec.output_value table.now (spec.metadata_at metadata.now number)
        (Some (output_tree declared.now)))) }
{
    let output = measured_output(alloc, table, declared)?;
    Ok(output.with(metadata_in(metadata, number)))
}

// The numbers that the declaration of a symbol mentions.
fn mentioned_by(mentioned: &[BTreeSet<usize>], number: usize) -> Option<&BTreeSet<usize>>
    ensures { MatchOption result (slice_index_or (keys_of_each mentioned.now) number [] ≡ [])
        (λ s. slice_index_or (keys_of_each mentioned.now) number [] ≡ s.now.keys) }
{
    mentioned.get(number)
}

// What the array `dependsOn` of a number takes.
fn measured_elements(
    alloc: Global,
    table: &Table,
    form: Form,
    mentioned: &[BTreeSet<usize>],
    number: usize,
) -> Measure
    requires ready { IsReady table.now }
    requires mentioned { AreMentioned table.now mentioned.now }
    ensures { IsOf (spec.dependency_extremes form table.now number) result }
{
    match mentioned_by(mentioned, number) {
        Some(numbers) => measured_dependencies(table, form, numbers),
        None => {
            let none = BTreeSet::new(alloc);
            measured_dependencies(table, form, &none)
        }
    }
}

// What the member `copy` takes.
fn measured_loop(body: &DeclaredBody) -> Measure
    ensures { IsOf (spec.loop_extremes (body_tree body.now).each) result }
{
    match &body.each {
        Some(_) => Measure::nothing().enclosed(),
        None => Measure::nothing(),
    }
}

// What the members `dependsOn` and `copy` take.
fn measured_needs(
    alloc: Global,
    table: &Table,
    form: Form,
    mentioned: &[BTreeSet<usize>],
    number: usize,
    body: &DeclaredBody,
) -> Measure
    requires ready { IsReady table.now }
    requires mentioned { AreMentioned table.now mentioned.now }
    ensures { IsOf (spec.needs_extremes form table.now number (body_tree body.now)) result }
{
    let elements = measured_elements(alloc, table, form, mentioned, number);
    elements.with(measured_loop(body)).enclosed()
}

// What the object of a resource takes.
fn measured_put(
    alloc: Global,
    table: &Table,
    form: Form,
    mentioned: &[BTreeSet<usize>],
    number: usize,
    body: &DeclaredBody,
) -> Result<Measure, OutOfMemory>
    requires ready { IsReady table.now }
    requires mentioned { AreMentioned table.now mentioned.now }
    ensures { IfOk result (IsOf (spec.put_extremes form table.now number (body_tree body.now))) }
{
    let resource = measured_resource(alloc, table, number, body)?;
    Ok(resource.with(measured_needs(alloc, table, form, mentioned, number, body)))
}

// The same with its metadata.
fn noted_put(
    alloc: Global,
    table: &Table,
    form: Form,
    metadata: &[Option<Value>],
    mentioned: &[BTreeSet<usize>],
    number: usize,
    body: &DeclaredBody,
) -> Result<Measure, OutOfMemory>
    requires ready { IsReady table.now }
    requires mentioned { AreMentioned table.now mentioned.now }
    ensures { IfOk result (IsOf (spec.put_object form table.now number (body_tree body.now)
        (spec.metadata_at metadata.now number))) }
{
    let put = measured_put(alloc, table, form, mentioned, number, body)?;
    Ok(put.with(metadata_in(metadata, number)))
}

// What the object of an existing resource takes: a template of the first form has none.
fn measured_existing(
    table: &Table,
    form: Form,
    metadata: &[Option<Value>],
    number: usize,
    body: &DeclaredBody,
) -> Measure
    requires { IsReady table.now }
    ensures { IsOf (spec.existing_extremes form table.now number (body_tree body.now)
        (spec.metadata_at metadata.now number)) result }
{
    match form {
        Form::One => Measure::nothing(),
        Form::Two => measured_head(table, number, body)
            .with(measured_loop(body).enclosed())
            .with(metadata_in(metadata, number)),
    }
}

// What the properties of a nested deployment take, by what its template takes.
fn measured_properties(
    alloc: Global,
    table: &Table,
    number: usize,
    body: &DeclaredBody,
    template: Measure,
) -> Result<Measure, OutOfMemory>
    requires ready { IsReady table.now }
    ensures { spec.TakesAround template result (λ x. spec.properties_extremes table.now number (body_tree body.now) x) }
{
    let arguments = measured_arguments(alloc, table, number, body)?;
    Ok(arguments.enclosed().enclosed().with(template).enclosed())
}

// What the object of a module takes, by what the template of its file takes.
fn measured_module(
    alloc: Global,
    table: &Table,
    form: Form,
    mentioned: &[BTreeSet<usize>],
    number: usize,
    body: &DeclaredBody,
    template: Measure,
) -> Result<Measure, OutOfMemory>
    requires ready { IsReady table.now }
    requires mentioned { AreMentioned table.now mentioned.now }
    ensures { spec.TakesAround template result
        (λ x. spec.module_extremes form table.now number (body_tree body.now) x) }
{
    let properties = measured_properties(alloc, table, number, body, template)?;
    let needs = measured_needs(alloc, table, form, mentioned, number, body);
    Ok(measured_head(table, number, body).with(needs.with(properties.enclosed())))
}

// The same with its metadata.
fn noted_module(
    alloc: Global,
    table: &Table,
    form: Form,
    metadata: &[Option<Value>],
    mentioned: &[BTreeSet<usize>],
    number: usize,
    body: &DeclaredBody,
    template: Measure,
) -> Result<Measure, OutOfMemory>
    requires ready { IsReady table.now }
    requires mentioned { AreMentioned table.now mentioned.now }
    ensures { spec.TakesAround template result (λ x. spec.module_object form table.now number (body_tree body.now)
        (spec.metadata_at metadata.now number) x) }
{
    let object = measured_module(alloc, table, form, mentioned, number, body, template)?;
    Ok(object.with(metadata_in(metadata, number)))
}

// What the template of the module of a number takes.
fn inner_of(inner: &[Measure], number: usize) -> Measure
    ensures { spec.IsInner inner.now number result }
{
    inner.get(number).copied().unwrap_or(Measure {
        longest: 0,
        deepest: 0,
        depth: 0,
    })
}

// What a declaration takes.
fn measured_declaration(
    alloc: Global,
    table: &Table,
    form: Form,
    rules: &[Option<Parameter>],
    metadata: &[Option<Value>],
    mentioned: &[BTreeSet<usize>],
    inner: &[Measure],
    number: usize,
    declared: &Declared,
) -> Result<Measure, OutOfMemory>
    requires ready { IsReady table.now }
    requires mentioned { AreMentioned table.now mentioned.now }
    requires declared { spec.Declares table.now number declared.now }
    ensures { spec.TakesWith inner.now result
        (λ x. spec.declaration_extremes form table.now rules.now metadata.now x number) }
{
    match declared {
        Declared::Parameter(_, _) | Declared::ParameterWith(_, _, _) => {
            parameter_in(alloc, table, rules, number, declared)
        }
        Declared::Variable(_, value) => measured_variable(alloc, table, number, value),
        Declared::Resource(_, _, existing, body) => {
            if *existing {
                Ok(measured_existing(table, form, metadata, number, body))
            } else {
                noted_put(alloc, table, form, metadata, mentioned, number, body)
            }
        }
        Declared::Module(_, body) => {
            let template = inner_of(inner, number);
            noted_module(
                alloc, table, form, metadata, mentioned, number, body, template,
            )
        }
    }
}

// What these declarations take, which are those of the file.
fn measured_declarations(
    alloc: Global,
    table: &Table,
    form: Form,
    rules: &[Option<Parameter>],
    metadata: &[Option<Value>],
    mentioned: &[BTreeSet<usize>],
    inner: &[Measure],
    declarations: &[Declared],
) -> Result<Measure, OutOfMemory>
    requires ready { IsReady table.now }
    requires mentioned { AreMentioned table.now mentioned.now }
    requires declared { spec.AreDeclared table.now declarations.now }
    ensures { spec.TakesWith inner.now result
        (λ x. spec.all_declarations form table.now rules.now metadata.now x) }
{
    let mut all = Measure::nothing();
    for (number, declared) in declarations.iter().enumerate() {
        let one = measured_declaration(
            alloc, table, form, rules, metadata, mentioned, inner, number, declared,
        )?;
        all = all.with(one);
    }
    Ok(all)
}

// What these outputs take, which are those of the file.
fn measured_outputs(
    alloc: Global,
    table: &Table,
    metadata: &[Option<Value>],
    outputs: &[DeclaredOutput],
) -> Result<Measure, OutOfMemory>
    requires ready { IsReady table.now }
    requires declared { spec.AreDeclaredOutputs table.now outputs.now }
    ensures { IfOk result (IsOf (spec.all_outputs table.now metadata.now)) }
{
    let mut all = Measure::nothing();
    for (number, declared) in outputs.iter().enumerate() {
        let one = noted_output(alloc, table, metadata, number, declared)?;
        all = all.with(one);
    }
    Ok(all)
}

/// How much of the limits of templates the template of a file takes in a form, with a table of all its declarations.
/// `rules` has at the number of each symbol that is a parameter the values that are allowed and its metadata; `symbols`
/// has the metadata of resources and modules, by the numbers of their symbols, and `outputs` that of outputs.
/// `mentioned` is what `dependencies` of `bicep_dependencies` returns. `inner` has at the number of each module what
/// the template of its file takes.
///
/// # Errors
///
/// `OutOfMemory`.
pub fn measured_file(
    alloc: Global,
    table: &Table,
    form: Form,
    rules: &[Option<Parameter>],
    symbols: &[Option<Value>],
    outputs: &[Option<Value>],
    mentioned: &[BTreeSet<usize>],
    inner: &[Measure],
) -> Result<Measure, OutOfMemory>
    requires ready { IsReady table.now }
    requires mentioned { AreMentioned table.now mentioned.now }
    ensures { spec.TakesWith inner.now result
        (λ x. spec.file_extremes form table.now rules.now symbols.now outputs.now x) }
{
    let declared = &table.file().declared;
    let declarations = declared.declarations.as_slice();
    let of_outputs = measured_outputs(alloc, table, outputs, declared.outputs.as_slice())?;
    let all = measured_declarations(
        alloc,
        table,
        form,
        rules,
        symbols,
        mentioned,
        inner,
        declarations,
    )?;
    Ok(all.with(of_outputs).enclosed().enclosed())
}
