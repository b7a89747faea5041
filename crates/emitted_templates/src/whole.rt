//! The template of a file.
ghost use Rattle.std.specs.Prelude.{◌≡◌, IfOk};
ghost use Rattle.file_resources.specs.Built.{templates_of};
ghost use Rattle.file_resources.specs.Fits.{IsReady, AreMentioned, AllMayBeBuilt};
ghost use Rattle.emitted_templates.specs.Metadata.{IsNoted};
ghost use Rattle.emitted_templates.specs.Templates as spec;
ghost use Rattle.emitted_templates.specs.Templates.{CanBeListed, IsMadeOf, IsTemplateOf};

use crate::lists::{Listed, lists};
use arm_value::{OutOfMemory, Text, Value};
use emitted_parts::lacks;
use file_resources::{Table, resources};
use std::alloc::Global;
use std::collections::BTreeSet;
use template_parts::{Form, Parameter};
use template_tree::{Resources, Template};

const SCHEMA: &str =
    "https://schema.management.azure.com/schemas/2019-04-01/deploymentTemplate.json#";

// The schema of a template, and the version of its content.
fn texts(alloc: Global) -> Result<(Text, Text), OutOfMemory>
    ensures { IfOk result (λ t. (t.0 ≡ spec.schema) × (t.1 ≡ spec.content_version)) }
{
    let schema = Text::of(alloc, SCHEMA)?;
    match Text::of(alloc, "1.0.0.0") {
        Ok(version) => Ok((schema, version)),
        Err(_) => lacks(schema),
    }
}

// The template of these lists and resources.
fn made(
    alloc: Global,
    form: Form,
    lists: Listed,
    resources: Resources,
) -> Result<Template, OutOfMemory>
    ensures { IfOk result (IsMadeOf form lists resources) }
{
    match texts(alloc) {
        Ok((schema, content_version)) => Ok(Template {
            form,
            schema,
            content_version,
            parameters: lists.parameters,
            variables: lists.variables,
            outputs: lists.outputs,
            resources,
        }),
        Err(_) => lacks((lists, resources)),
    }
}

/// The template of a file in a form, with a table of all its declarations. `rules` has at the number of each
/// symbol that is a parameter its name, its type, the values that are allowed, its bounds and its metadata. `metadata`
/// has at the number of each resource and each module its metadata, and `output_metadata` at that of each output.
/// `mentioned` is what `dependencies` of `bicep_dependencies` returns. `templates` has for each symbol the template of
/// the file of its module, where it is that of a module. What declarations become is within the limits of templates.
///
/// # Errors
///
/// `OutOfMemory`, also where a name, a condition, a count or an id is beyond the limits of expressions.
pub fn template(
    alloc: Global,
    table: &Table,
    form: Form,
    rules: &[Option<Parameter>],
    metadata: &[Option<Value>],
    output_metadata: &[Option<Value>],
    mentioned: &[BTreeSet<usize>],
    templates: Vec<Option<Template>>,
) -> Result<Template, OutOfMemory>
    requires ready { IsReady table.now }
    requires listed { CanBeListed table.now rules.now }
    requires mentioned { AreMentioned table.now mentioned.now }
    requires built { AllMayBeBuilt table.now (templates_of templates.items) }
    ensures template { IfOk result (IsTemplateOf form table.now rules.now (templates_of templates.items)) }
    ensures metadata { IfOk result (IsNoted form table.now metadata.now output_metadata.now) }
{
    match resources(alloc, table, form, mentioned, metadata, templates) {
        Ok(resources) => match lists(alloc, table, rules, output_metadata) {
            Ok(lists) => made(alloc, form, lists, resources),
            Err(_) => lacks(resources),
        },
        Err(error) => Err(error),
    }
}
