//! The resources of a template.
ghost use Rattle.std.specs.Prelude.{◌≡◌, ◌++◌, ◌∷◌, ◌<◌, [], None, IfOk, length, option_map};
ghost use Rattle.std.specs.Prelude.{slice_get, slice_index_or, slice_set, is_some, Some};
ghost use Rattle.template_tree.specs.View.{resource_tree, template_tree};
ghost use Rattle.bicep_declared.specs.View.{declared_tree};
ghost use Rattle.bicep_meaning.specs.Files.{declaration};
ghost use Rattle.source_worlds.specs.Numbers.{in_template};
ghost use Rattle.emitted_modules.specs.Seen.{file_in};
ghost use Rattle.file_resources.specs.Built.{AreBuilt, HasMetadata, HaveMetadata, IsBuilt, IsGrown, templates_of};
ghost use Rattle.file_resources.specs.Fits.{IsReady, AreMentioned, IsResourceBy, MayBeBuilt, AllMayBeBuilt};

use crate::parts::part;
use arm_value::{OutOfMemory, Value};
use bicep_declared::Declared;
use emitted_modules::Table;
use emitted_parts::{lacks, letting_go};
use std::alloc::Global;
use std::collections::BTreeSet;
use std::mem;
use template_numbers::numbers;
use template_parts::Form;
use template_tree::{Resource, Resources, Template};

// The template of the module of a number, which is no longer in its place.
fn template_at(templates: &mut Vec<Option<Template>>, number: usize) -> Option<Template>
    requires { number < length templates.old.items }
    ensures value { result ≡ slice_index_or templates.old.items number None }
    ensures after { templates.new.items ≡ slice_set templates.old.items number None }
{
    mem::replace(&mut templates[number], None)
}

// The resources with one more.
fn added(all: Resources, resource: Resource) -> Result<Resources, OutOfMemory>
    ensures { IfOk result (λ rs. rs ≡ all ++ resource_tree resource ∷ []) }
{
    let mut all = all;
    match all.push(resource) {
        Ok(()) => Ok(all),
        Err(_) => lacks(all),
    }
}

// The resource of a declaration that is there.
fn part_by(
    alloc: Global,
    table: &Table,
    form: Form,
    mentioned: &[BTreeSet<usize>],
    metadata: &[Option<Value>],
    number: usize,
    declared: Option<&Declared>,
    template: Option<Template>,
) -> Result<Resource, OutOfMemory>
    requires ready { IsReady table.now }
    requires mentioned { AreMentioned table.now mentioned.now }
    requires declared { option_map (λ d. declared_tree d.now) declared ≡ declaration (file_in table.now) number }
    requires resource { IsResourceBy (declaration (file_in table.now) number) }
    requires built { MayBeBuilt table.now number (is_some template) }
    ensures built { IfOk result (λ r. IsBuilt form table.now number (option_map template_tree template)
        (resource_tree r)) }
    ensures metadata { IfOk result (λ r. HasMetadata metadata.now number (resource_tree r)) }
{
    match declared {
        Some(declared) => part(
            alloc, table, form, mentioned, metadata, number, declared, template,
        ),
        None => unreachable!(),
    }
}

// The declaration of a number.
fn declared_at<'a>(table: &'a Table, number: usize) -> Option<&'a Declared>
    ensures { option_map (λ d. declared_tree d.now) result ≡ declaration (file_in table.now) number }
{
    table.file().declared.declarations.get(number)
}

// The resources with that of a number.
fn with_part(
    alloc: Global,
    table: &Table,
    form: Form,
    mentioned: &[BTreeSet<usize>],
    metadata: &[Option<Value>],
    number: usize,
    template: Option<Template>,
    all: Resources,
) -> Result<Resources, OutOfMemory>
    requires ready { IsReady table.now }
    requires mentioned { AreMentioned table.now mentioned.now }
    requires resource { IsResourceBy (declaration (file_in table.now) number) }
    requires built { MayBeBuilt table.now number (is_some template) }
    ensures { IfOk result (λ rs. IsGrown form table.now metadata.now number
        (option_map template_tree template) all rs) }
{
    let declared = declared_at(table, number);
    match part_by(
        alloc, table, form, mentioned, metadata, number, declared, template,
    ) {
        Ok(part) => added(all, part),
        Err(_) => lacks(all),
    }
}

// The number at a place.
fn number_at(numbers: &[usize], place: usize) -> usize
    requires { place < length numbers.now }
    ensures { slice_get numbers.now place ≡ Some result }
{
    numbers[place]
}

// The resources of these numbers, which are those of the template.
fn resources_of(
    alloc: Global,
    table: &Table,
    form: Form,
    mentioned: &[BTreeSet<usize>],
    metadata: &[Option<Value>],
    numbers: &[usize],
    templates: Vec<Option<Template>>,
) -> Result<Resources, OutOfMemory>
    requires ready { IsReady table.now }
    requires mentioned { AreMentioned table.now mentioned.now }
    requires numbers { numbers.now ≡ in_template form (file_in table.now) }
    requires built { AllMayBeBuilt table.now (templates_of templates.items) }
    ensures built { IfOk result (AreBuilt form table.now (templates_of templates.items) numbers.now) }
    ensures metadata { IfOk result (HaveMetadata metadata.now numbers.now) }
{
    let mut all = Resources::new(alloc);
    let mut rest = templates;
    for place in 0..numbers.len() {
        let number = number_at(numbers, place);
        let template = template_at(&mut rest, number);
        match with_part(
            alloc, table, form, mentioned, metadata, number, template, all,
        ) {
            Ok(more) => all = more,
            Err(_) => return lacks(rest),
        }
    }
    letting_go(Ok(all), rest)
}

/// The resources of the template that a file becomes, with a table of all its declarations, in the order of the
/// template. In the first form there is one for each resource that is put, and for each module, in the order of the
/// file; in the second also one for each existing resource, all in byte order of the names of their symbols.
/// `mentioned` is what `dependencies` of `bicep_dependencies` returns: for each symbol the resources and modules that
/// its declaration mentions. `metadata` has for each symbol the metadata of its resource or module. `templates` has for
/// each symbol the template of the file of its module, where it is that of a module.
///
/// # Errors
///
/// `OutOfMemory`, also where a name, a condition, a count or an id is beyond the limits of expressions.
pub fn resources(
    alloc: Global,
    table: &Table,
    form: Form,
    mentioned: &[BTreeSet<usize>],
    metadata: &[Option<Value>],
    templates: Vec<Option<Template>>,
) -> Result<Resources, OutOfMemory>
    requires ready { IsReady table.now }
    requires mentioned { AreMentioned table.now mentioned.now }
    requires built { AllMayBeBuilt table.now (templates_of templates.items) }
    ensures built { IfOk result (AreBuilt form table.now (templates_of templates.items)
        (in_template form (file_in table.now))) }
    ensures metadata { IfOk result (HaveMetadata metadata.now (in_template form (file_in table.now))) }
{
    match numbers(alloc, table, form) {
        Ok(numbers) => {
            let all = numbers.as_slice();
            let made = resources_of(alloc, table, form, mentioned, metadata, all, templates);
            letting_go(made, numbers)
        }
        Err(_) => lacks(templates),
    }
}
