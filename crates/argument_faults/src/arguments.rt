// What a nested deployment gives for the parameters of its template.
ghost use Rattle.std.specs.Prelude.{◌≡◌, slice_get, Some, true, false, IfOk, MatchOption};
ghost use Rattle.deploy_cells.specs.Cells.{step};
ghost use Rattle.name_set.specs.Names.{is_named};
ghost use Rattle.template_tree.specs.View.{template_tree};
ghost use Rattle.plan_cells.specs.Children.{Has};
ghost use Rattle.plan_cells.specs.Resources as cells;
ghost use Rattle.plan_table.specs.Whole.{whole_of, IsLaid};
ghost use Rattle.plan_table.specs.Found.{scope_at};
ghost use Rattle.plan_tasks.specs.Start.{IsInstance};
ghost use Rattle.plan_faults.specs.Faults.{argument_path};
ghost use Rattle.argument_faults.specs.Extra.{parameter_titles};
ghost use Rattle.template_parts.specs.declared.content.Argument as given;

use arm_value::{OutOfMemory, Path, Text};
use name_set::NameSet;
use plan_openers::Opener;
use plan_paths::{below, instance_path};
use plan_table::frame::Instance;
use plan_table::table::Table;
use std::alloc::Global;
use template_parts::Argument;
use template_tree::{Body, Template};

/// The names of the parameters of a template.
pub fn parameter_names(alloc: Global, template: &Template) -> Result<NameSet, OutOfMemory>
    ensures { IfOk result (λ s. s ≡ parameter_titles (template_tree template.now)) }
{
    let mut names = NameSet::new(alloc);
    for parameter in template.parameters.as_slice() {
        names = names.with(alloc, &parameter.name)?;
    }
    Ok(names)
}

/// The first of these that is for none of the parameters of these names.
pub fn find_extra<'t>(
    alloc: Global,
    names: &NameSet,
    arguments: &'t [Argument],
) -> Result<Option<&'t Argument>, OutOfMemory>
    ensures extra { IfOk result (λ o. MatchOption o (Unit {0})
        (λ a. Has a.now arguments.now × (is_named names.now a.now.name ≡ false))) }
    ensures none { IfOk result (λ o. MatchOption o
        ((a : given.Argument) → Has a arguments.now → is_named names.now a.name ≡ true) (λ _. Unit {0})) }
{
    for argument in arguments {
        if names.has(alloc, &argument.name)? {
            continue;
        }
        return Ok(Some(argument));
    }
    Ok(None)
}

/// What the nested deployment of an instance gives for the parameters of its template.
pub fn arguments_of<'t>(table: &'t Table, opener: Opener) -> &'t [Argument]
    requires { IsInstance table.now opener.frame opener.resource opener.copy }
    ensures { (x : cells.Listed) → slice_get (scope_at table.now opener.frame).resources opener.resource ≡ Some x
        → (n : cells.Nested) → cells.nested_in x.content ≡ Some n → result.now ≡ n.arguments }
{
    match table.frames[opener.frame].resources[opener.resource].body {
        Body::Deployment(deployment) => deployment.parameters.as_slice(),
        Body::Members(_) => &[],
    }
}

/// The path of what the nested deployment of an instance gives for a name.
pub fn argument_path(
    alloc: Global,
    table: &Table,
    opener: Opener,
    name: &Text,
) -> Result<Path, OutOfMemory>
    requires laid { IsLaid table.now }
    requires instance { IsInstance table.now opener.frame opener.resource opener.copy }
    ensures { IfOk result (λ p. p ≡ argument_path (whole_of table.now).template
        (scope_at table.now opener.frame).position (step opener.resource opener.copy) name.now) }
{
    let instance = Instance {
        resource: opener.resource,
        copy: opener.copy,
    };
    let path = instance_path(alloc, table, opener.frame, instance)?;
    let properties = below(alloc, &path, "properties")?;
    let parameters = below(alloc, &properties, "parameters")?;
    parameters.member(alloc, name.as_str())
}
