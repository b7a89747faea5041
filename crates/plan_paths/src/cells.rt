// The paths of the cells of lines.
ghost use Rattle.std.specs.Prelude.{◌≡◌, ◌<◌, codes, length, IfOk, nat_lt, true};
ghost use Rattle.std.specs.List.{list_all};
ghost use Rattle.deploy_cells.specs.Cells.{Step, step};
ghost use Rattle.plan_sight.specs.Children.{NamesDiffer, output_names};
ghost use Rattle.plan_table.specs.declared.line.Spot.TheVariants as spot;
ghost use Rattle.plan_table.specs.Lines.{cell_of, line_at, name_at, IsPlaced};
ghost use Rattle.plan_table.specs.Opened.{step_of};
ghost use Rattle.plan_table.specs.Whole.{whole_of, scopes_of, IsLaid};
ghost use Rattle.plan_table.specs.Found.{scope_at};
ghost use Rattle.plan_paths.specs.CellPaths.{named_path, member_path, output_path, cell_path, element_path};
ghost use Rattle.plan_paths.specs.Resources.{below};
ghost use Rattle.plan_paths.specs.Texts.{a_path, scope_text};

use crate::resources::below;
use crate::scopes::{instance_path, scope_path};
use arm_value::{OutOfMemory, Path, Text};
use plan_table::frame::Instance;
use plan_table::line::Spot;
use plan_table::table::Table;
use std::alloc::Global;

// The path of what has a name, in this member of a scope.
fn named_path(
    alloc: Global,
    table: &Table,
    frame: usize,
    list: &str,
    name: &Text,
) -> Result<Path, OutOfMemory>
    requires laid { IsLaid table.now }
    requires there { frame < length table.now.frames.items }
    requires word { list_all (λ b. nat_lt b 128) list.now ≡ true }
    ensures { IfOk result (λ p. p ≡ named_path (whole_of table.now).template (scope_at table.now frame).position
        list.now name.now) }
{
    let scope = scope_path(alloc, table, frame)?;
    let list = below(alloc, &scope, list)?;
    list.member(alloc, name.as_str())
}

// The path of this member of an instance.
fn member_path(
    alloc: Global,
    table: &Table,
    frame: usize,
    instance: Instance,
    member: &str,
) -> Result<Path, OutOfMemory>
    requires laid { IsLaid table.now }
    requires there { frame < length table.now.frames.items }
    requires word { list_all (λ b. nat_lt b 128) member.now ≡ true }
    ensures { IfOk result (λ p. p ≡ member_path (whole_of table.now).template (scope_at table.now frame).position
        (step_of instance) member.now) }
{
    let path = instance_path(alloc, table, frame, instance)?;
    below(alloc, &path, member)
}

// The path of a parameter.
fn parameter_path(
    alloc: Global,
    table: &Table,
    frame: usize,
    number: usize,
) -> Result<Path, OutOfMemory>
    requires laid { IsLaid table.now }
    requires names_differ { NamesDiffer (whole_of table.now).template }
    requires spot { IsPlaced (scopes_of table.now) (spot.Parameter frame number) }
    ensures { IfOk result (λ p. p ≡ cell_path (whole_of table.now).template
        (cell_of (scopes_of table.now) (spot.Parameter frame number))) }
{
    let parameters = table.frames[frame].template.parameters.as_slice();
    named_path(alloc, table, frame, "parameters", &parameters[number].name)
}

// The path of a variable.
fn variable_path(
    alloc: Global,
    table: &Table,
    frame: usize,
    number: usize,
) -> Result<Path, OutOfMemory>
    requires laid { IsLaid table.now }
    requires names_differ { NamesDiffer (whole_of table.now).template }
    requires spot { IsPlaced (scopes_of table.now) (spot.Variable frame number) }
    ensures { IfOk result (λ p. p ≡ cell_path (whole_of table.now).template
        (cell_of (scopes_of table.now) (spot.Variable frame number))) }
{
    let variables = table.frames[frame].template.variables.as_slice();
    named_path(alloc, table, frame, "variables", &variables[number].name)
}

// The path of this member of an output.
fn output_member(
    alloc: Global,
    table: &Table,
    frame: usize,
    number: usize,
    member: &str,
) -> Result<Path, OutOfMemory>
    requires laid { IsLaid table.now }
    requires names_differ { NamesDiffer (whole_of table.now).template }
    requires spot { IsPlaced (scopes_of table.now) (spot.Offered frame number) }
    requires word { list_all (λ b. nat_lt b 128) member.now ≡ true }
    ensures { IfOk result (λ p. p ≡ below (output_path (whole_of table.now).template
        (scope_at table.now frame).position
        (name_at (output_names (scope_at table.now frame).template) number)) member.now) }
{
    let outputs = table.frames[frame].template.outputs.as_slice();
    let path = named_path(alloc, table, frame, "outputs", &outputs[number].name)?;
    below(alloc, &path, member)
}

// The path of the count of a resource.
#[tactic(auto, unfolding(crate::specs::CellPaths::cell_path))]
fn count_path(
    alloc: Global,
    table: &Table,
    frame: usize,
    resource: usize,
) -> Result<Path, OutOfMemory>
    requires laid { IsLaid table.now }
    requires there { frame < length table.now.frames.items }
    ensures { IfOk result (λ p. p ≡ cell_path (whole_of table.now).template
        (cell_of (scopes_of table.now) (spot.Count frame resource))) }
{
    let copy = member_path(alloc, table, frame, Instance { resource, copy: 0 }, "copy")?;
    below(alloc, &copy, "count")
}

/// The path of the cell of a line.
#[tactic(auto, unfolding(crate::specs::CellPaths::cell_path))]
pub fn line_path(alloc: Global, table: &Table, at: usize) -> Result<Path, OutOfMemory>
    requires laid { IsLaid table.now }
    requires names_differ { NamesDiffer (whole_of table.now).template }
    requires listed { at < length table.now.lines.items }
    ensures { IfOk result (λ p. p ≡ cell_path (whole_of table.now).template
        (cell_of (scopes_of table.now) (line_at table.now.lines.items at).spot)) }
{
    match table.lines[at].spot {
        Spot::Parameter(frame, number) => parameter_path(alloc, table, frame, number),
        Spot::Variable(frame, number) => variable_path(alloc, table, frame, number),
        Spot::Offered(frame, number) => output_member(alloc, table, frame, number, "condition"),
        Spot::Output(frame, number) => output_member(alloc, table, frame, number, "value"),
        Spot::Count(frame, resource) => count_path(alloc, table, frame, resource),
        Spot::Included(frame, resource, copy) => member_path(
            alloc,
            table,
            frame,
            Instance { resource, copy },
            "condition",
        ),
        Spot::Name(frame, resource, copy) => {
            member_path(alloc, table, frame, Instance { resource, copy }, "name")
        }
        Spot::Deployments(frame) => {
            let scope = scope_path(alloc, table, frame)?;
            below(alloc, &scope, "resources")
        }
    }
}

/// The path of an element of `dependsOn` of an instance.
pub fn element_path(
    alloc: Global,
    table: &Table,
    frame: usize,
    instance: Instance,
    element: usize,
) -> Result<Path, OutOfMemory>
    requires laid { IsLaid table.now }
    requires there { frame < length table.now.frames.items }
    ensures { IfOk result (λ p. p ≡ element_path (whole_of table.now).template
        (scope_at table.now frame).position (step_of instance) element) }
{
    let list = member_path(alloc, table, frame, instance, "dependsOn")?;
    list.item(alloc, element)
}
