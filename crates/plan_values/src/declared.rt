// What the template of a scope declares.
ghost use Rattle.std.specs.Prelude.{◌≡◌, ◌<◌, length, get_or, slice_get, Some};
ghost use Rattle.plan_cells.specs.Resources.{header_in};
ghost use Rattle.plan_table.specs.Listed.{listed_of};
ghost use Rattle.plan_table.specs.Lines.{IsNumber};
ghost use Rattle.plan_table.specs.Found.{scope_at};

use plan_table::listed::Listed;
use plan_telling::register::Register;
use template_parts::{Output, Parameter, Variable};

/// The parameter of a scope at a place.
pub fn parameter_at<'t>(register: &'t Register, frame: usize, number: usize) -> &'t Parameter
    requires there { frame < length register.now.table.frames.items }
    requires number { number < length (header_in (scope_at register.now.table frame).template).parameters }
    ensures { result.now
        ≡ get_or (header_in (scope_at register.now.table frame).template).parameters number result.now }
{
    let parameters = register.table.frames[frame].template.parameters.as_slice();
    &parameters[number]
}

/// The variable of a scope at a place.
pub fn variable_at<'t>(register: &'t Register, frame: usize, number: usize) -> &'t Variable
    requires there { frame < length register.now.table.frames.items }
    requires number { number < length (header_in (scope_at register.now.table frame).template).variables }
    ensures { result.now
        ≡ get_or (header_in (scope_at register.now.table frame).template).variables number result.now }
{
    let variables = register.table.frames[frame].template.variables.as_slice();
    &variables[number]
}

/// The output of a scope at a place.
pub fn output_at<'t>(register: &'t Register, frame: usize, number: usize) -> &'t Output
    requires there { frame < length register.now.table.frames.items }
    requires number { number < length (header_in (scope_at register.now.table frame).template).outputs }
    ensures { result.now
        ≡ get_or (header_in (scope_at register.now.table frame).template).outputs number result.now }
{
    let outputs = register.table.frames[frame].template.outputs.as_slice();
    &outputs[number]
}

/// The resource of a scope that has the number.
pub fn listed_at<'t, 'a>(
    register: &'t Register<'a>,
    frame: usize,
    resource: usize,
) -> &'t Listed<'a>
    requires there { frame < length register.now.table.frames.items }
    requires number { IsNumber (scope_at register.now.table frame) resource }
    ensures { slice_get (scope_at register.now.table frame).resources resource ≡ Some (listed_of result.now) }
{
    let resources = register.table.frames[frame].resources.as_slice();
    &resources[resource]
}
