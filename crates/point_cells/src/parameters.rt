// The value of a parameter at a point.
ghost use Rattle.std.specs.Prelude.{◌≡◌, ◌<◌, [], bytes_eq, length, option_map, Some, true, false};
ghost use Rattle.arm_value.specs.Look.{fold};
ghost use Rattle.arm_value.specs.View.{json};
ghost use Rattle.template_parameters.specs.Binding.{value_view};
ghost use Rattle.deploy_cells.specs.Guarded.{there_if};
ghost use Rattle.plan_cells.specs.Meaning.{default_value, bound_value, parameter_value};
ghost use Rattle.plan_cells.specs.Resources as cells;
ghost use Rattle.plan_cells.specs.Sites.{first_with};
ghost use Rattle.plan_table.specs.declared.line.Spot.TheVariants as spot;
ghost use Rattle.plan_table.specs.Lines.{IsNumber};
ghost use Rattle.plan_table.specs.Opened.{step_of};
ghost use Rattle.plan_table.specs.Whole.{whole_of};
ghost use Rattle.plan_table.specs.Found.{scope_at};
ghost use Rattle.plan_sight.specs.Seen.{Shows, Yields};
ghost use Rattle.point_sights.specs.Symbols.{IsComplete};
ghost use Rattle.plan_values.specs.Values.{IsSpot, IsOpener, argument_value};
ghost use Rattle.point_rows.specs.Rows.{told_now, IsFit};
ghost use Rattle.point_cells.specs.RawNow.{raw_now};

use arm_env::stop::let_go;
use arm_value::{Text, Value};
use plan_sight::lack::Lack;
use plan_table::frame::Instance;
use plan_values::content::source_of;
use plan_values::declared::{listed_at, parameter_at};
use plan_values::scopes::texts_at;
use point_rows::later::Later;
use point_sights::register::Register;
use point_sights::scopes::{told_in_instance, told_in_scope};
use point_sights::source::Source;
use std::alloc::Global;
use template_parts::{Argument, BoundParameter, BoundValue, Parameter};
use template_tree::Body;

// What is bound to the parameter of a name, in letters of any case.
fn bound_to<'b>(bound: &'b [BoundParameter], name: &Text) -> Option<&'b BoundValue>
    ensures { option_map (λ v. v.now) result
        ≡ option_map (λ b. b.value) (first_with (λ b. bytes_eq (fold name.now) (fold b.name)) bound.now) }
{
    for parameter in bound {
        if parameter.name.equals_ignore_case(name.as_str()) {
            return Some(&parameter.value);
        }
    }
    None
}

// What is given for the parameter of a name, in letters of any case.
fn argument_named<'b>(arguments: &'b [Argument], name: &Text) -> Option<&'b Argument>
    ensures { option_map (λ a. a.now) result
        ≡ first_with (λ a. bytes_eq (fold name.now) (fold a.name)) arguments.now }
{
    for argument in arguments {
        if argument.name.equals_ignore_case(name.as_str()) {
            return Some(argument);
        }
    }
    None
}

// What is told of what is bound to a parameter of the root.
fn bound_told(
    alloc: Global,
    register: &Register,
    later: &Later,
    bound: &BoundValue,
) -> Result<Value, Lack>
    requires complete { IsComplete register.now }
    requires fit { IsFit register.now.table later.now }
    ensures { Yields json register.now.table result
        (told_now register.now.table later.now (bound_value (whole_of register.now.table) (value_view bound.now))) }
{
    match bound {
        BoundValue::Known(value) => match value.copy(alloc) {
            Ok(value) => Ok(value),
            Err(_) => Err(Lack::OutOfMemory),
        },
        BoundValue::Default(tree) => told_in_scope(alloc, register, later, 0, &Source::Tree(tree)),
    }
}

// What is told of the default of a parameter of a scope.
fn default_told(
    alloc: Global,
    register: &Register,
    later: &Later,
    frame: usize,
    parameter: &Parameter,
) -> Result<Value, Lack>
    requires complete { IsComplete register.now }
    requires fit { IsFit register.now.table later.now }
    requires there { frame < length register.now.table.frames.items }
    ensures { Shows json register.now.table result (told_now register.now.table later.now (there_if (default_value
        (whole_of register.now.table) (scope_at register.now.table frame).position parameter.now))) }
{
    match &parameter.default_value {
        Some(tree) => told_in_scope(alloc, register, later, frame, &Source::Tree(tree)),
        None => Err(Lack::NotThere),
    }
}

// What is told of an argument of an instance of a nested deployment.
fn argument_told(
    alloc: Global,
    register: &Register,
    later: &Later,
    frame: usize,
    instance: Instance,
    argument: &Argument,
) -> Result<Value, Lack>
    requires complete { IsComplete register.now }
    requires fit { IsFit register.now.table later.now }
    requires there { frame < length register.now.table.frames.items }
    requires number { IsNumber (scope_at register.now.table frame) instance.resource }
    requires copy { instance.copy < 800 }
    ensures { Yields json register.now.table result (told_now register.now.table later.now
        (argument_value register.now.table frame (step_of instance) argument.now)) }
{
    match Text::of(alloc, "value") {
        Ok(name) => {
            let texts = texts_at(register, frame);
            let source = source_of(&name, &argument.content);
            let told = told_in_instance(alloc, register, later, frame, instance, texts, &source);
            let_go(name);
            told
        }
        Err(_) => Err(Lack::OutOfMemory),
    }
}

// What a nested deployment of a scope gives for the parameters of its template.
fn arguments_of<'t>(register: &'t Register, frame: usize, resource: usize) -> &'t [Argument]
    requires there { frame < length register.now.table.frames.items }
    requires number { IsNumber (scope_at register.now.table frame) resource }
    ensures { (n : cells.Nested) → cells.nested_at (scope_at register.now.table frame).template resource ≡ Some n
        → cells.resources_in (scope_at register.now.table frame).template
        ≡ (scope_at register.now.table frame).resources → result.now ≡ n.arguments }
{
    match listed_at(register, frame, resource).body {
        Body::Deployment(deployment) => deployment.parameters.as_slice(),
        Body::Members(_) => &[],
    }
}

// The instance that opened a scope.
fn opener_of(register: &Register, frame: usize) -> Instance
    requires there { frame < length register.now.table.frames.items }
    requires inside { 0 < length (scope_at register.now.table frame).position }
    ensures { IsOpener register.now.table frame result }
{
    let position = register.table.frames[frame].position.as_slice();
    position[0]
}

// The number of the frame around that of a scope.
fn around_of(register: &Register, frame: usize) -> usize
    requires { frame < length register.now.table.frames.items }
    ensures { result ≡ (scope_at register.now.table frame).around }
{
    register.table.frames[frame].around
}

// The value of a parameter of a scope inside another, by the instance that opened the scope.
fn given_told(
    alloc: Global,
    register: &Register,
    later: &Later,
    frame: usize,
    parameter: &Parameter,
) -> Result<Value, Lack>
    requires complete { IsComplete register.now }
    requires fit { IsFit register.now.table later.now }
    requires there { frame < length register.now.table.frames.items }
    requires inside { 0 < length (scope_at register.now.table frame).position }
    ensures { Shows json register.now.table result (told_now register.now.table later.now (there_if (parameter_value
        (whole_of register.now.table) (scope_at register.now.table frame).position (fold parameter.now.name)
        parameter.now))) }
{
    let instance = opener_of(register, frame);
    let around = around_of(register, frame);
    let arguments = arguments_of(register, around, instance.resource);
    match argument_named(arguments, &parameter.name) {
        Some(argument) => argument_told(alloc, register, later, around, instance, argument),
        None => default_told(alloc, register, later, frame, parameter),
    }
}

// Whether a scope is inside another.
fn is_inside(register: &Register, frame: usize) -> bool
    requires { frame < length register.now.table.frames.items }
    ensures inside { result ≡ true → 0 < length (scope_at register.now.table frame).position }
    ensures root { result ≡ false → (scope_at register.now.table frame).position ≡ [] }
{
    let position = register.table.frames[frame].position.as_slice();
    if position.len() == 0 { false } else { true }
}

// The value of a parameter of the root.
fn root_told(
    alloc: Global,
    register: &Register,
    later: &Later,
    parameter: &Parameter,
) -> Result<Value, Lack>
    requires complete { IsComplete register.now }
    requires fit { IsFit register.now.table later.now }
    ensures { Shows json register.now.table result (told_now register.now.table later.now (there_if (parameter_value
        (whole_of register.now.table) [] (fold parameter.now.name) parameter.now))) }
{
    match bound_to(register.table.bound.as_slice(), &parameter.name) {
        Some(bound) => bound_told(alloc, register, later, bound),
        None => Err(Lack::NotThere),
    }
}

/// The value of a parameter: of the root what it is bound to, of a scope inside what its nested deployment gives for
/// it, else its default.
pub fn parameter_told(
    alloc: Global,
    register: &Register,
    later: &Later,
    frame: usize,
    number: usize,
) -> Result<Value, Lack>
    requires complete { IsComplete register.now }
    requires fit { IsFit register.now.table later.now }
    requires spot { IsSpot register.now.table (spot.Parameter frame number) }
    ensures { Shows json register.now.table result
        (raw_now register.now.table later.now (spot.Parameter frame number)) }
{
    let parameter = parameter_at(register, frame, number);
    if is_inside(register, frame) {
        given_told(alloc, register, later, frame, parameter)
    } else {
        root_told(alloc, register, later, parameter)
    }
}
