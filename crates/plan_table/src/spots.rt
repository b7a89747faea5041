// The spots of the cells that a scope has, and of those that the instances of a resource have.
ghost use Rattle.std.specs.Prelude.{◌≡◌, ◌++◌, ◌∷◌, [], IfOk, OnOk, map, length, if◌then◌else◌};
ghost use Rattle.plan_table.specs.declared.line.Spot.TheVariants.{Parameter, Variable, Offered, Count, Included, Name};
ghost use Rattle.plan_filling.specs.Children.{parameter_names, variable_names, output_names};
ghost use Rattle.plan_table.specs.Listed.{listed_of};
ghost use Rattle.plan_table.specs.Opened.{opened_of};
ghost use Rattle.plan_table.specs.Spots.{below, counts_below, own_spots, scope_spots, instance_spots};

use crate::frame::Frame;
use crate::line::Spot;
use crate::listed::Listed;
use arm_value::OutOfMemory;
use std::alloc::Global;

// Adds the spots of parameters.
fn push_parameters(spots: &mut Vec<Spot>, frame: usize, count: usize) -> Result<(), OutOfMemory>
    ensures { OnOk result (spots.new.items ≡ spots.old.items ++ below (λ i. Parameter frame i) count) }
{
    for number in 0..count {
        spots.push(Spot::Parameter(frame, number))?;
    }
    Ok(())
}

// Adds the spots of variables.
fn push_variables(spots: &mut Vec<Spot>, frame: usize, count: usize) -> Result<(), OutOfMemory>
    ensures { OnOk result (spots.new.items ≡ spots.old.items ++ below (λ i. Variable frame i) count) }
{
    for number in 0..count {
        spots.push(Spot::Variable(frame, number))?;
    }
    Ok(())
}

// Adds the spots of the conditions of outputs.
fn push_offered(spots: &mut Vec<Spot>, frame: usize, count: usize) -> Result<(), OutOfMemory>
    ensures { OnOk result (spots.new.items ≡ spots.old.items ++ below (λ i. Offered frame i) count) }
{
    for number in 0..count {
        spots.push(Spot::Offered(frame, number))?;
    }
    Ok(())
}

// Adds the spot of the count of a resource, unless it is existing.
fn push_count(
    spots: &mut Vec<Spot>,
    frame: usize,
    number: usize,
    existing: bool,
) -> Result<(), OutOfMemory>
    ensures { OnOk result (spots.new.items
        ≡ spots.old.items ++ (if existing then [] else Count frame number ∷ [])) }
{
    if existing {
        return Ok(());
    }
    spots.push(Spot::Count(frame, number))?;
    Ok(())
}

// Adds the spots of the counts of resources that are not existing.
fn push_counts(spots: &mut Vec<Spot>, frame: usize, resources: &[Listed]) -> Result<(), OutOfMemory>
    ensures { OnOk result (spots.new.items ≡ spots.old.items
        ++ counts_below frame (map listed_of resources.now) (length resources.now)) }
{
    for number in 0..resources.len() {
        let existing = resources[number].declaration.existing;
        push_count(spots, frame, number, existing)?;
    }
    Ok(())
}

// Adds the spots of parameters and variables, where the scope has its own.
fn push_own(spots: &mut Vec<Spot>, number: usize, frame: &Frame) -> Result<(), OutOfMemory>
    ensures { OnOk result (spots.new.items ≡ spots.old.items ++ own_spots frame.now.own number
        (length (parameter_names (opened_of frame.now).template))
        (length (variable_names (opened_of frame.now).template))) }
{
    if !frame.own {
        return Ok(());
    }
    push_parameters(spots, number, frame.template.parameters.len())?;
    push_variables(spots, number, frame.template.variables.len())
}

/// The spots of the cells of a scope, which has this number.
pub fn spots_of_scope(alloc: Global, number: usize, frame: &Frame) -> Result<Vec<Spot>, OutOfMemory>
    ensures { IfOk result (λ s. s.items ≡ scope_spots number (opened_of frame.now)) }
{
    let mut spots = Vec::new(alloc);
    push_own(&mut spots, number, frame)?;
    push_offered(&mut spots, number, frame.template.outputs.len())?;
    push_counts(&mut spots, number, frame.resources.as_slice())?;
    spots.push(Spot::Deployments(number))?;
    Ok(spots)
}

// Adds the spots of the conditions of instances.
fn push_included(
    spots: &mut Vec<Spot>,
    frame: usize,
    resource: usize,
    count: usize,
) -> Result<(), OutOfMemory>
    ensures { OnOk result (spots.new.items ≡ spots.old.items ++ below (λ i. Included frame resource i) count) }
{
    for copy in 0..count {
        spots.push(Spot::Included(frame, resource, copy))?;
    }
    Ok(())
}

// Adds the spots of the names of instances.
fn push_names(
    spots: &mut Vec<Spot>,
    frame: usize,
    resource: usize,
    count: usize,
) -> Result<(), OutOfMemory>
    ensures { OnOk result (spots.new.items ≡ spots.old.items ++ below (λ i. Name frame resource i) count) }
{
    for copy in 0..count {
        spots.push(Spot::Name(frame, resource, copy))?;
    }
    Ok(())
}

/// The spots of the cells of this many instances of a resource.
pub fn spots_of_instances(
    alloc: Global,
    frame: usize,
    resource: usize,
    count: usize,
) -> Result<Vec<Spot>, OutOfMemory>
    ensures { IfOk result (λ s. s.items ≡ instance_spots frame resource count) }
{
    let mut spots = Vec::new(alloc);
    push_included(&mut spots, frame, resource, count)?;
    push_names(&mut spots, frame, resource, count)?;
    Ok(spots)
}
