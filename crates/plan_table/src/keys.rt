// The keys by which the lines of cells are found.
ghost use Rattle.std.specs.Prelude.{◌≡◌, ◌∷◌, ◌++◌, [], IfOk, map, chars};
ghost use Rattle.arm_value.specs.Look.{fold};
ghost use Rattle.plan_table.specs.Opened.{opened_of};
ghost use Rattle.plan_table.specs.Lines.{IsPlaced};
ghost use Rattle.plan_table.specs.Keys.{key_of};

use crate::frame::Frame;
use crate::line::Spot;
use arm_value::{OutOfMemory, Text};
use std::alloc::Global;

// Adds the characters of the text with small letters in place of A to Z.
fn push_folded(key: &mut Vec<usize>, text: &str) -> Result<(), OutOfMemory>
    ensures { IfOk result (λ _. key.new.items ≡ key.old.items ++ fold (chars text.now)) }
{
    for c in text.chars() {
        key.push(c.to_ascii_lowercase() as usize)?;
    }
    Ok(())
}

/// The key of a cell with a name: of parameters the sort is 0, of variables 1, of conditions of outputs 2, and of
/// outputs 3.
pub fn named_key(
    alloc: Global,
    frame: usize,
    sort: usize,
    name: &Text,
) -> Result<Vec<usize>, OutOfMemory>
    ensures { IfOk result (λ k. k.items ≡ frame ∷ sort ∷ fold name.now) }
{
    let mut key = Vec::new(alloc);
    key.push(frame)?;
    key.push(sort)?;
    push_folded(&mut key, name.as_str())?;
    Ok(key)
}

/// The key of a cell with a number: of counts the sort is 4.
pub fn numbered_key(
    alloc: Global,
    frame: usize,
    sort: usize,
    number: usize,
) -> Result<Vec<usize>, OutOfMemory>
    ensures { IfOk result (λ k. k.items ≡ frame ∷ sort ∷ number ∷ []) }
{
    let mut key = Vec::new(alloc);
    key.push(frame)?;
    key.push(sort)?;
    key.push(number)?;
    Ok(key)
}

/// The key of a cell of an instance: of the conditions the sort is 5, of the names 6.
pub fn instance_key(
    alloc: Global,
    frame: usize,
    sort: usize,
    resource: usize,
    copy: usize,
) -> Result<Vec<usize>, OutOfMemory>
    ensures { IfOk result (λ k. k.items ≡ frame ∷ sort ∷ resource ∷ copy ∷ []) }
{
    let mut key = numbered_key(alloc, frame, sort, resource)?;
    key.push(copy)?;
    Ok(key)
}

/// The key of the nested deployments of a scope.
pub fn deployments_key(alloc: Global, frame: usize) -> Result<Vec<usize>, OutOfMemory>
    ensures { IfOk result (λ k. k.items ≡ frame ∷ 7 ∷ []) }
{
    let mut key = Vec::new(alloc);
    key.push(frame)?;
    key.push(7)?;
    Ok(key)
}

/// The key of the cell of a spot.
pub fn key_at(alloc: Global, frames: &[Frame], spot: Spot) -> Result<Vec<usize>, OutOfMemory>
    requires { IsPlaced (map opened_of frames.now) spot }
    ensures { IfOk result (λ k. k.items ≡ key_of (map opened_of frames.now) spot) }
{
    match spot {
        Spot::Parameter(frame, number) => {
            let template = frames[frame].template;
            let parameters = template.parameters.as_slice();
            named_key(alloc, frame, 0, &parameters[number].name)
        }
        Spot::Variable(frame, number) => {
            let template = frames[frame].template;
            let variables = template.variables.as_slice();
            named_key(alloc, frame, 1, &variables[number].name)
        }
        Spot::Offered(frame, number) => {
            let template = frames[frame].template;
            let outputs = template.outputs.as_slice();
            named_key(alloc, frame, 2, &outputs[number].name)
        }
        Spot::Output(frame, number) => {
            let template = frames[frame].template;
            let outputs = template.outputs.as_slice();
            named_key(alloc, frame, 3, &outputs[number].name)
        }
        Spot::Count(frame, resource) => numbered_key(alloc, frame, 4, resource),
        Spot::Included(frame, resource, copy) => instance_key(alloc, frame, 5, resource, copy),
        Spot::Name(frame, resource, copy) => instance_key(alloc, frame, 6, resource, copy),
        Spot::Deployments(frame) => deployments_key(alloc, frame),
    }
}
