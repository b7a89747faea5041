// The positions of scopes and of instances as texts.
ghost use Rattle.std.specs.Prelude.{◌≡◌, ◌<◌, ◌++◌, length, map, slice_get, IfOk, chars, codes, string_bytes};
ghost use Rattle.std.specs.Fmt.{decimal};
ghost use Rattle.plan_table.specs.Listed.{listed_of};
ghost use Rattle.plan_table.specs.Opened.{step_of};
ghost use Rattle.plan_table.specs.Whole.{whole_of, IsLaid};
ghost use Rattle.plan_table.specs.Found.{scope_at};
ghost use Rattle.plan_paths.specs.Texts.{a_position, inside, index_of, loop_in, scope_text, instance_text};

use arm_value::{OutOfMemory, Path, Text};
use plan_paths::{below, resource_path};
use plan_table::frame::{Frame, Instance};
use plan_table::table::Table;
use std::alloc::Global;
use template_parts::ResourceCopy;

// Adds the text.
fn push_text(position: &mut String, text: &str) -> Result<(), OutOfMemory>
    ensures { IfOk result (λ _. chars (string_bytes position.new)
        ≡ chars (string_bytes position.old) ++ chars text.now) }
{
    position.push_str(text)?;
    Ok(())
}

// `[i]`
fn bracketed(alloc: Global, index: usize) -> Result<String, OutOfMemory>
    ensures { IfOk result (λ s. string_bytes s ≡ codes "[" ++ (decimal index ++ codes "]")) }
{
    format!(in alloc; "[{index}]")
}

// Adds the index in brackets, where there is a loop.
fn push_index(
    alloc: Global,
    position: &mut String,
    looping: &Option<ResourceCopy>,
    index: usize,
) -> Result<(), OutOfMemory>
    ensures { IfOk result (λ _. chars (string_bytes position.new)
        ≡ chars (string_bytes position.old) ++ index_of looping.now index) }
{
    match looping {
        Some(_) => {
            let index = bracketed(alloc, index)?;
            push_text(position, index.as_str())
        }
        None => Ok(()),
    }
}

// Adds the index of an instance of a frame, where its resource has a loop.
fn push_loop_index(
    alloc: Global,
    position: &mut String,
    frame: &Frame,
    instance: Instance,
) -> Result<(), OutOfMemory>
    ensures { IfOk result (λ _. chars (string_bytes position.new) ≡ chars (string_bytes position.old)
        ++ index_of (loop_in (slice_get (map listed_of frame.now.resources.items) instance.resource))
        instance.copy) }
{
    match frame.resources.get(instance.resource) {
        Some(listed) => push_index(alloc, position, &listed.declaration.copy, instance.copy),
        None => Ok(()),
    }
}

// Adds where the template of a nested deployment is in it.
fn push_inside(alloc: Global, position: &mut String) -> Result<(), OutOfMemory>
    ensures { IfOk result (λ _. chars (string_bytes position.new) ≡ inside (chars (string_bytes position.old))) }
{
    let properties = below(alloc, &Path::root(alloc), "properties")?;
    let template = below(alloc, &properties, "template")?;
    push_text(position, template.as_str())
}

/// The position of the template of a scope as a text; that of the root is empty.
#[cycle(positions)]
pub fn scope_position(alloc: Global, table: &Table, frame: usize) -> Result<Text, OutOfMemory>
    requires laid { IsLaid table.now }
    requires there { frame < length table.now.frames.items }
    ensures { IfOk result (λ t. t
        ≡ scope_text a_position (whole_of table.now).template (scope_at table.now frame).position) }
{
    let frame = &table.frames[frame];
    match frame.position.as_slice().first() {
        Some(instance) => {
            let mut position = instance_position(
                alloc,
                table,
                frame.around,
                *instance,
            )?.into_string();
            push_inside(alloc, &mut position)?;
            Ok(Text::from_string(position))
        }
        None => Text::of(alloc, ""),
    }
}

/// The position of an instance of a scope as a text.
#[cycle(positions)]
pub fn instance_position(
    alloc: Global,
    table: &Table,
    frame: usize,
    instance: Instance,
) -> Result<Text, OutOfMemory>
    requires laid { IsLaid table.now }
    requires there { frame < length table.now.frames.items }
    ensures { IfOk result (λ t. t ≡ instance_text a_position (whole_of table.now).template
        (scope_at table.now frame).position (step_of instance)) }
{
    let mut position = scope_position(alloc, table, frame)?.into_string();
    let frame = &table.frames[frame];
    let path = resource_path(alloc, frame.template, instance.resource)?;
    push_text(&mut position, path.as_str())?;
    push_loop_index(alloc, &mut position, frame, instance)?;
    Ok(Text::from_string(position))
}
