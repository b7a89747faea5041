// What declares a resource, as members.

ghost use Rattle.std.specs.Prelude.{◌≡◌, [], codes, option_map, IfOk};
ghost use Rattle.arm_value.specs.View.{json};
ghost use Rattle.template_written.specs.Slots.{put_slots, put_slot, an_object, array_unless_empty, NestsWithin};
ghost use Rattle.template_written.specs.Slots.{SlotsNest};
ghost use Rattle.template_written.specs.Parts.{mode_of, size_of, copy_slots, true_or_none, part_slots};
ghost use Rattle.template_written.specs.Parts.{declaration_slots};

use crate::slots::{put_copy, put_items, put_optional, put_text, put_value, put_word};
use arm_value::{Fields, Items, OutOfMemory, Value};
use std::alloc::Global;
use template_parts::{Batches, Declaration, ResourceCopy, run_out};

// The members with the batches of a loop, unless all instances may begin at once.
#[tactic(auto, unfolding(template_written::specs::Slots::put_slot))]
fn put_batches(alloc: Global, fields: Fields, batches: Batches) -> Result<Fields, OutOfMemory>
    ensures { IfOk result (λ ms. ms
        ≡ put_slot (codes "batchSize") (size_of batches) (put_slot (codes "mode") (mode_of batches) fields)) }
{
    match batches {
        Batches::Parallel => Ok(fields),
        Batches::Serial(size) => {
            let fields = put_word(alloc, fields, "mode", "serial")?;
            put_value(alloc, fields, "batchSize", Value::Int(i64::from(size)))
        }
    }
}

// The members of the loop of a resource.
fn copy_members(alloc: Global, copy: &ResourceCopy) -> Result<Fields, OutOfMemory>
    requires { SlotsNest 119 (copy_slots copy.now) }
    ensures { IfOk result (λ ms. ms ≡ put_slots (copy_slots copy.now) []) }
{
    let fields = put_text(alloc, Fields::new(), "name", &copy.name)?;
    let fields = put_copy(alloc, fields, "count", &copy.count)?;
    put_batches(alloc, fields, copy.batches)
}

// The members with the loop of a resource, where there is one.
#[tactic(auto, unfolding(template_written::specs::Slots::put_slot))]
fn put_resource_copy(
    alloc: Global,
    fields: Fields,
    copy: &Option<ResourceCopy>,
) -> Result<Fields, OutOfMemory>
    requires { NestsWithin 119 (option_map (λ c. an_object (copy_slots c)) copy.now) }
    ensures { IfOk result (λ ms. ms
        ≡ put_slot (codes "copy") (option_map (λ c. an_object (copy_slots c)) copy.now) fields) }
{
    match copy {
        Some(copy) => match copy_members(alloc, copy) {
            Ok(members) => put_value(alloc, fields, "copy", Value::Object(members)),
            Err(_) => run_out(fields),
        },
        None => Ok(fields),
    }
}

// The members with those texts of what the resource depends on.
fn put_depends_on(alloc: Global, fields: Fields, depends_on: &Items) -> Result<Fields, OutOfMemory>
    requires { NestsWithin 119 (array_unless_empty depends_on.now) }
    ensures { IfOk result (λ ms. ms ≡ put_slot (codes "dependsOn") (array_unless_empty depends_on.now) fields) }
{
    match depends_on.copy(alloc) {
        Ok(items) => put_items(alloc, fields, "dependsOn", items),
        Err(_) => run_out(fields),
    }
}

// The members with `existing`, where the resource exists already.
#[tactic(auto, unfolding(template_written::specs::Slots::put_slot))]
fn put_existing(alloc: Global, fields: Fields, existing: bool) -> Result<Fields, OutOfMemory>
    ensures { IfOk result (λ ms. ms ≡ put_slot (codes "existing") (true_or_none existing) fields) }
{
    if existing {
        return put_value(alloc, fields, "existing", Value::Bool(true));
    }
    Ok(fields)
}

// The members with all that declares a resource but its children.
fn put_parts(
    alloc: Global,
    fields: Fields,
    declaration: &Declaration,
) -> Result<Fields, OutOfMemory>
    requires { SlotsNest 119 (part_slots declaration.now) }
    ensures { IfOk result (λ ms. ms ≡ put_slots (part_slots declaration.now) fields) }
{
    let fields = put_text(alloc, fields, "type", &declaration.kind)?;
    let fields = put_text(alloc, fields, "apiVersion", &declaration.api_version)?;
    let fields = put_copy(alloc, fields, "name", &declaration.name)?;
    let fields = put_optional(alloc, fields, "condition", &declaration.condition)?;
    let fields = put_depends_on(alloc, fields, &declaration.depends_on)?;
    let fields = put_resource_copy(alloc, fields, &declaration.copy)?;
    let fields = put_optional(alloc, fields, "metadata", &declaration.metadata)?;
    put_existing(alloc, fields, declaration.existing)
}

/// The members with what declares a resource, whose children are these.
pub fn put_declaration(
    alloc: Global,
    fields: Fields,
    declaration: &Declaration,
    children: Items,
) -> Result<Fields, OutOfMemory>
    requires { SlotsNest 119 (declaration_slots declaration.now children) }
    ensures { IfOk result (λ ms. ms ≡ put_slots (declaration_slots declaration.now children) fields) }
{
    match put_parts(alloc, fields, declaration) {
        Ok(fields) => put_items(alloc, fields, "resources", children),
        Err(_) => run_out(children),
    }
}
