// Tags by the batches of serial loops.
ghost use Rattle.std.specs.Prelude.{◌≡◌, ◌∷◌, ◌++◌, ◌/◌, ◌<◌, [], IfOk};
ghost use Rattle.tag_needs.specs.Tags.{tags_of};
ghost use Rattle.plan_needs.specs.Order.{number_by, batch_code, batch_codes, loop_codes};

use arm_value::OutOfMemory;
use plan_openers::Opener;
use std::alloc::Global;
use template_parts::{Batches, ResourceCopy};

/// Which batch of a serial loop is meant.
#[derive(Clone, Copy)]
pub enum Batch {
    /// That of the instance.
    Own,
    /// The next one.
    Next,
}

// The number of the batch, where an instance is of the batch of the other number.
fn number_by(batch: Batch, own: usize) -> usize
    requires { own < 800 }
    ensures { result ≡ number_by batch own }
{
    match batch {
        Batch::Own => own,
        Batch::Next => own + 1,
    }
}

// The number of the batch of an instance, by the size of batches.
fn own_number(copy: usize, size: u32) -> usize
    ensures { result ≡ copy / size }
{
    match copy.checked_div(size as usize) {
        Some(number) => number,
        None => 0,
    }
}

// A batch as a tag.
fn batch_tag(alloc: Global, opener: Opener, number: usize) -> Result<Vec<usize>, OutOfMemory>
    ensures { IfOk result (λ t. t.items ≡ batch_code opener.frame opener.resource number) }
{
    let mut tag = Vec::new(alloc);
    tag.push(2)?;
    tag.push(opener.frame)?;
    tag.push(opener.resource)?;
    tag.push(number)?;
    Ok(tag)
}

// Lists the batch of an instance of a loop, where that is serial.
fn push_serial(
    alloc: Global,
    tags: &mut Vec<Vec<usize>>,
    opener: Opener,
    batch: Batch,
    batches: Batches,
) -> Result<(), OutOfMemory>
    requires { opener.copy < 800 }
    ensures { IfOk result (λ _. tags_of tags.new ≡ tags_of tags.old
        ++ batch_codes (number_by batch) opener.frame opener.resource opener.copy batches) }
{
    match batches {
        Batches::Parallel => Ok(()),
        Batches::Serial(size) => {
            let number = number_by(batch, own_number(opener.copy, size));
            let tag = batch_tag(alloc, opener, number)?;
            tags.push(tag)?;
            Ok(())
        }
    }
}

/// Lists a batch of an instance last, where its resource has a serial loop.
pub fn push_batch(
    alloc: Global,
    tags: &mut Vec<Vec<usize>>,
    opener: Opener,
    batch: Batch,
    looping: &Option<ResourceCopy>,
) -> Result<(), OutOfMemory>
    requires { opener.copy < 800 }
    ensures { IfOk result (λ _. tags_of tags.new ≡ tags_of tags.old
        ++ loop_codes (number_by batch) opener.frame opener.resource opener.copy looping.now) }
{
    match looping {
        Some(looping) => push_serial(alloc, tags, opener, batch, looping.batches),
        None => Ok(()),
    }
}
