// The bytes of both parts of a disk in memory.
ghost use Rattle.std.specs.Prelude.{◌≡◌, ◌<◌, ◌≤◌, ◌+◌, ◌-◌, [], length, IfOk, OnOk};
ghost use Rattle.std.specs.Vec.{vec_capacity};
ghost use Rattle.arm_edges.specs.Disk.{on, overwritten, resized, AreWithin};
ghost use Rattle.mem_disk.specs.Contents.{contents_of, HasRoom, with_part};

use crate::edit::overwrite;
use arm_edges::Part;
use std::alloc::{AllocError, Global};

/// The bytes of both parts of a disk.
#[derive(Debug, Drop)]
pub struct Contents {
    pub a: Vec<u8>,
    pub b: Vec<u8>,
}

/// How much room a disk in memory takes when it is made.
#[derive(Clone, Copy, Debug, PartialEq, Eq)]
pub struct Room {
    /// The bytes of all writes together, with the zeros that fill gaps before them.
    pub bytes: usize,
    /// The number of calls.
    pub calls: usize,
}

impl Contents {
    /// No bytes.
    pub fn empty(alloc: Global) -> Contents
        ensures { (result.a.items ≡ []) × (result.b.items ≡ []) }
    {
        Contents {
            a: Vec::new(alloc),
            b: Vec::new(alloc),
        }
    }
}

// A copy that has room for so many bytes more in each part.
pub(crate) fn roomy(
    alloc: Global,
    contents: &Contents,
    bytes: usize,
) -> Result<Contents, AllocError>
    ensures same { IfOk result (λ copy. contents_of copy ≡ contents_of contents.now) }
    ensures room { IfOk result (λ copy. HasRoom bytes copy) }
    ensures within { IfOk result (λ copy. AreWithin 18446744073709551615 (contents_of copy)) }
{
    Ok(Contents {
        a: roomy_part(alloc, contents.a.as_slice(), bytes)?,
        b: roomy_part(alloc, contents.b.as_slice(), bytes)?,
    })
}

fn roomy_part(alloc: Global, part: &[u8], bytes: usize) -> Result<Vec<u8>, AllocError>
    ensures same { IfOk result (λ copy. copy.items ≡ part.now) }
    ensures room { IfOk result (λ copy. length copy.items + bytes ≤ vec_capacity copy) }
    ensures within { IfOk result (λ copy. length copy.items ≤ 18446744073709551615) }
{
    let size = part.len().checked_add(bytes).ok_or(AllocError)?;
    let mut copy = Vec::with_capacity(alloc, size)?;
    copy.extend_from_slice(part)?;
    Ok(copy)
}

pub(crate) fn part_of(contents: &Contents, part: Part) -> &[u8]
    ensures { result.now ≡ on part (contents_of contents.now) }
{
    match part {
        Part::A => contents.a.as_slice(),
        Part::B => contents.b.as_slice(),
    }
}

// Writes into room that was taken before, and gives what is left of the room.
pub(crate) fn write_part(contents: &mut Contents, room: usize, part: Part, at: usize, bytes: &[u8])
    requires roomy { HasRoom room contents.old }
    requires fits { length bytes.now + (at - length (on part (contents_of contents.old))) ≤ room }
    ensures written { contents_of contents.new
        ≡ with_part part (overwritten at bytes.now (on part (contents_of contents.old)))
        (contents_of contents.old) }
    ensures roomy { HasRoom
        (room - (length bytes.now + (at - length (on part (contents_of contents.old)))))
        contents.new }
{
    match part {
        Part::A => write_roomy(&mut contents.a, room, at, bytes),
        Part::B => write_roomy(&mut contents.b, room, at, bytes),
    }
}

fn write_roomy(file: &mut Vec<u8>, room: usize, at: usize, bytes: &[u8])
    requires roomy { length file.old.items + room ≤ vec_capacity file.old }
    requires fits { length bytes.now + (at - length file.old.items) ≤ room }
    ensures written { file.new.items ≡ overwritten at bytes.now file.old.items }
    ensures roomy { length file.new.items + (room - (length bytes.now + (at - length file.old.items)))
        ≤ vec_capacity file.new }
{
    match overwrite(file, at, bytes) {
        Ok(()) => {}
        Err(_) => unreachable!(),
    }
}

// Cuts or fills a part within room that was taken before.
pub(crate) fn cut_part(contents: &mut Contents, room: usize, part: Part, size: usize)
    requires roomy { HasRoom room contents.old }
    requires fits { size - length (on part (contents_of contents.old)) ≤ room }
    ensures cut { contents_of contents.new
        ≡ with_part part (resized size (on part (contents_of contents.old)))
        (contents_of contents.old) }
    ensures roomy { HasRoom
        (room - (size - length (on part (contents_of contents.old)))) contents.new }
{
    match part {
        Part::A => cut_roomy(&mut contents.a, room, size),
        Part::B => cut_roomy(&mut contents.b, room, size),
    }
}

fn cut_roomy(file: &mut Vec<u8>, room: usize, size: usize)
    requires roomy { length file.old.items + room ≤ vec_capacity file.old }
    requires fits { size - length file.old.items ≤ room }
    ensures cut { file.new.items ≡ resized size file.old.items }
    ensures roomy { length file.new.items + (room - (size - length file.old.items))
        ≤ vec_capacity file.new }
{
    match file.resize(size, 0) {
        Ok(()) => {}
        Err(_) => unreachable!(),
    }
}
