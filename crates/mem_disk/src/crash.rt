// What a crash leaves of a file, by a choice.
ghost use Rattle.std.specs.Prelude.{◌≡◌, ◌≢◌, ◌≤◌, length, IfOk, OnOk};
ghost use Rattle.arm_edges.specs.Disk.{Torn, Cut};
ghost use Rattle.mem_disk.specs.Moves.{read_after, Leaves, Walks, moves_on, left_after};
ghost use Rattle.mem_disk.specs.Log.{move_of, steps_of};

use crate::change::{Change, Entry};
use crate::edit::overwrite;
use crate::log::Log;
use arm_edges::Part;
use std::alloc::{AllocError, Global};

// How much of a change that no sync followed is there after a crash.
#[derive(Clone, Copy, Debug, PartialEq, Eq)]
pub(crate) enum Tear {
    Nothing,
    Whole,
    // That many bytes at the front of a write.
    Front(usize),
    // That many bytes at the front of a write, and after them bytes that differ from the write's and the file's.
    Foreign(usize),
}

// What the choice says of the change of that number, counted from the last one back.
pub(crate) fn tear_of(choice: u64, index: usize) -> Tear {
    let rest = choice / 4;
    match choice % 4 {
        0 => by_bit(rest, index, Tear::Nothing),
        1 => by_bit(rest, index, Tear::Foreign(0)),
        kind => {
            let place = (rest % 8 + rest / 64 % 8 * 8) as usize;
            let count = (rest / 8 % 8 + rest / 512 * 8) as usize;
            if index > place {
                Tear::Whole
            } else if index < place {
                Tear::Nothing
            } else if kind == 2 {
                Tear::Front(count)
            } else {
                Tear::Foreign(count)
            }
        }
    }
}

// Whole where the bit of that number is set, and where it has no bit.
fn by_bit(bits: u64, index: usize, unset: Tear) -> Tear {
    if index >= 62 || bits >> index as u32 & 1 == 1 {
        Tear::Whole
    } else {
        unset
    }
}

// A file that a crash may leave of that part, which began so.
pub(crate) fn image(
    alloc: Global,
    log: &Log,
    part: Part,
    first: &[u8],
    choice: u64,
) -> Result<Vec<u8>, AllocError>
    ensures { IfOk result (λ file. left_after first.now
        (moves_on part (steps_of log.now.bytes.items log.now.entries.items)) file.items) }
{
    let mut now = first.to_vec(alloc)?;
    let mut left = first.to_vec(alloc)?;
    let mut from = 0;
    for i in 0..log.entries.len() {
        let entry = log.entry(i);
        let size = entry.change.size();
        let bytes = &log.bytes[from..from + size];
        let tear = tear_of(choice, log.entries.len() - 1 - i);
        walk(alloc, &mut now, &mut left, part, entry, bytes, tear)?;
        from += size;
    }
    Ok(left)
}

// Takes a change of that part, and no other, into what a read returns and into what a crash leaves.
fn walk(
    alloc: Global,
    now: &mut Vec<u8>,
    left: &mut Vec<u8>,
    part: Part,
    entry: Entry,
    bytes: &[u8],
    tear: Tear,
) -> Result<(), AllocError>
    ensures { OnOk result (Walks part entry.part
        (move_of entry.change bytes.now) now.old.items now.new.items left.old.items left.new.items) }
{
    match (part, entry.part) {
        (Part::A, Part::A) | (Part::B, Part::B) => leave(
            alloc,
            now,
            left,
            entry.change,
            bytes,
            tear,
        ),
        (Part::A, Part::B) | (Part::B, Part::A) => Ok(()),
    }
}

// Takes a change into what a read returns and into what a crash leaves.
pub(crate) fn leave(
    alloc: Global,
    now: &mut Vec<u8>,
    left: &mut Vec<u8>,
    change: Change,
    bytes: &[u8],
    tear: Tear,
) -> Result<(), AllocError>
    ensures now { OnOk result (now.new.items
        ≡ read_after (move_of change bytes.now) now.old.items) }
    ensures left { OnOk result
        (Leaves (move_of change bytes.now) now.old.items left.old.items left.new.items) }
{
    match change {
        Change::Wrote { at, count: _ } => {
            overwrite(now, at as usize, bytes)?;
            leave_write(alloc, left, at as usize, bytes, tear)
        }
        Change::Tore { at, count: _ } => leave_write(alloc, left, at as usize, bytes, tear),
        Change::Resized { length } => {
            now.resize(length as usize, 0)?;
            leave_cut(left, length as usize, tear)
        }
        Change::ToreOff { length } => leave_cut(left, length as usize, tear),
        Change::Synced => {
            *left = now.to_vec(alloc)?;
            Ok(())
        }
    }
}

#[tactic(auto, using(crate::proofs::Tears::torn_by, crate::specs::ReadImages::torn_same))]
// Leaves a write of these bytes whole, in part or not at all.
fn leave_write(
    alloc: Global,
    file: &mut Vec<u8>,
    at: usize,
    bytes: &[u8],
    tear: Tear,
) -> Result<(), AllocError>
    ensures { OnOk result (Torn at (length bytes.now) file.old.items file.new.items) }
{
    match tear {
        Tear::Nothing => Ok(()),
        Tear::Whole => overwrite(file, at, bytes),
        Tear::Front(count) => {
            let front = &bytes[..count.min(bytes.len())];
            overwrite(file, at, front)?;
            Ok(())
        }
        Tear::Foreign(count) => {
            let other = foreign(alloc, file.as_slice(), at, bytes, count)?;
            overwrite(file, at, other.as_slice())
        }
    }
}

#[tactic(auto, using(crate::proofs::Tears::cut_by, crate::specs::ReadImages::cut_same))]
// Leaves a cut to that length or not at all.
fn leave_cut(file: &mut Vec<u8>, length: usize, tear: Tear) -> Result<(), AllocError>
    ensures { OnOk result (Cut length file.old.items file.new.items) }
{
    match tear {
        Tear::Nothing => Ok(()),
        _ => file.resize(length, 0),
    }
}

// As many bytes as these: the first `front` of them, then bytes that differ from them and from the file's bytes at that
// place.
fn foreign(
    alloc: Global,
    file: &[u8],
    at: usize,
    bytes: &[u8],
    front: usize,
) -> Result<Vec<u8>, AllocError>
    ensures { IfOk result (λ other. length other.items ≡ length bytes.now) }
{
    let mut other = Vec::new(alloc);
    for (i, byte) in bytes.iter().enumerate() {
        let old = at
            .checked_add(i)
            .and_then(|place| file.get(place).copied())
            .unwrap_or(0);
        other.push(if i < front {
            *byte
        } else {
            neither(*byte, old)
        })?;
    }
    Ok(other)
}

// A byte that differs from both.
fn neither(one: u8, other: u8) -> u8
    ensures not_one { result ≢ one }
    ensures not_other { result ≢ other }
{
    if one != 170 && other != 170 {
        170
    } else if one != 85 && other != 85 {
        85
    } else {
        51
    }
}
