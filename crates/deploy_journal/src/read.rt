// Reads of part A, which change nothing.
ghost use Rattle.std.specs.Prelude.{◌≡◌, ◌<◌, ◌^◌, ◌+◌, ◌≤◌, ◌++◌, [], ◌∷◌, ℕ, List, true, length, take, drop, IfOk};
ghost use Rattle.std.specs.Prelude.{MatchOption, ⊤};
ghost use Rattle.deploy_journal.specs.Records.{Record, body, eight, IsCutShort};
ghost use Rattle.arm_edges.specs.Faults.{HasCause};
ghost use Rattle.deploy_journal.specs.Reading.{Still, ReadCause};

use crate::record::Record;
use arm_edges::{Disk, Failed, Part};
use arm_value::Bytes;
use std::alloc::Global;

/// Why a journal was not opened.
#[derive(Clone, Copy, Debug, PartialEq, Eq)]
pub enum OpenFault {
    /// Out of memory for its records.
    OutOfMemory,
    /// Part A holds no journal, as the byte at this place shows: 0 where the part does not begin as a journal does, its
    /// length where a gate is missing, the place of an open gate whose record is cut short.
    Damaged(u64),
    /// The disk failed, and its count of faults rose.
    DiskFault,
}

// Reads until the buffer is full. False where the part ends before.
pub(crate) fn read_full<D: Disk>(disk: &mut D, at: u64, buf: &mut [u8]) -> Result<bool, Failed>
    requires { at + length buf.old < 2 ^ 64 }
    ensures filled { IfOk result (λ full. D.tells_reads ≡ true
        → at + length buf.old ≤ length (D.reads disk.old).a → (full ≡ true)
        × (buf.new ≡ take (length buf.old) (drop at (D.reads disk.old).a))) }
    ensures still { Still D.tells_images D.reads D.moment D.left D.reach disk.old disk.new }
    ensures cause { HasCause (D.faults disk.old) (D.faults disk.new) result }
{
    let mut done = 0;
    while done < buf.len() {
        let count = disk.read_at(Part::A, at + done as u64, &mut buf[done..])?;
        if count == 0 {
            return Ok(false);
        }
        done += count;
    }
    Ok(true)
}

// That many bytes. None where the part ends before.
fn read_bytes<D: Disk>(
    alloc: Global,
    disk: &mut D,
    at: u64,
    count: usize,
) -> Result<Option<Bytes>, OpenFault>
    requires { at + count < 2 ^ 64 }
    ensures size { IfOk result (λ o. MatchOption o ⊤ (λ bytes. length bytes ≡ count)) }
    ensures read { IfOk result (λ o. D.tells_reads ≡ true → at + count ≤ length (D.reads disk.old).a
        → MatchOption o ⊥ (λ bytes. bytes ≡ take count (drop at (D.reads disk.old).a))) }
    ensures still { Still D.tells_images D.reads D.moment D.left D.reach disk.old disk.new }
    ensures cause { ReadCause (D.faults disk.old) (D.faults disk.new) result }
{
    let Ok(mut bytes) = vec![in alloc; 0u8; count] else {
        return Err(OpenFault::OutOfMemory);
    };
    match read_full(disk, at, bytes.as_mut_slice()) {
        Ok(true) => Ok(Some(Bytes::from_vec(bytes))),
        Ok(false) => Ok(None),
        Err(Failed) => Err(OpenFault::DiskFault),
    }
}

// The record after an open gate. None where the part ends inside it.
pub(crate) fn read_record<D: Disk>(
    alloc: Global,
    disk: &mut D,
    at: u64,
    left: u64,
) -> Result<Option<Record>, OpenFault>
    requires { at + left < 2 ^ 64 }
    ensures fits { IfOk result
        (λ o. MatchOption o (⊤) (λ r. 17 + length r.first + length r.second ≤ left)) }
    ensures read { IfOk result (λ o. D.tells_reads ≡ true → at + left ≡ length (D.reads disk.old).a
        → MatchOption o (IsCutShort (drop at (D.reads disk.old).a))
        (λ r. drop at (D.reads disk.old).a
        ≡ body r (drop (at + (17 + length r.first + length r.second)) (D.reads disk.old).a))) }
    ensures still { Still D.tells_images D.reads D.moment D.left D.reach disk.old disk.new }
    ensures cause { ReadCause (D.faults disk.old) (D.faults disk.new) result }
{
    if left < 17 {
        return Ok(None);
    }
    let mut header = [0u8; 17];
    match read_full(disk, at, &mut header) {
        Ok(true) => {}
        Ok(false) => return Ok(None),
        Err(Failed) => return Err(OpenFault::DiskFault),
    }
    let first_len = number_at(&header, 1);
    let second_len = number_at(&header, 9);
    if first_len > left - 17 || second_len > left - 17 - first_len {
        return Ok(None);
    }
    let Some(first) = read_bytes(alloc, disk, at + 17, first_len as usize)? else {
        return Ok(None);
    };
    let Some(second) = read_bytes(alloc, disk, at + 17 + first_len, second_len as usize)? else {
        return Ok(None);
    };
    Ok(Some(Record {
        kind: header[0],
        first,
        second,
    }))
}

#[tactic(auto, unfolding(crate::specs::Records::eight))]
fn number_at(bytes: &[u8], at: usize) -> u64
    requires { at + 8 ≤ length bytes.now }
    ensures { eight result ≡ take 8 (drop at bytes.now) }
{
    u64::from_be_bytes([
        bytes[at],
        bytes[at + 1],
        bytes[at + 2],
        bytes[at + 3],
        bytes[at + 4],
        bytes[at + 5],
        bytes[at + 6],
        bytes[at + 7],
    ])
}
