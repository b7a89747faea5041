// The records of a file, from its first byte to its first closed gate.
ghost use Rattle.std.specs.Prelude.{◌≡◌, ◌≢◌, ◌<◌, ◌^◌, ◌+◌, ◌-◌, ◌≤◌, ◌++◌, [], ◌∷◌, ℕ, List, true, false, length};
ghost use Rattle.std.specs.Prelude.{take, drop, IfOk, IfErr, OnOk};
ghost use Rattle.deploy_journal.specs.Records.{Record, beginning, Holds};
ghost use Rattle.arm_edges.specs.Disk.{IsKept};
ghost use Rattle.arm_edges.specs.declared.disk.Part.TheVariants.{A};
ghost use Rattle.deploy_journal.specs.Reading.{Still, OpenCause, ReadCause};
ghost use Rattle.deploy_journal.specs.Opening.{NextMeans, NextFits, DamageMeans};

use crate::read::{OpenFault, read_full, read_record};
use crate::record::Record;
use arm_edges::{Disk, Failed, Part};
use std::alloc::Global;

// What is at a place: an open gate and a record, a closed gate, or an open gate and less than a record.
#[derive(Drop)]
pub enum Next {
    Entry(Record),
    End,
    Cut,
}

// Reads what is at a place that is within the file.
fn read_next<D: Disk>(alloc: Global, disk: &mut D, at: u64, left: u64) -> Result<Next, OpenFault>
    requires fits { at + left < 2 ^ 64 }
    requires within { 0 < left }
    ensures means { IfOk result (λ next. D.tells_reads ≡ true
        → at + left ≡ length (D.reads disk.old).a → NextMeans next (drop at (D.reads disk.old).a)) }
    ensures fits { IfOk result (λ next. NextFits left next) }
    ensures still { Still D.tells_images D.reads D.moment D.left D.reach disk.old disk.new }
    ensures cause { ReadCause (D.faults disk.old) (D.faults disk.new) result }
{
    let mut gate = [0u8; 1];
    match read_full(disk, at, &mut gate) {
        Ok(true) => {}
        Ok(false) => return Ok(Next::Cut),
        Err(Failed) => return Err(OpenFault::DiskFault),
    }
    if gate[0] != 1 {
        return Ok(Next::End);
    }
    match read_record(alloc, disk, at + 1, left - 1)? {
        Some(record) => Ok(Next::Entry(record)),
        None => Ok(Next::Cut),
    }
}

// The records after the beginning, and the place after the closed gate that ends them.
fn read_records<D: Disk>(
    alloc: Global,
    disk: &mut D,
    size: u64,
) -> Result<(Vec<Record>, u64), OpenFault>
    requires { 16 ≤ size }
    ensures length { IfOk result (λ r. 17 ≤ r.1) }
    ensures holds { IfOk result (λ r. D.tells_reads ≡ true → size ≡ length (D.reads disk.old).a
        → (D.reads disk.old).a ≡ beginning ++ drop 16 (D.reads disk.old).a
        → Holds r.0.items (r.1 - 1) (D.reads disk.old).a) }
    ensures damaged { IfErr result (λ e. D.tells_reads ≡ true → size ≡ length (D.reads disk.old).a
        → (D.reads disk.old).a ≡ beginning ++ drop 16 (D.reads disk.old).a
        → DamageMeans (D.reads disk.old).a e) }
    ensures still { Still D.tells_images D.reads D.moment D.left D.reach disk.old disk.new }
    ensures cause { OpenCause (D.faults disk.old) (D.faults disk.new) result }
{
    let mut records = Vec::new(alloc);
    let mut at: u64 = 16;
    while at < size {
        match read_next(alloc, disk, at, size - at)? {
            Next::End => return Ok((records, at + 1)),
            Next::Cut => return Err(OpenFault::Damaged(at)),
            Next::Entry(record) => {
                at += 18
                    + record.first.as_slice().len() as u64
                    + record.second.as_slice().len() as u64;
                match records.push(record) {
                    Ok(()) => {}
                    Err(_) => return Err(OpenFault::OutOfMemory),
                }
            }
        }
    }
    Err(OpenFault::Damaged(at))
}

const BEGINNING: [u8; 16] = *b"armdeploy-jrnl-1";

// Whether the file begins as a journal does.
fn read_beginning<D: Disk>(disk: &mut D, size: u64) -> Result<bool, OpenFault>
    ensures begins { IfOk result (λ b. D.tells_reads ≡ true → size ≡ length (D.reads disk.old).a
        → (b ≡ true → (D.reads disk.old).a ≡ beginning ++ drop 16 (D.reads disk.old).a)
        × (b ≡ false → (rest : List ℕ) → (D.reads disk.old).a ≡ beginning ++ rest → ⊥)) }
    ensures long { IfOk result (λ b. b ≡ true → 16 ≤ size) }
    ensures still { Still D.tells_images D.reads D.moment D.left D.reach disk.old disk.new }
    ensures cause { ReadCause (D.faults disk.old) (D.faults disk.new) result }
{
    if size < 16 {
        return Ok(false);
    }
    let mut head = [0u8; 16];
    match read_full(disk, 0, &mut head) {
        Ok(true) => {}
        Ok(false) => return Ok(false),
        Err(Failed) => return Err(OpenFault::DiskFault),
    }
    Ok(head == BEGINNING)
}

// Syncs, and reads the whole file.
pub(crate) fn read_all<D: Disk>(
    alloc: Global,
    disk: &mut D,
) -> Result<(Vec<Record>, u64), OpenFault>
    ensures length { IfOk result (λ r. 17 ≤ r.1) }
    ensures holds { IfOk result (λ r. D.tells_reads ≡ true
        → Holds r.0.items (r.1 - 1) (D.reads disk.old).a) }
    ensures damaged { IfErr result (λ e. D.tells_reads ≡ true
        → DamageMeans (D.reads disk.old).a e) }
    ensures kept { OnOk result (D.tells_images ≡ true
        → IsKept A (D.reads disk.new) (D.left disk.new (D.moment disk.new))) }
    ensures still { Still D.tells_images D.reads D.moment D.left D.reach disk.old disk.new }
    ensures cause { OpenCause (D.faults disk.old) (D.faults disk.new) result }
{
    let Ok(()) = disk.sync(Part::A) else {
        return Err(OpenFault::DiskFault);
    };
    let Ok(size) = disk.length(Part::A) else {
        return Err(OpenFault::DiskFault);
    };
    if !read_beginning(disk, size)? {
        return Err(OpenFault::Damaged(0));
    }
    read_records(alloc, disk, size)
}
