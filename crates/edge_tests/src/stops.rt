// Stops inside an append, at each call, and what a crash then leaves.
use crate::checks::{check_case, failed};
use crate::journals::{count_of, disk_of, journal_of};
use arm_edges::Disk;
use deploy_journal::Journal;
use mem_disk::MemDisk;
use std::alloc::Global;
use std::test::Fail;

// Opens a journal and appends two records on a disk whose call of that number fails. Returns how many were answered by
// Ok, and the disk.
fn stopped_at(alloc: Global, call: u64) -> Result<(usize, MemDisk), Fail> {
    let disk = disk_of(alloc, b"armdeploy-jrnl-1\0and stale bytes", &[], &[call])?;
    match Journal::open(alloc, disk, 1000) {
        Ok(opened) => Ok(added_two(journal_of(opened))),
        Err(refused) => Ok((0, refused.disk)),
    }
}

fn added_two<D: Disk + Drop>(mut journal: Journal<D>) -> (usize, D) {
    let first = journal.append(1, b"abc", b"", false).is_ok();
    let second = journal.append(2, b"", b"xyz", false).is_ok();
    let count = match (first, second) {
        (true, true) => 2,
        (true, false) => 1,
        (false, true) => 9,
        (false, false) => 0,
    };
    (count, journal.into_disk())
}

// How many records the image of that choice holds.
fn records_left(alloc: Global, disk: &MemDisk, choice: u64) -> Result<usize, Fail> {
    match Journal::open(alloc, disk.crash(alloc, choice)?, 1000) {
        Ok(opened) => Ok(count_of(opened)),
        Err(refused) => failed(refused, "not opened"),
    }
}

// The appends that may be there where the call of that number fails.
fn most_at(call: u64) -> usize {
    if call > 15 {
        2
    } else if call > 8 {
        1
    } else {
        0
    }
}

// The appends that are answered by Ok where the call of that number fails.
fn answered_at(call: u64) -> usize {
    usize::from(call > 10) + usize::from(call > 17)
}

// Fails where another count was answered by Ok, or an image holds fewer records, or more than may be there.
fn check_images(alloc: Global, call: u64, answered: usize, disk: &MemDisk) -> Result<(), Fail> {
    for choice in 0..256 {
        let count = records_left(alloc, disk, choice)?;
        let may_be_left = answered <= count && count <= most_at(call);
        check_case(answered == answered_at(call) && may_be_left, call, choice)?;
    }
    Ok(())
}

fn check_stop(alloc: Global, call: u64) -> Result<(), Fail> {
    let (answered, disk) = stopped_at(alloc, call)?;
    check_images(alloc, call, answered, &disk)
}

#[test]
fn a_stop_at_any_call_leaves_whole_records(rt: HostRuntime) -> Result<(), Fail> {
    for call in 0..20 {
        check_stop(rt.alloc(), call)?;
    }
    Ok(())
}

// The call that fails: the sync of the body, the gate's write, its sync, and the first write of the next record. Then
// the choice, and how many records are in what it leaves.
static GATES: [(u64, u64, usize); 6] = [
    (8, 252, 0),
    (9, 0, 0),
    (9, 4, 1),
    (10, 0, 0),
    (10, 4, 1),
    (11, 0, 1),
];

// How many records the image of that choice holds, after a stop at that call.
fn left_after(alloc: Global, call: u64, choice: u64) -> Result<usize, Fail> {
    let (_answered, disk) = stopped_at(alloc, call)?;
    records_left(alloc, &disk, choice)
}

#[test]
fn a_stop_at_the_gate_leaves_the_record_or_not(rt: HostRuntime) -> Result<(), Fail> {
    for row in &GATES {
        let (call, choice, want) = *row;
        check_case(left_after(rt.alloc(), call, choice)? == want, call, choice)?;
    }
    Ok(())
}
