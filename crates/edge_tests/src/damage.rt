// Files that hold no journal, and gates.
use crate::checks::check_case;
use crate::journals::{EXAMPLE, count_of, disk_of, fault_of};
use deploy_journal::{Journal, OpenFault};
use mem_disk::MemDisk;
use std::alloc::Global;
use std::test::Fail;

// So many bytes of the example, of which one is changed.
fn changed(alloc: Global, count: usize, place: usize, byte: u8) -> Result<Vec<u8>, Fail> {
    let mut bytes = EXAMPLE.to_vec(alloc)?;
    if let Some(at) = bytes.get_mut(place) {
        *at = byte;
    }
    bytes.truncate(count);
    Ok(bytes)
}

// How many records the disk's journal has, or why it holds none.
fn found_on(alloc: Global, disk: MemDisk) -> Result<usize, OpenFault> {
    match Journal::open(alloc, disk, 0) {
        Ok(opened) => Ok(count_of(opened)),
        Err(refused) => Err(fault_of(refused)),
    }
}

// The same of a file with so many bytes of the example, of which one is changed.
fn found_in(
    alloc: Global,
    count: usize,
    place: usize,
    byte: u8,
) -> Result<Result<usize, OpenFault>, Fail> {
    let bytes = changed(alloc, count, place, byte)?;
    let disk = disk_of(alloc, bytes.as_slice(), &[], &[])?;
    Ok(found_on(alloc, disk))
}

// How many bytes of the example are there, the place of one that is changed, its value, and the place that is answered.
static DAMAGED: [(usize, usize, u8, u64); 12] = [
    (0, 0, 0, 0),
    (15, 0, 0x61, 0),
    (56, 15, 0x32, 0),
    (16, 0, 0x61, 16),
    (17, 0, 0x61, 16),
    (35, 0, 0x61, 16),
    (36, 0, 0x61, 36),
    (54, 0, 0x61, 36),
    (55, 0, 0x61, 55),
    (56, 18, 0x80, 16),
    (56, 25, 0x17, 16),
    (56, 55, 0x01, 55),
];

#[test]
fn damage_is_answered_with_its_place(rt: HostRuntime) -> Result<(), Fail> {
    for row in &DAMAGED {
        let (count, place, byte, damaged) = *row;
        let found = found_in(rt.alloc(), count, place, byte)?;
        let wanted = Err(OpenFault::Damaged(damaged));
        check_case(found == wanted, count as u64, place as u64)?;
    }
    Ok(())
}

// The place of a gate, its byte, and how many records are before it. Each gate but 1 is closed.
static GATES: [(usize, u8, usize); 4] = [(16, 0, 0), (36, 2, 1), (36, 255, 1), (55, 9, 2)];

#[test]
fn what_follows_a_closed_gate_means_nothing(rt: HostRuntime) -> Result<(), Fail> {
    for row in &GATES {
        let (place, gate, count) = *row;
        let found = found_in(rt.alloc(), 56, place, gate)?;
        check_case(found == Ok(count), place as u64, gate as u64)?;
    }
    Ok(())
}
