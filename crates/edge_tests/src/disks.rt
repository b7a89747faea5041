// Disks in memory.
ghost use Rattle.std.specs.Prelude.{◌≤◌, ◌+◌, length};

use crate::checks::{check_case, failed};
use arm_edges::{Disk, Failed, Part};
use mem_disk::{Contents, MemDisk, RamDisk, Room};
use std::alloc::Global;
use std::test::Fail;

// Writes to both parts and cuts one, and returns the lengths and what a read from the second byte on gives.
pub(crate) fn write_and_read<D: Disk + Drop>(disk: D) -> Result<(u64, u64, [u8; 4]), Failed>
    requires { 16 ≤ D.reach disk }
{
    let mut disk = disk;
    disk.write_at(Part::A, 2, b"abcd")?;
    disk.write_at(Part::B, 0, b"x")?;
    disk.cut(Part::A, 5)?;
    disk.sync(Part::A)?;
    let mut buf = [9u8; 4];
    let _count = disk.read_at(Part::A, 1, &mut buf)?;
    Ok((disk.length(Part::A)?, disk.length(Part::B)?, buf))
}

// An empty disk with that room.
fn empty(alloc: Global, room: Room) -> Result<MemDisk, Fail> {
    let none = Contents::empty(alloc);
    Ok(MemDisk::new(alloc, &none, Vec::new(alloc), Vec::new(alloc), room)?)
}

#[test]
fn a_disk_in_memory_keeps_what_was_written(rt: HostRuntime) -> Result<(), Fail> {
    let mut disk = empty(rt.alloc(), Room { bytes: 7, calls: 7 })?;
    let read = write_and_read(&mut disk);
    // After that no call is left.
    let found = (
        disk.calls().faults,
        disk.length(Part::A),
        disk.calls().faults,
    );
    assert!(rt; (read, found) == (Ok((5, 1, *b"\0abc")), (0, Err(Failed), 1)));
    Ok(())
}

#[test]
fn a_disk_that_never_fails_keeps_what_was_written(rt: HostRuntime) -> Result<(), Fail> {
    let disk = RamDisk::new(rt.alloc(), 16)?;
    assert!(rt; write_and_read(disk) == Ok((5, 1, *b"\0abc")));
    Ok(())
}

// Writes "old" to part A and syncs it, and after that writes "NE" at 0 and "WER" at 2.
fn write_over<D: Disk>(disk: &mut D) -> Result<(), Failed>
    requires { 16 ≤ D.reach disk.old }
{
    disk.write_at(Part::A, 0, b"old")?;
    disk.sync(Part::A)?;
    disk.write_at(Part::A, 0, b"NE")?;
    disk.write_at(Part::A, 2, b"WER")
}

// A disk with "old" synced in part A, and after that the writes of "NE" at 0 and "WER" at 2.
fn half_written(alloc: Global) -> Result<MemDisk, Fail> {
    let room = Room {
        bytes: 100,
        calls: 100,
    };
    let mut disk = empty(alloc, room)?;
    match write_over(&mut disk) {
        Ok(()) => Ok(disk),
        Err(_) => failed(disk, "a write failed"),
    }
}

// What part A holds: a row of five bytes, of which the first so many.
fn held_by<D: Disk + Drop>(disk: D) -> Result<(usize, [u8; 5]), Failed> {
    let mut disk = disk;
    let mut buf = *b"-----";
    let count = disk.read_at(Part::A, 0, &mut buf)?;
    Ok((count, buf))
}

// A choice, and what it leaves.
static IMAGES: [(u64, usize, [u8; 5]); 11] = [
    (0, 3, *b"old--"),
    (8, 3, *b"NEd--"),
    (4, 5, *b"olWER"),
    (12, 5, *b"NEWER"),
    (2, 3, *b"NEd--"),
    (34, 3, *b"NEW--"),
    (66, 4, *b"NEWE-"),
    (38, 3, *b"Nld--"),
    (1, 5, [170; 5]),
    (5, 5, *b"\xaa\xaaWER"),
    (35, 5, *b"NEW\xaa\xaa"),
];

// Compares what the disk holds after a crash with each image.
fn check_images(alloc: Global, disk: &MemDisk) -> Result<(), Fail> {
    for image in &IMAGES {
        let (choice, count, bytes) = *image;
        let held = held_by(disk.crash(alloc, choice)?);
        check_case(held == Ok((count, bytes)), choice, 0)?;
    }
    Ok(())
}

#[test]
fn crashes_leave_each_mixture(rt: HostRuntime) -> Result<(), Fail> {
    let disk = half_written(rt.alloc())?;
    check_images(rt.alloc(), &disk)
}
