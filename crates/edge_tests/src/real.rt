// Real folders and files.
use crate::disks::write_and_read;
use arm_edges::{Disk, Failed, Part, RealDisk, RealTree, Tree, TreeFault};
use std::alloc::{AllocError, Global};
use std::fs::File;
use std::rt::Files;
use std::test::Fail;
use std::{fs, io};

// The tree of the working folder.
fn here<R: Files<File = File> + Drop>(rt: R, alloc: Global) -> Result<RealTree<R>, AllocError> {
    Ok(RealTree::new(rt, String::from_str(alloc, ".")?))
}

// Whether the tree has the file with these bytes, and no file by a path that leads up and back.
fn has_file<T: Tree>(alloc: Global, tree: &mut T) -> Result<bool, TreeFault> {
    let file = tree.read_file(alloc, "./edge_tests-tree.txt")?;
    if tree.read_file(alloc, "x/../edge_tests-tree.txt")?.is_some() {
        return Ok(false);
    }
    match file {
        Some(bytes) => Ok(bytes.as_slice() == b"here".as_slice()),
        None => Ok(false),
    }
}

#[test]
fn a_real_tree_reads_the_files_of_its_folder(rt: HostRuntime) -> Result<(), Fail> {
    fs::write(&rt, "edge_tests-tree.txt", "here")?;
    let mut tree = here(rt, rt.alloc())?;
    let found = has_file(rt.alloc(), &mut tree);
    fs::remove_file(&rt, "edge_tests-tree.txt")?;
    assert!(rt; found == Ok(true));
    Ok(())
}

// How many of these names the tree has a file of.
fn count_there<T: Tree>(alloc: Global, tree: &mut T, names: &str) -> Result<usize, TreeFault> {
    let mut count = 0usize;
    for name in names.split(' ') {
        if tree.read_file(alloc, name)?.is_some() {
            count = count.saturating_add(1);
        }
    }
    Ok(count)
}

// The last name is empty.
const OUTSIDE: &str = "missing .. ../etc/hosts a/../../a /etc/passwd . ";

#[test]
fn a_real_tree_has_no_file_outside_its_folder(rt: HostRuntime) -> Result<(), Fail> {
    let mut tree = here(rt, rt.alloc())?;
    let count = count_there(rt.alloc(), &mut tree, OUTSIDE);
    assert!(rt; (count, tree.faults()) == (Ok(0), 0));
    Ok(())
}

/// A disk of two files.
pub(crate) fn real_disk<R: Files<File = File> + Send + Drop>(
    rt: R,
    alloc: Global,
    (a, b): (&str, &str),
) -> Result<RealDisk<R>, AllocError> {
    let path = String::from_str(alloc, a)?;
    match String::from_str(alloc, b) {
        Ok(other) => Ok(RealDisk::new(rt, path, other)),
        Err(_) => Err(AllocError),
    }
}

// What was written to a disk and read of it, how many of its calls failed, and its paths.
fn used(
    disk: RealDisk<HostRuntime>,
    paths: (&str, &str),
) -> (Result<(u64, u64, [u8; 4]), Failed>, u64, bool) {
    let mut disk = disk;
    let written = write_and_read(&mut disk);
    let are_paths = (disk.path(Part::A), disk.path(Part::B)) == paths;
    (written, disk.faults(), are_paths)
}

// The length of the file, which is removed.
fn removed<R: Files>(rt: &R, name: &str) -> io::Result<u64> {
    let length = fs::metadata(rt, name)?.len();
    fs::remove_file(rt, name)?;
    Ok(length)
}

#[test]
fn a_real_disk_keeps_what_was_written(rt: HostRuntime) -> Result<(), Fail> {
    let (a, b) = ("edge_tests-disk", "edge_tests-disk.b");
    let found = used(real_disk(rt, rt.alloc(), (a, b))?, (a, b));
    let sizes = (removed(&rt, a)?, removed(&rt, b)?);
    assert!(rt; (found, sizes) == ((Ok((5, 1, *b"\0abc")), 0, true), (5, 1)));
    Ok(())
}
