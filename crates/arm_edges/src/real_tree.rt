// The files of a real folder.
ghost use Rattle.std.specs.Prelude.{◌≡◌, ◌≤◌, false, true, None, Ok, length, IfOk, IfSome};
ghost use Rattle.std.specs.Path.{path_components};
ghost use Rattle.arm_edges.specs.Files.{AnswersFile, FileCause, no_files};
ghost use Rattle.arm_edges.specs.Inside.{stays_inside};

use crate::inside::is_inside;
use crate::{Tree, TreeFault};
use arm_value::Bytes;
use foundation::limits::MAX_FILE_BYTES;
use std::alloc::Global;
use std::fs::File;
use std::io;
use std::io::{ErrorKind, Read};
use std::rt::Files;

/// The files of a folder and the folders in it. A real tree does not report what they hold.
#[derive(Drop)]
pub struct RealTree<R: Files<File = File> + Drop> {
    rt: R,
    folder: String,
    faults: u64,
}

impl<R: Files<File = File> + Drop> RealTree<R> {
    /// How often a call has failed, up to 2^64 - 1.
    pub fn faults(&self) -> u64
        ensures { result ≡ self.now.faults }
    {
        self.faults
    }

    /// The tree of that folder.
    pub fn new(rt: R, folder: String) -> RealTree<R>
        ensures folder { result.folder ≡ folder }
        ensures faults { result.faults ≡ 0 }
    {
        RealTree {
            rt,
            folder,
            faults: 0,
        }
    }

    // The file of that name. Nothing is counted.
    fn read(&self, alloc: Global, name: &str) -> Result<Option<Bytes>, TreeFault>
        ensures size { IfOk result (λ o. IfSome o (λ bytes. length bytes ≤ 4194304)) }
        ensures outside { stays_inside 0 (path_components name.now) ≡ false → result ≡ Ok None }
    {
        if !is_inside(name) {
            return Ok(None);
        }
        match format!(in alloc; "{}/{name}", self.folder) {
            Ok(path) => read_at(alloc, &self.rt, path.as_str()),
            Err(_) => Err(TreeFault::OutOfMemory),
        }
    }
}

impl<R: Files<File = File> + Drop> Tree for RealTree<R> {
    ghost tells_files = { false };

    ghost file = { λ _. no_files };

    ghost faults = { λ t. t.faults };

    /// There is no file of a name that leaves the folder, or that begins at the root.
    fn read_file(&mut self, alloc: Global, name: &str) -> Result<Option<Bytes>, TreeFault>
        ensures answers { false ≡ true → AnswersFile (no_files name.now) result }
        ensures size { IfOk result (λ o. IfSome o (λ bytes. length bytes ≤ 4194304)) }
        ensures stays { no_files ≡ no_files }
        ensures cause { FileCause self.old.faults self.new.faults result }
        ensures outside { stays_inside 0 (path_components name.now) ≡ false → result ≡ Ok None }
    {
        match self.read(alloc, name) {
            Ok(file) => Ok(file),
            Err(TreeFault::Fault) => {
                self.faults = self.faults.saturating_add(1);
                Err(TreeFault::Fault)
            }
            Err(fault) => Err(fault),
        }
    }
}

// All bytes of the file at that path, or None where there is no file.
fn read_at<R: Files<File = File>>(
    alloc: Global,
    rt: &R,
    path: &str,
) -> Result<Option<Bytes>, TreeFault>
    ensures size { IfOk result (λ o. IfSome o (λ bytes. length bytes ≤ 4194304)) }
{
    match open(rt, path) {
        Ok(Some(file)) => read_whole(alloc, file),
        Ok(None) => Ok(None),
        Err(_) => Err(TreeFault::Fault),
    }
}

// The file at that path, or None where there is no file.
fn open<R: Files<File = File>>(rt: &R, path: &str) -> io::Result<Option<File>> {
    match File::open(rt, path) {
        Ok(file) => {
            let is_file = file.metadata()?.is_file();
            Ok(if is_file { Some(file) } else { None })
        }
        Err(error) => match error.kind() {
            ErrorKind::NotFound | ErrorKind::NotADirectory => Ok(None),
            _ => Err(error),
        },
    }
}

// All bytes of the file, where they are not too many.
fn read_whole(alloc: Global, mut file: File) -> Result<Option<Bytes>, TreeFault>
    ensures size { IfOk result (λ o. IfSome o (λ bytes. length bytes ≤ 4194304)) }
{
    let Ok(metadata) = file.metadata() else {
        return Err(TreeFault::Fault);
    };
    if metadata.len() > MAX_FILE_BYTES as u64 {
        return Err(TreeFault::TooLarge);
    }
    let Ok(mut bytes) = vec![in alloc; 0u8; metadata.len() as usize] else {
        return Err(TreeFault::OutOfMemory);
    };
    let Ok(count) = read_front(&mut file, bytes.as_mut_slice()) else {
        return Err(TreeFault::Fault);
    };
    bytes.truncate(count);
    Ok(Some(Bytes::from_vec(bytes)))
}

// Reads until the buffer is full or the file ends, and returns how many bytes it read.
fn read_front(file: &mut File, buf: &mut [u8]) -> io::Result<usize>
    ensures { IfOk result (λ n. n ≤ length buf.old) }
{
    let mut done = 0;
    while done < buf.len() {
        let count = file.read(&mut buf[done..])?;
        if count == 0 {
            return Ok(done);
        }
        done += count;
    }
    Ok(done)
}
