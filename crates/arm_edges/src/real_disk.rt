// A disk of two real files.
ghost use Rattle.std.specs.Prelude.{◌≡◌, ◌≤◌, false, length, IfOk, string_bytes};
ghost use Rattle.arm_edges.specs.Disk.{no_parts, of_part, largest_fits};

use crate::faults::counted;
use crate::{Disk, Failed, Part};
use std::fs::{File, OpenOptions};
use std::io;
use std::os::unix::fs::FileExt;
use std::path::Path;
use std::rt::Files;

// A file that is opened when it is first needed, and made empty where it is missing. Its folder is synced then, so that
// a crash leaves the name of a file that was made.
#[derive(Drop)]
struct LazyFile {
    path: String,
    file: Option<File>,
}

impl LazyFile {
    fn opened<R: Files<File = File>>(&mut self, rt: &R) -> io::Result<&File> {
        if self.file.is_none() {
            self.file = Some(open_synced(rt, self.path.as_str())?);
        }
        match &self.file {
            Some(file) => Ok(file),
            None => unreachable!(),
        }
    }
}

// The file at that path, made empty where it is missing. Its folder was synced.
fn open_synced<R: Files<File = File>>(rt: &R, path: &str) -> io::Result<File> {
    let file = OpenOptions::new()
        .read(true)
        .write(true)
        .create(true)
        .open(rt, path)?;
    match sync_folder(rt, folder_of(path)) {
        Ok(()) => Ok(file),
        Err(error) => Err(error),
    }
}

fn sync_folder<R: Files<File = File>>(rt: &R, folder: &str) -> io::Result<()> {
    File::open(rt, folder)?.sync_all()
}

// The folder that holds the file at that path.
fn folder_of(path: &str) -> &str {
    match Path::new(path).parent() {
        Some(folder) if !folder.as_str().is_empty() => folder.as_str(),
        _ => ".",
    }
}

// The files of both parts.
#[derive(Drop)]
struct PartFiles<R: Files<File = File> + Drop> {
    rt: R,
    a: LazyFile,
    b: LazyFile,
}

impl<R: Files<File = File> + Drop> PartFiles<R> {
    fn opened(&mut self, part: Part) -> io::Result<&File> {
        match part {
            Part::A => self.a.opened(&self.rt),
            Part::B => self.b.opened(&self.rt),
        }
    }

    fn length(&mut self, part: Part) -> io::Result<u64> {
        Ok(self.opened(part)?.metadata()?.len())
    }

    fn read_at(&mut self, part: Part, at: u64, buf: &mut [u8]) -> io::Result<usize>
        ensures { IfOk result (λ n. n ≤ length buf.old) }
    {
        self.opened(part)?.read_at(buf, at)
    }

    fn write_at(&mut self, part: Part, at: u64, bytes: &[u8]) -> io::Result<()> {
        self.opened(part)?.write_all_at(bytes, at)
    }

    fn cut(&mut self, part: Part, length: u64) -> io::Result<()> {
        self.opened(part)?.set_len(length)
    }

    fn sync(&mut self, part: Part) -> io::Result<()> {
        self.opened(part)?.sync_all()
    }
}

/// Two files. Each is opened at its first call, and made empty where it is missing; its folder is synced then. A real
/// disk does not report what they hold.
#[derive(Drop)]
pub struct RealDisk<R: Files<File = File> + Send + Drop> {
    files: PartFiles<R>,
    faults: u64,
}

impl<R: Files<File = File> + Send + Drop> RealDisk<R> {
    /// How often a call has failed, up to 2^64 - 1.
    pub fn faults(&self) -> u64
        ensures { result ≡ self.now.faults }
    {
        self.faults
    }

    /// The path of the file that holds the part.
    pub fn path(&self, part: Part) -> &str
        ensures { result.now ≡ string_bytes (of_part part self.now.files.a.path self.now.files.b.path) }
    {
        match part {
            Part::A => self.files.a.path.as_str(),
            Part::B => self.files.b.path.as_str(),
        }
    }

    /// The disk of the files at these paths: part A, then part B.
    pub fn new(rt: R, path_a: String, path_b: String) -> RealDisk<R>
        ensures paths { result.files.a.path ≡ path_a × result.files.b.path ≡ path_b }
        ensures faults { result.faults ≡ 0 }
    {
        RealDisk {
            files: PartFiles {
                rt,
                a: LazyFile {
                    path: path_a,
                    file: None,
                },
                b: LazyFile {
                    path: path_b,
                    file: None,
                },
            },
            faults: 0,
        }
    }
}

impl<R: Files<File = File> + Send + Drop> Disk for RealDisk<R> {
    ghost tells_reads = { false };

    ghost tells_images = { false };

    ghost reads = { λ _. no_parts };

    ghost moment = { λ _. 0 };

    ghost left = { λ _ _ _. ⊥ };

    ghost faults = { λ d. d.faults };

    ghost reach = { λ _. 18446744073709551615 };

    ghost reach_fits = { λ _. largest_fits };

    ghost reads_fit = { λ _ reported. Prim.cc };

    ghost reads_an_image = { λ _ reported. Prim.cc };

    fn length(&mut self, part: Part) -> Result<u64, Failed> {
        let answer = self.files.length(part);
        counted(&mut self.faults, answer)
    }

    fn read_at(&mut self, part: Part, at: u64, buf: &mut [u8]) -> Result<usize, Failed> {
        let answer = self.files.read_at(part, at, buf);
        counted(&mut self.faults, answer)
    }

    fn write_at(&mut self, part: Part, at: u64, bytes: &[u8]) -> Result<(), Failed> {
        let answer = self.files.write_at(part, at, bytes);
        counted(&mut self.faults, answer)
    }

    fn cut(&mut self, part: Part, length: u64) -> Result<(), Failed> {
        let answer = self.files.cut(part, length);
        counted(&mut self.faults, answer)
    }

    fn sync(&mut self, part: Part) -> Result<(), Failed> {
        let answer = self.files.sync(part);
        counted(&mut self.faults, answer)
    }
}
