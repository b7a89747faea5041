// A disk in memory whose calls never fail.
ghost use Rattle.std.specs.Prelude.{◌≡◌, ◌<◌, ◌^◌, ◌≤◌, true, false, [], length, IfOk};
ghost use Rattle.std.specs.Vec.{vec_capacity};
ghost use Rattle.arm_edges.specs.Disk.{no_parts};

use crate::edit::{cut_within, read_in, write_within};
use arm_edges::{Disk, Failed, Part};
use arm_value::OutOfMemory;
use std::alloc::Global;

/// A disk in memory whose calls never fail. It reports what a read returns, and nothing of crashes.
#[derive(Debug, Drop)]
pub struct RamDisk {
    a: Vec<u8>,
    b: Vec<u8>,
    reach: u64,
    ghost small: { reach < 2 ^ 64 },
    ghost a_within: { length a.items ≤ reach },
    ghost b_within: { length b.items ≤ reach },
    ghost a_taken: { reach ≤ vec_capacity a },
    ghost b_taken: { reach ≤ vec_capacity b },
}

impl RamDisk {
    /// An empty disk that has taken room for `reach` bytes in each part.
    pub fn new(alloc: Global, reach: u64) -> Result<RamDisk, OutOfMemory>
        ensures empty { IfOk result (λ d. (d.a.items ≡ []) × (d.b.items ≡ [])) }
        ensures reach { IfOk result (λ d. d.reach ≡ reach) }
    {
        Ok(RamDisk {
            a: Vec::with_capacity(alloc, reach as usize)?,
            b: Vec::with_capacity(alloc, reach as usize)?,
            reach,
        })
    }
}

impl Disk for RamDisk {
    ghost tells_reads = { true };

    ghost tells_images = { false };

    ghost reads = { λ d. record { a = d.a.items; b = d.b.items } };

    ghost moment = { λ _. 0 };

    ghost left = { λ _ _ _. ⊥ };

    ghost faults = { λ _. 0 };

    ghost reach = { λ d. d.reach };

    ghost reach_fits = { λ d. d.small };

    ghost reads_fit = { λ d _. (d.a_within, d.b_within) };

    ghost reads_an_image = { λ _ reported. Prim.cc };

    fn length(&mut self, part: Part) -> Result<u64, Failed> {
        match part {
            Part::A => Ok(self.a.len() as u64),
            Part::B => Ok(self.b.len() as u64),
        }
    }

    fn read_at(&mut self, part: Part, at: u64, buf: &mut [u8]) -> Result<usize, Failed> {
        match part {
            Part::A => Ok(read_in(self.a.as_slice(), at, usize::MAX, buf)),
            Part::B => Ok(read_in(self.b.as_slice(), at, usize::MAX, buf)),
        }
    }

    fn write_at(&mut self, part: Part, at: u64, bytes: &[u8]) -> Result<(), Failed> {
        match part {
            Part::A => write_within(&mut self.a, self.reach, at, bytes),
            Part::B => write_within(&mut self.b, self.reach, at, bytes),
        }
        Ok(())
    }

    fn cut(&mut self, part: Part, length: u64) -> Result<(), Failed> {
        match part {
            Part::A => cut_within(&mut self.a, self.reach, length),
            Part::B => cut_within(&mut self.b, self.reach, length),
        }
        Ok(())
    }

    fn sync(&mut self, _part: Part) -> Result<(), Failed> {
        Ok(())
    }
}
