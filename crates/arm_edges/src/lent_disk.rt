// A disk that is lent is a disk.
use crate::{Disk, Failed, Part};

impl<D: Disk> Disk for &mut D {
    ghost tells_reads = { D.tells_reads };

    ghost tells_images = { D.tells_images };

    ghost reads = { λ d. D.reads d.now };

    ghost moment = { λ d. D.moment d.now };

    ghost left = { λ d. D.left d.now };

    ghost faults = { λ d. D.faults d.now };

    ghost reach = { λ d. D.reach d.now };

    ghost reach_fits = { λ d. D.reach_fits d.now };

    ghost reads_fit = { λ d reported. D.reads_fit d.now reported };

    ghost reads_an_image = { λ d reported. D.reads_an_image d.now reported };

    fn length(&mut self, part: Part) -> Result<u64, Failed> {
        (**self).length(part)
    }

    fn read_at(&mut self, part: Part, at: u64, buf: &mut [u8]) -> Result<usize, Failed> {
        (**self).read_at(part, at, buf)
    }

    fn write_at(&mut self, part: Part, at: u64, bytes: &[u8]) -> Result<(), Failed> {
        (**self).write_at(part, at, bytes)
    }

    fn cut(&mut self, part: Part, length: u64) -> Result<(), Failed> {
        (**self).cut(part, length)
    }

    fn sync(&mut self, part: Part) -> Result<(), Failed> {
        (**self).sync(part)
    }
}
