// The writing of a journal without records.
ghost use Rattle.std.specs.Prelude.{◌≡◌, ◌<◌, ◌-◌, ◌≤◌, [], ◌∷◌, true, length, OnOk};
ghost use Rattle.arm_edges.specs.Disk.{GoesOn, IsKept};
ghost use Rattle.arm_edges.specs.declared.disk.Part.TheVariants.{A};
ghost use Rattle.deploy_journal.specs.Records.{Holds, KeepsB};
ghost use Rattle.deploy_journal.specs.Formatting.{FormatAnswers, WroteNothing};
ghost use Rattle.deploy_journal.specs.Reading.{Still};

use crate::Journal;
use arm_edges::{Disk, Part};

/// Why a journal was not written.
#[derive(Clone, Copy, Debug, PartialEq, Eq)]
pub enum FormatFault {
    /// Part A has bytes already; their number.
    NotEmpty(u64),
    /// The disk failed, and its count of faults rose.
    DiskFault,
}

// A journal without records: the name of the format, and a closed gate.
const EMPTY: [u8; 17] = *b"armdeploy-jrnl-1\0";

impl<D: Disk> Journal<D> {
    /// Writes a journal without records to part A, which must be empty, and syncs it. A stop inside leaves a file that
    /// the operator deletes.
    pub fn format(disk: &mut D) -> Result<(), FormatFault>
        requires { 17 ≤ D.reach disk.old }
        ensures answers { FormatAnswers D.tells_reads (D.reads disk.old) (D.reads disk.new)
            (D.faults disk.old) (D.faults disk.new) result }
        ensures holds { OnOk result (D.tells_reads ≡ true → Holds [] 16 (D.reads disk.new).a) }
        ensures kept { OnOk result (D.tells_images ≡ true
            → IsKept A (D.reads disk.new) (D.left disk.new (D.moment disk.new))) }
        ensures still { WroteNothing result
            → Still D.tells_images D.reads D.moment D.left D.reach disk.old disk.new }

        // Part B reads as before, and a crash leaves nothing new of it.
        ensures part_b { D.tells_reads ≡ true → KeepsB (D.reads disk.old) (D.reads disk.new) }
        ensures part_b_images { D.tells_images ≡ true
            → GoesOn D.moment D.left KeepsB disk.old disk.new }
        ensures reach { D.reach disk.new ≡ D.reach disk.old }
    {
        let Ok(length) = disk.length(Part::A) else {
            return Err(FormatFault::DiskFault);
        };
        if length > 0 {
            return Err(FormatFault::NotEmpty(length));
        }
        let Ok(()) = disk.write_at(Part::A, 0, &EMPTY) else {
            return Err(FormatFault::DiskFault);
        };
        let Ok(()) = disk.sync(Part::A) else {
            return Err(FormatFault::DiskFault);
        };
        Ok(())
    }
}
