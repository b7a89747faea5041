// A journal over a disk: opened, and with one record more.
ghost use Rattle.std.specs.Prelude.{◌≡◌, ◌<◌, ◌^◌, ◌⊎◌, ◌+◌, ◌-◌, ◌≤◌, ◌++◌, [], ◌∷◌, ℕ, List, true, false, length};
ghost use Rattle.std.specs.Prelude.{if◌then◌else◌, OnOk, OnErr, IfOk, IfErr, MatchOption};
ghost use Rattle.arm_edges.specs.Disk.{GoesOn, IsKept};
ghost use Rattle.arm_edges.specs.declared.disk.Part.TheVariants.{A};
ghost use Rattle.deploy_journal.specs.Records.{Holds, Record as Entry, record_of, KeepsB, Since, IsOneOf, IsDamagedAt};
ghost use Rattle.deploy_journal.specs.Reading.{Still, FaultCause};
ghost use Rattle.deploy_journal.specs.Opening.{DamageMeans};
ghost use Rattle.deploy_journal.specs.Answers.{AppendAnswers, DidNothing, standing};

use crate::append::put_record;
use crate::open::read_all;
use crate::read::OpenFault;
use crate::record::Record;
use arm_edges::{Disk, Failed};
use std::alloc::Global;

/// Why a record was not added.
#[derive(Clone, Copy, Debug, PartialEq, Eq)]
pub enum AppendFault {
    /// The live length with the record exceeds the limit. Nothing was written. Both in bytes; `needed` is the length
    /// with the record, or 2^64 - 1 where it is more.
    Full { length: u64, needed: u64 },
    /// The disk failed, and its count of faults rose. The record may be there or not, and the journal must be reopened.
    DiskFault,
    /// An earlier call failed by `DiskFault`. Nothing was written.
    MustReopen,
}

/// A journal over a disk. Its records are in part A.
#[derive(Drop)]
pub struct Journal<D: Disk> {
    /// The disk.
    pub disk: D,
    /// How long the journal may grow, in bytes.
    pub limit: u64,
    /// The live length: the bytes up to the closed gate after the last record, that gate included.
    pub length: u64,
    /// Whether a call has failed by `DiskFault`.
    pub must_reopen: bool,
    ghost room: { limit + 4096 ≤ D.reach disk },
    ghost begun: { 17 ≤ length },
    ghost kept: { must_reopen ≡ false → D.tells_images ≡ true
        → IsKept A (D.reads disk) (D.left disk (D.moment disk)) },
}

/// How far a record may go beyond the limit where it is written from the reserve, in bytes.
pub const RESERVE: u64 = 4096;

// The length in bytes with one record more; None where it is 2^64 or more.
fn length_with(length: u64, first: usize, second: usize) -> Option<u64>
    ensures { MatchOption result (2 ^ 64 ≤ length + (18 + first + second)) (λ n.
        n ≡ length + (18 + first + second)) }
{
    let framed = length.checked_add(18)?;
    let with_first = framed.checked_add(first as u64)?;
    with_first.checked_add(second as u64)
}

impl<D: Disk> Journal<D> {
    /// Adds one record. Once this has answered Ok, the record is in every later image. With `reserve` the limit is
    /// 4,096 bytes higher.
    pub fn append(
        &mut self,
        kind: u8,
        first: &[u8],
        second: &[u8],
        reserve: bool,
    ) -> Result<(), AppendFault>
        ensures answers { AppendAnswers
            (standing self.old.must_reopen self.old.length (D.faults self.old.disk))
            (standing self.new.must_reopen self.new.length (D.faults self.new.disk))
            (self.old.length + (18 + length first.now + length second.now))
            (if reserve then self.old.limit + 4096 else self.old.limit) result }
        ensures limit { self.new.limit ≡ self.old.limit }
        ensures still { DidNothing result → self.new.disk ≡ self.old.disk }
        ensures holds { OnOk result (D.tells_reads ≡ true → (records : List Entry)
            → Holds records (self.old.length - 1) (D.reads self.old.disk).a
            → Holds (records ++ record_of kind first.now second.now ∷ []) (self.new.length - 1)
            (D.reads self.new.disk).a) }

        // Each image from the call's start to its end holds the records from before, or those with the new one.
        ensures crash { self.old.must_reopen ≡ false → D.tells_reads ≡ true → D.tells_images ≡ true
            → (records : List Entry) → Holds records (self.old.length - 1) (D.reads self.old.disk).a
            → Since D.moment D.left self.old.disk self.new.disk
            (λ image. IsOneOf records (record_of kind first.now second.now) image.a) }

        // After Ok a crash leaves part A as it reads.
        ensures kept { OnOk result (D.tells_images ≡ true
            → IsKept A (D.reads self.new.disk) (D.left self.new.disk (D.moment self.new.disk))) }

        // Part B reads as before, and a crash leaves nothing new of it.
        ensures part_b { D.tells_reads ≡ true
            → KeepsB (D.reads self.old.disk) (D.reads self.new.disk) }
        ensures part_b_images { D.tells_images ≡ true
            → GoesOn D.moment D.left KeepsB self.old.disk self.new.disk }
        ensures reach { D.reach self.new.disk ≡ D.reach self.old.disk }
    {
        if self.must_reopen {
            return Err(AppendFault::MustReopen);
        }
        let limit = if reserve {
            self.limit + RESERVE
        } else {
            self.limit
        };
        let Some(needed) = length_with(self.length, first.len(), second.len()) else {
            return Err(AppendFault::Full {
                length: self.length,
                needed: u64::MAX,
            });
        };
        if needed > limit {
            return Err(AppendFault::Full {
                length: self.length,
                needed,
            });
        }
        match put_record(&mut self.disk, self.length - 1, kind, first, second) {
            Ok(()) => {
                self.length = needed;
                Ok(())
            }
            Err(Failed) => {
                self.must_reopen = true;
                Err(AppendFault::DiskFault)
            }
        }
    }
}

/// A journal that was not opened: its disk, and the reason.
#[derive(Debug, Drop)]
pub struct NotOpened<D> {
    pub disk: D,
    pub fault: OpenFault,
}

impl<D: Disk> Journal<D> {
    /// Syncs part A and reads its records. It writes nothing. The limit is in bytes.
    pub fn open(
        alloc: Global,
        disk: D,
        limit: u64,
    ) -> Result<(Journal<D>, Vec<Record>), NotOpened<D>>
        requires { limit + 4096 ≤ D.reach disk }
        ensures opened { IfOk result (λ r. (r.0.must_reopen ≡ false) × (r.0.limit ≡ limit)) }
        ensures records { IfOk result (λ r. D.tells_reads ≡ true
            → Holds r.1.items (r.0.length - 1) (D.reads disk).a) }
        ensures undamaged { IfOk result (λ r. D.tells_reads ≡ true
            → (at : ℕ) → IsDamagedAt (D.reads disk).a at → ⊥) }
        ensures kept { IfOk result (λ r. D.tells_images ≡ true
            → IsKept A (D.reads r.0.disk) (D.left r.0.disk (D.moment r.0.disk))) }
        ensures still { IfOk result
            (λ r. Still D.tells_images D.reads D.moment D.left D.reach disk r.0.disk) }
        ensures refused { IfErr result
            (λ e. Still D.tells_images D.reads D.moment D.left D.reach disk e.disk) }
        ensures damaged { IfErr result (λ e. D.tells_reads ≡ true
            → DamageMeans (D.reads disk).a e.fault) }
        ensures count { IfOk result (λ r. D.faults r.0.disk ≡ D.faults disk) }
        ensures cause { IfErr result (λ e. FaultCause (D.faults disk) (D.faults e.disk) e.fault) }
    {
        let mut disk = disk;
        match read_all(alloc, &mut disk) {
            Ok((records, length)) => Ok((
                Journal {
                    disk,
                    limit,
                    length,
                    must_reopen: false,
                },
                records,
            )),
            Err(fault) => Err(NotOpened { disk, fault }),
        }
    }

    /// Returns the disk.
    pub fn into_disk(self) -> D
        ensures { result ≡ self.disk }
    {
        self.disk
    }
}
