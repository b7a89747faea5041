// A disk in memory that reports what a crash may leave.
ghost use Rattle.std.specs.Prelude.{◌≡◌, nat_le, ◌<◌, ◌≤◌, ◌+◌, ◌-◌, ◌^◌, ◌++◌, ◌⊎◌, [], ◌∷◌, true, if◌then◌else◌};
ghost use Rattle.std.specs.Prelude.{length, min, IsOk, IfOk, OnOk, OnErr};
ghost use Rattle.std.specs.Vec.{vec_capacity};
ghost use Rattle.arm_edges.specs.Calls.{limit_at, one_more};
ghost use Rattle.arm_edges.specs.Disk.{on, other, overwritten, resized, At, Torn, Cut, Unchanged, GoesOn, ReadsAt};
ghost use Rattle.arm_edges.specs.Disk.{IsKept, AreWithin, largest_fits};
ghost use Rattle.arm_edges.specs.Faults.{HasCause};
ghost use Rattle.mem_disk.specs.Moves.{parts_after, IsOneMore};
ghost use Rattle.mem_disk.specs.Log.{steps_of, move_of, size_of};
ghost use Rattle.mem_disk.specs.Contents.{contents_of, HasRoom};
ghost use Rattle.mem_disk.specs.ReadImages.{reads_left_at};

use crate::begun::{Begun, begin};
use crate::change::Change;
use crate::contents::{Contents, Room, cut_part, part_of, roomy, write_part};
use crate::crash::image;
use crate::edit::read_in;
use crate::log::Log;
use arm_edges::{Calls, Disk, Failed, Part};
use arm_value::OutOfMemory;
use std::alloc::Global;

/// A disk in memory. It keeps each call that changes it, so that what a crash leaves is known.
#[derive(Debug, Drop)]
pub struct MemDisk {
    first: Contents,
    held: Contents,
    log: Log,
    room: Room,
    left: Room,
    calls: Calls,
    ghost reads_are: { contents_of held
        ≡ parts_after (steps_of log.bytes.items log.entries.items) (contents_of first) },
    ghost within: { AreWithin 18446744073709551615 (contents_of held) },
    ghost held_room: { HasRoom left.bytes held },
    ghost log_room: { length log.bytes.items + left.bytes ≤ vec_capacity log.bytes },
    ghost call_room: { length log.entries.items + left.calls ≤ vec_capacity log.entries },
}

impl MemDisk {
    /// A disk that holds these contents, with that room, which it takes at once. Reads come by the cuts, and the calls
    /// of those numbers fail.
    pub fn new(
        alloc: Global,
        contents: &Contents,
        cuts: Vec<usize>,
        fails: Vec<u64>,
        room: Room,
    ) -> Result<MemDisk, OutOfMemory>
        ensures first { IfOk result (λ d. contents_of d.first ≡ contents_of contents.now) }
        ensures now { IfOk result (λ d. contents_of d.held ≡ contents_of contents.now) }
        ensures steps { IfOk result (λ d. steps_of d.log.bytes.items d.log.entries.items ≡ []) }
        ensures room { IfOk result (λ d. (d.room ≡ room) × (d.left ≡ room)) }
        ensures cuts { IfOk result (λ d. d.calls.cuts.items ≡ cuts.items) }
        ensures fails { IfOk result (λ d. d.calls.fails.items ≡ fails.items) }
        ensures made { IfOk result (λ d. d.calls.made ≡ 0) }
        ensures faults { IfOk result (λ d. d.calls.faults ≡ 0) }
    {
        Ok(MemDisk {
            first: roomy(alloc, contents, 0)?,
            held: roomy(alloc, contents, room.bytes)?,
            log: Log::new(alloc, room.calls, room.bytes)?,
            room,
            left: room,
            calls: Calls::new(cuts, fails),
        })
    }
}

impl MemDisk {
    ghost use Rattle.mem_disk.specs.MemDisks.{reads_in, moment_in, left_in};

    /// How its calls went, and which of them fail.
    pub fn calls(&self) -> &Calls
        ensures { result.now ≡ self.now.calls }
    {
        &self.calls
    }

    /// A disk that a crash now may leave. It has the same room and cuts, and no call of it fails.
    ///
    /// The choice says what is there of the changes after the last sync of their part. These are numbered from the last
    /// call back.
    ///
    /// | Choice | What is there |
    /// |---|---|
    /// | `4 * r` | the changes whose bits in `r` are 1 |
    /// | `4 * r + 1` | the same, and the other changes have left other bytes in their range |
    /// | `4 * r + 2` | all changes before one change, the first bytes of that change, and nothing of those after it |
    /// | `4 * r + 3` | the same, with other bytes in the rest of that one's range |
    ///
    /// In the last two rows the number of the one change is in the bits 0 to 2 and 6 to 8 of `r`, and the number of its
    /// first bytes in the bits 3 to 5 and from 9 on.
    pub fn crash(&self, alloc: Global, choice: u64) -> Result<MemDisk, OutOfMemory>
        ensures image { IfOk result (λ d. left_in self.now (moment_in self.now) (reads_in d)) }
        ensures first { IfOk result (λ d. contents_of d.first ≡ contents_of d.held) }
        ensures steps { IfOk result (λ d. steps_of d.log.bytes.items d.log.entries.items ≡ []) }
        ensures room { IfOk result (λ d. (d.room ≡ self.now.room) × (d.left ≡ self.now.room)) }
        ensures cuts { IfOk result (λ d. d.calls.cuts.items ≡ self.now.calls.cuts.items) }
        ensures fails { IfOk result (λ d. d.calls.fails.items ≡ []) }
        ensures made { IfOk result (λ d. d.calls.made ≡ 0) }
        ensures faults { IfOk result (λ d. d.calls.faults ≡ 0) }
    {
        let left = Contents {
            a: image(alloc, &self.log, Part::A, self.first.a.as_slice(), choice)?,
            b: image(alloc, &self.log, Part::B, self.first.b.as_slice(), choice)?,
        };
        let cuts = self.calls.cuts.as_slice().to_vec(alloc)?;
        MemDisk::new(alloc, &left, cuts, Vec::new(alloc), self.room)
    }
}

// Keeps a call that failed, and that may be on the disk in part, where its bytes have room.
fn keep_torn(log: &mut Log, left: &mut usize, part: Part, change: Change, bytes: &[u8])
    requires size { size_of change ≡ length bytes.now }
    requires room { length log.old.entries.items < vec_capacity log.old.entries }
    requires bytes_room { length log.old.bytes.items + left.old ≤ vec_capacity log.old.bytes }
    ensures steps { IsOneMore (steps_of log.old.bytes.items log.old.entries.items)
        (part, move_of change bytes.now) (steps_of log.new.bytes.items log.new.entries.items) }
    ensures entries { length log.new.entries.items ≤ length log.old.entries.items + 1 }
    ensures capacity { vec_capacity log.old.entries ≤ vec_capacity log.new.entries }
    ensures bytes_room { length log.new.bytes.items + left.new ≤ vec_capacity log.new.bytes }
    ensures left { left.new + (if nat_le (length bytes.now) left.old then length bytes.now else 0)
        ≡ left.old }
{
    if bytes.len() <= *left {
        *left -= bytes.len();
        log.push(part, change, bytes);
    }
}

impl Disk for MemDisk {
    ghost use Rattle.mem_disk.specs.MemDisks.{reads_in, moment_in, left_in, reach_in, NextGoes, room_for, torn_room};
    ghost use Rattle.mem_disk.specs.MemDisks.{Spends};

    ghost tells_reads = { true };

    ghost tells_images = { true };

    ghost reads = { reads_in };

    ghost moment = { moment_in };

    ghost left = { left_in };

    ghost faults = { λ d. d.calls.faults };

    ghost reach = { reach_in };

    ghost reach_fits = { λ _. largest_fits };

    ghost reads_fit = { λ d _. d.within };

    ghost reads_an_image = { λ d _. reads_left_at (contents_of d.first)
        (steps_of d.log.bytes.items d.log.entries.items) (contents_of d.held) d.reads_are };

    fn length(&mut self, part: Part) -> Result<u64, Failed>
        ensures size { IfOk result (λ n. true ≡ true → n ≡ length (on part (reads_in self.old))) }
        ensures reads { reads_in self.new ≡ reads_in self.old }
        ensures images { true ≡ true → GoesOn moment_in left_in (Unchanged) self.old self.new }
        ensures cause { HasCause self.old.calls.faults self.new.calls.faults result }
        ensures once { OnErr result (self.new.calls.faults ≡ one_more self.old.calls.faults) }
        ensures reach { reach_in self.new ≡ reach_in self.old }
        ensures goes { NextGoes self.old → IsOk result }
        ensures only { OnOk result (NextGoes self.old) }
        ensures spends { Spends 0 self.old self.new }
    {
        match begin(&mut self.left.calls, &mut self.calls) {
            Begun::Goes(_) => Ok(part_of(&self.held, part).len() as u64),
            _ => Err(Failed),
        }
    }

    fn read_at(&mut self, part: Part, at: u64, buf: &mut [u8]) -> Result<usize, Failed>
        ensures bound { IfOk result (λ n. n ≤ length buf.old) }
        ensures read { IfOk result (λ n. true ≡ true
            → ReadsAt at n (on part (reads_in self.old)) buf.new) }
        ensures piece { IfOk result (λ n.
            n ≡ min (limit_at self.old.calls.cuts.items self.old.calls.made)
            (min (length buf.old) (length (on part (reads_in self.old)) - at))) }
        ensures reads { reads_in self.new ≡ reads_in self.old }
        ensures images { true ≡ true → GoesOn moment_in left_in (Unchanged) self.old self.new }
        ensures cause { HasCause self.old.calls.faults self.new.calls.faults result }
        ensures once { OnErr result (self.new.calls.faults ≡ one_more self.old.calls.faults) }
        ensures reach { reach_in self.new ≡ reach_in self.old }
        ensures goes { NextGoes self.old → IsOk result }
        ensures only { OnOk result (NextGoes self.old) }
        ensures spends { Spends 0 self.old self.new }
    {
        match begin(&mut self.left.calls, &mut self.calls) {
            Begun::Goes(limit) => Ok(read_in(part_of(&self.held, part), at, limit, buf)),
            _ => Err(Failed),
        }
    }

    fn write_at(&mut self, part: Part, at: u64, bytes: &[u8]) -> Result<(), Failed>
        requires { at + length bytes.now ≤ reach_in self.old }
        ensures written { OnOk result (true ≡ true
            → At part (λ old new. new ≡ overwritten at bytes.now old)
            (reads_in self.old) (reads_in self.new)) }
        ensures other_part { true ≡ true
            → on (other part) (reads_in self.new) ≡ on (other part) (reads_in self.old) }
        ensures images { true ≡ true
            → GoesOn moment_in left_in (At part (Torn at (length bytes.now))) self.old self.new }
        ensures cause { HasCause self.old.calls.faults self.new.calls.faults result }
        ensures once { OnErr result (self.new.calls.faults ≡ one_more self.old.calls.faults) }
        ensures stays { OnErr result (reads_in self.new ≡ reads_in self.old) }
        ensures reach { reach_in self.new ≡ reach_in self.old }
        ensures goes { NextGoes self.old
            → room_for part at (length bytes.now) self.old ≤ self.old.left.bytes → IsOk result }
        ensures only { OnOk result (NextGoes self.old
            × (room_for part at (length bytes.now) self.old ≤ self.old.left.bytes)) }
        ensures spends { OnOk result
            (Spends (room_for part at (length bytes.now) self.old) self.old self.new) }
        ensures tears { OnErr result
            (Spends (torn_room (length bytes.now) self.old) self.old self.new) }
    {
        let change = Change::Wrote {
            at,
            count: bytes.len(),
        };
        match begin(&mut self.left.calls, &mut self.calls) {
            Begun::Refused => Err(Failed),
            Begun::Fails => {
                let torn = Change::Tore {
                    at,
                    count: bytes.len(),
                };
                keep_torn(&mut self.log, &mut self.left.bytes, part, torn, bytes);
                Err(Failed)
            }
            Begun::Goes(_) => {
                let gap = (at as usize).saturating_sub(part_of(&self.held, part).len());
                if bytes.len() > self.left.bytes || gap > self.left.bytes - bytes.len() {
                    return Err(self.calls.fault());
                }
                self.log.push(part, change, bytes);
                write_part(&mut self.held, self.left.bytes, part, at as usize, bytes);
                self.left.bytes -= bytes.len() + gap;
                Ok(())
            }
        }
    }

    fn cut(&mut self, part: Part, length: u64) -> Result<(), Failed>
        requires { length ≤ reach_in self.old }
        ensures cut { OnOk result (true ≡ true
            → At part (λ old new. new ≡ resized length old)
            (reads_in self.old) (reads_in self.new)) }
        ensures other_part { true ≡ true
            → on (other part) (reads_in self.new) ≡ on (other part) (reads_in self.old) }
        ensures images { true ≡ true
            → GoesOn moment_in left_in (At part (Cut length)) self.old self.new }
        ensures cause { HasCause self.old.calls.faults self.new.calls.faults result }
        ensures once { OnErr result (self.new.calls.faults ≡ one_more self.old.calls.faults) }
        ensures stays { OnErr result (reads_in self.new ≡ reads_in self.old) }
        ensures reach { reach_in self.new ≡ reach_in self.old }
        ensures goes { NextGoes self.old → room_for part length 0 self.old ≤ self.old.left.bytes
            → IsOk result }
        ensures only { OnOk result (NextGoes self.old
            × (room_for part length 0 self.old ≤ self.old.left.bytes)) }
        ensures spends { OnOk result (Spends (room_for part length 0 self.old) self.old self.new) }
        ensures tears { OnErr result (Spends 0 self.old self.new) }
    {
        match begin(&mut self.left.calls, &mut self.calls) {
            Begun::Refused => Err(Failed),
            Begun::Fails => {
                let torn = Change::ToreOff { length };
                keep_torn(&mut self.log, &mut self.left.bytes, part, torn, &[]);
                Err(Failed)
            }
            Begun::Goes(_) => {
                let gap = (length as usize).saturating_sub(part_of(&self.held, part).len());
                if gap > self.left.bytes {
                    return Err(self.calls.fault());
                }
                self.log.push(part, Change::Resized { length }, &[]);
                cut_part(&mut self.held, self.left.bytes, part, length as usize);
                self.left.bytes -= gap;
                Ok(())
            }
        }
    }

    fn sync(&mut self, part: Part) -> Result<(), Failed>
        ensures kept { OnOk result (true ≡ true
            → IsKept part (reads_in self.new) (left_in self.new (moment_in self.new))) }
        ensures reads { reads_in self.new ≡ reads_in self.old }
        ensures images { true ≡ true → GoesOn moment_in left_in (Unchanged) self.old self.new }
        ensures cause { HasCause self.old.calls.faults self.new.calls.faults result }
        ensures once { OnErr result (self.new.calls.faults ≡ one_more self.old.calls.faults) }
        ensures reach { reach_in self.new ≡ reach_in self.old }
        ensures goes { NextGoes self.old → IsOk result }
        ensures only { OnOk result (NextGoes self.old) }
        ensures spends { Spends 0 self.old self.new }
    {
        match begin(&mut self.left.calls, &mut self.calls) {
            Begun::Goes(_) => {
                self.log.push(part, Change::Synced, &[]);
                Ok(())
            }
            _ => Err(Failed),
        }
    }
}
