// A book in memory.

ghost use Rattle.std.specs.Prelude.{◌≡◌, ◌≤◌, ◌+◌, ◌*◌, ◌^◌, [], None, Err, false, length, IfOk, MatchOption};
ghost use Rattle.std.specs.Vec.{vec_capacity};
ghost use Rattle.dealer_trait.specs.Books.{first_after};
ghost use Rattle.driver_fakes.specs.Answers.{room_answer};
ghost use Rattle.driver_fakes.specs.Kept.{size_of};

use crate::notes::{Entry, copies, keep};
use arm_edges::Calls;
use arm_value::OutOfMemory;
use dealer_trait::{Book, BookFault, Note, kind_of, second_of};
use provider_trait::{Answer, Job};
use std::alloc::Global;

/// How many bytes a note takes beside its two parts, as a record of the journal does.
pub const FRAME: usize = 18;

/// A book in memory. It reports its notes, and takes its memory when it is made.
#[derive(Debug, Drop)]
pub struct MemBook {
    room: usize,
    entries: Vec<Entry>,
    bytes: Vec<u8>,
    calls: Calls,
    refusals: u64,
    first: Option<BookFault>,
    is_broken: bool,
    ghost lengths: { size_of entries.items ≡ length bytes.items },
    ghost within: { 18 * length entries.items + length bytes.items ≤ room },
    ghost entries_room: { room ≤ 18 * vec_capacity entries + 17 },
    ghost bytes_room: { room ≤ vec_capacity bytes },
}

impl MemBook {
    ghost use Rattle.driver_fakes.specs.Answers.{answer_in};
    ghost use Rattle.driver_fakes.specs.MemBooks.{notes_of, length_of, case_of, calls_after};
    ghost use Rattle.dealer_trait.specs.Books.{Notes, CountsFaults, Breaks};

    /// A book without notes, with room for so many bytes. The notes of those numbers, counted from 0,
    /// fail by `DiskFault`.
    pub fn new(alloc: Global, room: usize, fails: Vec<u64>) -> Result<MemBook, OutOfMemory>
        ensures notes { IfOk result (λ m. notes_of m ≡ []) }
        ensures room { IfOk result (λ m. m.room ≡ room) }
        ensures fails { IfOk result (λ m. m.calls.fails.items ≡ fails.items) }
        ensures made { IfOk result (λ m. m.calls.made ≡ 0) }
        ensures faults { IfOk result (λ m. m.calls.faults ≡ 0) }
        ensures refusals { IfOk result (λ m. (m.refusals ≡ 0) × (m.first ≡ None)) }
        ensures sound { IfOk result (λ m. m.is_broken ≡ false) }
    {
        Ok(MemBook {
            room,
            entries: Vec::with_capacity(alloc, room / FRAME)?,
            bytes: Vec::with_capacity(alloc, room)?,
            calls: Calls::new(Vec::new(alloc), fails),
            refusals: 0,
            first: None,
            is_broken: false,
        })
    }

    /// Its notes, oldest first.
    pub fn notes(&self, alloc: Global) -> Result<Vec<Note>, OutOfMemory>
        ensures { IfOk result (λ v. v.items ≡ notes_of self.now) }
    {
        copies(alloc, self.entries.as_slice(), self.bytes.as_slice())
    }

    /// Its length in bytes: 18 for each note, and the parts of each.
    pub fn length(&self) -> usize
        ensures { result ≡ length_of self.now }
    {
        FRAME * self.entries.len() + self.bytes.len()
    }

    /// How many notes it has refused, at most 2^64 - 1.
    pub fn refusals(&self) -> u64
        ensures { result ≡ self.now.refusals }
    {
        self.refusals
    }

    /// Its first refusal; none as long as it has refused no note.
    pub fn first_refusal(&self) -> Option<BookFault>
        ensures { result ≡ self.now.first }
    {
        self.first
    }

    // Keeps the note, or answers why it does not.
    fn keep(&mut self, job: &Job, answer: &Answer) -> Result<(), BookFault>
        ensures answer { result ≡ answer_in (case_of self.old job.now answer.now) }
        ensures notes { Notes (notes_of self.old) (notes_of self.new) job.now answer.now result }
        ensures calls { self.new.calls ≡ calls_after self.old }
        ensures faults { CountsFaults self.old.calls.faults self.new.calls.faults result }
        ensures broken { Breaks self.old.is_broken self.new.is_broken result }
        ensures room { self.new.room ≡ self.old.room }
        ensures refusals { (self.new.refusals ≡ self.old.refusals) × (self.new.first ≡ self.old.first) }
    {
        if self.is_broken {
            return Err(BookFault::MustReopen);
        }
        if self.calls.begin().is_err() {
            self.is_broken = true;
            return Err(BookFault::DiskFault);
        }
        let first = job.first().as_slice();
        let second = second_of(answer);
        match check_room(self.length(), first.len(), second.len(), self.room) {
            Ok(()) => {
                keep(
                    &mut self.entries,
                    &mut self.bytes,
                    kind_of(answer),
                    first,
                    second,
                );
                Ok(())
            }
            Err(fault) => Err(fault),
        }
    }
}

impl Book for MemBook {
    ghost use Rattle.std.specs.Prelude.{true};
    ghost use Rattle.driver_fakes.specs.Answers.{answer_in};
    ghost use Rattle.driver_fakes.specs.MemBooks.{notes_of, case_of, calls_after};
    ghost use Rattle.dealer_trait.specs.Books.{Notes, Refuses, CountsFaults, Breaks, first_after};

    ghost tells = { true };

    ghost notes = { notes_of };

    ghost refusals = { λ m. m.refusals };

    ghost first = { λ m. m.first };

    ghost faults = { λ m. m.calls.faults };

    ghost is_broken = { λ m. m.is_broken };

    fn note(&mut self, job: &Job, answer: &Answer) -> Result<(), BookFault>
        ensures notes { true ≡ true
            → Notes (notes_of self.old) (notes_of self.new) job.now answer.now result }
        ensures count { Refuses self.old.refusals self.new.refusals result }
        ensures first { self.new.first ≡ first_after self.old.first result }
        ensures faults { CountsFaults self.old.calls.faults self.new.calls.faults result }
        ensures broken { Breaks self.old.is_broken self.new.is_broken result }
        ensures answer { result ≡ answer_in (case_of self.old job.now answer.now) }
        ensures calls { self.new.calls ≡ calls_after self.old }
        ensures room { self.new.room ≡ self.old.room }
    {
        match self.keep(job, answer) {
            Ok(()) => Ok(()),
            Err(fault) => {
                self.refusals = self.refusals.saturating_add(1);
                self.first = earlier(self.first, fault);
                Err(fault)
            }
        }
    }
}

// The first refusal, where before this one it was that.
fn earlier(first: Option<BookFault>, fault: BookFault) -> Option<BookFault>
    ensures { result ≡ first_after first (Err fault) }
{
    match first {
        None => Some(fault),
        Some(first) => Some(first),
    }
}

// The length with a note of these lengths; none where it is 2^64 or more.
fn length_with(length: usize, first: usize, second: usize) -> Option<usize>
    ensures { MatchOption result (2 ^ 64 ≤ length + (18 + first + second)) (λ n.
        n ≡ length + (18 + first + second)) }
{
    let framed = length.checked_add(FRAME)?;
    let with_first = framed.checked_add(first)?;
    with_first.checked_add(second)
}

// Whether a note of these lengths has room.
fn check_room(length: usize, first: usize, second: usize, room: usize) -> Result<(), BookFault>
    ensures { result ≡ room_answer length (length + (18 + first + second)) room }
{
    let length_now = length as u64;
    match length_with(length, first, second) {
        None => Err(BookFault::Full {
            length: length_now,
            needed: u64::MAX,
        }),
        Some(needed) => {
            if needed > room {
                return Err(BookFault::Full {
                    length: length_now,
                    needed: needed as u64,
                });
            }
            Ok(())
        }
    }
}
