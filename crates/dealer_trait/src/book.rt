// The trait of what notes answers.

ghost use Rattle.std.specs.Prelude.{◌≡◌, true};

use crate::book_fault::BookFault;
use provider_trait::{Answer, Job};

/// What notes answers, one after another. It may refuse a note.
///
/// Once a note has failed by `DiskFault`, a book refuses each further note by `MustReopen`.
pub trait Book {
    ghost use Rattle.std.specs.Prelude.{◌≡◌, ℕ, Bool, true, List, Option};
    ghost use Rattle.dealer_trait.specs.declared.book_fault.BookFault.{BookFault};
    ghost use Rattle.dealer_trait.specs.declared.note.Note.{Note};
    ghost use Rattle.dealer_trait.specs.Books.{Notes, Refuses, CountsFaults, Breaks, first_after};

    /// Whether books of this kind report their notes.
    ghost tells: { Bool };

    /// The reported notes, oldest first.
    ghost notes: { Self → List Note };

    /// How many notes it has refused, at most 2^64 - 1.
    ghost refusals: { Self → ℕ };

    /// Its first refusal; none as long as it has refused no note.
    ghost first: { Self → Option BookFault };

    /// How often its disk has failed.
    ghost faults: { Self → ℕ };

    /// Whether a note has failed by `DiskFault`.
    ghost is_broken: { Self → Bool };

    /// Notes that the job has this answer. It takes no memory.
    ///
    /// # Errors
    ///
    /// `DiskFault` only where the count of faults rose; `MustReopen` after a `DiskFault`, and nowhere
    /// else; `Full` where the book has no room.
    fn note(&mut self, job: &Job, answer: &Answer) -> Result<(), BookFault>
        ensures notes { tells ≡ true
            → Notes (notes self.old) (notes self.new) job.now answer.now result }
        ensures count { Refuses (refusals self.old) (refusals self.new) result }
        ensures first { first self.new ≡ first_after (first self.old) result }
        ensures faults { CountsFaults (faults self.old) (faults self.new) result }
        ensures broken { Breaks (is_broken self.old) (is_broken self.new) result };
}
