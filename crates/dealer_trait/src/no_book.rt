// A book that keeps nothing.

ghost use Rattle.std.specs.Prelude.{◌≡◌, Ok};

use crate::book::Book;
use crate::book_fault::BookFault;
use provider_trait::{Answer, Job};

/// A book that keeps nothing and refuses nothing, for programs without a journal. It reports no notes.
#[derive(Clone, Copy, Debug)]
pub struct NoBook;

impl Book for NoBook {
    ghost use Rattle.std.specs.Prelude.{false, [], None};

    ghost tells = { false };

    ghost notes = { λ _. [] };

    ghost refusals = { λ _. 0 };

    ghost first = { λ _. None };

    ghost faults = { λ _. 0 };

    ghost is_broken = { λ _. false };

    fn note(&mut self, _job: &Job, _answer: &Answer) -> Result<(), BookFault>
        ensures answer { result ≡ Ok tt }
    {
        Ok(())
    }
}
