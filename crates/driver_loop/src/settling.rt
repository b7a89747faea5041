// A result is noted, and the dealer is given the answer after that.

ghost use Rattle.std.specs.Prelude.{◌≡◌, ◌++◌, ◌∷◌, [], ℕ, Option, None, Ok, set};
ghost use Rattle.dealer_trait.specs.Steps.{MayAnswer};
ghost use Rattle.dealer_trait.specs.declared.book_fault.BookFault.{BookFault};
ghost use Rattle.driver_loop.specs.Actions.{taken, end_of, fault_by, fault_of, blame};
ghost use Rattle.driver_loop.specs.Moments.{pages};
ghost use Rattle.driver_loop.specs.OpenJobs.{IsOfOpenJob, IsOpenFor};
ghost use Rattle.driver_loop.specs.Runs.{Tied, Wrote};

use crate::fault::DriveFault;
use crate::open_job::OpenJob;
use dealer_trait::{Book, BookFault, Dealer};
use provider_trait::{Answer, ProviderFault};
use seat_calls::Done;

/// Settles a result of an open job: the book notes an answer, and the dealer is given it after that.
/// Where a call gave no answer or the note was refused, the dealer is given the job back.
pub fn settle<G: Dealer, B: Book>(
    board: &mut G,
    book: &mut B,
    opens: &mut [Option<OpenJob>],
    done: Done,
) -> Option<DriveFault>
    requires tied { Tied (G.steps board.old) opens.old }
    requires open { IsOfOpenJob opens.old done }
    ensures stays { G.fixed board.new ≡ G.fixed board.old }
    ensures opens { opens.new ≡ set opens.old done.worker None }
    ensures tied { Tied (G.steps board.new) opens.new }
    ensures settled { (refused : Option BookFault)
        × (G.steps board.new ≡ G.steps board.old ++ end_of done.job.task done.got refused ∷ [])
        × Wrote B.tells (pages B.notes B.refusals B.first B.faults B.is_broken book.old)
        (pages B.notes B.refusals B.first B.faults B.is_broken book.new) (taken done refused ∷ [])
        × (result ≡ fault_by (taken done refused)) }
{
    opens[done.worker as usize] = None;
    let refused = note_done(book, &done);
    finish(board, done, refused)
}

// Asks the book to note an answer. Returns its refusal, where it refused one.
fn note_done<B: Book>(book: &mut B, done: &Done) -> Option<BookFault>
    ensures { Wrote B.tells (pages B.notes B.refusals B.first B.faults B.is_broken book.old)
        (pages B.notes B.refusals B.first B.faults B.is_broken book.new)
        (taken done.now result ∷ []) }
{
    match &done.got {
        Ok(answer) => match book.note(&done.job, answer) {
            Ok(()) => None,
            Err(refused) => Some(refused),
        },
        Err(_) => None,
    }
}

// Gives the dealer the answer that was noted, or else the job back.
fn finish<G: Dealer>(board: &mut G, done: Done, refused: Option<BookFault>) -> Option<DriveFault>
    requires { IsOpenFor (G.steps board.old) done }
    ensures stays { G.fixed board.new ≡ G.fixed board.old }
    ensures steps { G.steps board.new
        ≡ G.steps board.old ++ end_of done.job.task done.got refused ∷ [] }
    ensures fault { result ≡ fault_by (taken done refused) }
{
    let Done { worker, job, got } = done;
    let task = job.task();
    let_go(job);
    match got {
        Ok(answer) => answer_or_back(board, task, answer, refused),
        Err(fault) => {
            board.back(task);
            Some(blame(worker, fault))
        }
    }
}

// Gives the dealer the answer, unless its note was refused.
fn answer_or_back<G: Dealer>(
    board: &mut G,
    task: u32,
    answer: Answer,
    refused: Option<BookFault>,
) -> Option<DriveFault>
    requires { MayAnswer task answer (G.steps board.old) }
    ensures stays { G.fixed board.new ≡ G.fixed board.old }
    ensures steps { G.steps board.new
        ≡ G.steps board.old ++ end_of task (Ok answer) refused ∷ [] }
    ensures fault { (worker : ℕ) → result ≡ fault_of worker (Ok answer) refused }
{
    match refused {
        None => {
            board.answer(task, answer);
            None
        }
        Some(fault) => {
            let_go(answer);
            board.back(task);
            Some(DriveFault::Book(fault))
        }
    }
}

// Drops the value.
pub(crate) fn let_go<T: Drop>(_value: T) {}

// The fault of a seat whose call gave no answer.
fn blame(worker: u32, fault: ProviderFault) -> DriveFault
    ensures { result ≡ blame worker fault }
{
    match fault {
        ProviderFault::Fault => DriveFault::Provider(worker),
        ProviderFault::OutOfMemory => DriveFault::OutOfMemory,
    }
}
