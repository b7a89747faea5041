//! Who deals jobs, and what notes their answers: the traits `Dealer` and `Book`.
//!
//! A caller may rely on the steps of a dealer, on its end, on the notes of a book that reports them,
//! and on what a book refused. `NoBook` keeps nothing. Steps are defined in `specs/Steps.antt`, notes
//! in `specs/Notes.antt`, and what a call of a book changes in `specs/Books.antt`.
#![tactic(auto)]

mod book;
mod book_fault;
mod dealer;
mod dealer_step;
mod laws;
mod next;
mod no_book;
mod note;

pub use book::Book;
pub use book_fault::BookFault;
pub use dealer::Dealer;
pub use dealer_step::DealerStep;
pub use laws::{notes_are_records, notes_state_jobs_and_answers};
pub use next::Next;
pub use no_book::NoBook;
pub use note::{GONE, Note, REFUSED, STORED, kind_of, second_of};
