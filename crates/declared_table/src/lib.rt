//! A table of what the declarations of a Bicep file become in a template, as far as it is filled.
//!
//! A caller may rely on `Table`, which implements `Declarations` of `emitted_expressions` and `Sizes` of
//! `measured_expressions`: what it answers is stated by `sight` in `specs/Seen`, of its value alone. `specs/Entries`
//! says what an entry has.
#![tactic(auto)]

mod declarations;
mod entry;
mod lookup;
mod mark;
mod sizes;
mod table;

pub use entry::Entry;
pub use mark::Mark;
pub use table::Table;
pub use template_parts::Batches;
