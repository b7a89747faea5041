//! The decorators of the symbols of a Bicep file, and the batches of its loops.
//!
//! A caller may rely on `decorators`, which returns the decorators of each symbol (`specs/Decorators`), and on
//! `batches`, which returns the batches of each loop (`specs/Batches`) or says that one is too large (`specs/Limits`).
#![tactic(auto)]

mod fault;
pub mod laws;
mod listing;
mod loops;

pub use fault::BatchFault;
pub use listing::{Decorated, decorators};
pub use loops::batches;
