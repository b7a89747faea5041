//! The table of what the declarations of a file of a checked Bicep program become.
//!
//! A caller may rely on `file_order`, which returns an order of the declarations of a file, which of its variables have
//! an entry in the template and which batches its loops have, and on `file_table`, which returns the table of all
//! declarations with these. Their premises are what `load` of `bicep_program` and `check` of `bicep_types` ensure
//! (`specs/Checked`). `laws` says what else holds of such a file.
#![tactic(auto)]

pub mod laws;
mod order;
mod table;

pub use order::{FileOrder, file_order};
pub use table::file_table;
