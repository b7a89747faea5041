//! Type texts of the resources of a Bicep file.
//!
//! A caller may rely on `specs/Files`: the first type text of a file that is none, and on `specs/Texts`, which says
//! what a type text is. `bad_type` recurses as deep as resources nest.
#![tactic(auto)]

mod files;
mod texts;

pub use files::bad_type;
pub use texts::divided;
