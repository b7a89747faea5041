//! What is misplaced in a Bicep file by what its names stand for.
//!
//! A caller may rely on `specs/Files`: the first default that mentions more than parameters, the first `dependsOn` and
//! the first `parent` that are none, and the first name with a for-expression in it. `specs/Kinds` says what the whole
//! type of a resource is. `misplaced_link` recurses as deep as expressions nest.
#![tactic(auto)]

mod defaults;
mod files;
mod kinds;
mod links;
mod loops;

pub use files::misplaced_link;
