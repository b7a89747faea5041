//! What the names of a Bicep file stand for.
//!
//! A caller may rely on `specs/Resolve`: the expression that a tree of the parser stands for once its names are
//! found, by recursion on the tree. `specs/Scope` says what a name stands for, `specs/Functions` which functions a
//! file may call.
//! `specs/Unknown` says independently where a name means nothing, and `unknown_names` that an expression stands for
//! nothing exactly there. Symbols are looked up in constant time, names of loops one loop after another.
#![tactic(auto)]

mod elements;
mod expressions;
mod fields;
mod functions;
pub mod kind;
pub mod laws;
mod loops;
mod makers;
mod outputs;
mod symbols;

pub use expressions::{resolve, resolve_members, resolve_value};
pub use functions::function_named;
pub use kind::{Kind, Named};
pub use loops::meaning_of;
pub use outputs::{Outputs, output_named};
pub use symbols::Symbols;
