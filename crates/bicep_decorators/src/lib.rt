//! Decorators of Bicep files: which may be where, with which arguments.
//!
//! A caller may rely on `specs/Decorators`, which has the rule of each decorator, and on `specs/Literals`, which says
//! what a literal is. Nothing here takes memory. `bad_decorator` and `is_literal` recurse as deep as resources and
//! literals nest.
#![tactic(auto)]

mod arguments;
pub mod kind;
mod literals;
mod nested;
mod place;

pub use kind::{DecoratorKind, decorator_named};
pub use literals::is_literal;
pub use nested::bad_decorator;
pub use place::Place;
