//! What the reader of Bicep does at a token of a statement, of a decorator, and of the names of a body's loop.
//!
//! A caller may rely on it that each function gives what its step of the machine gives (`specs/Machine`
//! of `bicep_machine`): where the token leads, and what is open there. `Refused` comes exactly where
//! the machine has no step, unless memory was refused; nothing is said of the stack then. There is a function for each
//! state of a statement; those of expressions are in `bicep_expressions`, those of
//! objects in `bicep_objects`.
#![tactic(auto)]

mod declarations;
mod decorators;
mod headers;
mod loops;
mod statements;

pub use declarations::{go_on_declaration, go_on_typed, name_declaration, parameter};
pub use decorators::{
    begin_decorator, end_decorator, go_on_decorator, name_decorator, name_spaced_decorator,
    past_decorators,
};
pub use headers::{go_on_existing, go_on_header};
pub use loops::{begin_loop, name_index, name_item, name_loop, past_item, past_names};
pub use statements::{between, end_statement};
