//! What a template expression can look at, and how much of it is known.
//!
//! `specs/Look` names the cells that an expression can look at. The trait `Entries` is what is known
//! of them: a look returns what the cell has or a `Stop`, which says that it has none, or which cell
//! is not known yet (`specs/Answer`). An environment, `Env`, lists what is known (`specs/Known`);
//! other implementers keep it in their own way. The surroundings of an expression, its loops and its
//! place, are always known: from them follow the indices of loops, ids and the objects of the place.
//! The crate also has accesses to parts (`specs/Held`, `specs/Part`), and the tables of the functions
//! that need more than their arguments (`specs/Names`). The meaning of expressions is in the crate
//! above, `expression_values`.
#![tactic(auto)]

pub mod cell;
pub mod entries;
pub mod env;
pub mod find;
pub mod function;
pub mod held;
pub mod ids;
mod listed;
pub mod loops;
pub mod objects;
pub mod outputs;
pub mod stop;

pub use function_numbers::kinds::{text_of, truth_of};
