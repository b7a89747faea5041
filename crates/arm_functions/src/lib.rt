//! The template functions by their names.
//!
//! A name finds its function whatever the case of its ASCII letters (`specs/Table.antt`). A function
//! whose value follows from its arguments alone is called here (`specs/Values.antt`);
//! `specs/Calls.antt` says what refuses a call. The others are the evaluator's, and the table has
//! their counts. A caller that asks more than once about a name finds its `Row` once.
#![tactic(auto)]

pub mod counts;
mod fault;
pub mod laws;
mod plain;
mod table;
mod values;

pub use counts::Arity;
pub use fault::FunctionFault;
pub use function_numbers::kinds::{text_of, truth_of};
pub use table::{Row, arity};
pub use values::call;
