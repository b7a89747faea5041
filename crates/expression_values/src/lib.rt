//! The values of template expressions, by what is known of the cells that they look at.
//!
//! A caller may rely on `value_of`: it returns the value of an expression (`specs/Meaning`), or that
//! there is none, or the cell that is looked at first of what is not known. The crate has accesses,
//! the functions that look only as far as needed, and those of all their arguments; the cells are in
//! `arm_env`. `laws` has equations for whoever proves a compiler to expressions.
#![tactic(auto)]

mod access;
mod expression;
pub mod laws;
mod strict;

pub use expression::value_of;
