//! What the expressions and the declarations of a Bicep program mean, once their names are found.
//!
//! An expression is one reading of the cells of a desired state (`specs/Meaning`), which has a value or none.
//! `specs/Rows` has operators and functions, `specs/Declared` what a declaration means where it is used, and
//! `specs/Instances` what each cell of a program is by others. The laws are in `laws`; there is no other code.
#![tactic(auto)]

pub mod laws;
