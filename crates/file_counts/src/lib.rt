//! How many parameters, variables, outputs and resources the template of a Bicep file has.
//!
//! A caller may rely on `first_beyond`: it returns the first of these numbers that is beyond its limit, of a table of
//! the declarations of the file (`declared_table`), before the template is made. `specs/Counts` says what is counted.
#![tactic(auto)]

mod counts;

pub use counts::first_beyond;
