//! What is found of names, or the first name that means nothing, and answers that are made of others.
//!
//! A caller may rely on `specs/Found`, which says how what is found of a whole follows from what is found of its parts,
//! the first unknown name first, and on `specs/Joins`, which says what the functions here make of answers. They are
//! generic, so that no function above drops a part by itself.
#![tactic(auto)]

pub mod join;
mod stop;

pub use stop::Stop;
