//! Bicep files as they are deployed, and what is read of them.
//!
//! The files are constants of `stored`, `networks`, `hosts`, `wholes` and `plain`. The `SAMPLES` of
//! each say what a file declares, and give some of its parts in a printed shape (`shapes`, `heads`)
//! that was worked out by hand. The tests read each file with `bicep_parser` and compare.
#![tactic(auto)]

#[cfg(test)]
mod heads;
pub mod hosts;
#[cfg(test)]
mod misses;
pub mod networks;
#[cfg(test)]
mod parts;
pub mod plain;
#[cfg(test)]
mod reading;
pub mod sample;
#[cfg(test)]
mod shapes;
pub mod stored;
pub mod wholes;

pub use sample::Sample;
