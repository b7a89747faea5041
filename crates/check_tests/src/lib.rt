//! Tests of what is said of whole Bicep programs, over public items.
//!
//! A program is a main file and some modules. `^` is before the place of the fault in the main file. A table of names
//! has a line for each: a symbol or `output` and the name of an output, a path from there, ` => `, and what the name
//! at its end stands for.
#![tactic(auto)]

#[cfg(test)]
mod faults;
#[cfg(test)]
mod faulty;
#[cfg(test)]
mod meanings;
#[cfg(test)]
mod named;
#[cfg(test)]
mod orders;
#[cfg(test)]
mod parts;
#[cfg(test)]
mod programs;
#[cfg(test)]
mod samples;
#[cfg(test)]
mod typed;
