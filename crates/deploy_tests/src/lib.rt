//! Tests of the whole program: what it prints, its status, and the calls of its providers.
//!
//! A row of a table is the words, the files of the program, a line that begins with `=> ` with the status, and what is
//! printed. It was written by hand from the rules.
#![tactic(auto)]

#[cfg(test)]
mod builds;
#[cfg(test)]
mod calls;
#[cfg(test)]
mod checks;
#[cfg(test)]
mod examples;
#[cfg(test)]
mod faults;
#[cfg(test)]
mod first_path;
#[cfg(test)]
mod outcomes;
#[cfg(test)]
mod real_files;
#[cfg(test)]
mod refusals;
#[cfg(test)]
mod rows;
#[cfg(test)]
mod seats;
#[cfg(test)]
mod second;
#[cfg(test)]
mod sizes;
#[cfg(test)]
mod sources;
