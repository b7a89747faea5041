//! Tests of the tasks and needs of Bicep programs.
//!
//! The everyday files are the modules of small programs, which give them their parameters. The facts are written from
//! the files, by hand. Of random programs, what is known of their plans at the start is what a plain program computes:
//! `drawing` draws what a file declares, `sources` writes the files, and `worlds` and `lines` compute the values, names
//! and conditions that the program has. There is nothing here but tests, so there is no edit that must be refused.
#![tactic(auto)]

#[cfg(test)]
mod asking;
#[cfg(test)]
mod comparing;
#[cfg(test)]
mod composed;
#[cfg(test)]
mod drawing;
#[cfg(test)]
mod hosted;
#[cfg(test)]
mod lines;
#[cfg(test)]
mod networked;
#[cfg(test)]
mod sources;
#[cfg(test)]
mod stored;
#[cfg(test)]
mod valued;
#[cfg(test)]
mod worlds;
