//! Tests of Bicep programs, over public items: which files a program has, and why one is not loaded.
//!
//! A folder is one text: a line `# NAME` begins each file. What is loaded, or the fault, is one line.
#![tactic(auto)]

#[cfg(test)]
mod answers;
#[cfg(test)]
mod folders;
#[cfg(test)]
mod many;
#[cfg(test)]
mod paths;
#[cfg(test)]
mod programs;
