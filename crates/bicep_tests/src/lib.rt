//! What the crates of Bicep answer to sources, compared with answers worked out by hand.
//!
//! A table is one text of rows (`rows`): a source, and what is answered of it. Each question is put
//! to a public function of the crates below (`answers`), and no crate below has tests of its own.
#![tactic(auto)]

#[cfg(test)]
mod answers;
#[cfg(test)]
mod deployed;
#[cfg(test)]
mod everyday;
#[cfg(test)]
mod groupings;
#[cfg(test)]
mod lexing;
#[cfg(test)]
mod nesting;
#[cfg(test)]
mod parsing;
#[cfg(test)]
mod rows;
#[cfg(test)]
mod shapes;
