//! Tests of what is said of one Bicep file: its names, decorators, places, mentions and types, over public items.
//!
//! A table is one text: a line `---` divides its rows, and each row is a file, or what follows a front. A `^` is before
//! the token at which a file is refused; a row without one is accepted. A table of `mentioned` has, after `->`, what is
//! said of the symbols of its file. A table of types has a row in each line: a type, `|` and an expression of that
//! type.
#![tactic(auto)]

#[cfg(test)]
mod chains;
#[cfg(test)]
mod declarations;
#[cfg(test)]
mod decorators;
#[cfg(test)]
mod expressions;
#[cfg(test)]
mod fitting;
#[cfg(test)]
mod functions;
#[cfg(test)]
mod mentioned;
#[cfg(test)]
mod mentions;
#[cfg(test)]
mod misplaced;
#[cfg(test)]
mod names;
#[cfg(test)]
mod repeated;
#[cfg(test)]
mod rows;
#[cfg(test)]
mod symbols;
#[cfg(test)]
mod type_texts;
#[cfg(test)]
mod typing;
