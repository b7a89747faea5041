//! Tests of the templates that whole Bicep programs become, over public items.
//!
//! A row of a table is a program, a line that begins with `=> `, and what it becomes, which was written by hand. The
//! files of a program besides the main one come after lines as `--- modules/network.bicep`.
#![tactic(auto)]

#[cfg(test)]
mod counts;
#[cfg(test)]
mod declarations;
#[cfg(test)]
mod everyday;
#[cfg(test)]
mod first;
#[cfg(test)]
mod limits;
#[cfg(test)]
mod metadata;
#[cfg(test)]
mod modules;
#[cfg(test)]
mod rows;
#[cfg(test)]
mod second;
