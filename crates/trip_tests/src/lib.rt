//! Templates that are read and written.
//!
//! Each row of a table is a template with what is written of it, or a template that is written as it is read. What is
//! written is read and written once more, and stays the same. There is nothing here but tests, so there is no edit that
//! must be refused.
#![tactic(auto)]

#[cfg(test)]
mod limits;
#[cfg(test)]
mod quickstarts;
#[cfg(test)]
mod quickstarts_by_symbol;
#[cfg(test)]
mod rows;
#[cfg(test)]
mod trips;
