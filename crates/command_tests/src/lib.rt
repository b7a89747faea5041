//! Tests of which words are a command and what they say, of parameter files, and of the lines of refusals.
#![tactic(auto)]

#[cfg(test)]
mod parameters;
#[cfg(test)]
mod refusals;
#[cfg(test)]
mod words;
