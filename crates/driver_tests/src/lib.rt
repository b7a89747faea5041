//! Tests of the fakes with which whoever drives a deployment is tested: dealers, books and pairings.
#![tactic(auto)]

#[cfg(test)]
mod books;
#[cfg(test)]
mod dealers;
#[cfg(test)]
mod jobs;
#[cfg(test)]
mod pairings;
#[cfg(test)]
mod steps;
