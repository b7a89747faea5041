//! Tests of sources, sinks and trees, of disks in memory and real files, and of the journal over them.
#![tactic(auto)]

#[cfg(test)]
mod checks;
#[cfg(test)]
mod damage;
#[cfg(test)]
mod disks;
#[cfg(test)]
mod flows;
#[cfg(test)]
mod journals;
#[cfg(test)]
mod links;
#[cfg(test)]
mod real;
#[cfg(test)]
mod stops;
#[cfg(test)]
mod trees;
