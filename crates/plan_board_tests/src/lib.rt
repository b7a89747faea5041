//! Deployments of templates on the boards of their plans.
//!
//! Each row of a table is a template with what comes of its deployment, line by line, written from the rules, by hand.
//! Random templates are run beside a plain program. There is nothing here but tests, so there is no edit that must be
//! refused.
#![tactic(auto)]

#[cfg(test)]
mod answering;
#[cfg(test)]
mod any_order;
#[cfg(test)]
mod drawn;
#[cfg(test)]
mod driving;
#[cfg(test)]
mod ends;
#[cfg(test)]
mod faults;
#[cfg(test)]
mod plain;
#[cfg(test)]
mod random;
#[cfg(test)]
mod recorded;
#[cfg(test)]
mod replays;
#[cfg(test)]
mod rows;
#[cfg(test)]
mod running;
#[cfg(test)]
mod telling;
