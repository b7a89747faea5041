//! Tests of the template functions, by their names.
//!
//! Each module has tables of calls, a line each (`table`): what `arm_functions` gives for a name and
//! arguments is the value that another program, a standard or the description of the language
//! gives. They cover `function_numbers`, `function_lists`, `function_texts`, `function_prints`,
//! `function_identities` and `arm_functions`, which have no tests of their own, so that each is
//! proved once. There is nothing here but tests, so there is no edit that must be refused.
#![tactic(auto)]

#[cfg(test)]
mod calls;
#[cfg(test)]
mod identities;
#[cfg(test)]
mod lists;
#[cfg(test)]
mod nesting;
#[cfg(test)]
mod numbers;
#[cfg(test)]
mod objects;
#[cfg(test)]
mod prints;
#[cfg(test)]
mod table;
#[cfg(test)]
mod texts;
#[cfg(test)]
mod truths;
