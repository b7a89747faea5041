//! Tests of what locks forbid, of the order in which they are kept, and of causes and their messages.
#![tactic(auto)]

#[cfg(test)]
mod causes;
#[cfg(test)]
mod forbidding;
#[cfg(test)]
mod keeping;
#[cfg(test)]
mod made;
