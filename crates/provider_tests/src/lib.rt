//! Tests of `provider_trait`: what providers answer, call by call.
#![tactic(auto)]

#[cfg(test)]
mod checks;
#[cfg(test)]
mod providers;
