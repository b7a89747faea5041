//! Tests of requests and replies over HTTP.
#![tactic(auto)]

#[cfg(test)]
mod asking;
#[cfg(test)]
mod clients;
#[cfg(test)]
mod cutting;
#[cfg(test)]
mod refusing;
#[cfg(test)]
mod replying;
#[cfg(test)]
mod serving;
#[cfg(test)]
mod showing;
#[cfg(test)]
mod writing;
