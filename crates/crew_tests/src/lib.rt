//! Tests of seats that work side by side: rounds, and drives over scripted dealers.
#![tactic(auto)]

#[cfg(test)]
mod drives;
#[cfg(test)]
mod faults;
#[cfg(test)]
mod fresh;
#[cfg(test)]
mod jobs;
#[cfg(test)]
mod orders;
#[cfg(test)]
mod rounds;
#[cfg(test)]
mod short;
#[cfg(test)]
mod side_by_side;
#[cfg(test)]
mod waiting;
