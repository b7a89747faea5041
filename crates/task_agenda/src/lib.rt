//! Which tasks of a deployment are to be looked at, and which wait for others.
//!
//! An `Agenda` lists tasks that may begin, in two ordered lists: those that enter or leave scopes, and the others. A
//! task of which a need is not done is not listed; it is looked at again once what it needs is done.
//! `specs/Agendas.antt` says what an agenda is to contracts.
#![tactic(auto)]

mod agenda;
mod lists;

pub use agenda::Agenda;
