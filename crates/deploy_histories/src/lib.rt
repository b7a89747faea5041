//! What happens in a deployment: its histories, and which of them are legal.
//!
//! `specs/Events` has the events and how far the tasks are after them, `specs/Readiness` whether a task may begin,
//! `specs/Legal` which histories are legal and which have ended, `specs/Answers` which answers follow, and
//! `specs/Outcome` what a deployment leaves. The laws are in `laws`; there is no other code.
#![tactic(auto)]

pub mod laws;
