//! Seats and the calls on their providers: one call with a job, and rounds of calls side by side.
//!
//! `Serves` is what a seat calls, and each provider is one. A caller may rely on what each call returned
//! and on what its provider reports after it. A call is defined in `specs/Called.antt`, a round in
//! `specs/Rounds.antt`, and what several calls of one provider amount to in `specs/Dones.antt`.
#![tactic(auto)]

mod calling;
mod done;
mod round;
mod seat;
mod serving;

pub use calling::call_provider;
pub use done::{Done, done_by};
pub use round::run_round;
pub use seat::Seat;
pub use serving::Serves;
