//! Which tasks of a plan are ready at a point of a deployment, wait for another task, or have no value.
//!
//! `PlanStandings` keeps what is known, and is a `Standings` of which boards are made. `put_standing` tells the body of
//! a put, `enter_standing` the parameters and variables of a scope, and `leave_standing` its outputs, until each has a
//! value or one of them waits for what another task gives; `answer_lack` looks a state up, or finds the task that gives
//! what is waited for. At the end of a deployment `put_failing`, `enter_failing` and `leave_failing` find why a task
//! cannot begin. `specs/Kept` has what is kept, and `specs/Waits` what is known at a point; `specs/Answers`,
//! `specs/Puts`, `specs/Entering` and `specs/Leaving` have what is answered, and `specs/Needing` and `specs/Tells` why
//! a task fails.
#![tactic(auto)]

mod answering;
mod board;
mod failing;
mod leaving;
mod readiness;
mod root_outputs;
mod standings;

pub use answering::answer_lack;
pub use failing::{enter_failing, leave_failing, put_failing};
pub use leaving::{Leaving, leave_standing};
pub use readiness::{enter_standing, put_standing};
pub use standings::PlanStandings;
