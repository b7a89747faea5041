//! What deploys resources: providers, the jobs that they are given, and what they answer.
//!
//! A caller may rely on which answers a provider of a kind may give, on its count of faults, and on
//! the calls that it reports. `Catalog` answers as a small catalogue of types does, and `Script` as
//! its steps say; both report all their calls. The plain state is in `specs/Plain.antt`, the
//! catalogue in `specs/Catalog.antt`, scripts in `specs/Script.antt`, and the first part of a job's
//! record in `specs/FirstPart.antt`.
#![tactic(auto)]

mod act;
mod answer;
mod call;
mod catalog;
mod event;
mod first_part;
mod job;
mod named;
mod parts;
mod plain;
mod provider;
mod script;
mod state;
mod step;

pub use act::Act;
pub use answer::{Answer, ProviderFault};
pub use call::Call;
pub use catalog::Catalog;
pub use event::Event;
pub use job::{Job, JobParts};
pub use provider::Provider;
pub use script::Script;
pub use state::{State, StateFault};
pub use step::Step;
