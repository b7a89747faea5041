//! What is printed of why a command is refused.
//!
//! A caller may rely on the exact line of each fault of a source, of a template, of a parameter file, of a plan and of
//! a request. `specs/Sources.antt`, `specs/Templates.antt` and `specs/Requests.antt` have the tables of codes and
//! details.
#![tactic(auto)]

mod listing;
mod requests;
mod sources;
mod templates;
mod words;

pub use requests::{code_report, name_report, parameter_report};
pub use sources::{check_report, load_report};
pub use templates::{bind_report, plan_report, template_report};
