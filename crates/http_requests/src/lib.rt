//! What requests ask of the service, by their routes, methods and bodies.
//!
//! A caller may rely on exactly which methods each route has, and on what each body asks. `specs/Verbs.antt` defines
//! methods, `specs/Calls.antt` what a method asks of a route, and `specs/Bodies.antt` what bodies say.
#![tactic(auto)]

mod ask;
mod body;
mod call;
mod fault;
mod finishing;
mod laws;
mod verb;

pub use ask::Ask;
pub use call::{Call, call_of};
pub use fault::BodyFault;
pub use finishing::finish;
pub use laws::one_ask;
pub use verb::{Verb, verb_of};
