//! Requests over HTTP, read from a source of bytes.
//!
//! Which requests bytes spell is defined by the bytes alone (`specs/Requests.antt`). So the answer does not depend on
//! how the bytes were cut, and no bytes spell two requests. That the input ends too early is answered only after its
//! end.
#![tactic(auto)]

mod due;
mod fault;
mod front;
mod laws;
mod plan;
mod reading;
mod request;
mod taking;

pub use fault::HttpFault;
pub use http_replies::{Code, Outcome, Reply, WriteFault, error_body, write_reply};
pub use http_requests::Ask;
pub use http_routes::{DeploymentAt, GroupAt, LockAt, ResourceAt, Routes};
pub use laws::{one_answer, one_conversation, one_request};
pub use reading::{next_request, read_request};
pub use request::Request;
