//! The heads of HTTP/1.0 and HTTP/1.1 requests (RFC 9112), and what their fields say of the body and the connection.
//!
//! A caller may rely on it that bytes begin with at most one head, and that more bytes change neither a head nor the
//! answer that no head can follow. `specs/Fronts.antt` defines what bytes begin with, `specs/Fields.antt` what fields
//! say.
#![tactic(auto)]

mod fields;
mod front;
mod laws;
mod parse;
mod spot;

pub use fields::{BodyLength, MAX_BODY_BYTES};
pub use front::{Front, Head};
pub use laws::heads_stay;
pub use parse::{MAX_FIELDS, MAX_HEAD_BYTES, read_head};
