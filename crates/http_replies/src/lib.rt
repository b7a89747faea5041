//! Replies of the service, and their bytes over HTTP.
//!
//! A caller may rely on which status and which JSON body each refusal and each outcome has, and on the exact bytes that
//! `write_reply` writes. `specs/Codes.antt` defines codes, statuses and messages, `specs/Replies.antt` replies, and
//! `specs/ReplyBytes.antt` their bytes.
#![tactic(auto)]

mod code;
mod error;
mod outcome;
mod phrase;
mod reply;
mod sending;
mod write;

pub use code::Code;
pub use error::error_body;
pub use outcome::Outcome;
pub use reply::Reply;
pub use sending::send_all;
pub use write::{WriteFault, write_reply};
