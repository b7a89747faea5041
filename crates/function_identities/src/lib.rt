//! Template functions that encode texts, and that make names of them.
//!
//! Each function takes the list of its arguments and gives its value; none where an argument is no
//! text or their number is another. A text counts by its bytes in UTF-8. Base64 is that of RFC 4648
//! with the standard alphabet and its padding (`specs/Encodings.antt`). Names come from texts with
//! a zero byte between each two (`specs/Identities.antt`), in base32 (`specs/Base32.antt`) or as
//! UUIDs.
#![tactic(auto)]

mod base32;
mod encodings;
mod identities;
pub mod laws;

pub use encodings::{base64_to_string, to_base64};
pub use identities::{guid, unique_string};
