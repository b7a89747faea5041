//! The journal of deployments: records on a disk. After a crash each record is there whole or not at all, and it is
//! there once its append has answered Ok.
//! A caller may rely on what the bytes of a file hold (`specs/Records`), on what each image that a crash leaves holds,
//! and on the laws of `laws`.
//! docs/JOURNAL.md states the format byte by byte.
#![tactic(auto)]

mod append;
mod formatting;
mod journal;
mod laws;
mod open;
mod read;
mod record;

pub use formatting::FormatFault;
pub use journal::{AppendFault, Journal, NotOpened, RESERVE};
pub use laws::{damage_excludes_records, damage_has_one_place, records_follow_from_the_bytes};
pub use read::OpenFault;
pub use record::Record;
