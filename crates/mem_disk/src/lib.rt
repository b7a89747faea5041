//! Disks in memory, which are the disks of `arm_edges` that report what they hold.
//! The calls of `MemDisk` fail where a list says so. It keeps each call that changes it, so that what a crash may leave
//! is known (`specs/Moves`).
//! `RamDisk` never fails; it reports what a read returns and nothing of crashes.
//! Both take their room when they are made, and none of their calls takes memory.
#![tactic(auto)]

mod begun;
mod change;
mod contents;
mod crash;
mod edit;
mod log;
mod mem_disk;
mod ram_disk;

pub use contents::{Contents, Room};
pub use mem_disk::MemDisk;
pub use ram_disk::RamDisk;
