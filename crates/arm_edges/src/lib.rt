//! What is outside the program: sources and sinks of bytes, connections, trees of files, disks and links.
//! Each is a trait whose meaning is a count of faults that never falls, and what the object holds where it reports it.
//! An object in memory reports what it holds; a real object reports nothing, and counts each failing call.
//! What a count, a file or a disk means is defined in `specs/`.
#![tactic(auto)]

mod calls;
mod connection;
mod disk;
mod exchange;
mod faults;
mod finished;
mod inside;
mod lent_disk;
mod link;
mod mem_connection;
mod mem_end;
mod mem_link;
mod mem_sink;
mod mem_source;
mod mem_tree;
mod real_disk;
mod real_end;
mod real_link;
mod real_out;
mod real_tree;
mod sink;
mod source;
mod tree;

pub use calls::Calls;
pub use connection::Connection;
pub use disk::{Disk, Part};
pub use exchange::Exchange;
pub use faults::{Failed, TreeFault};
pub use finished::Finished;
pub use link::Link;
pub use mem_connection::MemConnection;
pub use mem_end::MemEnd;
pub use mem_link::MemLink;
pub use mem_sink::MemSink;
pub use mem_source::MemSource;
pub use mem_tree::{MemFile, MemTree};
pub use real_disk::RealDisk;
pub use real_end::RealEnd;
pub use real_link::RealLink;
pub use real_out::RealOut;
pub use real_tree::RealTree;
pub use sink::Sink;
pub use source::Source;
pub use tree::Tree;
