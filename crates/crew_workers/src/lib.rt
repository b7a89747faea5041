//! Workers: each seat at work in a thread of its own, or with the driver where no thread was started.
//!
//! A caller may rely on what comes back of each worker: its provider was called with the jobs that the
//! worker received, one after another, and one result of each call was sent, in order
//! (`specs/Seated.antt`). What a driver knows of its seats is in `specs/Posts.antt`.
#![tactic(auto)]

mod channel;
mod gathering;
mod mustering;
mod post;
mod promise;
mod room;
mod scope;
mod seat_thread;
mod worker;

pub use channel::SeatChannel;
pub use post::{Place, Post, Station, command, dismiss};
pub use promise::SeatPromise;
pub use room::{let_go, put, take_first};
pub use scope::{Task, crew};
pub use seat_thread::SeatThread;
pub use worker::{Worker, do_order, work};
