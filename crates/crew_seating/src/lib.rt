//! Seats at their channels: the channels of all seats are opened, the seats are moved to them, and come
//! back after their workers have.
//!
//! A caller may rely on which pass belongs to which channel, on the numbers of the seats, and on what
//! is known of each seat that has come back: what it has sent was received but for what its channel
//! still holds. Open channels and seats at them are defined in `specs/Opened.antt`, seats that have
//! come back in `specs/Closed.antt`.
#![tactic(auto)]

mod closing;
mod ends;
mod stationing;

pub use closing::close;
pub use ends::{Ends, Opened, SeatPasses, open_channels};
pub use stationing::station_all;
