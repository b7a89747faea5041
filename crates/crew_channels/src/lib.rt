//! The channels between a driver and its seats, with the rules that they keep.
//!
//! Each seat has a channel of its own for orders, and all share one for results. A caller may rely on
//! two rules. What was sent to a seat is what the seat has received, and then what its channel holds
//! (`specs/Orders.antt`). What a seat has sent is what was received from it, and then what the shared
//! channel holds of it (`specs/Results.antt`).
#![tactic(auto)]

mod order;
mod orders;
mod results;

pub use order::Order;
pub use orders::{
    InOrder, OrderPass, OrderReceiver, OrderSender, Orders, open_orders, receive_order,
    rejoin_orders, send_order,
};
pub use results::{
    BySeat, DonePass, DoneReceiver, DoneSender, Results, open_results, receive_done,
    rejoin_results, seat_pass, send_done,
};
