// The two ends of a seat's channel.

use crew_channels::{OrderReceiver, OrderSender};

/// The two ends of a seat's channel.
#[derive(Drop)]
pub struct SeatChannel {
    /// The driver's end.
    pub sender: OrderSender,
    /// The seat's end.
    pub receiver: OrderReceiver,
}
