// What a driver does.

use dealer_trait::BookFault;
use provider_trait::Job;
use seat_calls::Done;

/// What a driver does. No value of it is made.
pub enum Action {
    /// A job was begun and sent to its seat.
    Hand(Job),
    /// A result was received and settled: the book was asked to note an answer, and refused so, or
    /// did not refuse.
    Take(Done, Option<BookFault>),
}
