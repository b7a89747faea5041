// Requests.

use http_requests::Ask;

/// A request.
#[derive(Drop)]
pub struct Request {
    /// What it asks.
    pub ask: Ask,
    /// Whether the connection is closed after it.
    pub close: bool,
}
