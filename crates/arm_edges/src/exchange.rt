// What a connection came to.

use arm_value::Bytes;

/// What was read from a connection, and what was written to it.
#[derive(Debug, Drop)]
pub struct Exchange {
    /// The bytes that were read, in their order.
    pub received: Bytes,
    /// The bytes that were written, in their order.
    pub written: Bytes,
}
