// What a driver sends to a seat.

use provider_trait::Job;

/// What a driver sends to a seat.
#[derive(Drop)]
pub enum Order {
    /// Call the provider with this job.
    Run(Job),
    /// No further order follows.
    Stop,
}
