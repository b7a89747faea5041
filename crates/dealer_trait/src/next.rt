// What a dealer says when it is asked for a job.

use provider_trait::Job;

/// What a dealer says when it is asked for a job.
#[derive(Drop)]
pub enum Next {
    /// This job is begun.
    Begun(Job),
    /// No job may begin now, and one is open.
    Wait,
    /// No job is open, and the dealer has come to its end.
    End,
}
