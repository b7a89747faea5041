// What came of a deployment.

use arm_value::OutOfMemory;
use command_reports::Report;
use provider_trait::Event;

/// What came of a deployment.
#[derive(Drop)]
pub struct Outcome {
    /// What is reported of it, unless memory was out for that.
    pub report: Result<Report, OutOfMemory>,
    /// What has happened in it, oldest first.
    pub history: Vec<Event>,
}
