// The open jobs of seats.

ghost use Rattle.std.specs.Prelude.{◌≡◌, true, false, None, slice_index_or, ℕ};
ghost use Rattle.driver_loop.specs.OpenJobs.{IsOfOpenJob, IsStray};

use provider_trait::{Act, Job};
use seat_calls::Done;
use std::snapshot::Snapshot;

/// What a driver keeps of the open job of a seat. No part of the job is copied.
#[derive(Drop)]
pub struct OpenJob {
    /// The number of the task.
    pub task: u32,
    /// What the provider is asked to do.
    pub act: Act,
    /// The job, for proofs.
    pub job: Snapshot<Job>,
}

impl OpenJob {
    /// What is kept of this job.
    pub fn of(job: &Job) -> OpenJob
        ensures task { result.task ≡ job.now.task }
        ensures act { result.act ≡ job.now.act }
        ensures job { result.job.value ≡ job.now }
    {
        OpenJob {
            task: job.task(),
            act: job.act(),
            job: Snapshot::of(job),
        }
    }
}

/// Whether a result is of its seat's open job: task and act are compared.
pub fn is_of_open_job(opens: &[Option<OpenJob>], done: &Done) -> bool
    ensures yes { result ≡ true → IsOfOpenJob opens.now done.now }
    ensures no { result ≡ false → IsStray opens.now done.now }
{
    match opens.get(done.worker as usize) {
        Some(Some(opened)) => opened.task == done.job.task() && opened.act == done.job.act(),
        _ => false,
    }
}

/// Whether no seat has an open job.
pub fn has_no_job(opens: &[Option<OpenJob>]) -> bool
    ensures yes { result ≡ true → (k : ℕ) → slice_index_or opens.now k None ≡ None }
    ensures no { result ≡ false → ¬ ((k : ℕ) → slice_index_or opens.now k None ≡ None) }
{
    for opened in opens {
        if opened.is_some() {
            return false;
        }
    }
    true
}
