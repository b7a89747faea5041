// What notes state.

ghost use Rattle.std.specs.Prelude.{◌≡◌};
ghost use Rattle.provider_trait.specs.Work.{Work};
ghost use Rattle.provider_trait.specs.declared.answer.Answer.{Answer};
ghost use Rattle.dealer_trait.specs.Notes.{note_of, HasRecord};

use provider_trait::{Answer, Job};

/// Where the first part of a job is that of its record, a note states the job and its answer: two of
/// them with one note are the same.
pub fn notes_state_jobs_and_answers()
    ensures { (job other : Work) (answer another : Answer) → HasRecord job answer → HasRecord other another
        → note_of job answer ≡ note_of other another → (job ≡ other) × (answer ≡ another) }
{}

/// The note of every job and every answer is a record of the journal, so that `notes_state_jobs_and_answers` holds of
/// them.
pub fn notes_are_records(job: &Job, answer: &Answer)
    ensures { HasRecord job.now answer.now }
{
    job.body();
    job.first();
    if let Answer::Stored(state) = answer {
        state.text();
    }
}
