// What jobs are answered.
ghost use Rattle.std.specs.Prelude.{IfSome};
ghost use Rattle.provider_trait.specs.Answer.{Suits};
ghost use Rattle.provider_trait.specs.declared.act.Act.TheVariants.{Put};

use arm_value::{Text, Value};
use provider_trait::{Act, Answer, Job, State};
use sample_boards::parts::nothing;
use std::alloc::Global;

fn refused(alloc: Global) -> Option<Answer>
    ensures { IfSome result (Suits Put) }
{
    match Text::of(alloc, "Quota") {
        Ok(code) => Some(Answer::Refused(code)),
        Err(_) => None,
    }
}

/// The state of what is put with this body: the body. None where memory is out.
pub fn state_of(alloc: Global, body: &Value) -> Option<State> {
    match body.copy(alloc) {
        Ok(value) => State::of(alloc, value).ok(),
        Err(_) => None,
    }
}

fn stored(alloc: Global, body: &Value) -> Option<Answer>
    ensures { IfSome result (Suits Put) }
{
    match state_of(alloc, body) {
        Some(state) => Some(Answer::Stored(state)),
        None => None,
    }
}

fn answer_of_put(alloc: Global, job: &Job) -> Option<Answer>
    ensures { IfSome result (Suits Put) }
{
    if job.id().as_str().ends_with("/quota") {
        refused(alloc)
    } else {
        stored(alloc, job.body())
    }
}

/// The answer to a job: its body is stored as the state, or what it deletes is gone; a put of the name `quota` is
/// refused. None where memory is out.
pub fn answer_of(alloc: Global, job: &Job) -> Option<Answer>
    ensures { IfSome result (Suits job.now.act) }
{
    match job.act() {
        Act::Delete => Some(Answer::Gone),
        Act::Put => answer_of_put(alloc, job),
    }
}
