// Jobs for tests, and what their calls and answers are compared with.

ghost use Rattle.std.specs.Prelude.{◌≡◌};

use arm_value::{Fields, Text, Value};
use dealer_trait::DealerStep;
use provider_trait::{Act, Answer, Call, Job, JobParts, ProviderFault, Script, Step};
use std::alloc::{AllocError, Global};
use std::test::Fail;

/// The put of a resource of its own, with an empty body.
pub fn put_job(alloc: Global, task: u32) -> Result<Job, Fail> {
    let id = format!(in alloc;
        "/subscriptions/s/resourceGroups/g/providers/Demo.Lab/things/t{task}"
    )?;
    let parts = JobParts {
        task,
        worker: 0,
        act: Act::Put,
        id: Text::of(alloc, id.as_str())?,
        api: Text::of(alloc, "2023-01-01")?,
        body: Value::Object(Fields::new()),
    };
    Ok(Job::new(alloc, parts)?)
}

// Adds so many puts.
fn add_puts(alloc: Global, jobs: &mut Vec<Job>, count: u32) -> Result<(), Fail> {
    for task in 0..count {
        jobs.push(put_job(alloc, task)?)?;
    }
    Ok(())
}

/// So many puts.
pub fn put_jobs(alloc: Global, count: u32) -> Result<Vec<Job>, Fail> {
    let mut jobs = Vec::new(alloc);
    match add_puts(alloc, &mut jobs, count) {
        Ok(()) => Ok(jobs),
        Err(fail) => letting_go(Err(fail), jobs),
    }
}

/// A script that does what it is asked.
pub fn plain(alloc: Global) -> Script {
    Script::new(alloc, Vec::new(alloc))
}

/// A list of one item.
pub fn one<T: Drop>(alloc: Global, item: T) -> Result<Vec<T>, AllocError> {
    let mut list = Vec::new(alloc);
    list.push(item)?;
    Ok(list)
}

/// A list of two items.
pub fn two<T: Drop>(alloc: Global, items: (T, T)) -> Result<Vec<T>, AllocError> {
    let mut list = Vec::new(alloc);
    list.push(items.0)?;
    list.push(items.1)?;
    Ok(list)
}

/// A script that does this at its first call.
pub fn first(alloc: Global, step: Step) -> Result<Script, Fail> {
    Ok(Script::new(alloc, one(alloc, step)?))
}

/// A word for what a call returned.
pub fn word(gave: &Result<Answer, ProviderFault>) -> &str {
    match gave {
        Ok(answer) => answer_word(answer),
        Err(ProviderFault::Fault) => "fault",
        Err(ProviderFault::OutOfMemory) => "memory",
    }
}

// A word for an answer.
fn answer_word(answer: &Answer) -> &str {
    match answer {
        Answer::Stored(_) => "stored",
        Answer::Gone => "gone",
        Answer::Refused(code) => code.as_str(),
    }
}

/// Adds the steps of a dealer: `begin TASK WORKER`, `ANSWER TASK` or `back TASK`, each in a line.
pub fn tell(text: &mut String, steps: &[DealerStep]) -> Result<(), AllocError> {
    for step in steps {
        tell_step(text, step)?;
    }
    Ok(())
}

fn tell_step(text: &mut String, step: &DealerStep) -> Result<(), AllocError> {
    match step {
        DealerStep::Begin(job) => {
            let (task, worker) = (job.task(), job.worker());
            write!(text, "begin {task} {worker}\n")
        }
        DealerStep::Answer(task, answer) => {
            let word = answer_word(answer);
            write!(text, "{word} {task}\n")
        }
        DealerStep::Back(task) => write!(text, "back {task}\n"),
    }
}

/// Whether these calls are the jobs that were begun with this worker's number, in order.
pub fn are_begins(calls: &[Call], steps: &[DealerStep], worker: u32) -> bool {
    let mut at = 0;
    for step in steps {
        if let DealerStep::Begin(job) = step {
            if job.worker() == worker {
                match calls.get(at) {
                    Some(call) => {
                        if call.job.task() != job.task() {
                            return false;
                        }
                        at += 1;
                    }
                    None => return false,
                }
            }
        }
    }
    at == calls.len()
}

/// Fails where something else is found than wanted.
pub fn compare(asked: &str, found: &str, wanted: &str) -> Result<(), Fail> {
    if found == wanted {
        return Ok(());
    }
    Err(Fail::new(format_args!("{asked} -> {wanted} but {found}")))
}

/// The answer; the part is dropped.
pub fn letting_go<T: Drop, R>(answer: R, _part: T) -> R
    ensures { result ≡ answer }
{
    answer
}
