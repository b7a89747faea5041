// Jobs and answers in lines of text.

use arm_value::{Bytes, Value};
use provider_trait::{Answer, Job};
use std::alloc::{AllocError, Global};

/// Adds bytes that are text.
pub fn push_bytes(out: &mut String, bytes: &Bytes) -> Result<(), AllocError> {
    match str::from_utf8(bytes.as_slice()) {
        Ok(text) => out.push_str(text),
        Err(_) => out.push('?'),
    }
}

fn push_json(alloc: Global, out: &mut String, value: &Value) -> Result<(), AllocError> {
    let bytes = value.to_json(alloc)?;
    push_bytes(out, &bytes)
}

/// Adds a line: the job is begun, as `begin TASK WORKER ID BODY`.
pub fn push_begun(alloc: Global, out: &mut String, job: &Job) -> Result<(), AllocError> {
    write!(
        out,
        "begin {} {} {} ",
        job.task(),
        job.worker(),
        job.id().as_str()
    )?;
    push_json(alloc, out, job.body())?;
    out.push('\n')
}

/// Adds a line: the task has this answer.
pub fn push_answer(out: &mut String, task: u32, answer: &Answer) -> Result<(), AllocError> {
    match answer {
        Answer::Stored(_) => writeln!(out, "stored {task}"),
        Answer::Gone => writeln!(out, "gone {task}"),
        Answer::Refused(code) => writeln!(out, "refused {task} {}", code.as_str()),
    }
}

/// Adds a line: the job of the task is given back.
pub fn push_back(out: &mut String, task: u32) -> Result<(), AllocError> {
    writeln!(out, "back {task}")
}
