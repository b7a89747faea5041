// Jobs for tests.
ghost use Rattle.std.specs.Prelude.{◌≡◌, IfOk};
ghost use Rattle.provider_trait.specs.declared.act.Act.TheVariants.{Delete, Put};

use arm_value::{Fields, Text, Value};
use provider_trait::{Act, Job, JobParts};
use std::alloc::Global;
use std::test::Fail;

pub const THING: &str = "/subscriptions/s/resourceGroups/g/providers/Demo.Lab/things/x";

/// The put of an empty body, as task 1 of worker 3.
pub fn put_job(alloc: Global) -> Result<Job, Fail>
    ensures { IfOk result (λ job. job.act ≡ Put) }
{
    let parts = JobParts {
        task: 1,
        worker: 3,
        act: Act::Put,
        id: Text::of(alloc, THING)?,
        api: Text::of(alloc, "2023-01-01")?,
        body: Value::Object(Fields::new()),
    };
    Ok(Job::new(alloc, parts)?)
}

/// A deletion, as task 2 of worker 0.
pub fn delete_job(alloc: Global) -> Result<Job, Fail>
    ensures { IfOk result (λ job. job.act ≡ Delete) }
{
    let parts = JobParts {
        task: 2,
        worker: 0,
        act: Act::Delete,
        id: Text::of(alloc, THING)?,
        api: Text::of(alloc, "")?,
        body: Value::Null,
    };
    Ok(Job::new(alloc, parts)?)
}

/// Fails where something else is answered than wanted.
pub fn compare(asked: &str, found: &str, wanted: &str) -> Result<(), Fail> {
    if found == wanted {
        return Ok(());
    }
    Err(Fail::new(format_args!("{asked} -> {wanted} but {found}")))
}

/// The answer; the part is dropped.
pub fn letting_go<T: Drop, R>(answer: R, _part: T) -> R {
    answer
}
