// The jobs that providers are given.

ghost use Rattle.std.specs.Prelude.{◌≡◌, Some, IfOk};
ghost use Rattle.arm_value.specs.View.{json};
ghost use Rattle.arm_value.specs.Reading.{data_of, reading};
ghost use Rattle.provider_trait.specs.Act.{FitsAct};

use crate::act::Act;
use crate::first_part::first_part;
use crate::parts::run_out;
use arm_value::{Bytes, OutOfMemory, Text, Value};
use std::alloc::Global;
use std::marker::Model;

/// One call that a provider is to make.
///
/// The body of a put is an object that nests at most 100, and that of a deletion is null. A job
/// has the first part of its record in the journal.
#[derive(Drop)]
pub struct Job {
    task: u32,
    worker: u32,
    act: Act,
    id: Text,
    api: Text,
    body: Value,
    first: Bytes,
}

impl Model for Job {
    ghost use Rattle.provider_trait.specs.Work.{Work, work_code};

    ghost Value = { Work };

    ghost coded = { work_code };

    ghost use Rattle.std.specs.Prelude.{◌≡◌, Some};
    ghost use Rattle.arm_value.specs.View.{json};
    ghost use Rattle.arm_value.specs.Reading.{data_of, reading};
    ghost use Rattle.provider_trait.specs.Act.{FitsAct};
    ghost use Rattle.provider_trait.specs.FirstPart.{first_value, first_part};

    ghost view = { λ j. record {
      task = j.task;
      worker = j.worker;
      act = j.act;
      id = j.id;
      api = j.api;
      body = json j.body;
      first = j.first;
    } };

    ghost invariant = { λ j. FitsAct j.act (json j.body)
        × (j.first ≡ first_part (record {
          api = j.api;
          body = json j.body;
          id = j.id;
          task = j.task;
          worker = j.worker;
        }))
        × (reading j.first ≡ Some (data_of (first_value (record {
          api = j.api;
          body = json j.body;
          id = j.id;
          task = j.task;
          worker = j.worker;
        })))) };
}

/// What a job is made of.
#[derive(Drop)]
pub struct JobParts {
    /// The number of the task.
    pub task: u32,
    /// The number of the worker, that of its seat.
    pub worker: u32,
    /// What the provider is asked to do.
    pub act: Act,
    /// The id of the resource, with its letters as they are spelled.
    pub id: Text,
    /// The version of the resource's type, empty for a deletion.
    pub api: Text,
    /// The body of a put, null for a deletion.
    pub body: Value,
}

impl Job {
    ghost use Rattle.provider_trait.specs.FirstPart.{first_value, first_part};
    ghost use Rattle.provider_trait.specs.JobParts.{work_of};
    ghost use Rattle.provider_trait.specs.Work.{assignment_of};

    /// The job of these parts, with the first part of its record in the journal.
    pub fn new(alloc: Global, parts: JobParts) -> Result<Job, OutOfMemory>
        requires { FitsAct parts.act (json parts.body) }
        ensures { IfOk result (λ j. j ≡ work_of parts) }
    {
        match first_part(alloc, &parts) {
            Ok(first) => Ok(Job {
                task: parts.task,
                worker: parts.worker,
                act: parts.act,
                id: parts.id,
                api: parts.api,
                body: parts.body,
                first,
            }),
            Err(_) => run_out(parts),
        }
    }

    /// The number of the task.
    pub fn task(&self) -> u32
        ensures { result ≡ self.now.task }
    {
        self.task
    }

    /// The number of the worker, that of its seat.
    pub fn worker(&self) -> u32
        ensures { result ≡ self.now.worker }
    {
        self.worker
    }

    /// What the provider is asked to do.
    pub fn act(&self) -> Act
        ensures { result ≡ self.now.act }
    {
        self.act
    }

    /// The id of the resource, with its letters as they are spelled.
    pub fn id(&self) -> &Text
        ensures { result.now ≡ self.now.id }
    {
        &self.id
    }

    /// The version of the resource's type, empty for a deletion.
    pub fn api(&self) -> &Text
        ensures { result.now ≡ self.now.api }
    {
        &self.api
    }

    /// The body: an object that nests at most 100 for a put, null for a deletion.
    pub fn body(&self) -> &Value
        ensures body { json result.now ≡ self.now.body }
        ensures fits { FitsAct self.now.act self.now.body }
    {
        &self.body
    }

    /// The first part of the job's record in the journal: the object of `api`, `body`, `id`, `task`
    /// and `worker` as compact JSON. It reads back as this object.
    pub fn first(&self) -> &Bytes
        ensures first { result.now ≡ self.now.first }
        ensures record_of { self.now.first ≡ first_part (assignment_of self.now) }
        ensures reads_back { reading self.now.first ≡ Some (data_of (first_value (assignment_of self.now))) }
    {
        &self.first
    }

    /// A copy of the job.
    pub fn copy(&self, alloc: Global) -> Result<Job, OutOfMemory>
        ensures { IfOk result (λ j. j ≡ self.now) }
    {
        Ok(Job {
            task: self.task,
            worker: self.worker,
            act: self.act,
            id: self.id.copy(alloc)?,
            api: self.api.copy(alloc)?,
            body: self.body.copy(alloc)?,
            first: self.first.copy(alloc)?,
        })
    }
}
