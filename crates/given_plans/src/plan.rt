// Plans that are given as tables.

ghost use Rattle.std.specs.Prelude.{◌≡◌, ◌<◌, IfOk, Some, length, slice_get, true};
ghost use Rattle.given_plans.specs.Given.{aim_target, given_target, given_body, kind_in, IsGiven};

use arm_ids::{Place, id_text};
use arm_value::{Fields, OutOfMemory, Text, Value};
use provider_trait::Act;
use std::alloc::Global;
use task_standings::{Aim, Kind};
use template_parts::run_out;

/// A task. Scopes are in one another: that of depth 0 is the root, and each other is in the one before.
#[derive(Clone, Copy, Debug, PartialEq, Eq)]
pub enum GivenTask {
    /// The scope of this depth is entered.
    Enter(u32),
    /// The instance of this index is put, in the root.
    Put(u32),
    /// The scope of this depth is left.
    Leave(u32),
}

/// Where the instances are put, and what they are called.
#[derive(Drop)]
pub struct Naming {
    /// The place.
    pub place: Place,
    /// The type.
    pub kind: Text,
    /// The version of the type.
    pub api: Text,
    /// The name of each instance.
    pub name: Text,
}

/// A plan that is given as tables.
#[derive(Drop)]
pub struct GivenPlan {
    /// Where the instances are put.
    pub naming: Naming,
    /// The size of a batch of instances, less one.
    pub size: u32,
    /// The tasks in their order.
    pub tasks: Vec<GivenTask>,
}

// What a task does.
fn kind_of(task: GivenTask) -> Kind
    ensures { result ≡ kind_in task }
{
    match task {
        GivenTask::Enter(_) => Kind::Enter,
        GivenTask::Put(_) => Kind::Put,
        GivenTask::Leave(_) => Kind::Leave,
    }
}

/// The body of a task: an empty object for a put, else null.
pub(crate) fn body_of(task: GivenTask) -> Value
    ensures { given_body task result }
{
    match task {
        GivenTask::Enter(_) => Value::Null,
        GivenTask::Put(_) => Value::Object(Fields::new()),
        GivenTask::Leave(_) => Value::Null,
    }
}

impl GivenPlan {
    /// Whether there are as few tasks as a board takes.
    pub fn is_few(&self) -> bool
        ensures { result ≡ true → IsGiven self.now }
    {
        self.tasks.len() <= 4294967295
    }

    /// The task of a number.
    pub fn task(&self, number: u32) -> GivenTask
        requires { number < length self.now.tasks.items }
        ensures { slice_get self.now.tasks.items number ≡ Some result }
    {
        self.tasks[number as usize]
    }

    /// What the task of a number does.
    pub fn kind_at(&self, number: u32) -> Kind
        requires { number < length self.now.tasks.items }
        ensures { (t : GivenTask) → slice_get self.now.tasks.items number ≡ Some t → result ≡ kind_in t }
    {
        kind_of(self.task(number))
    }

    // What each put is for. It is out of memory also where no id can be formed of the names.
    pub(crate) fn put_aim(&self, alloc: Global) -> Result<Aim, OutOfMemory>
        ensures { IfOk result (λ a. aim_target a ≡ given_target self.now) }
    {
        let naming = &self.naming;
        let api = naming.api.copy(alloc)?;
        match id_text(
            alloc,
            &naming.place,
            naming.kind.as_str(),
            naming.name.as_str(),
        ) {
            Ok(id) => Ok(Aim {
                act: Act::Put,
                id,
                api,
            }),
            Err(_) => run_out(api),
        }
    }
}
