// What is told at a point of the body of what a task puts.
ghost use Rattle.std.specs.Prelude.{◌≡◌, ◌<◌, length, slice_get, IfOk, Some};
ghost use Rattle.arm_value.specs.Json.{object, pairs};
ghost use Rattle.arm_value.specs.View.{json};
ghost use Rattle.plan_cells.specs.Resources as cells;
ghost use Rattle.plan_cells.specs.Resources.{members_in};
ghost use Rattle.plan_table.specs.Lines.{IsNumber};
ghost use Rattle.plan_table.specs.Opened.{step_of};
ghost use Rattle.plan_table.specs.Whole.{whole_of};
ghost use Rattle.plan_table.specs.Found.{scope_at};
ghost use Rattle.plan_sight.specs.Seen.{Shows};
ghost use Rattle.plan_telling.specs.Symbols.{IsComplete};
ghost use Rattle.deploy_cells.specs.Guarded.{there_if};
ghost use Rattle.plan_cells.specs.Meaning.{bodies};
ghost use Rattle.point_rows.specs.Rows.{told_now, IsFit};

use crate::scopes::told_in_instance;
use arm_env::stop::let_go;
use arm_value::{Fields, OutOfMemory, Value};
use plan_sight::lack::Lack;
use plan_table::frame::Instance;
use plan_telling::register::Register;
use plan_telling::source::Source;
use plan_values::declared::listed_at;
use plan_values::scopes::texts_at;
use point_rows::later::Later;
use std::alloc::Global;
use template_tree::Body;

// The members as a value.
fn object_of(alloc: Global, members: &Fields) -> Result<Value, OutOfMemory>
    ensures { IfOk result (λ v. json v ≡ object (pairs members.now)) }
{
    Ok(Value::Object(members.copy(alloc)?))
}

// What is told of these members as a body of an instance.
fn told_of_members(
    alloc: Global,
    register: &Register,
    later: &Later,
    frame: usize,
    instance: Instance,
    members: &Fields,
) -> Result<Value, Lack>
    requires complete { IsComplete register.now }
    requires fit { IsFit register.now.table later.now }
    requires there { frame < length register.now.table.frames.items }
    requires number { IsNumber (scope_at register.now.table frame) instance.resource }
    requires copy { instance.copy < 800 }
    requires members { (x : cells.Listed)
        → slice_get (scope_at register.now.table frame).resources instance.resource ≡ Some x
        → members_in x.content ≡ Some members.now }
    ensures { Shows json register.now.table result (told_now register.now.table later.now
        (there_if (bodies (whole_of register.now.table) (scope_at register.now.table frame).position
        (step_of instance)))) }
{
    let texts = texts_at(register, frame);
    match object_of(alloc, members) {
        Ok(tree) => {
            let told = told_in_instance(
                alloc,
                register,
                later,
                frame,
                instance,
                texts,
                &Source::Tree(&tree),
            );
            let_go(tree);
            told
        }
        Err(_) => Err(Lack::OutOfMemory),
    }
}

/// What is told of the body of an instance: its value, or the line or the state that it waits for. A nested deployment
/// has no body.
pub fn told_of_body(
    alloc: Global,
    register: &Register,
    later: &Later,
    frame: usize,
    instance: Instance,
) -> Result<Value, Lack>
    requires complete { IsComplete register.now }
    requires fit { IsFit register.now.table later.now }
    requires there { frame < length register.now.table.frames.items }
    requires number { IsNumber (scope_at register.now.table frame) instance.resource }
    requires copy { instance.copy < 800 }
    ensures { Shows json register.now.table result (told_now register.now.table later.now
        (there_if (bodies (whole_of register.now.table) (scope_at register.now.table frame).position
        (step_of instance)))) }
{
    match listed_at(register, frame, instance.resource).body {
        Body::Members(members) => {
            told_of_members(alloc, register, later, frame, instance, members)
        }
        Body::Deployment(_) => Err(Lack::NotThere),
    }
}
