// The tasks of a plan have numbers. A law has no body: its contract is the law.
ghost use Rattle.std.specs.Prelude.{◌≤◌, List, length};
ghost use Rattle.arm_ids.specs.Held.{HeldResource};
ghost use Rattle.point_states.specs.Plan.{Plan};
ghost use Rattle.point_states.specs.Plans.{IsPlanned};
ghost use Rattle.point_states.specs.Numbers.{AreOfScopes};
ghost use Rattle.deploy_histories.specs.Planned as histories;
ghost use Rattle.history_plans.specs.Planned.{planned_by};

/// A plan that histories can be of, with tasks that can be numbered, enters and leaves each scope of its table. Its
/// tasks are of the table, and each put has a key of its own.
pub fn plans_have_numbers()
    ensures { (p : Plan) (held : List HeldResource) → IsPlanned p held → histories.IsPlanned (planned_by p held)
        → length p.tasks.items ≤ 4294967295 → AreOfScopes p.start.register.table p.tasks.items p.keys.items }
{}
