// What holds of plans. A law has no body: its contract is the law.
ghost use Rattle.std.specs.Prelude.{List};
ghost use Rattle.arm_ids.specs.Held.{HeldResource};
ghost use Rattle.plan_cells.specs.Plan.{IsPlan};
ghost use Rattle.plan_assembly.specs.declared.plan.Plan.{Plan};
ghost use Rattle.plan_assembly.specs.Plans.{deployment_of, work_in, IsPlanned};

/// A plan has the tasks, the keys and the needs of what is known at the start of its deployment.
pub fn plans_are_of_the_start()
    ensures { (p : Plan) (held : List HeldResource) → IsPlanned p held
        → IsPlan (deployment_of p) p.mode held (work_in p) p.needs.items }
{}
