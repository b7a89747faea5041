// What holds of plans for histories. A law has no body: its contract is the law.
ghost use Rattle.std.specs.Prelude.{◌≡◌, ◌↔◌, ℕ, true, List, slice_get, Some};
ghost use Rattle.arm_ids.specs.Held.{HeldResource};
ghost use Rattle.deploy_cells.specs.Puts.{ResourcesDiffer, DeploymentsDiffer};
ghost use Rattle.plan_cells.specs.Desired.{kinds};
ghost use Rattle.plan_cells.specs.Plan.{IsListed};
ghost use Rattle.plan_cells.specs.Start.{start_world};
ghost use Rattle.plan_cells.specs.Tasks.{Task};
ghost use Rattle.plan_assembly.specs.declared.plan.Plan.{Plan};
ghost use Rattle.plan_assembly.specs.Plans.{deployment_of, known_in, IsPlanned};
ghost use Rattle.deploy_histories.specs.Planned as histories;
ghost use Rattle.deploy_histories.specs.Readiness.{needs_first};
ghost use Rattle.history_plans.specs.Planned.{planned_by};

/// A plan whose keys differ is one that histories can be of: its tasks are known at the start, and so are all counts,
/// conditions and names.
pub fn plans_have_histories()
    ensures { (p : Plan) (held : List HeldResource) → IsPlanned p held
        → ResourcesDiffer (deployment_of p).place (kinds (deployment_of p)) (start_world (known_in p))
        → DeploymentsDiffer (deployment_of p).place (kinds (deployment_of p)) (start_world (known_in p))
        → histories.IsPlanned (planned_by p held) }
{}

/// The needs of a plan are the pairs of a task and of one that it needs by what is known at the start.
pub fn needs_are_listed()
    ensures { (p : Plan) (held : List HeldResource) → IsPlanned p held → (i j : ℕ) (u v : Task)
        → slice_get (planned_by p held).tasks i ≡ Some u → slice_get (planned_by p held).tasks j ≡ Some v
        → ((needs_first (planned_by p held) u v ≡ true) ↔ IsListed (i, j) p.needs.items) }
{}
