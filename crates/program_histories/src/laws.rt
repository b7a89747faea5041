//! What holds of histories of the deployments of programs. A law has at most other laws in its body: its contract is
//! the law.
ghost use Rattle.std.specs.Prelude.{◌≡◌, ℕ, List, Some, slice_get};
ghost use Rattle.arm_ids.specs.Held.{HeldResource};
ghost use Rattle.template_parameters.specs.Binding.{BoundMeaning};
ghost use Rattle.template_parts.specs.declared.mode.Form.{Form};
ghost use Rattle.template_parts.specs.declared.mode.Mode.{Mode};
ghost use Rattle.template_tree.specs.Tree.{TemplateTree};
ghost use Rattle.deploy_cells.specs.Cells.{World};
ghost use Rattle.deploy_cells.specs.Puts.{AreAllowed};
ghost use Rattle.plan_cells.specs.Desired.{held_state, kinds};
ghost use Rattle.plan_cells.specs.Known.{Table};
ghost use Rattle.plan_cells.specs.Meaning.{bodies};
ghost use Rattle.plan_cells.specs.Plan.{Need, AreNeeds};
ghost use Rattle.plan_cells.specs.Tasks.{Task, Work};
ghost use Rattle.bicep_meaning.specs.Instances.{SourceProgram, Satisfies};
ghost use Rattle.cell_renaming.specs.Renaming.{renamed};
ghost use Rattle.deploy_histories.specs.Planned.{IsPlanned};
ghost use Rattle.deploy_histories.specs.Events.{Event, Progress, IsDone, at_opening, progress};
ghost use Rattle.deploy_histories.specs.Legal.{May, IsLegal};
ghost use Rattle.deploy_histories.specs.Outcome.{stores_by, AreGiven};
ghost use Rattle.history_laws.specs.Past.{OneAnswer};
ghost use Rattle.source_needs.specs.Needs.{SourceNeeds};
ghost use Rattle.source_needs.specs.Tasks.{IsTask};
ghost use Rattle.source_worlds.specs.Numbers.{numbering};
ghost use Rattle.emitted_needs.specs.Symbols.{HaveSymbols};
ghost use Rattle.emitted_needs.specs.Tasks.{to_task};
ghost use Rattle.emitted_programs.specs.Given.{IsDeployed};
ghost use Rattle.program_histories.specs.Starts.{planned, Starts, IsSoAt};

use deploy_histories::laws::ready_tasks;
use emitted_needs::laws::values_read_the_same;
use emitted_plans::laws::plans_list_needs;
use emitted_programs::laws::desired_states_are_the_same;
use provider_trait::Provider;

/// An event starts a task only where each task that it needs in the program is done, in each desired state in which
/// what is known at that point is so.
pub fn needs_come_first()
    ensures { (z : Form) (d : SourceProgram) (u : TemplateTree) (bound : List (List ℕ × BoundMeaning)) (mode : Mode)
        (held : List HeldResource) (k : Work) (t : Table) (ns : List Need) → IsDeployed z d u bound held
        → HaveSymbols d → IsPlanned (planned d u bound mode held k t)
        → AreNeeds (planned d u bound mode held k t).deployment t k.tasks ns → (p : Progress) (w : World)
        → Satisfies d (held_state held) w
        → IsSoAt (planned d u bound mode held k t) p (renamed (numbering z d.files) w) → (e : Event) (i : ℕ)
        → May (planned d u bound mode held k t) p e → Starts i e → (j : ℕ) (x y a b : Task)
        → slice_get k.tasks i ≡ Some a → slice_get k.tasks j ≡ Some b → to_task (numbering z d.files) x ≡ Some a
        → to_task (numbering z d.files) y ≡ Some b → IsTask d w x → IsTask d w y → SourceNeeds z d w x y
        → IsDone p j }
{
    desired_states_are_the_same();
    plans_list_needs();
    ready_tasks();
    values_read_the_same();
}

/// Over a provider that may give one answer only to each act, an event of a legal history starts a task only where
/// each task that it needs in the program was done before.
pub fn needs_are_done_before<P: Provider>()
    ensures { (z : Form) (d : SourceProgram) (u : TemplateTree) (bound : List (List ℕ × BoundMeaning)) (mode : Mode)
        (held : List HeldResource) (k : Work) (t : Table) (ns : List Need) → IsDeployed z d u bound held
        → HaveSymbols d → IsPlanned (planned d u bound mode held k t)
        → AreNeeds (planned d u bound mode held k t).deployment t k.tasks ns → (h : List Event)
        → OneAnswer P.may → IsLegal (planned d u bound mode held k t) h
        → AreGiven P.may (planned d u bound mode held k t) at_opening h → (w : World)
        → Satisfies d (held_state held) w
        → AreAllowed (stores_by P.may) d.place (kinds (planned d u bound mode held k t).deployment)
        (bodies (planned d u bound mode held k t).deployment) (renamed (numbering z d.files) w) → (e : Event) (i : ℕ)
        → May (planned d u bound mode held k t) (progress h) e → Starts i e → (j : ℕ) (x y a b : Task)
        → slice_get k.tasks i ≡ Some a → slice_get k.tasks j ≡ Some b → to_task (numbering z d.files) x ≡ Some a
        → to_task (numbering z d.files) y ≡ Some b → IsTask d w x → IsTask d w y → SourceNeeds z d w x y
        → IsDone (progress h) j }
{
    desired_states_are_the_same();
    needs_come_first();
}
