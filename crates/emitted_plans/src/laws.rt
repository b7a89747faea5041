//! What holds of plans of templates. A law has no body: its contract is the law.
ghost use Rattle.std.specs.Prelude.{◌≡◌, ◌⊎◌, ℕ, List, Some, slice_get};
ghost use Rattle.arm_ids.specs.Held.{HeldResource};
ghost use Rattle.template_parameters.specs.Binding.{BoundMeaning};
ghost use Rattle.template_parts.specs.declared.mode.Form.{Form};
ghost use Rattle.template_parts.specs.declared.mode.Mode.{Mode};
ghost use Rattle.template_tree.specs.Tree.{TemplateTree};
ghost use Rattle.deploy_cells.specs.Cells.{World};
ghost use Rattle.plan_cells.specs.Desired.{held_state};
ghost use Rattle.plan_cells.specs.Plan.{Need, IsListed, IsPlan};
ghost use Rattle.plan_cells.specs.TaskOf as template;
ghost use Rattle.plan_cells.specs.Tasks.{Task, Work};
ghost use Rattle.bicep_meaning.specs.Instances.{SourceProgram, Satisfies};
ghost use Rattle.cell_renaming.specs.Renaming.{renamed};
ghost use Rattle.source_needs.specs.Given.{ReadsFrom};
ghost use Rattle.source_needs.specs.Needs.{SourceNeeds};
ghost use Rattle.source_needs.specs.Tasks.{IsTask};
ghost use Rattle.source_worlds.specs.Numbers.{numbering};
ghost use Rattle.emitted_programs.specs.Given.{IsDeployed, deployed};
ghost use Rattle.emitted_needs.specs.Symbols.{HaveSymbols};
ghost use Rattle.emitted_needs.specs.Tasks.{to_task};
ghost use Rattle.emitted_plans.specs.Deletions.{IsNoDeletion};

/// In each desired state, the entries, leaves and puts of a template are those of its program.
pub fn tasks_are_the_same()
    ensures forth { (z : Form) (d : SourceProgram) (u : TemplateTree) (bound : List (List ℕ × BoundMeaning))
        (held : List HeldResource) → IsDeployed z d u bound held → (w : World) → Satisfies d (held_state held) w
        → (x a : Task) → to_task (numbering z d.files) x ≡ Some a → IsTask d w x → IsNoDeletion x
        → template.IsTask (deployed d u bound) (renamed (numbering z d.files) w) a }
    ensures back { (z : Form) (d : SourceProgram) (u : TemplateTree) (bound : List (List ℕ × BoundMeaning))
        (held : List HeldResource) → IsDeployed z d u bound held → (w : World) → Satisfies d (held_state held) w
        → (a : Task) → template.IsTask (deployed d u bound) (renamed (numbering z d.files) w) a
        → (x : Task) × ((to_task (numbering z d.files) x ≡ Some a) × IsTask d w x) }
{}

/// In each desired state of a program, a task that the plan of its template lists to need another one needs it in the
/// program. Where a task needs another one in the program, the plan lists this, or a value of the task reads what the
/// other gives.
pub fn plans_list_needs()
    ensures forth { (z : Form) (d : SourceProgram) (u : TemplateTree) (bound : List (List ℕ × BoundMeaning))
        (held : List HeldResource) → IsDeployed z d u bound held → HaveSymbols d → (mode : Mode)
        (k : Work) (ns : List Need) → IsPlan (deployed d u bound) mode held k ns → (w : World)
        → Satisfies d (held_state held) w → (i j : ℕ) (x y a b : Task) → slice_get k.tasks i ≡ Some a
        → slice_get k.tasks j ≡ Some b → to_task (numbering z d.files) x ≡ Some a
        → to_task (numbering z d.files) y ≡ Some b → IsTask d w x → IsTask d w y
        → IsListed (i, j) ns → SourceNeeds z d w x y }
    ensures back { (z : Form) (d : SourceProgram) (u : TemplateTree) (bound : List (List ℕ × BoundMeaning))
        (held : List HeldResource) → IsDeployed z d u bound held → HaveSymbols d → (mode : Mode)
        (k : Work) (ns : List Need) → IsPlan (deployed d u bound) mode held k ns → (w : World)
        → Satisfies d (held_state held) w → (i j : ℕ) (x y a b : Task) → slice_get k.tasks i ≡ Some a
        → slice_get k.tasks j ≡ Some b → to_task (numbering z d.files) x ≡ Some a
        → to_task (numbering z d.files) y ≡ Some b → IsTask d w x → IsTask d w y
        → SourceNeeds z d w x y → IsListed (i, j) ns ⊎ ReadsFrom d w x y }
{}
