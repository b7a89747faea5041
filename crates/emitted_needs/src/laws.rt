//! What holds of needs in templates. A law has no body: its contract is the law.
ghost use Rattle.std.specs.Prelude.{◌≡◌, ◌↔◌, ◌||◌, ℕ, Bool, true, List, Some};
ghost use Rattle.arm_ids.specs.Held.{HeldResource};
ghost use Rattle.reading.specs.World.{value_in};
ghost use Rattle.template_parameters.specs.Binding.{BoundMeaning};
ghost use Rattle.template_parts.specs.declared.mode.Form.{Form};
ghost use Rattle.template_tree.specs.Tree.{TemplateTree};
ghost use Rattle.deploy_cells.specs.Cells.{World};
ghost use Rattle.plan_cells.specs.Desired.{held_state};
ghost use Rattle.plan_cells.specs.Meaning.{Deployment};
ghost use Rattle.plan_cells.specs.Needs.{is_entered_by, leaves, deletes_after, needs};
ghost use Rattle.plan_cells.specs.Tasks.{Task};
ghost use Rattle.bicep_meaning.specs.Instances.{SourceProgram, Satisfies};
ghost use Rattle.cell_renaming.specs.Renaming.{Renaming, IsOneToOne, renamed};
ghost use Rattle.source_needs.specs.Given as source;
ghost use Rattle.source_needs.specs.Needs.{SourceNeeds};
ghost use Rattle.source_needs.specs.Orders.{IsAfter};
ghost use Rattle.source_needs.specs.Tasks.{IsTask};
ghost use Rattle.source_worlds.specs.Numbers.{numbering};
ghost use Rattle.emitted_programs.specs.Given.{IsDeployed, deployed};
ghost use Rattle.emitted_needs.specs.Keys.{MentionsAreKeyed, HasAnswer};
ghost use Rattle.emitted_needs.specs.Needs.{ReadsFrom, Needs};
ghost use Rattle.emitted_needs.specs.Symbols.{HaveSymbols};
ghost use Rattle.emitted_needs.specs.Tasks.{to_task};

/// Which task comes after which, by the scopes that they are in and by children, is the same in a template as in its
/// program.
pub fn order_is_the_same()
    ensures { (r : Renaming) → IsOneToOne r → (t : Deployment) (u v a b : Task) → to_task r u ≡ Some a
        → to_task r v ≡ Some b
        → IsAfter u v ↔ ((is_entered_by t a b || (leaves t a b || deletes_after t a b)) ≡ true) }
{}

/// In each desired state, a value of a task reads the state that another puts, or an output of the scope that it
/// leaves, in a template exactly where it does in the program.
pub fn values_read_the_same()
    ensures { (z : Form) (d : SourceProgram) (u : TemplateTree) (bound : List (List ℕ × BoundMeaning))
        (held : List HeldResource) → IsDeployed z d u bound held → (w : World) → Satisfies d (held_state held) w
        → (x y a b : Task) → to_task (numbering z d.files) x ≡ Some a → to_task (numbering z d.files) y ≡ Some b
        → IsTask d w x → IsTask d w y
        → source.ReadsFrom d w x y ↔ ReadsFrom (deployed d u bound) (renamed (numbering z d.files) w) a b }
{}

/// In each desired state, a task of a template needs another exactly where the task of its program does: by what it
/// mentions, by values, by order, and by batches. The elements of `dependsOn` that are looked at have values.
pub fn needs_are_the_same()
    ensures { (z : Form) (d : SourceProgram) (u : TemplateTree) (bound : List (List ℕ × BoundMeaning))
        (held : List HeldResource) → IsDeployed z d u bound held → HaveSymbols d
        → (w : World) → Satisfies d (held_state held) w → (x y a b : Task)
        → to_task (numbering z d.files) x ≡ Some a → to_task (numbering z d.files) y ≡ Some b → IsTask d w x
        → IsTask d w y → (answer : Bool)
        → value_in (renamed (numbering z d.files) w) (needs (deployed d u bound) a b) ≡ Some answer
        → SourceNeeds z d w x y ↔ Needs (deployed d u bound) (renamed (numbering z d.files) w) a b }
{}

/// The rule of `plan_cells` has an answer in each desired state where the declaration of the instance that the first
/// task starts mentions only what has a key: the elements of `dependsOn` have values.
pub fn needs_have_answers()
    ensures { (z : Form) (d : SourceProgram) (u : TemplateTree) (bound : List (List ℕ × BoundMeaning))
        (held : List HeldResource) → IsDeployed z d u bound held → HaveSymbols d → (w : World)
        → Satisfies d (held_state held) w → (x y a b : Task) → to_task (numbering z d.files) x ≡ Some a
        → to_task (numbering z d.files) y ≡ Some b → IsTask d w x → IsTask d w y → MentionsAreKeyed z d w x
        → HasAnswer (value_in (renamed (numbering z d.files) w) (needs (deployed d u bound) a b)) }
{}
