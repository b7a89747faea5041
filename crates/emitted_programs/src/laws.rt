//! What holds of templates of programs. A law has no body: its contract is the law.
ghost use Rattle.std.specs.Prelude.{◌≡◌, ◌↔◌, ℕ, true, false, List, Option, Some};
ghost use Rattle.arm_value.specs.Json.{Json, bool};
ghost use Rattle.arm_ids.specs.Held.{HeldResource};
ghost use Rattle.arm_ids.specs.declared.id.ResourceId.{ResourceId};
ghost use Rattle.template_parameters.specs.Binding.{BoundMeaning};
ghost use Rattle.template_parts.specs.declared.mode.Form.{Form};
ghost use Rattle.template_tree.specs.Tree.{TemplateTree};
ghost use Rattle.cell_renaming.specs.Renamed.{Stored, IsStored};
ghost use Rattle.cell_renaming.specs.Renaming.{renamed, unrenamed, IsRenamable, to_position, to_cell};
ghost use Rattle.deploy_cells.specs.Cells.{Cell, World, Position, step, included, is_admitted};
ghost use Rattle.deploy_cells.specs.Puts.{Kind};
ghost use Rattle.plan_cells.specs.Desired as template;
ghost use Rattle.plan_cells.specs.Desired.{held_state, desired};
ghost use Rattle.plan_cells.specs.Meaning.{raw, bodies};
ghost use Rattle.bicep_meaning.specs.Instances as source;
ghost use Rattle.bicep_meaning.specs.Instances.{SourceProgram};
ghost use Rattle.source_worlds.specs.Numbers.{numbering};
ghost use Rattle.source_worlds.specs.Template.{IsTemplateOf};
ghost use Rattle.emitted_sites.specs.Files.{IsEmitted};
ghost use Rattle.emitted_sites.specs.Facts.{HoldsResources};
ghost use Rattle.emitted_sites.specs.Marks.{Marks, AreMarks};
ghost use Rattle.emitted_programs.specs.Alike.{AreAlike};
ghost use Rattle.emitted_programs.specs.Sound.{IsSoundProgram};
ghost use Rattle.emitted_programs.specs.Given.{IsBound, IsBinding, IsDeployed, deployed};

/// A template of a program says of desired states what the program says, cell by cell, in both forms of templates.
pub fn templates_mean_their_programs()
    ensures { (z : Form) (d : SourceProgram) (u : TemplateTree) (bound : List (List ℕ × BoundMeaning))
        (opening : ResourceId → Option Json) (held : List HeldResource) → IsEmitted z d.files u → IsSoundProgram d
        → IsBound d u bound → HoldsResources opening → ((k : ResourceId) → held_state held k ≡ opening k)
        → IsTemplateOf z d opening (desired (deployed d u bound) held) }
{}

/// Parameters that are bound to accepted values, which are those that are given to the program, are bound as the
/// program's.
pub fn bindings_give_parameters()
    ensures { (d : SourceProgram) (u : TemplateTree) (bound : List (List ℕ × BoundMeaning)) → IsBinding d u bound
        → IsBound d u bound }
{}

/// A world satisfies a program exactly where its renaming is a desired state of the template, and each desired state of
/// the template is the renaming of a world that satisfies the program. In both the same is put, and there is the same
/// state at its key: so a provider may have answered both, or neither.
pub fn desired_states_are_the_same()
    ensures forth { (z : Form) (d : SourceProgram) (u : TemplateTree) (bound : List (List ℕ × BoundMeaning))
        (held : List HeldResource) → IsDeployed z d u bound held → (w : World)
        → source.Satisfies d (held_state held) w
        → IsRenamable (numbering z d.files) w
        × template.Satisfies (deployed d u bound) held (renamed (numbering z d.files) w) }
    ensures back { (z : Form) (d : SourceProgram) (u : TemplateTree) (bound : List (List ℕ × BoundMeaning))
        (held : List HeldResource) → IsDeployed z d u bound held → (w : World)
        → IsRenamable (numbering z d.files) w
        → template.Satisfies (deployed d u bound) held (renamed (numbering z d.files) w)
        → source.Satisfies d (held_state held) w }
    ensures no_others { (z : Form) (d : SourceProgram) (u : TemplateTree) (bound : List (List ℕ × BoundMeaning))
        (held : List HeldResource) → IsDeployed z d u bound held → (v : World)
        → template.Satisfies (deployed d u bound) held v
        → source.Satisfies d (held_state held) (unrenamed (numbering z d.files) v)
        × ((c : Cell) → renamed (numbering z d.files) (unrenamed (numbering z d.files) v) c ≡ v c) }
    ensures answers { (z : Form) (d : SourceProgram) (u : TemplateTree) (bound : List (List ℕ × BoundMeaning))
        (held : List HeldResource) → IsDeployed z d u bound held → (w : World)
        → source.Satisfies d (held_state held) w → (x : Stored)
        → IsStored (source.desired d (held_state held)) w x
        ↔ IsStored (desired (deployed d u bound) held) (renamed (numbering z d.files) w) x }
{}

/// What a template reads for its cells and for the bodies of what is put is what its program reads, where the states
/// and outputs that are marked in both are the same: so a task needs the same others by the values that it reads.
pub fn readings_are_alike()
    ensures cells { (z : Form) (d : SourceProgram) (u : TemplateTree) (bound : List (List ℕ × BoundMeaning))
        (held : List HeldResource) → IsDeployed z d u bound held → (w : World)
        → source.Satisfies d (held_state held) w → (x : Marks) → AreMarks z d x → (c e : Cell)
        → to_cell (numbering z d.files) c ≡ Some e → template.is_state c ≡ false → is_admitted w c ≡ true
        → AreAlike z d w x (raw (deployed d u bound) e) (source.raw d c) }
    ensures bodies { (z : Form) (d : SourceProgram) (u : TemplateTree) (bound : List (List ℕ × BoundMeaning))
        (held : List HeldResource) → IsDeployed z d u bound held → (w : World)
        → source.Satisfies d (held_state held) w → (x : Marks) → AreMarks z d x → (p q : Position) (n k j : ℕ)
        (kind : Kind) → to_position (numbering z d.files) p ≡ Some q → (numbering z d.files).number p n ≡ Some k
        → source.kinds d p n ≡ Some kind → kind.is_deployment ≡ false → w (included p (step n j)) ≡ Some (bool true)
        → AreAlike z d w x (bodies (deployed d u bound) q (step k j)) (source.bodies d p (step n j)) }
{}
