//! What holds of the desired states of programs and of their templates. A law has no body: its contract is the law.
ghost use Rattle.std.specs.Prelude.{◌≡◌, ◌<◌, ◌↔◌, ℕ, Bool, true, List, Option, Some};
ghost use Rattle.arm_value.specs.Json.{Json};
ghost use Rattle.arm_ids.specs.declared.id.ResourceId.{ResourceId};
ghost use Rattle.template_parts.specs.declared.mode.Form.{Form};
ghost use Rattle.template_parts.specs.declared.mode.Form.TheVariants.{One};
ghost use Rattle.deploy_cells.specs.Cells.{Cell, World};
ghost use Rattle.deploy_cells.specs.Puts.{Desired, IsDesired};
ghost use Rattle.bicep_meaning.specs.Files.{SourceFile};
ghost use Rattle.bicep_meaning.specs.Instances.{SourceProgram, Satisfies, desired, meaning};
ghost use Rattle.cell_renaming.specs.Renaming.{IsOneToOne, to_cell, renamed, unrenamed, IsRenamable};
ghost use Rattle.cell_renaming.specs.Renamed.{AreUndeclared, Stored, IsStored};
ghost use Rattle.source_worlds.specs.Numbers.{number_of, symbol_of, is_put, numbering};
ghost use Rattle.source_worlds.specs.Template.{IsTemplateOf};

/// In both forms, symbols and numbers are one to one, and each symbol has a number whose resource is put or that is of
/// a module.
pub fn symbols_have_numbers()
    ensures one_to_one { (z : Form) (f : SourceFile) (n m : ℕ)
        → (number_of z f n ≡ Some m) ↔ (symbol_of z f m ≡ Some n) }
    ensures each { (z : Form) (f : SourceFile) (n : ℕ) → is_put f n ≡ true → (m : ℕ) × (number_of z f n ≡ Some m) }
    ensures of_all_instances { (z : Form) (files : List SourceFile) → IsOneToOne (numbering z files) }
{}

/// A cell of a program that its template does not have is not there.
pub fn nothing_else_is_declared()
    ensures { (z : Form) (d : SourceProgram) → AreUndeclared (to_cell (numbering z d.files)) (meaning d) }
{}

/// A world satisfies a program exactly where the renamed one is a desired state of its template, and each desired
/// state of the template is the renaming of a world that satisfies the program.
pub fn programs_and_templates()
    ensures forth { (z : Form) (d : SourceProgram) (held : ResourceId → Option Json) (t : Desired)
        → IsTemplateOf z d held t → (w : World) → Satisfies d held w
        → IsRenamable (numbering z d.files) w × IsDesired t (renamed (numbering z d.files) w) }
    ensures back { (z : Form) (d : SourceProgram) (held : ResourceId → Option Json) (t : Desired)
        → IsTemplateOf z d held t → (w : World) → IsRenamable (numbering z d.files) w
        → IsDesired t (renamed (numbering z d.files) w) → Satisfies d held w }
    ensures no_others { (z : Form) (d : SourceProgram) (held : ResourceId → Option Json) (t : Desired)
        → IsTemplateOf z d held t → (v : World) → IsDesired t v
        → Satisfies d held (unrenamed (numbering z d.files) v)
        × ((c : Cell) → renamed (numbering z d.files) (unrenamed (numbering z d.files) v) c ≡ v c) }
{}

/// In a world that satisfies a program and in the renamed one the same is put, and there is the same state at its key:
/// so a provider may have answered both, or neither.
pub fn providers_answer_both()
    ensures { (z : Form) (d : SourceProgram) (held : ResourceId → Option Json) (t : Desired) → IsTemplateOf z d held t
        → (w : World) → Satisfies d held w → (x : Stored)
        → IsStored (desired d held) w x ↔ IsStored t (renamed (numbering z d.files) w) x }
{}
