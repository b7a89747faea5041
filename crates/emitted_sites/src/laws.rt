//! What holds of what expressions of a template look at. A law has no body: its contract is the law.
ghost use Rattle.std.specs.Prelude.{◌≡◌};
ghost use Rattle.arm_value.specs.Json.{Json};
ghost use Rattle.arm_ids.specs.declared.id.Place.{Place};
ghost use Rattle.arm_env.specs.Look.{Looking, Surroundings};
ghost use Rattle.template_parts.specs.declared.mode.Form.{Form};
ghost use Rattle.template_tree.specs.Tree.{TemplateTree};
ghost use Rattle.deploy_cells.specs.Cells.{Position, World};
ghost use Rattle.deploy_cells.specs.Guarded.{Reads};
ghost use Rattle.plan_cells.specs.Sites.{Site, reading_at};
ghost use Rattle.bicep_meaning.specs.Around.{Here};
ghost use Rattle.bicep_meaning.specs.Files.{SourceFile};
ghost use Rattle.bicep_meaning.specs.Instances.{SourceProgram, here_in, in_file};
ghost use Rattle.bicep_emission.specs.Alike.{Alike};
ghost use Rattle.bicep_emission.specs.Answered.{Answers};
ghost use Rattle.cell_renaming.specs.Renaming.{renamed};
ghost use Rattle.declaration_laws.specs.Standing.{AnswersVariables};
ghost use Rattle.source_worlds.specs.Numbers.{numbering};
ghost use Rattle.emitted_worlds.specs.Files.{IsEmitted};
ghost use Rattle.emitted_sites.specs.Marks.{IsMarked};
ghost use Rattle.emitted_sites.specs.Sites.{sides, IsInstance, AreLike};

/// What expressions of a scope that is there look at answers the cells of the instance of its file.
pub fn sites_are_answered()
    ensures cells { (z : Form) (d : SourceProgram) (u : TemplateTree) → IsEmitted z d.files u → (w : World)
        (x : IsMarked z d w) (p q : Position) (f : SourceFile) → IsInstance z d w p q f → (place : Place) (e : Site)
        → e.at ≡ q → Answers (sides z d u w x.marks place e) (here_in d p f place) }
    ensures variables { (z : Form) (d : SourceProgram) (u : TemplateTree) → IsEmitted z d.files u → (w : World)
        (x : IsMarked z d w) (p q : Position) (f : SourceFile) → IsInstance z d w p q f → (place : Place) (e : Site)
        → e.at ≡ q → AnswersVariables (sides z d u w x.marks place e) (here_in d p f place) }
{}

/// What reads at a site has in the renamed world the value that is read in the instance, and both or neither read a
/// marked cell.
pub fn sites_are_alike()
    ensures { (z : Form) (d : SourceProgram) (u : TemplateTree) → IsEmitted z d.files u → (w : World)
        (x : IsMarked z d w) (p q : Position) (f : SourceFile) → IsInstance z d w p q f → (e : Site) → e.at ≡ q
        → (r : Surroundings → Looking Json) (s : Here → Reads Json) → AreLike z d u w p f e r s
        → Alike (renamed (numbering z d.files) w) x.marks.template w x.marks.source (reading_at u d.place e r)
        (in_file d p f s) }
{}
