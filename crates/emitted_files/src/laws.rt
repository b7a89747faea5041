//! What holds of templates of programs. A law has no body: its contract is the law.
ghost use Rattle.std.specs.Prelude.{◌≡◌, ℕ, List, [], ◌∷◌, Some};
ghost use Rattle.template_parts.specs.declared.mode.Form.{Form};
ghost use Rattle.deploy_cells.specs.Cells.{Position};
ghost use Rattle.plan_cells.specs.Desired as template;
ghost use Rattle.plan_cells.specs.Meaning.{Deployment, meaning};
ghost use Rattle.plan_cells.specs.Scopes.{owner, visible, loops_around};
ghost use Rattle.template_tree.specs.Tree.{TemplateTree};
ghost use Rattle.source_needs.specs.Files.{SourceFile};
ghost use Rattle.source_needs.specs.Instances as source;
ghost use Rattle.source_needs.specs.Instances.{SourceProgram};
ghost use Rattle.cell_renaming.specs.Renaming.{to_position, from_cell};
ghost use Rattle.cell_renaming.specs.Renamed.{AreUndeclared};
ghost use Rattle.source_needs.specs.Numbers.{numbering};
ghost use Rattle.emitted_files.specs.Files.{IsEmitted};

/// Each resource and module of a template is of the kind that its symbol has in the program.
pub fn kinds_are_the_same()
    ensures { (z : Form) (d : SourceProgram) (t : Deployment) → IsEmitted z d.files t.template
        → (p q : Position) (n m : ℕ) → to_position (numbering z d.files) p ≡ Some q
        → (numbering z d.files).number p n ≡ Some m → template.kinds t q m ≡ source.kinds d p n }
{}

/// A cell of a template that its program does not have is not there.
pub fn nothing_else_is_there()
    ensures { (z : Form) (d : SourceProgram) (t : Deployment) → IsEmitted z d.files t.template
        → AreUndeclared (from_cell (numbering z d.files)) (meaning t) }
{}

/// Each scope of a template sees its own parameters and variables and its own nested deployments, and is inside no
/// loop.
pub fn scopes_see_themselves()
    ensures owner { (z : Form) (files : List SourceFile) (u : TemplateTree) → IsEmitted z files u
        → (q : Position) → owner u q ≡ q }
    ensures visible { (z : Form) (files : List SourceFile) (u : TemplateTree) → IsEmitted z files u
        → (q : Position) → visible u q ≡ q ∷ [] }
    ensures loops { (z : Form) (files : List SourceFile) (u : TemplateTree) → IsEmitted z files u
        → (q : Position) → loops_around u q ≡ [] }
{}
