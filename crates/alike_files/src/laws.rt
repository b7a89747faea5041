//! What holds of files that are alike. A law has at most other laws in its body: its contract is the law.
ghost use Rattle.std.specs.Prelude.{◌≡◌, List, []};
ghost use Rattle.template_parts.specs.declared.mode.Form.{Form};
ghost use Rattle.template_tree.specs.Tree.{TemplateTree};
ghost use Rattle.bicep_resolved.specs.Source.{SourceTree};
ghost use Rattle.bicep_meaning.specs.Files.{SourceFile};
ghost use Rattle.emitted_declarations.specs.Declared.{whole};
ghost use Rattle.emitted_trees.specs.EmittedTrees.{tree_of};
ghost use Rattle.emitted_files.specs.Files.{IsFile};
ghost use Rattle.agreeing_files.specs.Agreeing.{Agree, outputs_of};
ghost use Rattle.alike_files.specs.Alike.{AreAlike};
ghost use Rattle.alike_files.specs.Rest.{HasRest, HasParameters, HasModules};

use agreeing_files::laws::{
    agreeing_files_become_the_same, expressions_become_the_same, types_are_the_same,
};
use filled_tables::laws::{members_become_the_same, trees_become_the_same, values_become_the_same};

/// What a template has for a file beside its parameters and its list of modules, it has for each file that is alike, in
/// a program whose files have the same outputs.
pub fn alike_files_have_the_same_rest()
    ensures { (f g : SourceFile) (fs gs : List SourceFile) → AreAlike f g → outputs_of fs ≡ outputs_of gs
        → (z : Form) (u : TemplateTree) → HasRest fs f z u → HasRest gs g z u }
{
    agreeing_files_become_the_same();
    expressions_become_the_same();
    types_are_the_same();
    members_become_the_same();
    values_become_the_same();
}

/// The defaults of parameters become the same in files that agree.
pub fn defaults_become_the_same()
    ensures { (f g : SourceFile) (fs gs : List SourceFile) → Agree f g → outputs_of fs ≡ outputs_of gs
        → (e : SourceTree) → tree_of f fs (whole f fs).scope e [] ≡ tree_of g gs (whole g gs).scope e [] }
{
    agreeing_files_become_the_same();
    expressions_become_the_same();
    trees_become_the_same();
}

/// A template that has the parameters, the modules and the rest of a file is that of the file.
pub fn files_are_their_parts()
    ensures { (f : SourceFile) (fs : List SourceFile) (z : Form) (u : TemplateTree) → HasRest fs f z u
        → HasParameters fs f z u → HasModules fs f z u → IsFile fs f z u }
{}
