//! What holds of the values of a file. A law has at most other laws in its body: its contract is the law.
ghost use Rattle.std.specs.Prelude.{ℕ, List, [], Some, None};
ghost use Rattle.bicep_resolved.specs.Source.{SourceTree, ValueTree};
ghost use Rattle.bicep_meaning.specs.Files.{SourceFile};
ghost use Rattle.bicep_emission.specs.Emitted.{Frame};
ghost use Rattle.declaration_laws.specs.Sound.{IsSound};
ghost use Rattle.emitted_declarations.specs.Declared.{whole};
ghost use Rattle.emitted_trees.specs.EmittedTrees.{tree_of, value_of};
ghost use Rattle.file_values.specs.Meaning.{TreeMeansTheSame, NamedMeansTheSame, OutputMeansTheSame};

use agreeing_files::laws::{
    agreeing_files_are_sound, agreeing_files_become_the_same, expressions_become_the_same,
};
use declaration_laws::laws::declarations_mean_the_same;
use emitted_trees::laws::{named_values_mean_the_same, outputs_mean_the_same, trees_mean_the_same};
use filled_tables::laws::{trees_become_the_same, values_become_the_same};

/// What the values of a sound file become with all its declarations means the same: a value that is no loop, that of a
/// variable or an argument, and that of an output.
pub fn file_values_mean_the_same()
    ensures trees { (file : SourceFile) (files : List SourceFile) → IsSound file → (e : SourceTree) (fs : List Frame)
        → TreeMeansTheSame file files e fs (tree_of file files (whole file files).scope e fs) }
    ensures named { (file : SourceFile) (files : List SourceFile) → IsSound file → (name : List ℕ) (v : ValueTree)
        (fs : List Frame)
        → NamedMeansTheSame file files name v fs (value_of file files (whole file files).scope (Some name) v fs) }
    ensures outputs { (file : SourceFile) (files : List SourceFile) → IsSound file → (v : ValueTree)
        → OutputMeansTheSame file files v (value_of file files (whole file files).scope None v []) }
{
    agreeing_files_are_sound();
    agreeing_files_become_the_same();
    expressions_become_the_same();
    trees_become_the_same();
    values_become_the_same();
    declarations_mean_the_same();
    trees_mean_the_same();
    named_values_mean_the_same();
    outputs_mean_the_same();
}
