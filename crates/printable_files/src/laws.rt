//! What holds of the names and numbers in all that is emitted. A law has at most other laws in its body: its contract
//! is the law.
ghost use Rattle.std.specs.Prelude.{ℕ, List, Option};
ghost use Rattle.bicep_resolved.specs.Source.{SourceTree, PropertyTrees, ValueTree};
ghost use Rattle.bicep_meaning.specs.Files.{SourceFile};
ghost use Rattle.bicep_emission.specs.Emitted.{Frame, emitted};
ghost use Rattle.emitted_declarations.specs.Declared.{through};
ghost use Rattle.emitted_trees.specs.EmittedTrees.{tree_of, members_of, value_of};
ghost use Rattle.measured_trees.specs.Limits.{IsPrintable};
ghost use Rattle.tree_building.specs.Each.{Each, EachOfMembers, EachOfValue};
ghost use Rattle.printable_files.specs.Printable.{IsPrintableFile, HasPrintable, FramesArePrintable};
ghost use Rattle.printable_files.specs.Printable.{TreeHasPrintable, MembersHavePrintable, ValueHasPrintable};

use emitted_names::laws::{names_are_of_the_grammar, names_of_heads_are_of_the_grammar};
use emitted_numbers::laws::{emitted_numbers_are_whole, numbers_of_values_are_whole};
use tree_names::laws::{members_have_names, trees_have_names, values_have_names};

/// The names and the numbers in the expressions that are emitted of a file are those of template expressions; so are
/// those in the whole names, the conditions and what loops of its resources run over.
pub fn emissions_are_printable()
    ensures expressions { (file : SourceFile) (files : List SourceFile) → IsPrintableFile file files → (k : ℕ)
        (e : SourceTree) (fs : List Frame) → HasPrintable e → FramesArePrintable fs
        → IsPrintable (emitted file files (through file files k).scope e fs) }
    ensures items { (file : SourceFile) (files : List SourceFile) → IsPrintableFile file files → (k n : ℕ)
        → IsPrintable ((through file files k).scope.items n) }
    ensures names { (file : SourceFile) (files : List SourceFile) → IsPrintableFile file files → (k n : ℕ)
        (fs : List Frame) → FramesArePrintable fs → IsPrintable ((through file files k).full_name n fs) }
    ensures conditions { (file : SourceFile) (files : List SourceFile) → IsPrintableFile file files → (k n : ℕ)
        (fs : List Frame) → FramesArePrintable fs → IsPrintable ((through file files k).condition n fs) }
{
    names_are_of_the_grammar();
    names_of_heads_are_of_the_grammar();
    emitted_numbers_are_whole();
}

/// So are those in each expression of the JSON that values become.
pub fn values_are_printable()
    ensures trees { (file : SourceFile) (files : List SourceFile) → IsPrintableFile file files → (k : ℕ)
        (e : SourceTree) (fs : List Frame) → TreeHasPrintable e → FramesArePrintable fs
        → Each IsPrintable (tree_of file files (through file files k).scope e fs) }
    ensures members { (file : SourceFile) (files : List SourceFile) → IsPrintableFile file files → (k : ℕ)
        (ps : PropertyTrees) (fs : List Frame) → MembersHavePrintable ps → FramesArePrintable fs
        → EachOfMembers IsPrintable (members_of file files (through file files k).scope ps fs) }
    ensures values { (file : SourceFile) (files : List SourceFile) → IsPrintableFile file files → (k : ℕ)
        (name : Option (List ℕ)) (v : ValueTree) (fs : List Frame) → ValueHasPrintable v → FramesArePrintable fs
        → EachOfValue IsPrintable (value_of file files (through file files k).scope name v fs) }
{
    trees_have_names();
    members_have_names();
    values_have_names();
    numbers_of_values_are_whole();
}
