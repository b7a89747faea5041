//! What holds of the numbers in all that is emitted. A law has no body: its contract is the law.
ghost use Rattle.std.specs.Prelude.{ℕ, List, Option};
ghost use Rattle.arm_expr.specs.Print.{HasInts};
ghost use Rattle.bicep_resolved.specs.Source.{SourceTree, PropertyTrees, ValueTree};
ghost use Rattle.bicep_meaning.specs.Files.{SourceFile};
ghost use Rattle.bicep_emission.specs.Emitted.{Frame, emitted};
ghost use Rattle.emitted_declarations.specs.Declared.{through};
ghost use Rattle.emitted_trees.specs.EmittedTrees.{tree_of, members_of, value_of};
ghost use Rattle.emitted_numbers.specs.Trees.{TreeHasInts, MembersHaveInts, ContentHasInts};
ghost use Rattle.emitted_numbers.specs.Wholes.{HasWholes, MembersHaveWholes, ValueHasWholes, FileHasWholes};
ghost use Rattle.emitted_numbers.specs.Wholes.{HasFewParts, FramesHaveInts};

/// Where the numbers in a file are of 64 bits, so are those in the expressions that are emitted of it, and in the whole
/// names, the conditions and what loops of its resources run over.
pub fn emitted_numbers_are_whole()
    ensures expressions { (file : SourceFile) (files : List SourceFile) → FileHasWholes file → HasFewParts file
        → (k : ℕ) (e : SourceTree) (fs : List Frame) → HasWholes e → FramesHaveInts fs
        → HasInts (emitted file files (through file files k).scope e fs) }
    ensures items { (file : SourceFile) (files : List SourceFile) → FileHasWholes file → HasFewParts file
        → (k n : ℕ) → HasInts ((through file files k).scope.items n) }
    ensures names { (file : SourceFile) (files : List SourceFile) → FileHasWholes file → HasFewParts file
        → (k n : ℕ) (fs : List Frame) → FramesHaveInts fs → HasInts ((through file files k).full_name n fs) }
    ensures conditions { (file : SourceFile) (files : List SourceFile) → FileHasWholes file → HasFewParts file
        → (k n : ℕ) (fs : List Frame) → FramesHaveInts fs → HasInts ((through file files k).condition n fs) }
{}

/// So are those in the expressions of the JSON that values become.
pub fn numbers_of_values_are_whole()
    ensures trees { (file : SourceFile) (files : List SourceFile) → FileHasWholes file → HasFewParts file
        → (k : ℕ) (e : SourceTree) (fs : List Frame) → HasWholes e → FramesHaveInts fs
        → TreeHasInts (tree_of file files (through file files k).scope e fs) }
    ensures members { (file : SourceFile) (files : List SourceFile) → FileHasWholes file → HasFewParts file
        → (k : ℕ) (ps : PropertyTrees) (fs : List Frame) → MembersHaveWholes ps → FramesHaveInts fs
        → MembersHaveInts (members_of file files (through file files k).scope ps fs) }
    ensures values { (file : SourceFile) (files : List SourceFile) → FileHasWholes file → HasFewParts file
        → (k : ℕ) (name : Option (List ℕ)) (v : ValueTree) (fs : List Frame) → ValueHasWholes v → FramesHaveInts fs
        → ContentHasInts (value_of file files (through file files k).scope name v fs) }
{}
