// What holds of the names in all JSON that values become. A law has no body: its contract is the law.
ghost use Rattle.std.specs.Prelude.{ℕ, List, Option};
ghost use Rattle.bicep_resolved.specs.Source.{SourceTree, PropertyTrees, ValueTree};
ghost use Rattle.bicep_meaning.specs.Files.{SourceFile};
ghost use Rattle.bicep_emission.specs.Emitted.{Frame};
ghost use Rattle.emitted_declarations.specs.Declared.{through};
ghost use Rattle.emitted_names.specs.Words.{FileHasWords, FramesHaveNames, OutputsAreNames};
ghost use Rattle.emitted_trees.specs.EmittedTrees.{tree_of, members_of, value_of};
ghost use Rattle.tree_names.specs.Names.{TreeHasNames, MembersHaveNames, ContentHasNames};
ghost use Rattle.tree_names.specs.Words.{HasAllWords, MembersHaveAllWords, ValueHasAllWords};

/// Where the names in a value outside of expressions are names of template expressions, and so are those in what the
/// file declares, so are the names in the expressions of its JSON.
pub fn trees_have_names()
    ensures { (file : SourceFile) (files : List SourceFile) → FileHasWords file → OutputsAreNames files → (k : ℕ)
        (e : SourceTree) (fs : List Frame) → HasAllWords e → FramesHaveNames fs
        → TreeHasNames (tree_of file files (through file files k).scope e fs) }
{}

/// The same of the members of an object.
pub fn members_have_names()
    ensures { (file : SourceFile) (files : List SourceFile) → FileHasWords file → OutputsAreNames files → (k : ℕ)
        (ps : PropertyTrees) (fs : List Frame) → MembersHaveAllWords ps → FramesHaveNames fs
        → MembersHaveNames (members_of file files (through file files k).scope ps fs) }
{}

/// The same of a value that may be a for-expression, as that of a variable, an output or a member.
pub fn values_have_names()
    ensures { (file : SourceFile) (files : List SourceFile) → FileHasWords file → OutputsAreNames files → (k : ℕ)
        (name : Option (List ℕ)) (v : ValueTree) (fs : List Frame) → ValueHasAllWords v → FramesHaveNames fs
        → ContentHasNames (value_of file files (through file files k).scope name v fs) }
{}
