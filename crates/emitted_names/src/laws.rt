// What holds of the names in all emitted expressions. A law has no body: its contract is the law.
ghost use Rattle.std.specs.Prelude.{ℕ, List};
ghost use Rattle.arm_expr.specs.Print.{HasNames};
ghost use Rattle.bicep_resolved.specs.Source.{SourceTree};
ghost use Rattle.bicep_meaning.specs.Files.{SourceFile};
ghost use Rattle.bicep_emission.specs.Emitted.{Frame, emitted};
ghost use Rattle.emitted_declarations.specs.Declared.{through};
ghost use Rattle.emitted_names.specs.Words.{HasWords, FileHasWords, FramesHaveNames, OutputsAreNames};

/// Where the names in an expression of a file are names of the grammar of template expressions, and so are those in
/// what the file declares, so are all names in the expression that is emitted of it. This is what `print` requires.
pub fn names_are_of_the_grammar()
    ensures { (file : SourceFile) (files : List SourceFile) → FileHasWords file → OutputsAreNames files → (k : ℕ)
        (e : SourceTree) (fs : List Frame) → HasWords e → FramesHaveNames fs
        → HasNames (emitted file files (through file files k).scope e fs) }
{}

/// So are all names in the whole names and the conditions of resources and modules, and in what loops run over.
pub fn names_of_heads_are_of_the_grammar()
    ensures items { (file : SourceFile) (files : List SourceFile) → FileHasWords file → OutputsAreNames files
        → (k n : ℕ) → HasNames ((through file files k).scope.items n) }
    ensures names { (file : SourceFile) (files : List SourceFile) → FileHasWords file → OutputsAreNames files
        → (k n : ℕ) (fs : List Frame) → FramesHaveNames fs → HasNames ((through file files k).full_name n fs) }
    ensures conditions { (file : SourceFile) (files : List SourceFile) → FileHasWords file → OutputsAreNames files
        → (k n : ℕ) (fs : List Frame) → FramesHaveNames fs → HasNames ((through file files k).condition n fs) }
{}
