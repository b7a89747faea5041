//! What holds of the files of programs that are read. A law has no body: its contract is the law.
ghost use Rattle.std.specs.Prelude.{◌≡◌, ℕ, List, Some, map, slice_get};
ghost use Rattle.std.specs.List.{AllByRecursion};
ghost use Rattle.arm_expr.specs.Grammar.{IsName};
ghost use Rattle.bicep_tree.specs.Tree.{FileTree};
ghost use Rattle.bicep_program.specs.Program.{ProgramFile};
ghost use Rattle.bicep_program.specs.Sources.{Folder, IsReadAs};
ghost use Rattle.resolved_program.specs.Programs.{ResolvedFileTree, IsResolved};
ghost use Rattle.bicep_meaning.specs.Files.{SourceFile, symbol_name};
ghost use Rattle.emitted_names.specs.Words.{FileHasWords, OutputsAreNames};
ghost use Rattle.sound_files.specs.Few.{FileHasFew};
ghost use Rattle.sound_files.specs.Files.{IsFileOf};
ghost use Rattle.tree_names.specs.Words.{FileHasAllWords};
ghost use Rattle.emitted_numbers.specs.Wholes.{FileHasWholes, FileHasAllWholes, HasFewParts};
ghost use Rattle.file_words.specs.Words.{FileIsWorded};

/// A file that is read has names of template expressions, numbers of 64 bits, and texts with at most 2^64 holes.
pub fn read_files_are_worded()
    ensures { (folder : Folder) (name : List ℕ) (file : FileTree) → IsReadAs folder name file → FileIsWorded file }
{}

/// The texts of each file of a program, whose files are read as `load` of `bicep_program` says, have few holes once
/// its names are found.
pub fn texts_have_few_holes()
    ensures { (folder : Folder) (files : List ProgramFile)
        → AllByRecursion (λ p. IsReadAs folder p.name p.tree) files → (rs : List ResolvedFileTree)
        → IsResolved files rs → (k : ℕ) (r : ResolvedFileTree) → slice_get rs k ≡ Some r → FileHasFew r.declared }
{}

/// The names in what such a file declares are names of template expressions.
pub fn names_are_words()
    ensures { (folder : Folder) (files : List ProgramFile)
        → AllByRecursion (λ p. IsReadAs folder p.name p.tree) files → (rs : List ResolvedFileTree)
        → IsResolved files rs → (k : ℕ) (r : ResolvedFileTree) → slice_get rs k ≡ Some r
        → (f : SourceFile) → IsFileOf r f → FileHasWords f }
{}

/// The numbers in what such a file declares are of 64 bits.
pub fn numbers_are_whole()
    ensures { (folder : Folder) (files : List ProgramFile)
        → AllByRecursion (λ p. IsReadAs folder p.name p.tree) files → (rs : List ResolvedFileTree)
        → IsResolved files rs → (k : ℕ) (r : ResolvedFileTree) → slice_get rs k ≡ Some r
        → (f : SourceFile) → IsFileOf r f → FileHasWholes f }
{}

/// So are the numbers in its values.
pub fn numbers_of_values_are_whole()
    ensures { (folder : Folder) (files : List ProgramFile)
        → AllByRecursion (λ p. IsReadAs folder p.name p.tree) files → (rs : List ResolvedFileTree)
        → IsResolved files rs → (k : ℕ) (r : ResolvedFileTree) → slice_get rs k ≡ Some r
        → FileHasAllWholes r.declared }
{}

/// The names of its resources have fewer than 2^63 parts.
pub fn names_have_few_parts()
    ensures { (folder : Folder) (files : List ProgramFile)
        → AllByRecursion (λ p. IsReadAs folder p.name p.tree) files → (rs : List ResolvedFileTree)
        → IsResolved files rs → (k : ℕ) (r : ResolvedFileTree) → slice_get rs k ≡ Some r
        → (f : SourceFile) → IsFileOf r f → HasFewParts f }
{}

/// The names in its values are names of template expressions, also inside for-expressions.
pub fn names_of_values_are_words()
    ensures { (folder : Folder) (files : List ProgramFile)
        → AllByRecursion (λ p. IsReadAs folder p.name p.tree) files → (rs : List ResolvedFileTree)
        → IsResolved files rs → (k : ℕ) (r : ResolvedFileTree) → slice_get rs k ≡ Some r
        → FileHasAllWords r.declared }
{}

/// So are the names of its parameters, variables, resources and modules.
pub fn symbols_are_words()
    ensures { (folder : Folder) (files : List ProgramFile)
        → AllByRecursion (λ p. IsReadAs folder p.name p.tree) files → (rs : List ResolvedFileTree)
        → IsResolved files rs → (k : ℕ) (r : ResolvedFileTree) → slice_get rs k ≡ Some r
        → (f : SourceFile) → IsFileOf r f → (n : ℕ) (x : List ℕ) → symbol_name f n ≡ Some x → IsName x }
{}

/// So are the names of the outputs of all files.
pub fn outputs_are_words()
    ensures { (folder : Folder) (files : List ProgramFile)
        → AllByRecursion (λ p. IsReadAs folder p.name p.tree) files → (rs : List ResolvedFileTree)
        → IsResolved files rs → (fs : List SourceFile) → map (λ f. f.outputs) fs ≡ map (λ r. r.outputs) rs
        → OutputsAreNames fs }
{}
