//! What holds of the symbols of every file and of its declarations.
ghost use Rattle.std.specs.Prelude.{◌≡◌, ◌<◌, ℕ, List, length, map};
ghost use Rattle.std.specs.List.{AllByRecursion};
ghost use Rattle.bicep_tree.specs.Tree.{FileTree};
ghost use Rattle.bicep_found.specs.Found.{found};
ghost use Rattle.bicep_names.specs.Scope.{Scope, OutputNames, scope};
ghost use Rattle.bicep_symbols.specs.Entries.{symbols_of, looked_up};
ghost use Rattle.bicep_program.specs.Graphs.{AreWithin};
ghost use Rattle.bicep_circles.specs.Declarations.{DeclaredFileTree};
ghost use Rattle.bicep_circles.specs.Declare.{declared_file};
ghost use Rattle.bicep_circles.specs.Mentions.{value_mentions};
ghost use Rattle.bicep_circles.specs.Links.{links};
ghost use Rattle.bicep_numbers.specs.Sorts.{symbol_sort, declared_sort};

/// The declaration of a symbol is at its number: symbols and declarations are as many, and those of one number have
/// their names at one offset and are of one sort.
#[tactic(auto, using(crate::proofs::FileLemmas::file_sorts))]
pub fn declarations_are_those_of_symbols()
    ensures { (modules : List ℕ) (f : FileTree) (sc : Scope) (t : DeclaredFileTree) → declared_file sc f ≡ found t
        → map symbol_sort (symbols_of modules f) ≡ map declared_sort t.declarations }
{}

/// Where the names of a file are found by its own symbols, each number that a declaration or an output mentions is that
/// of a symbol.
pub fn numbers_are_those_of_symbols()
    ensures declarations { (modules : List ℕ) (f : FileTree) (os : List OutputNames) (t : DeclaredFileTree)
        → declared_file (scope (looked_up (symbols_of modules f)) os) f ≡ found t
        → AreWithin (length (symbols_of modules f)) (links (map (λ s. s.2) (symbols_of modules f)) t.declarations) }
    ensures outputs { (modules : List ℕ) (f : FileTree) (os : List OutputNames) (t : DeclaredFileTree)
        → declared_file (scope (looked_up (symbols_of modules f)) os) f ≡ found t
        → AllByRecursion (λ o. AllByRecursion (λ n. n < length (symbols_of modules f)) (value_mentions o.value))
        t.outputs }
{}
