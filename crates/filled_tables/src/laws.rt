//! What holds of values with a table of all declarations. A law has no body: its contract is the law.
ghost use Rattle.std.specs.Prelude.{◌≡◌, ℕ, List, Option};
ghost use Rattle.bicep_resolved.specs.Source.{SourceTree, PropertyTrees, ValueTree};
ghost use Rattle.tree_building.specs.Emitted.{Frame};
ghost use Rattle.emission_laws.specs.Sound.{IsSound};
ghost use Rattle.emission_laws.specs.Holes.{IsRun};
ghost use Rattle.declared_table.specs.Sight.{Sight};
ghost use Rattle.tree_building.specs.Sight.{tree, members, value};
ghost use Rattle.declared_table.specs.Seen.{Shape, sight, file_in, whole_in};
ghost use Rattle.filled_tables.specs.Filled.{IsFilled, emission_sight};
ghost use Rattle.filled_tables.specs.Same.{SameExpressions};

/// Where each expression becomes the same, each value becomes the same outside of expressions.
pub fn trees_become_the_same()
    ensures { (a b : Sight) → SameExpressions a b → (e : SourceTree) (fs : List Frame) → tree a e fs ≡ tree b e fs }
{}

/// So do the members of an object.
pub fn members_become_the_same()
    ensures { (a b : Sight) → SameExpressions a b → (ps : PropertyTrees) (fs : List Frame)
        → members a ps fs ≡ members b ps fs }
{}

/// So does the value of a member, a variable or an output, which may be a for-expression.
pub fn values_become_the_same()
    ensures { (a b : Sight) → SameExpressions a b → (name : Option (List ℕ)) (v : ValueTree) (fs : List Frame)
        → value a name v fs ≡ value b name v fs }
{}

/// With a table of all declarations of a sound file, each expression becomes what it becomes with what the declarations
/// become, though the table makes names and ids of those with holes.
pub fn filled_tables_give_expressions()
    ensures { (s : Shape) → IsFilled s → IsSound (file_in s) → SameExpressions (sight s) (emission_sight s) }
{}

/// So does what a loop of resources or modules runs over.
pub fn filled_tables_give_items()
    ensures { (s : Shape) → IsFilled s → (n : ℕ) → (sight s).scope.items n ≡ (whole_in s).scope.items n }
{}

/// So do the name of a resource or a module and the id of a resource, with the loop around the declaration or without
/// one.
pub fn filled_tables_give_names_and_ids()
    ensures names { (s : Shape) → IsFilled s → IsSound (file_in s) → (n : ℕ) (fs : List Frame) → IsRun fs
        → (sight s).scope.name n fs ≡ (whole_in s).scope.name n fs }
    ensures ids { (s : Shape) → IsFilled s → IsSound (file_in s) → (n : ℕ) (fs : List Frame) → IsRun fs
        → (sight s).scope.id n fs ≡ (whole_in s).scope.id n fs }
{}
