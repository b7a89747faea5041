//! What holds of the values of files without faults. A law has no body: its contract is the law.
ghost use Rattle.std.specs.Prelude.{◌≡◌, List, None};
ghost use Rattle.emitted_trees.specs.Emittable.{IsEmittable};
ghost use Rattle.bicep_found.specs.Found.{found};
ghost use Rattle.bicep_members.specs.Parts.{repeated_in, repeated_in_value};
ghost use Rattle.bicep_misplaced.specs.declared.spot.Spot.TheVariants as spot;
ghost use Rattle.bicep_misplaced.specs.Expressions.{bad_in};
ghost use Rattle.bicep_misplaced.specs.Files.{bad_in_whole};
ghost use Rattle.bicep_names.specs.Resolve.{resolved, resolved_value};
ghost use Rattle.bicep_names.specs.Scope.{Scope};
ghost use Rattle.bicep_resolved.specs.Source.{SourceTree, ValueTree};
ghost use Rattle.bicep_tree.specs.declared.leaf.LoopNames.{LoopNames};
ghost use Rattle.bicep_tree.specs.Tree as tree;
ghost use Rattle.bicep_tree.specs.Tree.{Tree};
ghost use Rattle.emitted_trees.specs.Sound.{IsSound, IsSoundValue, allowed};
ghost use Rattle.sound_values.specs.FewHoles.{HasFewHoles, ValueHasFew};

/// The value of a field of a resource or a module in which nothing is misplaced and no name is given twice is sound,
/// once its names are found.
pub fn fields_are_sound()
    ensures { (sc : Scope) (e : Tree) (ls : List LoopNames) (x : SourceTree) → bad_in spot.Field e ≡ None
        → repeated_in e ≡ None → resolved sc e ls ≡ found x → HasFewHoles x → IsSound allowed x }
{}

/// So is the value of a variable or an output, which may be a for-expression.
pub fn values_are_sound()
    ensures { (sc : Scope) (v : tree.ValueTree) (ls : List LoopNames) (x : ValueTree) → bad_in_whole v ≡ None
        → repeated_in_value v ≡ None → resolved_value sc v ls ≡ found x → ValueHasFew x → IsSoundValue allowed x }
{}

/// An expression outside of resources and modules, as the default of a parameter, and one inside that is no value of a
/// field, as a condition or what a loop runs over, are sound and can be emitted.
pub fn expressions_are_sound()
    ensures outside { (sc : Scope) (e : Tree) (ls : List LoopNames) (x : SourceTree) → bad_in spot.Outside e ≡ None
        → repeated_in e ≡ None → resolved sc e ls ≡ found x → HasFewHoles x → IsEmittable x × IsSound allowed x }
    ensures inside { (sc : Scope) (e : Tree) (ls : List LoopNames) (x : SourceTree) → bad_in spot.Inside e ≡ None
        → repeated_in e ≡ None → resolved sc e ls ≡ found x → HasFewHoles x → IsEmittable x × IsSound allowed x }
{}
