// What holds of all values that are emitted outside of expressions. A law has no body: its contract is the law.
ghost use Rattle.std.specs.Prelude.{◌≡◌, ◌<◌, ◌^◌, ℕ, true, List, [], ◌∷◌, Some, None};
ghost use Rattle.arm_env.specs.declared.env.Looping.{Looping};
ghost use Rattle.arm_eval.specs.Trees.{tree_value};
ghost use Rattle.bicep_emission.specs.Source.{SourceTree, ValueTree};
ghost use Rattle.bicep_emission.specs.Around as source;
ghost use Rattle.bicep_emission.specs.Around.{Here, run_at};
ghost use Rattle.bicep_emission.specs.Meaning as meaning;
ghost use Rattle.bicep_emission.specs.Answered.{Sides, Answers, IsPlainPlace};
ghost use Rattle.bicep_emission.specs.Emitted.{Frame, Scope, element};
ghost use Rattle.bicep_emission.specs.Stands.{Like, ScopeStands, surroundings};
ghost use Rattle.emitted_trees.specs.EmittedTrees.{tree_of, value_of, copy_index};
ghost use Rattle.emitted_trees.specs.Sound.{IsSound, IsSoundValue, allowed};
ghost use Rattle.emitted_trees.specs.Standing.{FramesStandInside, named_value, output_value};
ghost use Rattle.emitted_trees.specs.Written.{tree_json, IsWithin, ValueIsWithin};

/// A value outside of expressions has in the template the value that it has in the program, or none where that has
/// none, and each marked cell, which is a state or an output of a module, is read by both or by neither: wherever the
/// expressions in it are within the limits, what the template looks at answers the cells of the program, and what
/// declarations and the loops around become stands for what they mean.
pub fn trees_mean_the_same()
    ensures { (x : Sides) (here : Here) → IsPlainPlace here.place → Answers x here
        → (sc : Scope) (a : source.Around) → ((ls : List Looping) → ScopeStands x (surroundings here ls) sc a)
        → (e : SourceTree) (ls : List Looping) (fs : List Frame) (gs : List source.Frame) → IsSound allowed e
        → FramesStandInside x here ls fs gs → IsWithin (tree_of here.file here.files sc e fs)
        → Like x (tree_value (tree_json (tree_of here.file here.files sc e fs)) (surroundings here ls))
        (meaning.value here a e gs) }
{}

/// So has a variable, or an argument of a module, which may be a loop.
pub fn named_values_mean_the_same()
    ensures { (x : Sides) (here : Here) → IsPlainPlace here.place → Answers x here
        → (sc : Scope) (a : source.Around) → ((ls : List Looping) → ScopeStands x (surroundings here ls) sc a)
        → (name : List ℕ) (v : ValueTree) (ls : List Looping) (fs : List Frame) (gs : List source.Frame)
        → IsSoundValue allowed v → FramesStandInside x here ls fs gs
        → ValueIsWithin (value_of here.file here.files sc (Some name) v fs)
        → Like x (named_value name (value_of here.file here.files sc (Some name) v fs) (surroundings here ls))
        (meaning.value_of here a v gs) }
{}

/// So has an output, which may be a loop.
pub fn outputs_mean_the_same()
    ensures { (x : Sides) (here : Here) → IsPlainPlace here.place → Answers x here
        → (sc : Scope) (a : source.Around) → ((ls : List Looping) → ScopeStands x (surroundings here ls) sc a)
        → (v : ValueTree) (ls : List Looping) → IsSoundValue allowed v
        → ValueIsWithin (value_of here.file here.files sc None v [])
        → Like x (output_value (value_of here.file here.files sc None v []) (surroundings here ls))
        (meaning.value_of here a v []) }
{}

/// The item and the index of the loop of a resource or a module stand for those of the program in the instance of that
/// index, also inside loops of values.
pub fn loops_of_resources_stand()
    ensures { (x : Sides) (here : Here) → IsPlainPlace here.place → Answers x here
        → (sc : Scope) (a : source.Around) → ((ls : List Looping) → ScopeStands x (surroundings here ls) sc a)
        → (n : ℕ) (l : Looping) (ls : List Looping) → l.main ≡ true → l.index < 2 ^ 63
        → FramesStandInside x here (l ∷ ls) (element (sc.items n) (copy_index None) ∷ [])
        (run_at (a.items n) l.index ∷ []) }
{}
