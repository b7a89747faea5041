// What holds of all expressions that are emitted. A law has no body: its contract is the law.
ghost use Rattle.std.specs.Prelude.{List};
ghost use Rattle.arm_ids.specs.Segments.{has_slash};
ghost use Rattle.expression_values.specs.Looping.{Looping};
ghost use Rattle.expression_values.specs.Look.{Surroundings};
ghost use Rattle.bicep_resolved.specs.Source.{SourceTree};
ghost use Rattle.bicep_meaning.specs.Around as source;
ghost use Rattle.bicep_meaning.specs.Around.{Here};
ghost use Rattle.bicep_meaning.specs.Meaning.{bare};
ghost use Rattle.bicep_emission.specs.Answered.{Sides, Answers, IsPlainPlace};
ghost use Rattle.bicep_emission.specs.Emittable.{IsEmittable};
ghost use Rattle.bicep_emission.specs.Emitted.{Frame, Scope, emitted};
ghost use Rattle.bicep_emission.specs.Stands.{Stands, FramesStand, ScopeStands, surroundings};

/// An expression that is emitted has the value that it is emitted of has, or none where that has none, and each marked
/// cell, which is a state or an output of a module, is read by both or by neither: wherever what the template looks at
/// answers the cells of the program, and what declarations become stands for what they mean.
pub fn expressions_mean_the_same()
    ensures { (x : Sides) (here : Here) (loops : List Looping) → IsPlainPlace here.place → Answers x here
        → (sc : Scope) (a : source.Around) → ScopeStands x (surroundings here loops) sc a
        → (e : SourceTree) (fs : List Frame) (gs : List source.Frame) → IsEmittable e
        → FramesStand x (surroundings here loops) fs gs
        → Stands x (surroundings here loops) (emitted here.file here.files sc e fs) (bare here a e gs) }
{}
