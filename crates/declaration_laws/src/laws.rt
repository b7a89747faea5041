// What holds of the declarations of a file that are emitted. A law has no body: its contract is the law.
ghost use Rattle.std.specs.Prelude.{ℕ, List};
ghost use Rattle.arm_env.specs.declared.env.Looping.{Looping};
ghost use Rattle.bicep_emission.specs.Source.{SourceTree};
ghost use Rattle.bicep_emission.specs.Around as source;
ghost use Rattle.bicep_emission.specs.Around.{Here};
ghost use Rattle.bicep_emission.specs.Declared as meaning;
ghost use Rattle.bicep_emission.specs.Meaning.{bare};
ghost use Rattle.bicep_emission.specs.Answered.{Sides, Answers, IsPlainPlace};
ghost use Rattle.bicep_emission.specs.Emittable.{IsEmittable};
ghost use Rattle.bicep_emission.specs.Emitted.{Frame, emitted};
ghost use Rattle.bicep_emission.specs.Stands.{Stands, FramesStand, surroundings};
ghost use Rattle.emitted_declarations.specs.Declared.{through, whole};
ghost use Rattle.declaration_laws.specs.Sound.{IsSound};
ghost use Rattle.declaration_laws.specs.Standing.{AnswersVariables, EmissionStands};

/// What the declarations of a file become through so many others stands for what they mean through as many: variables,
/// what loops run over, names, conditions and ids, wherever what the template looks at answers the cells of the
/// program.
pub fn declarations_mean_the_same()
    ensures { (x : Sides) (here : Here) (loops : List Looping) → IsPlainPlace here.place → Answers x here
        → AnswersVariables x here → IsSound here.file → (k : ℕ)
        → EmissionStands x here loops (through here.file here.files k) (meaning.around here k) }
{}

/// An expression of a file has the value that it is emitted of has, or none where that has none, with all that its
/// declarations become in their places, and each marked cell is read by both or by neither.
pub fn expressions_of_files_mean_the_same()
    ensures { (x : Sides) (here : Here) (loops : List Looping) → IsPlainPlace here.place → Answers x here
        → AnswersVariables x here → IsSound here.file
        → (e : SourceTree) (fs : List Frame) (gs : List source.Frame) → IsEmittable e
        → FramesStand x (surroundings here loops) fs gs
        → Stands x (surroundings here loops)
        (emitted here.file here.files (whole here.file here.files).scope e fs) (bare here (meaning.whole here) e gs) }
{}
