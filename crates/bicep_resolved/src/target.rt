// The resource or module that is reached.

ghost use Rattle.std.specs.Prelude.{◌≡◌};
ghost use Rattle.bicep_resolved.specs.Target.{number_of, target_of};
ghost use Rattle.bicep_resolved.specs.View.{reach_of};

use crate::leaf::Target;
use crate::source::Reach;

impl Target {
    /// Its number among the symbols of its file.
    pub fn number(self) -> usize
        ensures { result ≡ number_of self }
    {
        match self {
            Target::Resource(number)
            | Target::ResourceLoop(number)
            | Target::Module(number, _)
            | Target::ModuleLoop(number, _) => number,
        }
    }
}

impl Reach {
    /// The resource or module that is reached, whichever element it is.
    #[tactic(auto, using(crate::proofs::ViewLemmas::enums, crate::proofs::ViewLemmas::structs))]
    pub fn target(&self) -> Target
        ensures { result ≡ target_of (reach_of self.now) }
    {
        match self {
            Reach::Symbol(_, target) => *target,
            Reach::Element(_, target, _) => *target,
        }
    }
}
