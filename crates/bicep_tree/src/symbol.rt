// The names that declarations and members give.

ghost use Rattle.std.specs.Prelude.{◌≡◌, option_map};
ghost use Rattle.bicep_tree.specs.Symbol.{label_text, symbol};
ghost use Rattle.bicep_tree.specs.View.{declaration_of};

use crate::declaration::Declaration;
use crate::leaf::Label;
use arm_value::Text;

impl Label {
    /// The characters of the member's name, without quotes and with escapes replaced.
    pub fn text(&self) -> &Text
        ensures { result.now ≡ label_text self.now }
    {
        match self {
            Label::Name(name) => &name.text,
            Label::Quoted(quoted) => &quoted.text,
        }
    }
}

impl Declaration {
    /// The characters of the name that the declaration gives. `targetScope` gives none.
    #[tactic(auto, using(crate::proofs::ViewLemmas::structs))]
    pub fn symbol(&self) -> Option<&Text>
        ensures { option_map (λ text. text.now) result ≡ symbol (declaration_of self.now) }
    {
        match self {
            Declaration::Metadata(_, name, _) => Some(&name.text),
            Declaration::TargetScope(_, _) => None,
            Declaration::Param(_, name, _) => Some(&name.text),
            Declaration::ParamWith(_, name, _, _) => Some(&name.text),
            Declaration::Var(_, name, _) => Some(&name.text),
            Declaration::Output(_, name, _, _) => Some(&name.text),
            Declaration::Resource(resource) => Some(&resource.name.text),
            Declaration::Module(_, name, _, _) => Some(&name.text),
        }
    }
}
