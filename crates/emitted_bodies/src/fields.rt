//! The fields of a resource that are no members of its body.
ghost use Rattle.std.specs.Prelude.{◌≡◌};
ghost use Rattle.bicep_meaning.specs.Instances.{is_own as is_own_field};
ghost use Rattle.bicep_resolved.specs.View.{property_of};

use bicep_resolved::Property;
use bicep_tree::is_word;

/// Whether a field is `name`, `parent` or `dependsOn`.
#[tactic(auto, using(bicep_resolved::proofs::ViewLemmas::structs))]
pub(crate) fn is_own(field: &Property) -> bool
    ensures { result ≡ is_own_field (property_of field.now).1 }
{
    let name = field.name.as_str();
    if is_word(name, "name") {
        return true;
    }
    if is_word(name, "parent") {
        return true;
    }
    is_word(name, "dependsOn")
}
