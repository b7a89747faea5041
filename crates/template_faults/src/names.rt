// The names of members.

ghost use Rattle.std.specs.Prelude.{◌≡◌, codes};
ghost use Rattle.arm_value.specs.Look.{is_same_folded};

use arm_value::Text;

/// Whether the member has resources.
#[tactic(auto, using(template_parts::proofs::WordLemmas::chars_resources))]
pub fn is_resources(name: &Text) -> bool
    ensures { result ≡ is_same_folded (codes "resources") name.now }
{
    name.equals_ignore_case("resources")
}

/// Whether the member has properties.
#[tactic(auto, using(template_parts::proofs::WordLemmas::chars_properties))]
pub fn is_properties(name: &Text) -> bool
    ensures { result ≡ is_same_folded (codes "properties") name.now }
{
    name.equals_ignore_case("properties")
}

/// Whether the member has a template.
#[tactic(auto, using(crate::proofs::WordLemmas::chars_template))]
pub fn is_template(name: &Text) -> bool
    ensures { result ≡ is_same_folded (codes "template") name.now }
{
    name.equals_ignore_case("template")
}

/// Whether the member has parameters.
#[tactic(auto, using(template_parts::proofs::WordLemmas::chars_parameters))]
pub fn is_parameters(name: &Text) -> bool
    ensures { result ≡ is_same_folded (codes "parameters") name.now }
{
    name.equals_ignore_case("parameters")
}

/// Whether the member has the mode of a nested deployment.
#[tactic(auto, using(template_parts::proofs::WordLemmas::chars_mode))]
pub fn is_mode(name: &Text) -> bool
    ensures { result ≡ is_same_folded (codes "mode") name.now }
{
    name.equals_ignore_case("mode")
}

/// Whether the member has the options of evaluation.
#[tactic(auto, using(crate::proofs::WordLemmas::chars_expressionEvaluationOptions))]
pub fn is_options(name: &Text) -> bool
    ensures { result ≡ is_same_folded (codes "expressionEvaluationOptions") name.now }
{
    name.equals_ignore_case("expressionEvaluationOptions")
}

/// Whether the member has the address of the schema.
#[tactic(auto, using(crate::proofs::WordLemmas::chars_schema))]
pub fn is_schema_name(name: &Text) -> bool
    ensures { result ≡ is_same_folded (codes "$schema") name.now }
{
    name.equals_ignore_case("$schema")
}

/// Whether the member has the version of the content.
#[tactic(auto, using(crate::proofs::WordLemmas::chars_contentVersion))]
pub fn is_content_version(name: &Text) -> bool
    ensures { result ≡ is_same_folded (codes "contentVersion") name.now }
{
    name.equals_ignore_case("contentVersion")
}

/// Whether the member has the version of the language.
#[tactic(auto, using(crate::proofs::WordLemmas::chars_languageVersion))]
pub fn is_language_version(name: &Text) -> bool
    ensures { result ≡ is_same_folded (codes "languageVersion") name.now }
{
    name.equals_ignore_case("languageVersion")
}

/// Whether the member has functions.
#[tactic(auto, using(crate::proofs::WordLemmas::chars_functions))]
pub fn is_functions(name: &Text) -> bool
    ensures { result ≡ is_same_folded (codes "functions") name.now }
{
    name.equals_ignore_case("functions")
}

/// Whether the word is `Incremental`.
#[tactic(auto, using(crate::proofs::WordLemmas::chars_Incremental))]
pub fn is_incremental(word: &Text) -> bool
    ensures { result ≡ is_same_folded (codes "Incremental") word.now }
{
    word.equals_ignore_case("Incremental")
}
