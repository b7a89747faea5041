//! What holds of parameters that are made. A law has no body: its contract is the law.
ghost use Rattle.std.specs.Prelude.{◌≡◌, ℕ, Some, is_none};
ghost use Rattle.arm_value.specs.Json.{Json};
ghost use Rattle.template_parts.specs.declared.parameter.Parameter.{Parameter};
ghost use Rattle.template_parameters.specs.Rule.{breach};
ghost use Rattle.bicep_tree.specs.Tree.{FileTree};
ghost use Rattle.bicep_meaning.specs.Files.{SourceFile};
ghost use Rattle.parameter_rules.specs.Files.{IsParameterAt};
ghost use Rattle.parameter_rules.specs.Rules.{HasRules};

/// A value breaks no rule of the parameter of a number exactly where the file accepts it for that number.
pub fn parameters_have_the_rules()
    ensures { (t : FileTree) (f : SourceFile) → HasRules t f → (n : ℕ) (q : Parameter) → IsParameterAt t f n (Some q)
        → (j : Json) → is_none (breach q j) ≡ f.accepts n j }
{}
