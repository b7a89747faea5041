//! What holds of the templates that values describe. A law has no body: its contract is the law.

ghost use Rattle.std.specs.Prelude.{◌≡◌};
ghost use Rattle.arm_value.specs.Json.{Json};
ghost use Rattle.template_meaning.specs.Describes.{Describes};
ghost use Rattle.template_tree.specs.Tree.{TemplateTree};

/// No value describes two templates.
pub fn described_once()
    ensures { (v : Json) (t u : TemplateTree) → Describes v t → Describes v u → t ≡ u }
{}
