//! What holds of templates that are written. A law has no body: its contract is the law.

ghost use Rattle.arm_value.specs.Json.{Json, IsOrderly};
ghost use Rattle.template_meaning.specs.Describes.{Describes};
ghost use Rattle.template_tree.specs.Tree.{TemplateTree};
ghost use Rattle.template_written.specs.Keeps.{Keeps};
ghost use Rattle.template_written.specs.Written.{written};

/// The value that is written of a template which keeps the rules describes this template.
pub fn written_templates_are_described()
    ensures { (t : TemplateTree) → Keeps t → Describes (written t) t }
{}

/// Each template that a value describes keeps the rules. Every `Value` is orderly.
pub fn described_templates_keep_the_rules()
    ensures { (v : Json) (t : TemplateTree) → IsOrderly v → Describes v t → Keeps t }
{}
