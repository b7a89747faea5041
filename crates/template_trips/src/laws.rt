//! What holds of templates that are written, where the value which states them has no fault. A law has no body: its
//! contract is the law.

ghost use Rattle.std.specs.Prelude.{◌≡◌, ◌≤◌, None};
ghost use Rattle.arm_value.specs.Json.{Json, nesting};
ghost use Rattle.template_faults.specs.Faults.{template_fault};
ghost use Rattle.template_meaning.specs.Describes.{Describes};
ghost use Rattle.template_tree.specs.Tree.{TemplateTree};
ghost use Rattle.template_written.specs.Written.{written};

/// What is written of a template has no fault, where a value without a fault describes the template.
pub fn written_templates_have_no_fault()
    ensures { (v : Json) (t : TemplateTree) → template_fault v ≡ None → Describes v t
        → template_fault (written t) ≡ None }
{}

/// What is written of a template nests no deeper than a value without a fault that describes the template.
pub fn written_templates_nest_no_deeper()
    ensures { (v : Json) (t : TemplateTree) → template_fault v ≡ None → Describes v t
        → nesting (written t) ≤ nesting v }
{}
