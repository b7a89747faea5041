//! What holds of the templates that values state. A law has no body: its contract is the law.

ghost use Rattle.std.specs.Prelude.{◌≡◌, ◌≤◌, Some};
ghost use Rattle.arm_template.specs.States.{States, IsStated};
ghost use Rattle.arm_value.specs.Json.{Json, nesting};
ghost use Rattle.template_faults.specs.Faults.{template_fault};
ghost use Rattle.template_parts.specs.declared.fault.TemplateFault.TheVariants.{OutOfMemory};
ghost use Rattle.template_tree.specs.Tree.{TemplateTree};
ghost use Rattle.template_written.specs.Written.{written};

/// No value states two templates.
pub fn stated_once()
    ensures { (v : Json) (t u : TemplateTree) → States v t → States v u → t ≡ u }
{}

/// What is written of a template that some value states, states this template, and nests at most 120.
pub fn written_values_state()
    ensures states { (t : TemplateTree) → IsStated t → States (written t) t }
    ensures nests { (t : TemplateTree) → IsStated t → nesting (written t) ≤ 120 }
{}

/// Whatever template is read of what was written of a template, it is the same.
pub fn written_values_are_read_back()
    ensures { (t u : TemplateTree) → IsStated t → States (written t) u → u ≡ t }
{}

/// The fault of a value is never `OutOfMemory`.
pub fn faults_are_of_values()
    ensures { (v : Json) → template_fault v ≡ Some OutOfMemory → ⊥ }
{}
