//! What holds of the names in a template that a value states. A law has no body: its contract is the law.

ghost use Rattle.arm_template.specs.States.{IsStated};
ghost use Rattle.plan_cells.specs.Children.{NamesDiffer};
ghost use Rattle.template_tree.specs.Tree.{TemplateTree};

/// In a template that a value states, and in all templates inside, parameters differ in their names in letters of any
/// case, variables do, and outputs do.
pub fn stated_names_differ()
    ensures { (t : TemplateTree) → IsStated t → NamesDiffer t }
{}
