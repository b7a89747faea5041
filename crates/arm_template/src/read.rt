// Templates out of values.

ghost use Rattle.std.specs.Prelude.{◌≡◌, Some, None, IfOk, IfErr};
ghost use Rattle.arm_value.specs.View.{json};
ghost use Rattle.arm_template.specs.States.{States, IsStated, IsFaultOf};
ghost use Rattle.template_faults.specs.Faults.{template_fault};
ghost use Rattle.template_tree.specs.View.{template_tree};

use arm_value::Value;
use std::alloc::Global;
use template_build::build;
use template_faults::template_fault;
use template_parts::TemplateFault;
use template_tree::Template;

// The template that the value describes, where it has no fault.
fn described(alloc: Global, value: &Value) -> Result<Template, TemplateFault>
    requires { template_fault (json value.now) ≡ None }
    ensures states { IfOk result (λ t. States (json value.now) (template_tree t)) }
    ensures stated { IfOk result (λ t. IsStated (template_tree t)) }
    ensures fault { IfErr result (IsFaultOf (json value.now)) }
{
    let _depth = value.nesting();
    match build(alloc, value) {
        Ok(template) => Ok(template),
        Err(_) => Err(TemplateFault::OutOfMemory),
    }
}

/// The template that the value states, in form Two where `languageVersion` is `2.0` and else in form One.
///
/// # Errors
///
/// The fault of the value, with its path, exactly where it has one: `Missing`, `WrongForm`, `Limit`, `BadExpression` or
/// `ReferenceInVariable`. Of an object's members the first in byte order of names decides, where a member that is
/// missing counts at its own name; the limits of a template come after all its members. `OutOfMemory` says nothing of
/// the value.
pub fn read_template(alloc: Global, value: &Value) -> Result<Template, TemplateFault>
    ensures states { IfOk result (λ t. States (json value.now) (template_tree t)) }
    ensures stated { IfOk result (λ t. IsStated (template_tree t)) }
    ensures fault { IfErr result (IsFaultOf (json value.now)) }
{
    match template_fault(alloc, value) {
        Ok(None) => described(alloc, value),
        Ok(Some(fault)) => Err(fault),
        Err(_) => Err(TemplateFault::OutOfMemory),
    }
}
