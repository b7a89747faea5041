// Templates as values.

ghost use Rattle.std.specs.Prelude.{◌≡◌, IfOk};
ghost use Rattle.arm_value.specs.View.{json};
ghost use Rattle.arm_template.specs.States.{States, IsStated};
ghost use Rattle.template_tree.specs.View.{template_tree};
ghost use Rattle.template_written.specs.Written.{written};

use arm_value::{OutOfMemory, Value};
use std::alloc::Global;
use template_tree::Template;

/// The value that states the template: each member under its canonical name, and what may be left out is left out.
/// `read_template` of it returns the template again. Some value has to state the template, as one does of each that
/// `read_template` returns.
///
/// # Errors
///
/// Out of memory.
pub fn write_template(alloc: Global, template: &Template) -> Result<Value, OutOfMemory>
    requires stated { IsStated (template_tree template.now) }
    ensures written { IfOk result (λ v. json v ≡ written (template_tree template.now)) }
    ensures states { IfOk result (λ v. States (json v) (template_tree template.now)) }
{
    template_writer::write_template(alloc, template)
}
