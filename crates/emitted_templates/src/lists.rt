//! The parameters, the variables and the outputs of a template.
ghost use Rattle.std.specs.Prelude.{IfOk};
ghost use Rattle.file_lists.specs.Lists.{HaveMetadata};
ghost use Rattle.file_resources.specs.Fits.{IsReady};
ghost use Rattle.emitted_templates.specs.Templates.{CanBeListed, AreListsOf};

use arm_value::{ListOf, OutOfMemory, Value};
use emitted_parts::lacks;
use file_lists::{outputs, parameters, variables};
use file_resources::Table;
use std::alloc::Global;
use template_parts::{Output, Parameter, Variable};

/// What a template has beside its resources.
#[derive(Drop)]
pub(crate) struct Listed {
    /// Its parameters.
    pub parameters: ListOf<Parameter>,
    /// Its variables.
    pub variables: ListOf<Variable>,
    /// Its outputs.
    pub outputs: ListOf<Output>,
}

/// The parameters, the variables and the outputs of the template of a file. `metadata` is that of its outputs.
pub(crate) fn lists(
    alloc: Global,
    table: &Table,
    rules: &[Option<Parameter>],
    metadata: &[Option<Value>],
) -> Result<Listed, OutOfMemory>
    requires ready { IsReady table.now }
    requires listed { CanBeListed table.now rules.now }
    ensures lists { IfOk result (AreListsOf table.now rules.now) }
    ensures metadata { IfOk result (λ x. HaveMetadata table.now metadata.now x.outputs) }
{
    match parameters(alloc, table, rules) {
        Ok(parameters) => match variables(alloc, table) {
            Ok(variables) => match outputs(alloc, table, metadata) {
                Ok(outputs) => Ok(Listed {
                    parameters,
                    variables,
                    outputs,
                }),
                Err(_) => lacks((parameters, variables)),
            },
            Err(_) => lacks(parameters),
        },
        Err(error) => Err(error),
    }
}
