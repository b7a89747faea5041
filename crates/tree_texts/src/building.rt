//! Values that are built where they are within the limits of templates.
ghost use Rattle.std.specs.Prelude.{◌≡◌, ◌≤◌, [], IfOk, option_map};
ghost use Rattle.bicep_resolved.specs.View.{source_of, value_of};
ghost use Rattle.measured_trees.specs.Extremes.{Extremes};
ghost use Rattle.measured_trees.specs.Measures.{IsOf};
ghost use Rattle.tree_building.specs.Sight as spec;
ghost use Rattle.tree_texts.specs.Building.{Allows, IsTree, IsValue};

use crate::expressions::Expressions;
use arm_value::{OutOfMemory, Text, Value};
use bicep_resolved::{Source, SourceValue};
use emitted_expressions::Declarations;
use measured_expressions::Sizes;
use measured_trees::{Beyond, Measure, measured_tree, measured_written};
use std::alloc::Global;
use tree_building::{Written, tree, written};

/// Why a value has no JSON in a template.
#[derive(Clone, Copy, PartialEq, Eq, Debug)]
pub enum TreeFault {
    /// It is beyond this limit.
    Beyond(Beyond),
    /// There is no memory.
    Memory,
}

// Whether what was measured may be built.
fn allows(measured: Result<Measure, OutOfMemory>, around: u64) -> Result<(), TreeFault>
    ensures { (x : Extremes) → IfOk measured (IsOf x) → Allows around x result }
{
    match measured {
        Ok(measure) => match measure.beyond(around) {
            Some(limit) => Err(TreeFault::Beyond(limit)),
            None => Ok(()),
        },
        Err(_) => Err(TreeFault::Memory),
    }
}

/// The JSON that a value outside of all loops becomes, with so many arrays and objects around it in its template.
///
/// # Errors
///
/// `Beyond` exactly where it would be beyond a limit, of which it names the first; nothing is built then. `Memory`.
pub fn built_tree<K: Declarations + Sizes>(
    alloc: Global,
    declarations: &K,
    e: &Source,
    around: u64,
) -> Result<Value, TreeFault>
    requires same { K.Sizes.sight declarations.now ≡ K.Declarations.sight declarations.now }
    requires around { 1 ≤ around }
    ensures { IsTree around (spec.tree (K.Declarations.sight declarations.now) (source_of e.now) []) result }
{
    let expressions = Expressions { declarations };
    match allows(measured_tree(alloc, &expressions, e, &[]), around) {
        Ok(()) => match tree(alloc, &expressions, e, &[]) {
            Ok(value) => Ok(value),
            Err(_) => Err(TreeFault::Memory),
        },
        Err(fault) => Err(fault),
    }
}

/// The same of the value of a variable or an output, which may be a for-expression. The loop of an output has no name.
///
/// # Errors
///
/// `Beyond` exactly where it would be beyond a limit, of which it names the first; nothing is built then. `Memory`.
pub fn built_value<K: Declarations + Sizes>(
    alloc: Global,
    declarations: &K,
    name: Option<&Text>,
    value: &SourceValue,
    around: u64,
) -> Result<Written, TreeFault>
    requires same { K.Sizes.sight declarations.now ≡ K.Declarations.sight declarations.now }
    requires around { 1 ≤ around }
    ensures { IsValue around (spec.value (K.Declarations.sight declarations.now)
        (option_map (λ t. t.now) name.entry) (value_of value.now) []) result }
{
    let expressions = Expressions { declarations };
    match allows(
        measured_written(alloc, &expressions, name, value, &[]),
        around,
    ) {
        Ok(()) => match written(alloc, &expressions, name, value, &[]) {
            Ok(value) => Ok(value),
            Err(_) => Err(TreeFault::Memory),
        },
        Err(fault) => Err(fault),
    }
}
