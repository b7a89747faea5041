//! What declares resources and modules in a template.
ghost use Rattle.std.specs.Prelude.{◌≡◌, false, IfOk};
ghost use Rattle.arm_value.specs.View.{json};
ghost use Rattle.bicep_declared.specs.View.{body_tree};
ghost use Rattle.deploy_cells.specs.Puts.{Kind};
ghost use Rattle.emitted_expressions.specs.Sight.{frames_of};
ghost use Rattle.emitted_values.specs.Values.{plain_or_expression};
ghost use Rattle.emitted_values.specs.Written.{tree_json};
ghost use Rattle.emitted_values.specs.Seen.{whole_in, full_name_in, condition_in};
ghost use Rattle.emitted_values.specs.Filled.{IsFilled};
ghost use Rattle.emitted_resources.specs.Heads.{whole_name, whole_condition, IsConditionText};
ghost use Rattle.emitted_resources.specs.Resources.{IsHead};

use crate::loops::copy;
use crate::names::{condition, name};
use crate::needs::Needs;
use crate::turns::turns_around;
use arm_value::{OutOfMemory, Text, Value};
use bicep_declared::DeclaredBody;
use emitted_expressions::{Turn, lacks, letting_go};
use emitted_values::Table;
use std::alloc::Global;
use template_parts::{Declaration, ResourceCopy};

// The name and the condition of a resource or a module.
fn named(
    alloc: Global,
    table: &Table,
    number: usize,
    turns: &[Turn],
) -> Result<(Value, Option<Value>), OutOfMemory>
    ensures { IfOk result (λ x. (json x.0
        ≡ tree_json (plain_or_expression (full_name_in table.now number (frames_of turns.now))))
        × IsConditionText (condition_in table.now number (frames_of turns.now)) x.1) }
{
    let name = name(alloc, table, number, turns)?;
    match condition(alloc, table, number, turns) {
        Ok(condition) => Ok((name, condition)),
        Err(_) => lacks(name),
    }
}

// The name and the condition of a resource or a module inside the loop around it, where there is one.
fn named_in_loop(
    alloc: Global,
    table: &Table,
    number: usize,
    body: &DeclaredBody,
) -> Result<(Value, Option<Value>), OutOfMemory>
    requires { IsFilled table.now }
    ensures { IfOk result (λ x. (json x.0
        ≡ tree_json (plain_or_expression (whole_name (whole_in table.now) number (body_tree body.now).each)))
        × IsConditionText (whole_condition (whole_in table.now) number (body_tree body.now).each) x.1) }
{
    match turns_around(alloc, table, number, body) {
        Ok(turns) => letting_go(named(alloc, table, number, turns.as_slice()), turns),
        Err(error) => Err(error),
    }
}

// The declaration of these parts.
fn joined(
    kind: (Text, Text),
    names: (Value, Option<Value>),
    copy: Option<ResourceCopy>,
    needs: Needs,
) -> Declaration
    ensures { result ≡ record {
      symbol = needs.symbol;
      existing = false;
      kind = kind.0;
      api_version = kind.1;
      name = names.0;
      condition = names.1;
      depends_on = needs.depends_on;
      copy = copy;
      metadata = needs.metadata;
    } }
{
    Declaration {
        symbol: needs.symbol,
        existing: false,
        kind: kind.0,
        api_version: kind.1,
        name: names.0,
        condition: names.1,
        depends_on: needs.depends_on,
        copy,
        metadata: needs.metadata,
    }
}

/// What declares the resource or the module of a number, of this type and version. The symbol is its symbolic name in
/// the file.
///
/// # Errors
///
/// `OutOfMemory`, also where its name, its condition or its count is beyond the limits of expressions.
pub fn head(
    alloc: Global,
    table: &Table,
    number: usize,
    symbol: &Text,
    body: &DeclaredBody,
    kind: (Text, Text),
    needs: Needs,
) -> Result<Declaration, OutOfMemory>
    requires { IsFilled table.now }
    ensures { (k : Kind) → k.type ≡ kind.0 → k.api ≡ kind.1
        → IfOk result (IsHead (whole_in table.now) number (body_tree body.now).each k symbol.now needs) }
{
    let copy = copy(alloc, table, number, symbol, body, needs.batches);
    match named_in_loop(alloc, table, number, body) {
        Ok(names) => match copy {
            Ok(copy) => Ok(joined(kind, names, copy, needs)),
            Err(_) => lacks((kind, names, needs)),
        },
        Err(_) => lacks((kind, copy, needs)),
    }
}
