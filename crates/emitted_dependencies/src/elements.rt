//! Elements of `dependsOn`.
ghost use Rattle.std.specs.Prelude.{◌≡◌, [], Some, codes, is_some, option_map, option_and_then};
ghost use Rattle.arm_expr.specs.Tree.{Tree, text as text_tree, call};
ghost use Rattle.arm_ids.specs.Members.{deployment_type};
ghost use Rattle.bicep_declared.specs.Declarations.{BodyTree};
ghost use Rattle.bicep_declared.specs.View.{declared_tree};
ghost use Rattle.bicep_emission.specs.Emitted.{two};
ghost use Rattle.bicep_meaning.specs.Declared.{body_of};
ghost use Rattle.bicep_meaning.specs.Files.{declaration};
ghost use Rattle.bicep_tree.specs.declared.leaf.Literal.TheVariants as l;
ghost use Rattle.declaration_laws.specs.Sound.{IsSound};
ghost use Rattle.emitted_files.specs.Files.{id_by, dependency};
ghost use Rattle.emitted_parts.specs.Built.{Is};
ghost use Rattle.emitted_trees.specs.Templates as t;
ghost use Rattle.source_worlds.specs.Numbers.{or_empty};
ghost use Rattle.filled_tables.specs.Built.{IsTree};
ghost use Rattle.filled_tables.specs.Seen.{file_in, files_in};
ghost use Rattle.filled_tables.specs.Filled.{IsFilled};

use arm_expr::{Expr, escaped};
use arm_ids::DEPLOYMENT_TYPE;
use arm_value::{OutOfMemory, Text, Value};
use bicep_declared::Declared;
use emitted_expressions::Declarations;
use emitted_parts::calls::call_two;
use emitted_parts::literals::{no_value, word};
use filled_tables::Table;
use std::alloc::Global;
use template_parts::Form;
use tree_texts::printed_text;

/// Whether a declaration is that of a loop of resources or modules.
pub(crate) fn is_looped(declared: &Declared) -> bool
    ensures { result
        ≡ is_some (option_and_then (λ (b : BodyTree). b.each) (body_of (declared_tree declared.now))) }
{
    match declared {
        Declared::Resource(_, _, _, body) | Declared::Module(_, body) => body.each.is_some(),
        Declared::Parameter(_, _) | Declared::ParameterWith(_, _, _) | Declared::Variable(_, _) => {
            false
        }
    }
}

// The id of a resource without a loop.
fn resource_id<K: Declarations>(
    alloc: Global,
    declarations: &K,
    number: usize,
) -> Result<Expr, OutOfMemory>
    ensures { Is ((K.sight declarations.now).scope.id number []) result }
{
    declarations.id(alloc, number, &[])
}

// The id of the nested deployment of a module without a loop.
fn deployment_id<K: Declarations>(
    alloc: Global,
    declarations: &K,
    number: usize,
) -> Result<Expr, OutOfMemory>
    ensures { Is (call (codes "resourceId") (two (text_tree deployment_type)
        ((K.sight declarations.now).scope.name number []))) result }
{
    call_two(
        alloc,
        "resourceId",
        word(alloc, DEPLOYMENT_TYPE),
        declarations.name(alloc, number, &[]),
    )
}

// The id of a resource or a module without a loop, by its declaration.
fn id(alloc: Global, table: &Table, number: usize, declared: &Declared) -> Result<Expr, OutOfMemory>
    requires filled { IsFilled table.now }
    requires sound { IsSound (file_in table.now) }
    ensures { Is (id_by (files_in table.now) (file_in table.now) number (Some (declared_tree declared.now))) result }
{
    match declared {
        Declared::Resource(_, _, _, _) => resource_id(alloc, table, number),
        Declared::Module(_, _) => deployment_id(alloc, table, number),
        Declared::Parameter(_, _) | Declared::ParameterWith(_, _, _) | Declared::Variable(_, _) => {
            no_value(alloc)
        }
    }
}

// The text of an expression in brackets.
fn in_brackets(alloc: Global, e: Result<Expr, OutOfMemory>) -> Result<Value, OutOfMemory>
    ensures { (x : Tree) → Is x e → IsTree (t.expression x) result }
{
    Ok(Value::Text(printed_text(alloc, e)?))
}

// The name of a symbol; one that is none has no characters.
fn name(alloc: Global, symbol: Option<&Text>) -> Result<Value, OutOfMemory>
    ensures { IsTree (t.literal (l.Text (or_empty (option_map (λ t. t.now) symbol.entry)))) result }
{
    match symbol {
        Some(symbol) => Ok(Value::Text(escaped(alloc, symbol)?)),
        None => Ok(Value::Text(Text::of(alloc, "")?)),
    }
}

/// The element for a resource or a module: its id, where it has no loop in the first form, else its name.
pub(crate) fn element(
    alloc: Global,
    table: &Table,
    form: Form,
    number: usize,
    declared: &Declared,
) -> Result<Value, OutOfMemory>
    requires filled { IsFilled table.now }
    requires sound { IsSound (file_in table.now) }
    requires declared { declaration (file_in table.now) number ≡ Some (declared_tree declared.now) }
    ensures { IsTree (dependency (files_in table.now) (file_in table.now) form number) result }
{
    match form {
        Form::Two => name(alloc, table.name_of(number)),
        Form::One => {
            if is_looped(declared) {
                name(alloc, table.name_of(number))
            } else {
                in_brackets(alloc, id(alloc, table, number, declared))
            }
        }
    }
}
