// Variables: which have an entry, and which are misplaced.
ghost use Rattle.std.specs.Prelude.{◌≡◌, List, map, option_map, slice_get};
ghost use Rattle.bicep_resolved.specs.View as view;
ghost use Rattle.bicep_names.specs.declared.kind.Kind.{Kind};
ghost use Rattle.bicep_declared.specs.View.{declared_tree};
ghost use Rattle.bicep_mentions.specs.Entries as spec;
ghost use Rattle.bicep_mentions.specs.Agreement.{IsKnown};
ghost use Rattle.bicep_states.specs.View.{known};

use crate::table::StateTable;
use bicep_declared::Declared;
use bicep_resolved::SourceValue;

fn is_variable(declaration: Option<&Declared>) -> bool
    ensures { result ≡ spec.is_variable (option_map (λ d. declared_tree d.now) declaration.entry) }
{
    match declaration {
        Some(Declared::Variable(_, _)) => true,
        Some(
            Declared::Parameter(_, _)
            | Declared::ParameterWith(_, _, _)
            | Declared::Resource(_, _, _, _)
            | Declared::Module(_, _),
        )
        | None => false,
    }
}

/// Whether the symbol of that number is a variable that has an entry: one that reads no state.
pub fn has_entry(table: &StateTable, declarations: &[Declared], number: usize) -> bool
    ensures { (kinds : List Kind)
        → IsKnown (known table.now) (spec.state_reads kinds (map declared_tree declarations.now))
        → result ≡ spec.has_entry kinds (map declared_tree declarations.now) number }
{
    let is_variable = is_variable(declarations.get(number));
    is_variable && !table.own_reads(number)
}

// The offset of a value, where it is a for-expression.
#[tactic(auto, using(bicep_resolved::proofs::ViewLemmas::enums, bicep_resolved::proofs::ViewLemmas::structs))]
fn each_offset(value: &SourceValue) -> Option<usize>
    ensures { result ≡ spec.each_offset (view.value_of value.now) }
{
    match value {
        SourceValue::Plain(_) => None,
        SourceValue::Each(each, _) => Some(each.at),
    }
}

fn variable_each(declaration: &Declared) -> Option<usize>
    ensures { result ≡ spec.variable_each (declared_tree declaration.now) }
{
    match declaration {
        Declared::Variable(_, value) => each_offset(value),
        Declared::Parameter(_, _)
        | Declared::ParameterWith(_, _, _)
        | Declared::Resource(_, _, _, _)
        | Declared::Module(_, _) => None,
    }
}

// The offset of a variable that reads state and is a for-expression.
fn misplaced(table: &StateTable, number: usize, declaration: &Declared) -> Option<usize>
    ensures { result ≡ spec.misplaced_one (known table.now).own number (declared_tree declaration.now) }
{
    if table.own_reads(number) {
        variable_each(declaration)
    } else {
        None
    }
}

fn first_misplaced(table: &StateTable, declarations: &[Declared]) -> Option<usize>
    ensures { result ≡ spec.misplaced_from (known table.now).own 0 (map declared_tree declarations.now) }
{
    for (number, declaration) in declarations.iter().enumerate() {
        if let Some(at) = misplaced(table, number, declaration) {
            return Some(at);
        }
    }
    None
}

/// The offset of the first variable that reads state and is a for-expression, which is misplaced.
pub fn misplaced_variable(table: &StateTable, declarations: &[Declared]) -> Option<usize>
    ensures { (kinds : List Kind)
        → IsKnown (known table.now) (spec.state_reads kinds (map declared_tree declarations.now))
        → result ≡ spec.misplaced_variable kinds (map declared_tree declarations.now) }
{
    first_misplaced(table, declarations)
}
