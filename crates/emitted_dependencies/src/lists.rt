//! All elements of `dependsOn`.
ghost use Rattle.std.specs.Prelude.{◌≡◌, ◌++◌, ◌∷◌, [], ℕ, Some, IfOk};
ghost use Rattle.bicep_declared.specs.View.{declared_tree};
ghost use Rattle.bicep_dependencies.specs.Dependencies.{has, depends_on as mentions};
ghost use Rattle.bicep_meaning.specs.Files.{declaration};
ghost use Rattle.declaration_laws.specs.Sound.{IsSound};
ghost use Rattle.emitted_files.specs.Dependencies.{kinds_of, dependencies};
ghost use Rattle.filled_tables.specs.Seen.{file_in, files_in};
ghost use Rattle.filled_tables.specs.Filled.{IsFilled};
ghost use Rattle.emitted_dependencies.specs.Elements.{element_json, elements as all_elements, put_element};

use crate::chosen::put_declaration;
use crate::elements::element;
use arm_value::{Items, OutOfMemory};
use bicep_declared::Declared;
use emitted_parts::lacks;
use filled_tables::Table;
use std::alloc::Global;
use std::collections::BTreeSet;
use template_parts::Form;

// The elements so far, and that of a declaration.
fn with_element(
    alloc: Global,
    table: &Table,
    form: Form,
    number: usize,
    declared: &Declared,
    elements: Items,
) -> Result<Items, OutOfMemory>
    requires filled { IsFilled table.now }
    requires sound { IsSound (file_in table.now) }
    requires declared { declaration (file_in table.now) number ≡ Some (declared_tree declared.now) }
    ensures { IfOk result (λ js. js
        ≡ elements ++ element_json (files_in table.now) (file_in table.now) form number ∷ []) }
{
    let mut elements = elements;
    match element(alloc, table, form, number, declared) {
        Ok(value) => match elements.push(alloc, value) {
            Ok(()) => Ok(elements),
            Err(_) => lacks(elements),
        },
        Err(_) => lacks(elements),
    }
}

// The elements so far, and that of a number, where it is of a resource that is put, or of a module.
fn with_put(
    alloc: Global,
    table: &Table,
    form: Form,
    number: usize,
    elements: Items,
) -> Result<Items, OutOfMemory>
    requires filled { IsFilled table.now }
    requires sound { IsSound (file_in table.now) }
    ensures { IfOk result (λ js. js
        ≡ elements ++ put_element (files_in table.now) (file_in table.now) form number) }
{
    match put_declaration(table, number) {
        Some(declared) => with_element(alloc, table, form, number, declared, elements),
        None => Ok(elements),
    }
}

/// The elements of `dependsOn` of a resource or a module, by the numbers of the resources and modules that its
/// declaration mentions, directly or through variables, with a table of all declarations of the file. There is one for
/// each that is put, in the order of the source.
///
/// # Errors
///
/// `OutOfMemory`, also where an id is beyond the limits of expressions.
pub fn depends_on(
    alloc: Global,
    table: &Table,
    form: Form,
    mentioned: &BTreeSet<usize>,
) -> Result<Items, OutOfMemory>
    requires filled { IsFilled table.now }
    requires sound { IsSound (file_in table.now) }
    ensures { (k : ℕ) → ((n : ℕ) → has mentioned.now.keys n
        ≡ mentions (kinds_of (file_in table.now)) (file_in table.now).declared.declarations k n)
        → IfOk result (λ js. js ≡ all_elements (files_in table.now) (file_in table.now) form
        (dependencies (file_in table.now) k)) }
{
    let mut elements = Items::new();
    for number in mentioned {
        match with_put(alloc, table, form, *number, elements) {
            Ok(more) => elements = more,
            Err(error) => return Err(error),
        }
    }
    Ok(elements)
}
