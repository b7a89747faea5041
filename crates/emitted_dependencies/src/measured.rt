//! How much of the limits of templates the elements of `dependsOn` take.
ghost use Rattle.std.specs.Prelude.{◌≡◌, [], ℕ, Some, codes};
ghost use Rattle.arm_expr.specs.Tree.{text as text_tree, call};
ghost use Rattle.arm_ids.specs.Members.{deployment_type};
ghost use Rattle.bicep_declared.specs.View.{declared_tree};
ghost use Rattle.bicep_dependencies.specs.Dependencies.{has, depends_on as mentions};
ghost use Rattle.bicep_emission.specs.Emitted.{two};
ghost use Rattle.bicep_meaning.specs.Files.{declaration};
ghost use Rattle.declaration_laws.specs.Sound.{IsSound};
ghost use Rattle.emitted_files.specs.Files.{id_by};
ghost use Rattle.emitted_sizes.specs.Extent.{IsOf as IsExtent};
ghost use Rattle.measured_trees.specs.Measures.{IsOf};
ghost use Rattle.emitted_files.specs.Dependencies.{kinds_of, dependencies};
ghost use Rattle.filled_tables.specs.Seen.{file_in, files_in};
ghost use Rattle.filled_tables.specs.Filled.{IsFilled};
ghost use Rattle.emitted_dependencies.specs.Elements.{element_extremes, elements_extremes, put_extremes};

use crate::chosen::put_declaration;
use crate::elements::is_looped;
use arm_ids::DEPLOYMENT_TYPE;
use bicep_declared::Declared;
use emitted_sizes::Extent;
use emitted_sizes::calls::call_two;
use emitted_sizes::literals::{no_value, word};
use filled_tables::Table;
use measured_expressions::Sizes;
use measured_trees::{Measure, of_expression};
use std::collections::BTreeSet;
use template_parts::Form;

// Of the id of a resource without a loop.
fn resource_extent<K: Sizes>(sizes: &K, number: usize) -> Extent
    ensures { IsExtent ((K.sight sizes.now).scope.id number []) result }
{
    sizes.id(number, None)
}

// Of the id of the nested deployment of a module without a loop.
fn deployment_extent<K: Sizes>(sizes: &K, number: usize) -> Extent
    ensures { IsExtent (call (codes "resourceId") (two (text_tree deployment_type)
        ((K.sight sizes.now).scope.name number []))) result }
{
    call_two(10, word(DEPLOYMENT_TYPE), sizes.name(number, None))
}

// Of the id of a resource or a module without a loop, by its declaration.
fn extent(table: &Table, number: usize, declared: &Declared) -> Extent
    requires filled { IsFilled table.now }
    requires sound { IsSound (file_in table.now) }
    ensures { IsExtent (id_by (files_in table.now) (file_in table.now) number (Some (declared_tree declared.now)))
        result }
{
    match declared {
        Declared::Resource(_, _, _, _) => resource_extent(table, number),
        Declared::Module(_, _) => deployment_extent(table, number),
        Declared::Parameter(_, _) | Declared::ParameterWith(_, _, _) | Declared::Variable(_, _) => {
            no_value()
        }
    }
}

// What the element for a resource or a module takes.
fn measured_element(table: &Table, form: Form, number: usize, declared: &Declared) -> Measure
    requires filled { IsFilled table.now }
    requires sound { IsSound (file_in table.now) }
    requires declared { declaration (file_in table.now) number ≡ Some (declared_tree declared.now) }
    ensures { IsOf (element_extremes (files_in table.now) (file_in table.now) form number) result }
{
    match form {
        Form::Two => Measure::nothing(),
        Form::One => {
            if is_looped(declared) {
                Measure::nothing()
            } else {
                of_expression(extent(table, number, declared))
            }
        }
    }
}

// What the element for a number takes in its array, where it is of a resource that is put, or of a module.
fn measured_put(table: &Table, form: Form, number: usize) -> Measure
    requires filled { IsFilled table.now }
    requires sound { IsSound (file_in table.now) }
    ensures { IsOf (put_extremes (files_in table.now) (file_in table.now) form number) result }
{
    match put_declaration(table, number) {
        Some(declared) => measured_element(table, form, number, declared).enclosed(),
        None => Measure::nothing(),
    }
}

/// How much of the limits of templates the array `dependsOn` of a resource or a module takes, by the numbers of the
/// resources and modules that its declaration mentions, directly or through variables. It is left out where it has no
/// element.
pub fn measured_dependencies(table: &Table, form: Form, mentioned: &BTreeSet<usize>) -> Measure
    requires filled { IsFilled table.now }
    requires sound { IsSound (file_in table.now) }
    ensures { (k : ℕ) → ((n : ℕ) → has mentioned.now.keys n
        ≡ mentions (kinds_of (file_in table.now)) (file_in table.now).declared.declarations k n)
        → IsOf (elements_extremes (files_in table.now) (file_in table.now) form
        (dependencies (file_in table.now) k)) result }
{
    let mut all = Measure::nothing();
    for number in mentioned {
        all = all.with(measured_put(table, form, *number));
    }
    all.ended()
}
