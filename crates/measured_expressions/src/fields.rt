//! The extents of what names, calls, fields of resources and outputs of modules become.
ghost use Rattle.std.specs.Prelude.{◌≡◌, List, length, option_to_list};
ghost use Rattle.arm_expr.specs.Tree.{text as text_tree};
ghost use Rattle.bicep_resolved.specs.View.{property_of, row_name};
ghost use Rattle.bicep_emission.specs.Files.{symbol_name};
ghost use Rattle.bicep_emission.specs.Emitted.{Frame, parameter_of};
ghost use Rattle.bicep_emission.specs.Spelled.{spelled};
ghost use Rattle.emitted_sizes.specs.Extent.{IsOf};
ghost use Rattle.emitted_expressions.specs.Values as spec;
ghost use Rattle.measured_expressions.specs.Spans.{AreSpans};

use crate::sizes::Sizes;
use crate::spans::{Span, index_of, item_of};
use arm_functions::Row as Function;
use bicep_resolved::{Field, Meaning, Property, Target};
use emitted_sizes::Extent;
use emitted_sizes::calls::call_one;
use emitted_sizes::characters::characters;
use emitted_sizes::literals::{no_value, text};
use emitted_sizes::states::{module_output, properties, state_member};

fn parameter<K: Sizes>(around: &K, number: usize) -> Extent
    ensures { IsOf (parameter_of (symbol_name (K.sight around.now).file number)) result }
{
    match around.symbol(number) {
        Some(name) => call_one(10, text(name)),
        None => no_value(),
    }
}

/// What a name becomes that is no resource and no module.
pub fn named<K: Sizes>(around: &K, meaning: Meaning, spans: &[Span]) -> Extent
    ensures { (fs : List Frame) → AreSpans fs spans.now
        → IsOf (spec.named (K.sight around.now) meaning fs) result }
{
    match meaning {
        Meaning::Parameter(number) => parameter(around, number),
        Meaning::Variable(number) => around.variable(number),
        Meaning::Item(number) => item_of(spans, number),
        Meaning::Index(number) => index_of(spans, number),
    }
}

/// What a field of a resource or a module becomes, with the loop around its declaration.
pub fn field_of<K: Sizes>(around: &K, number: usize, field: &Field, span: Option<Span>) -> Extent
    ensures { (fs : List Frame) → AreSpans fs (option_to_list span)
        → IsOf (spec.field (K.sight around.now) number field.now fs) result }
{
    match field {
        Field::Id => around.id(number, span),
        Field::Name => around.name(number, span),
        Field::Type => around.kind(number),
        Field::ApiVersion => around.version(number),
        Field::Properties => properties(around.id(number, span), around.version(number)),
        Field::Outputs => no_value(),
        Field::Other(name) => {
            let id = around.id(number, span);
            state_member(id, around.version(number), characters(name.as_str()) as u64)
        }
    }
}

/// What an output of a module becomes, with the loop around its declaration.
pub fn output_of<K: Sizes>(around: &K, target: Target, number: usize, span: Option<Span>) -> Extent
    ensures { (fs : List Frame) → AreSpans fs (option_to_list span)
        → IsOf (spec.output (K.sight around.now) target number fs) result }
{
    match around.output(target, number) {
        Some(output) => {
            let name = around.name(target.number(), span);
            module_output(characters(output.as_str()) as u64, name)
        }
        None => no_value(),
    }
}

/// How many characters the name of a function has.
pub fn name_length(function: &Function) -> u64
    ensures { length (spelled (row_name function.now)) ≡ result }
{
    characters(function.name) as u64
}

/// The name of a member.
#[tactic(auto, using(bicep_resolved::proofs::ViewLemmas::structs))]
pub fn name_of(property: &Property) -> Extent
    ensures { IsOf (text_tree (property_of property.now).1) result }
{
    text(&property.name)
}
