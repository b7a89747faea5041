// The types of the symbols of a file, along an order in which each comes after those that its declaration mentions.
ghost use Rattle.std.specs.Prelude.{◌≡◌, ℕ, List, length, map, slice_get, IfOk, OnOk, drop};
ghost use Rattle.bicep_names.specs.declared.kind.Kind.{Kind};
ghost use Rattle.bicep_declared.specs.View.{declared_tree};
ghost use Rattle.bicep_circles.specs.Links.{links};
ghost use Rattle.bicep_circles.specs.Orders.{IsLinkOrder};
ghost use Rattle.bicep_typing.specs.Names.{types_in, listed};
ghost use Rattle.bicep_symbol_types.specs.SymbolTypes as spec;
ghost use Rattle.bicep_symbol_types.specs.Along.{type_by, renewed, types_along, none_known};

use arm_value::OutOfMemory;
use bicep_declared::Declared;
use bicep_signatures::ValueType;
use bicep_tree::TypeName;
use bicep_typing::value_type;
use std::alloc::Global;

// The type of the values of a declared type.
pub(crate) fn type_named(name: TypeName) -> ValueType
    ensures { result ≡ spec.type_named name }
{
    match name {
        TypeName::String => ValueType::Text,
        TypeName::Int => ValueType::Int,
        TypeName::Bool => ValueType::Bool,
        TypeName::Object => ValueType::Object,
        TypeName::Array => ValueType::Array,
    }
}

// The type of the symbol of a declaration, by the types of the symbols that it mentions.
fn symbol_type(symbols: &[ValueType], outputs: &[Vec<ValueType>], declared: &Declared) -> ValueType
    ensures { result ≡ spec.symbol_type (types_in symbols.now outputs.now) (declared_tree declared.now) }
{
    match declared {
        Declared::Parameter(_, name) | Declared::ParameterWith(_, name, _) => type_named(*name),
        Declared::Variable(_, value) => match value_type(symbols, outputs, value) {
            Ok(found) => found,
            Err(_) => ValueType::Any,
        },
        Declared::Resource(_, _, _, _) | Declared::Module(_, _) => ValueType::Any,
    }
}

// The type of the symbol of a number, by those of the others.
#[tactic(auto, using(bicep_typing::proofs::CallLemmas::gets))]
fn type_at(
    symbols: &[ValueType],
    outputs: &[Vec<ValueType>],
    declarations: &[Declared],
    number: usize,
) -> ValueType
    ensures { result ≡ type_by (map listed outputs.now) symbols.now
        (slice_get (map declared_tree declarations.now) number) }
{
    match declarations.get(number) {
        Some(declared) => symbol_type(symbols, outputs, declared),
        None => ValueType::Any,
    }
}

// Finds the type of the symbol of a number by those of the others.
fn renew(
    types: &mut Vec<ValueType>,
    outputs: &[Vec<ValueType>],
    declarations: &[Declared],
    number: usize,
)
    ensures { types.new.items
        ≡ renewed (map listed outputs.now) (map declared_tree declarations.now) number types.old.items }
{
    let found = type_at(types.as_slice(), outputs, declarations, number);
    if number < types.len() {
        types[number] = found;
    }
}

// Finds the types of the symbols of these numbers, one after another.
#[tactic(auto, unfolding(crate::specs::Along::types_along))]
fn renew_all(
    types: Vec<ValueType>,
    outputs: &[Vec<ValueType>],
    declarations: &[Declared],
    order: &[u32],
) -> Vec<ValueType>
    ensures { result.items
        ≡ types_along (map listed outputs.now) (map declared_tree declarations.now) order.now types.items }
{
    let mut found = types;
    for number in order {
        renew(&mut found, outputs, declarations, *number as usize);
    }
    found
}

// A type for each declaration, of which nothing is known.
fn none_of(alloc: Global, declarations: &[Declared]) -> Result<Vec<ValueType>, OutOfMemory>
    ensures { IfOk result (λ ts. ts.items ≡ none_known (map declared_tree declarations.now)) }
{
    let mut types = Vec::new(alloc);
    for _declared in declarations {
        types.push(ValueType::Any)?;
    }
    Ok(types)
}

/// The types of the symbols of a file, by the types of the outputs of the files of its program and an order of the
/// symbols in which each comes after those that its declaration mentions. A variable whose value does not fit is `Any`.
pub fn symbol_types(
    alloc: Global,
    outputs: &[Vec<ValueType>],
    declarations: &[Declared],
    order: &[u32],
) -> Result<Vec<ValueType>, OutOfMemory>
    ensures { (kinds : List Kind) → length kinds ≡ length declarations.now
        → IsLinkOrder (links kinds (map declared_tree declarations.now)) order.now
        → IfOk result (λ ts. ts.items
        ≡ spec.symbol_types (map listed outputs.now) (map declared_tree declarations.now)) }
{
    let types = none_of(alloc, declarations)?;
    Ok(renew_all(types, outputs, declarations, order))
}
