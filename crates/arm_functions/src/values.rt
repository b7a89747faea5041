// The values of the plain functions, and calls by name.
ghost use Rattle.std.specs.Prelude.{◌≡◌, Some, None, chars, map, length, option_map, IfOk, IfErr};
ghost use Rattle.arm_value.specs.View.{json};
ghost use Rattle.arm_functions.specs.Calls.{refusal, IsRefused};
ghost use Rattle.arm_functions.specs.Values.{of_numbers, of_truth, of_texts, of_lists, of_prints, of_names, value_of};
ghost use Rattle.arm_functions.specs.Values.{function_value};

use crate::fault::FunctionFault;
use crate::plain::{Naming, OnLists, OnNumbers, OnTexts, OnTruth, Plain, Printing};
use crate::table::Row;
use arm_value::{OutOfMemory, Value};
use std::alloc::Global;

#[tactic(auto, unfolding(crate::specs::Values::of_numbers))]
fn of_numbers(
    alloc: Global,
    function: OnNumbers,
    args: &[Value],
) -> Result<Option<Value>, OutOfMemory>
    ensures { IfOk result (λ value. option_map json value ≡ of_numbers function (map json args.now)) }
{
    match function {
        OnNumbers::Add => Ok(function_numbers::add(args)),
        OnNumbers::Sub => Ok(function_numbers::sub(args)),
        OnNumbers::Mul => Ok(function_numbers::mul(args)),
        OnNumbers::Div => Ok(function_numbers::div(args)),
        OnNumbers::Remainder => Ok(function_numbers::remainder(args)),
        OnNumbers::Min => Ok(function_numbers::min(args)),
        OnNumbers::Max => Ok(function_numbers::max(args)),
        OnNumbers::ToInt => Ok(function_numbers::to_int(args)),
        OnNumbers::Range => function_numbers::range(alloc, args),
    }
}

#[tactic(auto, unfolding(crate::specs::Values::of_truth))]
fn of_truth(function: OnTruth, args: &[Value]) -> Option<Value>
    ensures { option_map json result ≡ of_truth function (map json args.now) }
{
    match function {
        OnTruth::Not => function_numbers::not(args),
        OnTruth::AlwaysTrue => function_numbers::always_true(args),
        OnTruth::AlwaysFalse => function_numbers::always_false(args),
        OnTruth::AlwaysNull => function_numbers::always_null(args),
        OnTruth::ToBool => function_numbers::to_bool(args),
        OnTruth::Equals => function_numbers::equals(args),
        OnTruth::Less => function_numbers::less(args),
        OnTruth::LessOrEquals => function_numbers::less_or_equals(args),
        OnTruth::Greater => function_numbers::greater(args),
        OnTruth::GreaterOrEquals => function_numbers::greater_or_equals(args),
    }
}

#[tactic(auto, unfolding(crate::specs::Values::of_texts))]
fn of_texts(alloc: Global, function: OnTexts, args: &[Value]) -> Result<Option<Value>, OutOfMemory>
    ensures { IfOk result (λ value. option_map json value ≡ of_texts function (map json args.now)) }
{
    match function {
        OnTexts::ToLower => function_prints::to_lower(alloc, args),
        OnTexts::ToUpper => function_prints::to_upper(alloc, args),
        OnTexts::Trim => function_prints::trim(alloc, args),
        OnTexts::Substring => function_prints::substring(alloc, args),
        OnTexts::Replace => function_prints::replace(alloc, args),
        OnTexts::Split => function_prints::split(alloc, args),
        OnTexts::StartsWith => function_prints::starts_with(alloc, args),
        OnTexts::EndsWith => function_prints::ends_with(alloc, args),
        OnTexts::IndexOf => function_prints::index_of(alloc, args),
        OnTexts::LastIndexOf => function_prints::last_index_of(alloc, args),
        OnTexts::Contains => function_prints::contains(alloc, args),
    }
}

#[tactic(auto, unfolding(crate::specs::Values::of_lists))]
fn of_lists(alloc: Global, function: OnLists, args: &[Value]) -> Result<Option<Value>, OutOfMemory>
    ensures { IfOk result (λ value. option_map json value ≡ of_lists function (map json args.now)) }
{
    match function {
        OnLists::Size => Ok(function_prints::size(args)),
        OnLists::Empty => Ok(function_prints::empty(args)),
        OnLists::ToArray => function_prints::to_array(alloc, args),
        OnLists::CreateArray => function_prints::create_array(alloc, args),
        OnLists::First => function_prints::first(alloc, args),
        OnLists::Last => function_prints::last(alloc, args),
        OnLists::Skip => function_prints::skip(alloc, args),
        OnLists::Take => function_prints::take(alloc, args),
        OnLists::Union => function_prints::union(alloc, args),
        OnLists::Intersection => function_prints::intersection(alloc, args),
        OnLists::Flatten => function_prints::flatten(alloc, args),
        OnLists::CreateObject => function_prints::create_object(alloc, args),
        OnLists::ObjectItems => function_prints::object_items(alloc, args),
        OnLists::ObjectKeys => function_prints::object_keys(alloc, args),
        OnLists::TryGet => function_prints::try_get(alloc, args),
    }
}

#[tactic(auto, unfolding(crate::specs::Values::of_prints))]
fn of_prints(
    alloc: Global,
    function: Printing,
    args: &[Value],
) -> Result<Option<Value>, OutOfMemory>
    ensures { IfOk result (λ value. option_map json value ≡ of_prints function (map json args.now)) }
{
    match function {
        Printing::Concat => function_prints::concat(alloc, args),
        Printing::Join => function_prints::join(alloc, args),
        Printing::PadLeft => function_prints::pad_left(alloc, args),
        Printing::ToText => function_prints::to_text(alloc, args),
        Printing::Format => function_prints::format(alloc, args),
        Printing::ReadJson => function_prints::read_json(alloc, args),
    }
}

#[tactic(auto, unfolding(crate::specs::Values::of_names))]
fn of_names(alloc: Global, function: Naming, args: &[Value]) -> Result<Option<Value>, OutOfMemory>
    ensures { IfOk result (λ value. option_map json value ≡ of_names function (map json args.now)) }
{
    match function {
        Naming::ToBase64 => function_identities::to_base64(alloc, args),
        Naming::FromBase64 => function_identities::base64_to_string(alloc, args),
        Naming::UniqueString => function_identities::unique_string(alloc, args),
        Naming::Guid => function_identities::guid(alloc, args),
    }
}

/// The value that the function gives of these arguments; none where it has no value of them.
#[tactic(auto, unfolding(crate::specs::Values::value_of))]
pub(crate) fn value_of(
    alloc: Global,
    function: Plain,
    args: &[Value],
) -> Result<Option<Value>, OutOfMemory>
    ensures { IfOk result (λ value. option_map json value ≡ value_of function (map json args.now)) }
{
    match function {
        Plain::Numbers(function) => of_numbers(alloc, function, args),
        Plain::Logic(function) => Ok(of_truth(function, args)),
        Plain::Texts(function) => of_texts(alloc, function, args),
        Plain::Lists(function) => of_lists(alloc, function, args),
        Plain::Prints(function) => of_prints(alloc, function, args),
        Plain::Names(function) => of_names(alloc, function, args),
    }
}

/// The value that the function of this name gives of these arguments, whatever the case of the
/// name's ASCII letters; none where the function has no value of them.
///
/// # Errors
///
/// `UnknownFunction` exactly where no function has the name, or one whose value does not follow
/// from its arguments alone; else `WrongCount` exactly where they are too few or too many.
pub fn call(alloc: Global, name: &str, args: &[Value]) -> Result<Option<Value>, FunctionFault>
    ensures ok { IfOk result (λ value. refusal (chars name.now) (length args.now) ≡ None) }
    ensures value { IfOk result (λ value. option_map json value
        ≡ function_value (chars name.now) (map json args.now)) }
    ensures fault { IfErr result (IsRefused (chars name.now) (length args.now)) }
{
    match Row::of(name) {
        Some(row) => row.call(alloc, args),
        None => Err(FunctionFault::UnknownFunction),
    }
}
