// The table of the template functions, and its rows.
ghost use Rattle.std.specs.Prelude.{◌≡◌, chars, length, map, true, Some, None, option_map, is_some, IfOk, IfErr};
ghost use Rattle.std.specs.Prelude.{IfSome};
ghost use Rattle.arm_value.specs.Look.{is_same_folded};
ghost use Rattle.arm_value.specs.View.{json};
ghost use Rattle.arm_functions.specs.Calls.{refusal_by, IsRefusedBy};
ghost use Rattle.arm_functions.specs.Rows.{row_view};
ghost use Rattle.arm_functions.specs.Table.{row_in, row_of, counts};
ghost use Rattle.arm_functions.specs.Values.{value_by};

use crate::counts::Arity;
use crate::fault::FunctionFault;
use crate::plain::Plain::{Lists, Logic, Names, Numbers, Prints, Texts};
use crate::plain::{Naming, OnLists, OnNumbers, OnTexts, OnTruth, Plain, Printing};
use crate::values::value_of;
use arm_value::{Value, folded_eq};
use std::alloc::Global;

/// A template function: a row of the table of functions.
#[derive(Clone, Copy, Debug)]
pub struct Row {
    /// The name, in the usual case of its letters.
    pub name: &'static str,
    /// How many arguments the function takes.
    pub arity: Arity,
    // The function, where its value follows from its arguments alone.
    function: Option<Plain>,
}

// A name, the least and the most number of arguments, and the function where its value follows
// from its arguments alone.
type Entry = (&'static str, u32, Option<u32>, Option<Plain>);

const ENTRIES: [Entry; 68] = [
    ("parameters", 1, Some(1), None),
    ("variables", 1, Some(1), None),
    ("concat", 1, None, Some(Prints(Printing::Concat))),
    ("resourceId", 1, None, None),
    ("format", 1, None, Some(Prints(Printing::Format))),
    ("if", 3, Some(3), None),
    ("equals", 2, Some(2), Some(Logic(OnTruth::Equals))),
    ("reference", 1, Some(3), None),
    ("copyIndex", 0, Some(2), None),
    ("resourceGroup", 0, Some(0), None),
    ("subscription", 0, Some(0), None),
    ("not", 1, Some(1), Some(Logic(OnTruth::Not))),
    ("and", 2, None, None),
    ("or", 2, None, None),
    ("empty", 1, Some(1), Some(Lists(OnLists::Empty))),
    ("toLower", 1, Some(1), Some(Texts(OnTexts::ToLower))),
    ("uniqueString", 1, None, Some(Names(Naming::UniqueString))),
    ("length", 1, Some(1), Some(Lists(OnLists::Size))),
    ("contains", 2, Some(2), Some(Texts(OnTexts::Contains))),
    ("createObject", 0, None, Some(Lists(OnLists::CreateObject))),
    ("createArray", 0, None, Some(Lists(OnLists::CreateArray))),
    ("union", 1, None, Some(Lists(OnLists::Union))),
    ("json", 1, Some(1), Some(Prints(Printing::ReadJson))),
    ("string", 1, Some(1), Some(Prints(Printing::ToText))),
    ("int", 1, Some(1), Some(Numbers(OnNumbers::ToInt))),
    ("null", 0, Some(0), Some(Logic(OnTruth::AlwaysNull))),
    ("true", 0, Some(0), Some(Logic(OnTruth::AlwaysTrue))),
    ("false", 0, Some(0), Some(Logic(OnTruth::AlwaysFalse))),
    ("coalesce", 1, None, None),
    ("add", 2, Some(2), Some(Numbers(OnNumbers::Add))),
    ("sub", 2, Some(2), Some(Numbers(OnNumbers::Sub))),
    ("mul", 2, Some(2), Some(Numbers(OnNumbers::Mul))),
    ("div", 2, Some(2), Some(Numbers(OnNumbers::Div))),
    ("mod", 2, Some(2), Some(Numbers(OnNumbers::Remainder))),
    ("min", 1, None, Some(Numbers(OnNumbers::Min))),
    ("max", 1, None, Some(Numbers(OnNumbers::Max))),
    ("range", 2, Some(2), Some(Numbers(OnNumbers::Range))),
    ("toUpper", 1, Some(1), Some(Texts(OnTexts::ToUpper))),
    ("trim", 1, Some(1), Some(Texts(OnTexts::Trim))),
    ("substring", 2, Some(3), Some(Texts(OnTexts::Substring))),
    ("replace", 3, Some(3), Some(Texts(OnTexts::Replace))),
    ("split", 2, Some(2), Some(Texts(OnTexts::Split))),
    ("join", 2, Some(2), Some(Prints(Printing::Join))),
    ("startsWith", 2, Some(2), Some(Texts(OnTexts::StartsWith))),
    ("endsWith", 2, Some(2), Some(Texts(OnTexts::EndsWith))),
    ("indexOf", 2, Some(2), Some(Texts(OnTexts::IndexOf))),
    ("lastIndexOf", 2, Some(2), Some(Texts(OnTexts::LastIndexOf))),
    ("padLeft", 2, Some(3), Some(Prints(Printing::PadLeft))),
    ("base64", 1, Some(1), Some(Names(Naming::ToBase64))),
    (
        "base64ToString",
        1,
        Some(1),
        Some(Names(Naming::FromBase64)),
    ),
    ("array", 1, Some(1), Some(Lists(OnLists::ToArray))),
    ("first", 1, Some(1), Some(Lists(OnLists::First))),
    ("last", 1, Some(1), Some(Lists(OnLists::Last))),
    ("skip", 2, Some(2), Some(Lists(OnLists::Skip))),
    ("take", 2, Some(2), Some(Lists(OnLists::Take))),
    ("intersection", 1, None, Some(Lists(OnLists::Intersection))),
    ("flatten", 1, Some(1), Some(Lists(OnLists::Flatten))),
    ("items", 1, Some(1), Some(Lists(OnLists::ObjectItems))),
    ("objectKeys", 1, Some(1), Some(Lists(OnLists::ObjectKeys))),
    ("bool", 1, Some(1), Some(Logic(OnTruth::ToBool))),
    ("less", 2, Some(2), Some(Logic(OnTruth::Less))),
    (
        "lessOrEquals",
        2,
        Some(2),
        Some(Logic(OnTruth::LessOrEquals)),
    ),
    ("greater", 2, Some(2), Some(Logic(OnTruth::Greater))),
    (
        "greaterOrEquals",
        2,
        Some(2),
        Some(Logic(OnTruth::GreaterOrEquals)),
    ),
    ("tryGet", 2, None, Some(Lists(OnLists::TryGet))),
    ("guid", 1, None, Some(Names(Naming::Guid))),
    ("subscriptionResourceId", 1, None, None),
    ("deployment", 0, Some(0), None),
];

// The row of the first entry of this name, whatever the case of its ASCII letters.
fn find(name: &str, entries: &[Entry]) -> Option<Row>
    ensures row { option_map row_view result
        ≡ row_in (chars name.now) (map (λ r. (chars r.0.now, r.1, r.2, r.3)) entries.now) }
    ensures named { IfSome result (λ r. is_same_folded (chars name.now) (chars r.name.now) ≡ true) }
{
    for entry in entries {
        if folded_eq(name, entry.0) {
            return Some(Row {
                name: entry.0,
                arity: Arity {
                    least: entry.1,
                    most: entry.2,
                },
                function: entry.3,
            });
        }
    }
    None
}

impl Row {
    /// The row of the function of this name, whatever the case of its ASCII letters; none where no
    /// function has the name. It takes no memory.
    pub fn of(name: &str) -> Option<Row>
        ensures row { option_map row_view result ≡ row_of (chars name.now) }
        ensures named { IfSome result (λ r. is_same_folded (chars name.now) (chars r.name.now) ≡ true) }
    {
        find(name, &ENTRIES)
    }

    /// Whether the function's value follows from its arguments alone. Any other function of the table
    /// needs an evaluator.
    pub fn is_plain(&self) -> bool
        ensures { result ≡ is_some (row_view self.now).2 }
    {
        self.function.is_some()
    }

    /// The value that the function gives of these arguments; none where it has no value of them.
    ///
    /// # Errors
    ///
    /// `UnknownFunction` exactly where the function needs an evaluator; else `WrongCount` exactly where
    /// the arguments are too few or too many.
    pub fn call(&self, alloc: Global, args: &[Value]) -> Result<Option<Value>, FunctionFault>
        ensures ok { IfOk result (λ _. refusal_by (Some (row_view self.now)) (length args.now) ≡ None) }
        ensures value { IfOk result (λ value. option_map json value
            ≡ value_by (Some (row_view self.now)) (map json args.now)) }
        ensures fault { IfErr result (IsRefusedBy (Some (row_view self.now)) (length args.now)) }
    {
        let Some(function) = self.function else {
            return Err(FunctionFault::UnknownFunction);
        };
        if self.arity.admits(args.len()) {
            Ok(value_of(alloc, function, args)?)
        } else {
            Err(FunctionFault::WrongCount)
        }
    }
}

/// How many arguments the function of this name takes, whatever the case of its ASCII letters.
///
/// # Errors
///
/// `UnknownFunction` exactly where there is none of this name.
pub fn arity(name: &str) -> Result<Arity, FunctionFault>
    ensures ok { IfOk result (λ a. counts (chars name.now) ≡ Some (a.least, a.most)) }
    ensures fault { IfErr result (λ e. (e ≡ FunctionFault.UnknownFunction)
        × (counts (chars name.now) ≡ None)) }
{
    match Row::of(name) {
        Some(row) => Ok(row.arity),
        None => Err(FunctionFault::UnknownFunction),
    }
}
