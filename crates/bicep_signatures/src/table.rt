//! The table of the functions that a file may call.
ghost use Rattle.std.specs.Prelude.{◌≡◌, chars, map, option_map};
ghost use Rattle.arm_value.specs.Look.{is_same_folded};
ghost use Rattle.bicep_signatures.specs.Rows as rows;
ghost use Rattle.bicep_signatures.specs.Table.{table, ways_in, signatures_in, signatures_of};

use crate::kinds::{Kinds, Kinds as In};
use crate::signature::{Signature, Signatures};
use crate::value_type::{ValueType, ValueType as Out};
use arm_functions::arity;
use arm_value::folded_eq;

// The kinds of the first argument, of the second and of each further one, and the type of the values.
type Way = (Kinds, Kinds, Kinds, ValueType);

// A name, and up to three ways to call its function.
type Entry = (&'static str, Way, Option<Way>, Option<Way>);

const ENTRIES: [Entry; 44] = [
    (
        "min",
        (In::Int, In::Int, In::Int, Out::Int),
        Some((In::Array, In::Nothing, In::Nothing, Out::Int)),
        None,
    ),
    (
        "max",
        (In::Int, In::Int, In::Int, Out::Int),
        Some((In::Array, In::Nothing, In::Nothing, Out::Int)),
        None,
    ),
    (
        "int",
        (In::TextOrInt, In::Nothing, In::Nothing, Out::Int),
        None,
        None,
    ),
    (
        "range",
        (In::Int, In::Int, In::Nothing, Out::Array),
        None,
        None,
    ),
    (
        "concat",
        (In::Anything, In::Anything, In::Anything, Out::Any),
        None,
        None,
    ),
    (
        "format",
        (In::Text, In::Anything, In::Anything, Out::Text),
        None,
        None,
    ),
    (
        "toLower",
        (In::Text, In::Nothing, In::Nothing, Out::Text),
        None,
        None,
    ),
    (
        "toUpper",
        (In::Text, In::Nothing, In::Nothing, Out::Text),
        None,
        None,
    ),
    (
        "trim",
        (In::Text, In::Nothing, In::Nothing, Out::Text),
        None,
        None,
    ),
    (
        "substring",
        (In::Text, In::Int, In::Int, Out::Text),
        None,
        None,
    ),
    (
        "replace",
        (In::Text, In::Text, In::Text, Out::Text),
        None,
        None,
    ),
    (
        "split",
        (In::Text, In::TextOrArray, In::Nothing, Out::Array),
        None,
        None,
    ),
    (
        "join",
        (In::Array, In::Text, In::Nothing, Out::Text),
        None,
        None,
    ),
    (
        "startsWith",
        (In::Text, In::Text, In::Nothing, Out::Bool),
        None,
        None,
    ),
    (
        "endsWith",
        (In::Text, In::Text, In::Nothing, Out::Bool),
        None,
        None,
    ),
    (
        "indexOf",
        (In::Text, In::Text, In::Nothing, Out::Int),
        Some((In::Array, In::Anything, In::Nothing, Out::Int)),
        None,
    ),
    (
        "lastIndexOf",
        (In::Text, In::Text, In::Nothing, Out::Int),
        Some((In::Array, In::Anything, In::Nothing, Out::Int)),
        None,
    ),
    (
        "length",
        (In::TextObjectOrArray, In::Nothing, In::Nothing, Out::Int),
        None,
        None,
    ),
    (
        "empty",
        (In::AllButIntAndBool, In::Nothing, In::Nothing, Out::Bool),
        None,
        None,
    ),
    (
        "contains",
        (In::Text, In::Text, In::Nothing, Out::Bool),
        Some((In::Array, In::Anything, In::Nothing, Out::Bool)),
        Some((In::Object, In::Text, In::Nothing, Out::Bool)),
    ),
    (
        "padLeft",
        (In::TextOrInt, In::Int, In::Text, Out::Text),
        None,
        None,
    ),
    (
        "string",
        (In::Anything, In::Nothing, In::Nothing, Out::Text),
        None,
        None,
    ),
    (
        "base64",
        (In::Text, In::Nothing, In::Nothing, Out::Text),
        None,
        None,
    ),
    (
        "base64ToString",
        (In::Text, In::Nothing, In::Nothing, Out::Text),
        None,
        None,
    ),
    (
        "array",
        (In::Anything, In::Nothing, In::Nothing, Out::Array),
        None,
        None,
    ),
    (
        "first",
        (In::TextOrArray, In::Nothing, In::Nothing, Out::Any),
        None,
        None,
    ),
    (
        "last",
        (In::TextOrArray, In::Nothing, In::Nothing, Out::Any),
        None,
        None,
    ),
    (
        "skip",
        (In::TextOrArray, In::Int, In::Nothing, Out::Any),
        None,
        None,
    ),
    (
        "take",
        (In::TextOrArray, In::Int, In::Nothing, Out::Any),
        None,
        None,
    ),
    (
        "union",
        (In::Array, In::Array, In::Array, Out::Array),
        Some((In::Object, In::Object, In::Object, Out::Object)),
        None,
    ),
    (
        "intersection",
        (In::Array, In::Array, In::Array, Out::Array),
        Some((In::Object, In::Object, In::Object, Out::Object)),
        None,
    ),
    (
        "flatten",
        (In::Array, In::Nothing, In::Nothing, Out::Array),
        None,
        None,
    ),
    (
        "json",
        (In::Text, In::Nothing, In::Nothing, Out::Any),
        None,
        None,
    ),
    (
        "items",
        (In::Object, In::Nothing, In::Nothing, Out::Array),
        None,
        None,
    ),
    (
        "objectKeys",
        (In::Object, In::Nothing, In::Nothing, Out::Array),
        None,
        None,
    ),
    (
        "bool",
        (In::TextIntOrBool, In::Nothing, In::Nothing, Out::Bool),
        None,
        None,
    ),
    (
        "uniqueString",
        (In::Text, In::Text, In::Text, Out::Text),
        None,
        None,
    ),
    (
        "guid",
        (In::Text, In::Text, In::Text, Out::Text),
        None,
        None,
    ),
    (
        "coalesce",
        (In::Anything, In::Anything, In::Anything, Out::Any),
        None,
        None,
    ),
    (
        "resourceId",
        (In::Text, In::Text, In::Text, Out::Text),
        None,
        None,
    ),
    (
        "subscriptionResourceId",
        (In::Text, In::Text, In::Text, Out::Text),
        None,
        None,
    ),
    (
        "resourceGroup",
        (In::Nothing, In::Nothing, In::Nothing, Out::Object),
        None,
        None,
    ),
    (
        "subscription",
        (In::Nothing, In::Nothing, In::Nothing, Out::Object),
        None,
        None,
    ),
    (
        "deployment",
        (In::Nothing, In::Nothing, In::Nothing, Out::Object),
        None,
        None,
    ),
];

fn signature(way: Way) -> Signature
    ensures { result ≡ rows.signature way }
{
    Signature {
        first: way.0,
        second: way.1,
        rest: way.2,
        value: way.3,
    }
}

fn further(way: Option<Way>) -> Option<Signature>
    ensures { result ≡ option_map rows.signature way }
{
    match way {
        Some(way) => Some(signature(way)),
        None => None,
    }
}

fn signatures(one: Way, two: Option<Way>, three: Option<Way>) -> Signatures
    ensures { result ≡ rows.ways one two three }
{
    Signatures {
        one: Some(signature(one)),
        two: further(two),
        three: further(three),
    }
}

// Whether the names are the same, whatever the case of their ASCII letters.
fn is_named(name: &str, other: &str) -> bool
    ensures { result ≡ is_same_folded (chars name.now) (chars other.now) }
{
    folded_eq(name, other)
}

// The ways to call the function of an entry, where it has the name.
fn ways_in(name: &str, entry: &Entry) -> Option<Signatures>
    ensures { result ≡ ways_in (chars name.now) (rows.row_of entry.now) }
{
    if is_named(name, entry.0) {
        Some(signatures(entry.1, entry.2, entry.3))
    } else {
        None
    }
}

// The ways to call the function of the first entry of this name.
fn find(name: &str, entries: &[Entry]) -> Option<Signatures>
    ensures { result ≡ signatures_in (chars name.now) (map rows.row_of entries.now) }
{
    for entry in entries {
        match ways_in(name, entry) {
            Some(found) => return Some(found),
            None => {}
        }
    }
    None
}

// The ways to call the function of this name, however many arguments it takes.
fn ways_named(name: &str) -> Option<Signatures>
    ensures { result ≡ signatures_in (chars name.now) table }
{
    find(name, &ENTRIES)
}

impl Signatures {
    /// The ways to call the function of that name with so many arguments, whatever the case of its ASCII letters; none
    /// where no file may call it so.
    #[tactic(auto, unfolding(crate::specs::Table::signatures_of))]
    pub fn of(name: &str, count: usize) -> Option<Signatures>
        ensures { result ≡ signatures_of (chars name.now) count }
    {
        match arity(name) {
            Ok(arity) => {
                if arity.admits(count) {
                    ways_named(name)
                } else {
                    None
                }
            }
            Err(_) => None,
        }
    }
}
