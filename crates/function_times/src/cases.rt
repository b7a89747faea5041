// What is timed: functions, what their arguments are in words, the shapes of these, and the size n.

use crate::shapes::Shape;
use crate::shapes::Shape::{
    Count, Each, Half, HalfText, Members, Numbers, NumbersText, Pairs, Rows, Text, Texts,
};

/// A function, its arguments in words, their shapes, and the smaller size; the larger is twice that.
pub type Case = (&'static str, &'static str, &'static [Shape], u64);

const LONG: u64 = 500_000;

const MANY: u64 = 500_000;

// Of eight arrays at once.
const EACH: u64 = 60_000;

// Half of the most numbers of a range, and of the most characters of a padded text.
const FEW: u64 = 5_000;

const A: Shape = Text("", "a", "");

const AB: Shape = Text("", "a", "b");

const BA: Shape = Text("b", "a", "");

const NEARLY: Shape = HalfText("", "a", "b");

const ONE: Shape = Text("a", "", "");

const NONE: Shape = Text("none", "", "");

/// All that is timed.
pub static CASES: [Case; 51] = [
    ("toLower", "n capitals", &[Text("", "A", "")], LONG),
    ("toUpper", "n letters", &[A], LONG),
    ("trim", "n blanks and a letter", &[Text("", " ", "a")], LONG),
    ("length", "n letters", &[A], LONG),
    ("length", "n items", &[Numbers(0)], MANY),
    ("substring", "n letters, from n/2", &[A, Half], LONG),
    ("startsWith", "nearly the same n letters", &[AB, AB], LONG),
    ("endsWith", "nearly the same n letters", &[BA, AB], LONG),
    ("contains", "a part that nearly matches", &[A, NEARLY], LONG),
    ("indexOf", "a part that nearly matches", &[A, NEARLY], LONG),
    (
        "lastIndexOf",
        "a part that nearly matches",
        &[A, HalfText("b", "a", "")],
        LONG,
    ),
    (
        "replace",
        "each of n letters",
        &[A, ONE, Text("bb", "", "")],
        LONG,
    ),
    (
        "replace",
        "a part that nearly matches",
        &[A, NEARLY, Text("", "", "")],
        LONG,
    ),
    ("split", "at each of n letters", &[A, ONE], MANY),
    ("split", "at a part that nearly matches", &[A, NEARLY], LONG),
    ("equals", "nearly the same n letters", &[AB, AB], LONG),
    ("less", "nearly the same n letters", &[A, AB], LONG),
    ("base64", "n letters", &[A], LONG),
    (
        "base64ToString",
        "n times four letters",
        &[Text("", "YWFh", "")],
        250000,
    ),
    ("uniqueString", "n letters", &[A], LONG),
    ("guid", "n letters", &[A], LONG),
    ("padLeft", "to n characters", &[ONE, Count], FEW),
    (
        "format",
        "n fields",
        &[Text("", "{0}", ""), Text("b", "", "")],
        MANY,
    ),
    ("string", "n items", &[Numbers(0)], MANY),
    ("json", "n items", &[NumbersText], MANY),
    ("join", "n texts", &[Texts, Text(", ", "", "")], MANY),
    ("concat", "n texts", &[Each, Texts], MANY),
    (
        "concat",
        "two arrays of n items",
        &[Numbers(0), Numbers(1)],
        MANY,
    ),
    ("createArray", "n numbers", &[Each, Numbers(0)], MANY),
    ("createObject", "n names and values", &[Each, Pairs], MANY),
    ("min", "n numbers", &[Each, Numbers(0)], MANY),
    ("max", "an array of n numbers", &[Numbers(0)], MANY),
    ("range", "n numbers", &[Count, Count], FEW),
    ("first", "n letters", &[A], LONG),
    ("last", "n items", &[Numbers(0)], MANY),
    ("skip", "n/2 of n letters", &[A, Half], LONG),
    ("take", "n/2 of n items", &[Numbers(0), Half], MANY),
    (
        "contains",
        "n items, the middle one is it",
        &[Numbers(0), Half],
        MANY,
    ),
    (
        "indexOf",
        "n items, none is the one",
        &[Numbers(0), Count],
        MANY,
    ),
    (
        "lastIndexOf",
        "n items, none is the one",
        &[Numbers(0), Count],
        MANY,
    ),
    (
        "contains",
        "n members, none has the name",
        &[Members(0), NONE],
        MANY,
    ),
    ("flatten", "n arrays", &[Rows], MANY),
    (
        "union",
        "eight arrays of n items",
        &[
            Numbers(0),
            Numbers(1),
            Numbers(2),
            Numbers(3),
            Numbers(4),
            Numbers(5),
            Numbers(6),
            Numbers(7),
        ],
        EACH,
    ),
    (
        "union",
        "eight ranges of n numbers",
        &[
            Numbers(0),
            Numbers(1),
            Numbers(2),
            Numbers(3),
            Numbers(4),
            Numbers(5),
            Numbers(6),
            Numbers(7),
        ],
        FEW,
    ),
    (
        "union",
        "eight equal arrays of n items",
        &[
            Numbers(0),
            Numbers(0),
            Numbers(0),
            Numbers(0),
            Numbers(0),
            Numbers(0),
            Numbers(0),
            Numbers(0),
        ],
        EACH,
    ),
    (
        "intersection",
        "two arrays of n items",
        &[Numbers(0), Numbers(0)],
        MANY,
    ),
    (
        "union",
        "two objects of n members",
        &[Members(0), Members(1)],
        MANY,
    ),
    (
        "intersection",
        "two objects of n members",
        &[Members(0), Members(1)],
        MANY,
    ),
    ("items", "n members", &[Members(0)], MANY),
    ("objectKeys", "n members", &[Members(0)], MANY),
    ("tryGet", "n members", &[Members(0), NONE], MANY),
];
