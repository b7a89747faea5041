// How deep expressions may nest.

use crate::answers::Question;
use crate::rows::compare;
use std::test::Fail;

// Parts as deep as they may nest, and one deeper.
const NESTS: &str = "\
§var a = «64:(»1«64:)»
 => 1
§var a = «65:(»1«65:)»
 => too deep at 138
§var a = «64:[»1«64:]»
 => 1
§var a = «65:[»1«65:]»
 => too deep at 138
§var a = «64:{ a: »1«64: }»
 => 1
§var a = «65:{ a: »1«65: }»
 => too deep at 463
§var a = «64:f(»1«64:)»
 => 1
§var a = «65:f(»1«65:)»
 => too deep at 203
§var a = «64:!»a
 => 1
§var a = «65:!»a
 => too deep at 75
§var a = «64:a ? b : »c
 => 1
§var a = «65:a ? b : »c
 => too deep at 530
§var a = «32:1 + (»1«32:)»
 => 1
§var a = «33:1 + (»1«33:)»
 => too deep at 206
§var a = «64:'${»a«64:}'»
 => 1
§var a = «65:'${»a«65:}'»
 => too deep at 332
";

#[test]
fn expressions_nest_at_most_64_deep(rt: HostRuntime) -> Result<(), Fail> {
    compare(rt.alloc(), Question::Statements, NESTS, 16)
}

// Parts that nest too deep, and the token that closes them.
const CLOSED: &str = "\
§var a = «65:!»a => too deep at 74
§var a = «65:!»a
var b = 1 => too deep at 75
§var a = [«65:!»a] => too deep at 75
§var a = 1«64: + 1»
var b = 1
 => 2
§var a = 1«65: + 1» => too deep at 269
§var a = 1«65: + 1»
 => too deep at 270
§var a = 1«65: + 1»
var b = 1
 => too deep at 270
§var a = 1«66: + 1» => too deep at 270
§var a = b«65:.c» + 1
 => too deep at 138
§var a = 1«65: + 1»
var b = => not a file at 277
";

#[test]
fn a_deep_part_is_told_where_it_is_closed(rt: HostRuntime) -> Result<(), Fail> {
    compare(rt.alloc(), Question::Statements, CLOSED, 10)
}

// Each test below reads about 4 MB that open again and again.

#[test]
fn four_million_parentheses_are_refused(rt: HostRuntime) -> Result<(), Fail> {
    let row = "§var a = «4000000:(» => not a file at 4000008\n";
    compare(rt.alloc(), Question::Statements, row, 1)
}

#[test]
fn four_million_brackets_are_refused(rt: HostRuntime) -> Result<(), Fail> {
    let row = "§var a = «4000000:[» => not a file at 4000008\n";
    compare(rt.alloc(), Question::Statements, row, 1)
}

#[test]
fn four_million_prefixes_are_refused(rt: HostRuntime) -> Result<(), Fail> {
    let row = "§var a = «4000000:!» => not a file at 4000008\n";
    compare(rt.alloc(), Question::Statements, row, 1)
}

#[test]
fn a_million_operators_are_too_deep(rt: HostRuntime) -> Result<(), Fail> {
    let row = "§var a = 1«1000000:+1» => too deep at 139\n";
    compare(rt.alloc(), Question::Statements, row, 1)
}

#[test]
fn four_megabytes_of_objects_are_refused(rt: HostRuntime) -> Result<(), Fail> {
    let row = "§var a = «1300000:{a:» => not a file at 3900008\n";
    compare(rt.alloc(), Question::Statements, row, 1)
}

#[test]
fn four_megabytes_of_resources_are_refused(rt: HostRuntime) -> Result<(), Fail> {
    let row = "§resource a 'b' = «250000:{resource a 'b'=» => not a file at 4000017\n";
    compare(rt.alloc(), Question::Statements, row, 1)
}
