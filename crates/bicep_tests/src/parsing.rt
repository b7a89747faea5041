// Sources, and the statements that they have.

use crate::answers::Question;
use crate::deployed::{HOSTS, STATEMENTS};
use crate::rows::compare;
use std::test::Fail;

#[test]
fn deployed_hosts_are_read(rt: HostRuntime) -> Result<(), Fail> {
    compare(rt.alloc(), Question::Statements, HOSTS, 7)
}

#[test]
fn deployed_statements_are_read(rt: HostRuntime) -> Result<(), Fail> {
    compare(rt.alloc(), Question::Statements, STATEMENTS, 7)
}

// Sources, and the number of their statements.
const FILES: &str = "\
§ => 0
§

 => 0
§var a = 1 => 1
§var a = 1
var b = 2
 => 2
§var a = (1 +
 2)
 => 1
§var a = 1 +
 2
 => 1
§var a = (1
 + 2)
 => 1
§var a = f(
1,
2
) => 1
§var a = b
 ? 1
 : 2
 => 1
§var a = b ?
 1 :
 2
 => 1
§var a = [
 1
 2, 3,
]
 => 1
§var a = [1 +
2
3] => 1
§var a = { b: 1, 'c d': 2

 }
 => 1
§var a = { }
 => 1
§var a = ({
b: 1
c: [
1
2]
})
 => 1
§var a = [for x in xs: x] => 1
§var a = [for (x, i) in xs: { n: x, k: i }] => 1
§var a = [for(x, i)] => 1
§var a = [for] => 1
§var a = { b: [for x in xs: x] } => 1
§var a = sys.f(1) => 1
§var a = az.f => 1
§@sys.secure()
param p string => 1
§@secure()
@minLength(3)
param p string = 'x'
 => 1
§resource a 'T@1' existing = {
 name: 'x'
}
 => 1
§resource a 'T@1' = if (b
 && c) {
}
 => 1
§resource a 'T@1' = [for x in xs: if (b) {
}]
 => 1
§resource a 'T@1' = [for (x, i) in xs: {
}]
 => 1
§resource a 'T@1' = [for (
x,
 i
) in xs: {
}]
 => 1
§resource a 'T@1' = {
 resource: 1
} => 1
§resource a 'T@1' = {
 @d('e')
 resource c 'U' = {}
} => 1
§output o string = 'a${b}c${d}e' => 1
§var a = !b.c!.?d[?1]::e => 1
§var resource = 1
var for = 2
var in = 3
var sys = 4 => 4
";

#[test]
fn files_are_read(rt: HostRuntime) -> Result<(), Fail> {
    compare(rt.alloc(), Question::Statements, FILES, 34)
}

// Near misses, and the offset from which no file continues.
const EXPRESSION_MISSES: &str = "\
§var a = 5 5 => not a file at 10
§var a = => not a file at 7
§var a =
 1 => not a file at 7
§var a = 1
 + 2
 => not a file at 11
§var a = 1 var b = 2 => not a file at 10
§var a = (1 => not a file at 10
§var a = (1] => not a file at 10
§var a = [1 2] => not a file at 11
§var a = [1 : 2] => not a file at 11
§var a = { b: 1 c: 2 } => not a file at 15
§var a = { b:
 1 } => not a file at 12
§var a = { 'a${b}': 1 } => not a file at 10
§var a = { true: 1 } => not a file at 10
§var a = { b } => not a file at 12
§var a = f(1,) => not a file at 12
§var a = f(,) => not a file at 10
§var a = x.f(1) => not a file at 11
§var a = sys.f.g(1) => not a file at 15
§var a = (sys).f() => not a file at 15
§var a = x.null => not a file at 10
§var a = - - 1 - => not a file at 15
§var a = 1 == == 2 => not a file at 13
§var a = b ? 1 => not a file at 13
§var a = b
var c = d ? => not a file at 21
§var a = [for(x, i, j) in xs: x] => not a file at 22
§var a = [for (x, 1) in xs: x] => not a file at 20
§var a = [For x in xs: x] => not a file at 13
§var a = f([for x in xs: x]) => not a file at 15
§var a = [for x in xs: x,] => not a file at 23
§var a = [for x of xs: x] => not a file at 15
";

#[test]
fn near_misses_in_expressions_are_refused(rt: HostRuntime) -> Result<(), Fail> {
    compare(rt.alloc(), Question::Statements, EXPRESSION_MISSES, 30)
}

// Near misses in statements.
const STATEMENT_MISSES: &str = "\
§param a array = [for x in xs: x] => not a file at 21
§output o string = 'a${b c}' => not a file at 24
§@secure() param p string => not a file at 10
§@secure
param p string => not a file at 7
§@az.secure()
param p string => not a file at 3
§param p => not a file at 7
§param p text => not a file at 8
§module m 'x.bicep' existing = {
}
 => not a file at 19
§resource a 'T@1' = [ for x in xs: x] => not a file at 34
§resource a 'T@1' = [for] => not a file at 23
§resource a 'T@1' = [for.x] => not a file at 23
§resource a 'T@1' = [for(1, 2)] => not a file at 24
§resource a 'T@1' = [for (x) in xs: {
}] => not a file at 26
§resource a 'T@1' = [for (x, i, j) in xs: {
}] => not a file at 29
";

#[test]
fn near_misses_in_statements_are_refused(rt: HostRuntime) -> Result<(), Fail> {
    compare(rt.alloc(), Question::Statements, STATEMENT_MISSES, 14)
}

// Expressions, with braces round each operator and what it binds.
const SHAPES: &str = "\
§a - b - c => {{a-b}-c}
§a - (b - c) => {a-({b-c})}
§a + b * c => {a+{b*c}}
§a * b + c => {{a*b}+c}
§a * b / c % d => {{{a*b}/c}%d}
§a < b + c => {a<{b+c}}
§a == b < c => {a=={b<c}}
§a == b != c => {{a==b}!=c}
§a =~ b !~ c => {{a=~b}!~c}
§a && b == c => {a&&{b==c}}
§a || b && c => {a||{b&&c}}
§a && b || c => {{a&&b}||c}
§a ?? b || c => {a??{b||c}}
§a ?? b ?? c => {{a??b}??c}
§a ? b : c ? d : e => {a?b:{c?d:e}}
§a ? b ? c : d : e => {a?{b?c:d}:e}
§a ?? b ? c : d => {{a??b}?c:d}
§a ? b : c ?? d => {a?b:{c??d}}
§-a * b => {{~a}*b}
§!a && b => {{~a}&&b}
§!-a.b => {~{~a.b}}
§-a!.b[c + d] => {~a!.b[{c+d}]}
§a >= b && c <= d || e > f => {{{a>=b}&&{c<=d}}||{e>f}}
§(a ? b : c) ? d : e => {({a?b:c})?d:e}
";

#[test]
fn operators_bind_by_their_levels(rt: HostRuntime) -> Result<(), Fail> {
    compare(rt.alloc(), Question::Grouping, SHAPES, 24)
}
