// What each value becomes (Microsoft Learn, "Property iteration in ARM templates", "Template expressions").

use crate::rows::check;
use std::rt::HostRuntime;
use std::test::Fail;

const PLAIN: &str = r#"'a' -> "a"
'[x]' -> "[[x]"
'[[x]' -> "[[[x]"
'[x' -> "[x"
'[]' -> "[[]"
'it\'s' -> "it's"
7 -> 7
-1 -> -1
-9223372036854775807 -> -9223372036854775807
true -> true
false -> false
null -> null
[] -> []
{} -> {}
[1, ['[x]'], {}] -> [1,["[[x]"],{}]
{ b: 1, a: [2], 'c d': null } -> {"a":[2],"b":1,"c d":null}"#;

#[test]
fn literals_are_json(rt: HostRuntime) -> Result<(), Fail> {
    check(rt.alloc(), PLAIN)
}

const EXPRESSIONS: &str = r#"v0 -> "[parameters('p')]"
-v0 -> "[sub(0, parameters('p'))]"
-(-1) -> "[sub(0, sub(0, 1))]"
!true -> "[not(true())]"
1 + 2 -> "[add(1, 2)]"
'a${v0}' -> "[format('a{0}', parameters('p'))]"
[1, v0, [true ? 'x' : v0]] -> [1,"[parameters('p')]",["[if(true(), 'x', parameters('p'))]"]]
{ a: 1, b: v0, c: { d: v0.e } } -> {"a":1,"b":"[parameters('p')]","c":{"d":"[parameters('p').e]"}}
length([1, v0]) -> "[length(createArray(1, parameters('p')))]"
{ copy: 1 } -> "[createObject('copy', 1)]"
{ a: 1, copy: ['[x]', v0] } -> "[createObject('a', 1, 'copy', createArray('[x]', parameters('p')))]"
{ Copy: 1 } -> {"Copy":1}
[{ copy: 1 }, { b: { copy: v0 } }] -> ["[createObject('copy', 1)]",{"b":"[createObject('copy', parameters('p'))]"}]"#;

#[test]
fn all_else_is_an_expression(rt: HostRuntime) -> Result<(), Fail> {
    check(rt.alloc(), EXPRESSIONS)
}

const LOOPS: &str = concat!(
    r#"{ n: [for x in v0: x] } -> {"copy":[{"count":"[length(parameters('p'))]","#,
    r#""input":"[parameters('p')[copyIndex('n')]]","name":"n"}]}"#,
    "\n",
    r#"{ n: [for (x, i) in v0: { a: x, b: i }] } -> {"copy":[{"count":"[length(parameters('p'))]","#,
    r#""input":{"a":"[parameters('p')[copyIndex('n')]]","b":"[copyIndex('n')]"},"name":"n"}]}"#,
    "\n",
    r#"{ b: [for x in v0: 0], a: 1, c: [for x in [2]: [x]] } -> {"a":1,"copy":["#,
    r#"{"count":"[length(parameters('p'))]","input":0,"name":"b"},"#,
    r#"{"count":"[length(createArray(2))]","input":["[createArray(2)[copyIndex('c')]]"],"name":"c"}]}"#,
    "\n",
    r#"[{ 'it\'s': [for (x, i) in v0: { copy: i }] }] -> [{"copy":[{"count":"[length(parameters('p'))]","#,
    r#""input":"[createObject('copy', copyIndex('it''s'))]","name":"it's"}]}]"#,
);

#[test]
fn a_loop_of_a_member_has_its_name(rt: HostRuntime) -> Result<(), Fail> {
    check(rt.alloc(), LOOPS)
}

const LIMITS: &str = concat!(
    r#"v2 -> "[format('{0}{1}', format('{0}{1}', parameters('p'), parameters('p')), "#,
    r#"format('{0}{1}', parameters('p'), parameters('p')))]""#,
    "\nv40 -> 38482906972142 characters\n",
    "v70 -> 18446744073709551615 characters\n",
    "{ a: [1, { n: [for x in v40: 0] }] } -> 38482906972150 characters\n",
    "{ a: v40, b: -v40 } -> 38482906972150 characters",
);

#[test]
fn what_is_beyond_a_limit_is_not_built(rt: HostRuntime) -> Result<(), Fail> {
    check(rt.alloc(), LIMITS)
}

const NESTING: &str = concat!(
    r#"!!!!!!!!!!!!!!!!!!!!!!!!!!!!!!!!!!!!!!!!!!!!!!!!!!!!!!!!!!!!!!!v0 -> "["#,
    "not(not(not(not(not(not(not(not(not(not(not(not(not(not(not(not(not(not(not(not(not(not(not(not(not(",
    "not(not(not(not(not(not(not(not(not(not(not(not(not(not(not(not(not(not(not(not(not(not(not(not(not(",
    "not(not(not(not(not(not(not(not(not(not(not(not(not(",
    r#"parameters('p'))))))))))))))))))))))))))))))))))))))))))))))))))))))))))))))))]""#,
    "\n!!!!!!!!!!!!!!!!!!!!!!!!!!!!!!!!!!!!!!!!!!!!!!!!!!!!!!!!!!!!!!!!v0 -> too deep",
);

#[test]
fn what_nests_above_64_is_not_built(rt: HostRuntime) -> Result<(), Fail> {
    check(rt.alloc(), NESTING)
}

const WHOLE: &str = concat!(
    r#"[for x in v0: x] -> [length(parameters('p'))] times "[parameters('p')[copyIndex('w')]]""#,
    r#" or [length(parameters('p'))] times "[parameters('p')[copyIndex()]]""#,
    "\n",
    r#"[for (x, i) in [1]: { n: [for y in x: i] }] -> "#,
    r#"[length(createArray(1))] times {"copy":[{"count":"[length(createArray(1)[copyIndex('w')])]","#,
    r#""input":"[copyIndex('w')]","name":"n"}]}"#,
    r#" or [length(createArray(1))] times {"copy":[{"count":"[length(createArray(1)[copyIndex()])]","#,
    r#""input":"[copyIndex()]","name":"n"}]}"#,
);

#[test]
fn a_loop_of_a_variable_has_its_name(rt: HostRuntime) -> Result<(), Fail> {
    check(rt.alloc(), WHOLE)
}
