// Literals and accesses (Microsoft Learn, "Bicep operators", accessors).

use crate::rows::check;
use std::rt::HostRuntime;
use std::test::Fail;

const LITERALS: &str = r#"null -> null
'a' -> "a"
'it\'s' -> "it's"
true -> true
{} -> {}
[] -> []
{ a: 1, 'b c': [ 'x' ] } -> {"a":1,"b c":["x"]}
[ 1, [ 2 ], {} ] -> [1,[2],{}]
'a${1}b${true}c' -> "a1bTruec"
'${null}' -> ""
'${a}' -> "[1,2,3]"
'${never}${late}' -> waits for 5
[ never, late ] -> waits for 5
[ late, never ] -> waits for 5
[ never ] -> none
{ a: never, b: late } -> waits for 5
{ a: late, b: 1 } -> waits for 5
{ a: never } -> none"#;

#[test]
fn literals(rt: HostRuntime) -> Result<(), Fail> {
    check(rt.alloc(), LITERALS)
}

const PARTS: &str = r#"o.a -> 1
o.A -> 1
o.b.c -> [10,20]
o.b.c[1] -> 20
o.b.c[2] -> none
o.b.c[-1] -> none
o['a'] -> 1
o['b']['c'][0] -> 10
o.x -> none
o.?x -> null
o.?a -> 1
o.n.x -> none
o.n.?x -> null
o.?x.?y -> null
o.?x.y -> none
a.?x -> null
a[?1] -> 2
a[?7] -> null
a['x'] -> none
a[?'x'] -> null
o[?1] -> null
t.x -> none
t.?x -> none
1.?x -> none
never[late] -> waits for 5
late[never] -> waits for 5
never.x -> none
late.?x -> waits for 5"#;

#[test]
fn parts(rt: HostRuntime) -> Result<(), Fail> {
    check(rt.alloc(), PARTS)
}
