// What each construct becomes (Microsoft Learn, "Bicep operators", "Template functions").

use crate::rows::check;
use std::rt::HostRuntime;
use std::test::Fail;

const VALUES: &str = r#"'it\'s' -> 'it''s'
7 -> 7
true -> true()
false -> false()
null -> null()
'[x]' -> '[x]'
'{a}${p}' -> format('{{a}}{0}', parameters('p'))
'a${p}b${v}c' -> format('a{0}b{1}c', parameters('p'), variables('v'))
'st${uniqueString(resourceGroup().id)}' -> format('st{0}', uniqueString(resourceGroup().id))
{} -> createObject()
{ a: 1, 'b c': p } -> createObject('a', 1, 'b c', parameters('p'))
{ copy: [ 1 ] } -> createObject('copy', createArray(1))
[] -> createArray()
[ 1, [ v ] ] -> createArray(1, createArray(variables('v')))"#;

#[test]
fn literals_texts_and_lists(rt: HostRuntime) -> Result<(), Fail> {
    check(rt.alloc(), VALUES)
}

const OPERATORS: &str = r#"1 + v * 2 - 3 -> sub(add(1, mul(variables('v'), 2)), 3)
v / 2 % 3 -> mod(div(variables('v'), 2), 3)
-v -> sub(0, variables('v'))
-1 -> sub(0, 1)
v < 1 -> less(variables('v'), 1)
v <= 1 -> lessOrEquals(variables('v'), 1)
v > 1 -> greater(variables('v'), 1)
v >= 1 -> greaterOrEquals(variables('v'), 1)
p == 'a' -> equals(parameters('p'), 'a')
p != 'a' -> not(equals(parameters('p'), 'a'))
p =~ 'A' -> equals(toLower(parameters('p')), toLower('A'))
p !~ 'A' -> not(equals(toLower(parameters('p')), toLower('A')))
true && !false || true -> or(and(true(), not(false())), true())
p ?? 'b' -> coalesce(parameters('p'), 'b')
true ? p : v -> if(true(), parameters('p'), variables('v'))"#;

#[test]
fn operators(rt: HostRuntime) -> Result<(), Fail> {
    check(rt.alloc(), OPERATORS)
}

const ACCESSES: &str = r#"v.n -> variables('v').n
v.?n -> tryGet(variables('v'), 'n')
v[0] -> variables('v')[0]
v[?p] -> tryGet(variables('v'), parameters('p'))
v!.n -> variables('v').n
(v) -> variables('v')
sys.TOLOWER(p) -> toLower(parameters('p'))
concat(p, 'x') -> concat(parameters('p'), 'x')
resourceId('T.N/a', p) -> resourceId('T.N/a', parameters('p'))
base64ToString(p) -> base64ToString(parameters('p'))
objectkeys(v) -> objectKeys(variables('v'))"#;

#[test]
fn accesses_and_calls(rt: HostRuntime) -> Result<(), Fail> {
    check(rt.alloc(), ACCESSES)
}

const RESOURCES: &str = r#"r.id -> resourceId('T.N/a', add())
r.name -> add()
r.apiVersion -> ''
r.properties.a.b -> reference(resourceId('T.N/a', add()), '').a.b
r.location -> reference(resourceId('T.N/a', add()), '', 'Full').location
l[v].id -> resourceId('T.N/a', variables('v'))
l[v].name -> parameters('xs')[variables('v')]
l[v].type -> ''
l[v].properties -> reference(resourceId('T.N/a', variables('v')), '')
l[0].properties.a -> reference(resourceId('T.N/a', 0), '').a
l[0].tags -> reference(resourceId('T.N/a', 0), '', 'Full').tags
[for x in xs: x.a] -> parameters('xs')[copyIndex()].a
[for (x, i) in xs: i + 1] -> add(copyIndex(), 1)
[for (x, i) in xs: l[i].name] -> parameters('xs')[copyIndex()]
[for (x, i) in xs: '${x}-${i}'] -> format('{0}-{1}', parameters('xs')[copyIndex()], copyIndex())
[for x in xs: l[x.n].id] -> resourceId('T.N/a', parameters('xs')[copyIndex()].n)"#;

#[test]
fn resources_and_loops(rt: HostRuntime) -> Result<(), Fail> {
    check(rt.alloc(), RESOURCES)
}

const MODULES: &str = r#"m.name -> add()
m.outputs.o -> reference(resourceId('Microsoft.Resources/deployments', add())).outputs.o.value
m.outputs.last.n -> reference(resourceId('Microsoft.Resources/deployments', add())).outputs.last.value.n
ms[v].name -> parameters('xs')[variables('v')]
ms[0].outputs.o -> reference(resourceId('Microsoft.Resources/deployments', parameters('xs')[0])).outputs.o.value"#;

#[test]
fn modules(rt: HostRuntime) -> Result<(), Fail> {
    check(rt.alloc(), MODULES)
}
