// Types of literals, names, fields, operators and accesses.

use crate::typing::check;
use std::test::Fail;

const NAMES: &str = "Text|'a'
Int|1
Bool|true
Bool|false
Null|null
Text|'a${i}b${null}'
Text|'a${r.id}'
|'a${^r}'
Object|{}
Object|{ a: 1, b: [ r.x ] }
|{ a: 1, b: [ ^r ] }
Array|[]
Array|[ 1, 'a', o ]
|[ 1, ^rs ]
Object|{ a: [for x in a: x.y] }
|{ a: [for x in ^o: 1] }
|{ a: [for x in a: ^m] }
Array|[for (x, n) in a: n + 1]
Array|[for x in v: x + 1]
|[for (x, n) in a: '${^n ? 1 : 2}']
Text|t
Int|i
Bool|b
Object|o
Array|a
Any|v
Text|r.id
Text|r.name
Text|r.type
Text|r.apiVersion
Any|r.properties
Any|r.sku
Text|r::c.id
Text|rs[0].name
Text|rs[v].id
|rs[^t].id
|^rs.id
|^r[0].id
|^r['id']
|^r
|^rs
|^rs[0]
|^r::c
Text|m.name
Text|ms[i].name
|m.^id
|m.^properties
|m.^outputs
|^ms.name
Text|m.outputs.text
Array|m.outputs.list
Array|ms[0].outputs.list
|^ms.outputs.list
|^m.?outputs
|^r.?id
";

const OPERATORS: &str = "Int|1 + i
Int|1 - v
Int|v * v
Int|i / 2
Int|i % 2
|^t + 'a'
|i + ^t
|i - ^true
|^null * 1
|i / ^a
|^o % 2
Int|-i
Int|-v
|-^t
Bool|!b
Bool|!v
|!^i
Bool|1 < i
Bool|t <= 'a'
Bool|v > 1
Bool|v > 'a'
Bool|i >= v
Bool|v < v
|1 < ^t
|t >= ^1
|^b < b
|v < ^b
|^a > a
Bool|1 == 'a'
Bool|null != o
Bool|a == a
|1 == ^r
Bool|t =~ 'A'
Bool|v !~ t
|t =~ ^1
|^i !~ t
Bool|b && v
Bool|v || b
|b && ^1
|^t || b
Text|t ?? 'a'
Any|t ?? 1
Any|null ?? t
Null|null ?? null
Any|v ?? 1
|t ?? ^r
Int|b ? 1 : i
Any|b ? 1 : t
Any|v ? 1 : null
Object|v ? o : {}
|^i ? 1 : 2
|^t ? 1 : 2
|b ? ^r : 2
|b ? 1 : -^t
";

const ACCESSES: &str = "Any|o.x
Any|v.x
|^a.x
|^t.x
|^null.x
Any|o['x']
Any|a[0]
Any|a[v]
Any|v[0]
Any|v['x']
Any|o[v]
|o[^1]
|a[^t]
|^t[0]
|v[^true]
|^i[0]
Any|o.?x
Any|a.?x
Any|null.?x
|^t.?x
|^i.?x
Any|o[?'x']
Any|a[?0]
Any|o[?0]
Any|a[?'x']
Any|null[?0]
|a[?^true]
|^t[?0]
Any|(o!).x
Any|o.x.y[0].z
Int|length(o.x) + 1
";

#[test]
fn names_fields_and_literals_have_their_types(rt: HostRuntime) -> Result<(), Fail> {
    check(rt.alloc(), NAMES)
}

#[test]
fn operators_take_their_kinds(rt: HostRuntime) -> Result<(), Fail> {
    check(rt.alloc(), OPERATORS)
}

#[test]
fn accesses_take_objects_and_arrays(rt: HostRuntime) -> Result<(), Fail> {
    check(rt.alloc(), ACCESSES)
}
