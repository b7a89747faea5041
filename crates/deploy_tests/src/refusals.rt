// What is refused before anything is put.

use crate::rows::check_rows;
use std::test::Fail;

const SOURCES: &str = r#"deploy no.bicep --group g --name d
=> 1 error ModuleMissing: no.bicep

deploy main.bicep --group g --name d
var a = 'x
=> 1 error OpenText: main.bicep:8

deploy main.bicep --group g --name d
var a = 5 5
=> 1 error NotAFile: main.bicep:10

deploy main.bicep --group g --name d
module m 'no.bicep' = {
}
=> 1 error ModuleMissing: main.bicep

deploy main.bicep --group g --name d
module m 'm.bicep' = {
}
--- m.bicep
module n 'main.bicep' = {
}
=> 1 error ModuleCycle: main.bicep m.bicep

deploy main.bicep --group g --name d
var a = b
=> 1 error UnknownName: main.bicep:8

deploy main.bicep --group g --name d
module a 'm.bicep' = {
  params: { p: b.outputs.o }
}
module b 'm.bicep' = {
  params: { p: a.outputs.o }
}
--- m.bicep
param p string
output o string = p
=> 1 error SymbolCycle: a b"#;

#[test]
fn sources(rt: HostRuntime) -> Result<(), Fail> {
    check_rows(&rt, rt.alloc(), SOURCES)
}

const PARAMETERS: &str = r#"deploy main.bicep --group g --name d --parameters p.json
@maxValue(3)
param size int = 2
--- p.json
{"parameters":{"size":{"value":5}}}
=> 1 error InvalidParameter: OutOfBounds size

deploy main.bicep --group g --name d --parameters p.json
@maxValue(3)
param size int = 2
--- p.json
{"parameters":{"x":{"value":1}}}
=> 1 error InvalidParameter: ExtraParameter x

deploy main.bicep --group g --name d --parameters p.json
@maxValue(3)
param size int = 2
--- p.json
{"parameters":{"Size":{"value":3}}}
=> 0 Succeeded d

deploy main.bicep --group g --name d
param x int
=> 1 error InvalidParameter: MissingParameter x

deploy main.bicep --group g/h --name d
=> 1 error InvalidParameter: BadName g/h

deploy main.bicep --group g --name d/e
=> 1 error InvalidParameter: BadName d/e"#;

#[test]
fn parameters_and_names(rt: HostRuntime) -> Result<(), Fail> {
    check_rows(&rt, rt.alloc(), PARAMETERS)
}

const NAMES: &str =
    r#"deploy main.bicep --group gggggggggggggggggggggggggggggg----------..........(((((((((())))))))))__________9999999999 --name nnnnnnnnnnnnnnnnnnnnnnnnnnnnnn----------.(_).(_).(_).(_).(_).(_)
=> 0 Succeeded nnnnnnnnnnnnnnnnnnnnnnnnnnnnnn----------.(_).(_).(_).(_).(_).(_)

deploy main.bicep --group gggggggggggggggggggggggggggggg----------..........(((((((((())))))))))__________9999999999G --name d
=> 1 error InvalidParameter: BadName gggggggggggggggggggggggggggggg----------..........(((((((((())))))))))__________9999999999G

deploy main.bicep --group g --name nnnnnnnnnnnnnnnnnnnnnnnnnnnnnn----------.(_).(_).(_).(_).(_).(_)N
=> 1 error InvalidParameter: BadName nnnnnnnnnnnnnnnnnnnnnnnnnnnnnn----------.(_).(_).(_).(_).(_).(_)N

deploy main.bicep --group g --name=-
=> 1 error InvalidParameter: BadName -

deploy main.bicep --group .(g)_- --name .(d)_-
=> 0 Succeeded .(d)_-"#;

#[test]
fn names_at_and_beyond_their_limits(rt: HostRuntime) -> Result<(), Fail> {
    check_rows(&rt, rt.alloc(), NAMES)
}

const TEMPLATES: &str = r#"deploy main.bicep --group g --name d
resource a 'Demo.Lab/things@2024-01-01' = if (true) { name: 'a' }
resource b 'Demo.Lab/things@2024-01-01' = if (true) { name: 'a' }
=> 1 error InvalidTemplate: SameKey /resources/0 /resources/1

deploy main.bicep --group g --name d
var v = 1 / 0
=> 1 error InvalidTemplate: NoValue /variables/v

deploy main.bicep --group g --name d
module m 'm.bicep' = {
}
resource a 'Demo.Lab/things@2024-01-01' = {
  name: m.outputs.nm
}
--- m.bicep
resource st 'Demo.Lab/things@2024-01-01' = {
  name: 'st'
}
output nm string = st.properties.x
=> 1 error InvalidTemplate: NotStartKnown /resources/1/name"#;

#[test]
fn templates(rt: HostRuntime) -> Result<(), Fail> {
    check_rows(&rt, rt.alloc(), TEMPLATES)
}
