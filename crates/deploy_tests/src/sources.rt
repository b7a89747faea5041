// What is refused of files, parameter files and values: each reason once, with its line.

use crate::rows::check_rows;
use std::test::Fail;

const TOKENS: &str = r#"deploy main.bicep --group g --name d
var a = 1 ~ 2
=> 1 error BadCharacter: main.bicep:10

deploy main.bicep --group g --name d
var a = 'x\q'
=> 1 error BadEscape: main.bicep:10

deploy main.bicep --group g --name d
var a = 1 /* x
=> 1 error OpenComment: main.bicep:10

deploy main.bicep --group g --name d
var a = 9223372036854775808
=> 1 error BadNumber: main.bicep:8"#;

#[test]
fn tokens(rt: HostRuntime) -> Result<(), Fail> {
    check_rows(&rt, rt.alloc(), TOKENS)
}

const CHECKS: &str = r#"deploy main.bicep --group g --name d
var a = 1
var A = 2
=> 1 error NameTwice: main.bicep:14

deploy main.bicep --group g --name d
var b = 1 + 'x'
=> 1 error WrongType: main.bicep:12

build main.bicep
module m 'm.bicep' = {
}
--- m.bicep
var b = 1 + 'x'
=> 1 error WrongType: m.bicep:12

deploy main.bicep --group g --name d
var a = 1
@secure()
param p int
=> 1 error BadDecorator: main.bicep:10

deploy main.bicep --group g --name d
targetScope = 'subscription'
=> 1 error BadForPlace: main.bicep:14

deploy main.bicep --group g --name d
module m 'm.bicep' = {
}
--- m.bicep
param p string
=> 1 error MissingModuleParameter: main.bicep:7

deploy main.bicep --group g --name d
module m 'm.bicep' = {
  params: {
    P: ''
    r: 1
  }
}
--- m.bicep
param p string
=> 1 error ExtraModuleParameter: main.bicep:49"#;

#[test]
fn checks(rt: HostRuntime) -> Result<(), Fail> {
    check_rows(&rt, rt.alloc(), CHECKS)
}

const FILES: &str = r#"deploy main.bicep --group g --name d --parameters no.json
param size int = 2
=> 1 error FileMissing: no.json

deploy main.bicep --group g --name d --parameters p.json
param size int = 2
--- p.json
{
=> 1 error NotJson: p.json

deploy main.bicep --group g --name d --parameters p.json
param size int = 2
--- p.json
{"parameters":{"size":{"value":1.5}}}
=> 1 error NotWhole: p.json

deploy main.bicep --group g --name d --parameters p.json
param size int = 2
--- p.json
[[[[[[[[[[[[[[[[[[[[[[[[[[[[[[[[[[[[[[[[[[[[[[[[[[[[[[[[[[[[[
[[[[[[[[[[[[[[[[[[[[[[[[[[[[[[[[[[[[[[[[[[[[[[[[[[[[[[[[[[[[
]]]]]]]]]]]]]]]]]]]]]]]]]]]]]]]]]]]]]]]]]]]]]]]]]]]]]]]]]]]]]
]]]]]]]]]]]]]]]]]]]]]]]]]]]]]]]]]]]]]]]]]]]]]]]]]]]]]]]]]]]]
=> 1 error TooDeep: p.json

deploy main.bicep --group g --name d --parameters p.json
param size int = 2
--- p.json
[]
=> 1 error WrongForm: p.json"#;

#[test]
fn parameter_files(rt: HostRuntime) -> Result<(), Fail> {
    check_rows(&rt, rt.alloc(), FILES)
}

const VALUES: &str = r#"deploy main.bicep --group g --name d --parameters p.json
param size int = 2
--- p.json
{"parameters":{"size":{"value":"x"}}}
=> 1 error InvalidParameter: WrongType size

deploy main.bicep --group g --name d --parameters p.json
@allowed([ 1, 2 ])
param size int = 1
--- p.json
{"parameters":{"size":{"value":3}}}
=> 1 error InvalidParameter: NotAllowed size

deploy main.bicep --group g --name d
module m 'm.bicep' = {
  params: { p: 4 }
}
--- m.bicep
@maxValue(3)
param p int
=> 1 error InvalidTemplate: Bind /resources/0/properties/template/parameters/p OutOfBounds p

deploy main.bicep --group g --name d
resource a 'Demo.Lab/things@2024-01-01' = [for i in range(0, 801): {
  name: 'a${i}'
}]
=> 1 error InvalidTemplate: Limit Count 801"#;

#[test]
fn values(rt: HostRuntime) -> Result<(), Fail> {
    check_rows(&rt, rt.alloc(), VALUES)
}
