// Functions (Microsoft Learn, "Bicep functions").

use crate::rows::check;
use std::rt::HostRuntime;
use std::test::Fail;

const ARRAYS: &str = r#"array('efg') -> ["efg"]
array(1) -> [1]
array([ 1, 2 ]) -> [1,2]
concat([ '1-1', '1-2' ], [ '2-1' ]) -> ["1-1","1-2","2-1"]
contains([ 'one', 'two', 'three' ], 'three') -> true
contains([ 'one', 'two', 'three' ], 'four') -> false
empty([]) -> true
empty(a) -> false
first([ 'one', 'two', 'three' ]) -> "one"
first('One Two Three') -> "O"
flatten([ [ 'one', 'two' ], [ 'three' ], [ 'four', 'five' ] ]) -> ["one","two","three","four","five"]
intersection([ 1, 2, 3, 4, 5 ], [ 3, 4, 5, 6 ]) -> [3,4,5]
last([ 'one', 'two', 'three' ]) -> "three"
last('One Two Three') -> "e"
length([ 'one', 'two', 'three' ]) -> 3
length('One Two Three') -> 13
length({ one: 1, two: 2 }) -> 2
max([ 0, 3, 2, 5, 4 ]) -> 5
max(0, 3, 2, 5, 4) -> 5
min([ 0, 3, 2, 5, 4 ]) -> 0
range(5, 3) -> [5,6,7]
skip([ 'one', 'two', 'three' ], 2) -> ["three"]
skip('one two three', 4) -> "two three"
take([ 'one', 'two', 'three' ], 2) -> ["one","two"]
take('one two three', 2) -> "on"
union([ 'one', 'two', 'three' ], [ 'three', 'four' ]) -> ["one","two","three","four"]"#;

#[test]
fn functions_on_arrays(rt: HostRuntime) -> Result<(), Fail> {
    check(rt.alloc(), ARRAYS)
}

const OBJECTS: &str = r#"contains({ one: 'abc' }, 'one') -> true
contains(o, 'x') -> false
empty({}) -> true
intersection({ one: 'a', two: 'b' }, { one: 'a', two: 'z' }) -> {"one":"a"}
items({ b: 2, a: 1 }) -> [{"key":"a","value":1},{"key":"b","value":2}]
json('null') -> null
json('{"one":"a"}') -> {"one":"a"}
json('[1,2]')[1] -> 2
objectKeys(o) -> ["a","b","n"]
union({ one: 'a' }, { two: 'b' }) -> {"one":"a","two":"b"}
int('4') -> 4
int('x') -> none
bool('true') -> true
bool(1) -> true
bool(0) -> false"#;

#[test]
fn functions_on_objects(rt: HostRuntime) -> Result<(), Fail> {
    check(rt.alloc(), OBJECTS)
}

const TEXTS: &str = r#"base64('one, two, three') -> "b25lLCB0d28sIHRocmVl"
base64ToString('b25lLCB0d28sIHRocmVl') -> "one, two, three"
concat('prefix', '-', 5) -> "prefix-5"
contains('OneTwoThree', 'e') -> true
contains('OneTwoThree', 'z') -> false
empty('') -> true
endsWith('abcdef', 'ef') -> true
endsWith('abcdef', 'F') -> true
endsWith('abcdef', 'e') -> false
format('{0}, {1}. Number: {2}', 'Hello', 'User', 8175133) -> "Hello, User. Number: 8175133"
indexOf('test', 't') -> 0
indexOf('abcdef', 'CD') -> 2
indexOf('abcdef', 'z') -> -1
join([ 'one', 'two', 'three' ], ',') -> "one,two,three"
lastIndexOf('test', 't') -> 3
padLeft('123', 10, '0') -> "0000000123"
replace('123-123-1234', '-', '') -> "1231231234"
split('one,two,three', ',') -> ["one","two","three"]
split('one;two,three', [ ',', ';' ]) -> ["one","two","three"]
startsWith('abcdef', 'AB') -> true
string([ 'a', 1 ]) -> "[\"a\",1]"
string(5) -> "5"
substring('one two three', 4, 3) -> "two"
substring('one', 4, 3) -> none
toLower('One Two Three') -> "one two three"
toUpper('One Two Three') -> "ONE TWO THREE"
trim('    one two three   ') -> "one two three"
length(uniqueString('a', 'b')) -> 13
length(guid('a')) -> 36"#;

#[test]
fn functions_on_texts(rt: HostRuntime) -> Result<(), Fail> {
    check(rt.alloc(), TEXTS)
}

const PLACES: &str = r#"resourceGroup().name -> "g"
resourceGroup().id -> "/subscriptions/s/resourceGroups/g"
az.resourceGroup().location -> "westeurope"
resourceGroup().properties.provisioningState -> "Succeeded"
subscription().subscriptionId -> "s"
subscription().id -> "/subscriptions/s"
deployment().name -> "main"
resourceId('T.N/a', 'x') -> "/subscriptions/s/resourceGroups/g/providers/T.N/a/x"
resourceId('h', 'T.N/a/b', 'x', 'y') -> "/subscriptions/s/resourceGroups/h/providers/T.N/a/x/b/y"
resourceId('T.N/a', 1) -> none
resourceId('T.N', 'x') -> none
subscriptionResourceId('T.N/a', 'x') -> "/subscriptions/s/providers/T.N/a/x""#;

#[test]
fn functions_of_the_place(rt: HostRuntime) -> Result<(), Fail> {
    check(rt.alloc(), PLACES)
}

const LAZY: &str = r#"coalesce(null, o.n, 'x', never) -> "x"
coalesce(1, late) -> 1
coalesce(null, late) -> waits for 5
coalesce(null) -> null
coalesce(never, 1) -> none
concat('a', never, late) -> waits for 5
concat('a', late, never) -> waits for 5
length(never) -> none
toUpper(t) -> "TEXT"
toUpper(1) -> none"#;

#[test]
fn calls_look_at_all_arguments_but_those_of_coalesce(rt: HostRuntime) -> Result<(), Fail> {
    check(rt.alloc(), LAZY)
}
