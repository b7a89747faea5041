// Functions on objects, and those that take arrays as well.

use crate::table::check;
use std::test::Fail;

const UNIONS: &str = r#"union [["one","two","one"],["three","two"]] -> ["one","two","three"]
union [[[1],[1]]] -> [[1]]
union [{"a":{"x":1,"y":[1]}},{"a":{"y":[2],"z":3}}] -> {"a":{"x":1,"y":[2],"z":3}}
union [{"a":1,"k":0},{"a":{},"K":1}] -> {"K":1,"a":{},"k":0}
union [{"a":1},{"a":2},{"a":3}] -> {"a":3}
union [{"a":1},[1]] -> none
union [[1],{"a":1}] -> none
intersection [[1,2,2,3],[3,2]] -> [2,3]
intersection [[1],[2]] -> []
intersection [{"one":"a","two":"b","three":[1]},{"one":"a","two":"z","three":[1]}] -> {"one":"a","three":[1]}
intersection [{"a":1},{"A":1}] -> {}
intersection [{"a":1},[1]] -> none
intersection [1,1] -> none"#;

#[test]
fn unions_take_the_later_and_intersections_what_is_in_all(rt: HostRuntime) -> Result<(), Fail> {
    check(rt.alloc(), UNIONS)
}

const OBJECTS: &str = r#"createObject ["b",1,"a",[2]] -> {"a":[2],"b":1}
createObject ["a",1,"a",2] -> {"a":2}
createObject [] -> {}
createObject ["a"] -> none
createObject [1,2] -> none
objectKeys [{"b":1,"a":2,"B":3}] -> ["B","a","b"]
objectKeys [[1]] -> none
objectKeys [1] -> none
items [{"b":1,"a":[2]}] -> [{"key":"a","value":[2]},{"key":"b","value":1}]
items [{}] -> []
items ["a"] -> none
items [[]] -> none"#;

#[test]
fn objects_are_made_of_names_and_values_in_turn(rt: HostRuntime) -> Result<(), Fail> {
    check(rt.alloc(), OBJECTS)
}

const MEMBERS: &str = r#"tryGet [{"Sku":{"name":"x"}},"sku","name"] -> "x"
tryGet [{"a":1},"b"] -> null
tryGet [{"a":1},"b","c",0] -> null
tryGet [[1,[2]],1,0] -> 2
tryGet [[1],5] -> null
tryGet [[1],-1] -> null
tryGet [[1],"a"] -> null
tryGet [{"a":1},0] -> null
tryGet [null,"a"] -> null
tryGet [1,"a"] -> none
tryGet [{"a":1},"a","b"] -> none
tryGet [{"a":1},true] -> none
tryGet [{"a":[1,2]},"A",1] -> 2"#;

#[test]
fn a_part_that_is_missing_is_null(rt: HostRuntime) -> Result<(), Fail> {
    check(rt.alloc(), MEMBERS)
}
