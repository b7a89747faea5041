// Functions on arrays, and those that take a text as well.

use crate::table::check;
use std::test::Fail;

const SIZES: &str = r#"length ["aé😀"] -> 3
length [[1,[2]]] -> 2
length [{"a":1,"b":2}] -> 2
length [null] -> none
empty [null] -> true
empty [""] -> true
empty [[null]] -> false
empty [{}] -> true
empty [0] -> none"#;

#[test]
fn sizes_are_those_of_characters_items_and_members(rt: HostRuntime) -> Result<(), Fail> {
    check(rt.alloc(), SIZES)
}

const ENDS: &str = r#"first [["one","two"]] -> "one"
first [[]] -> null
first ["éa"] -> "é"
first [""] -> ""
first [{}] -> none
last [["one","two"]] -> "two"
last [[]] -> null
last ["aé"] -> "é"
last [""] -> ""
last [1] -> none"#;

#[test]
fn first_and_last_parts_are_null_or_empty_where_there_is_none(rt: HostRuntime) -> Result<(), Fail> {
    check(rt.alloc(), ENDS)
}

const PARTS: &str = r#"skip [[1,2,3],2] -> [3]
skip [[1,2,3],-1] -> [1,2,3]
skip [[1,2,3],9] -> []
skip ["one two",4] -> "two"
skip ["éa",1] -> "a"
skip [[1],"1"] -> none
skip [1,1] -> none
take [[1,2,3],2] -> [1,2]
take [[1,2,3],-9223372036854775808] -> []
take ["abc",5] -> "abc"
take ["éa",1] -> "é"
take [null,1] -> none
take [{},1] -> none"#;

#[test]
fn skip_and_take_count_from_0_to_the_length(rt: HostRuntime) -> Result<(), Fail> {
    check(rt.alloc(), PARTS)
}

const ARRAYS: &str = r#"array [1] -> [1]
array [[1,2]] -> [1,2]
array [{"a":1}] -> [{"a":1}]
createArray [1,"2",[3]] -> [1,"2",[3]]
createArray [] -> []
flatten [[[1,2],[[3]],[]]] -> [1,2,[3]]
flatten [[[1],2]] -> none
flatten ["a"] -> none
flatten [[1,[2]]] -> none"#;

#[test]
fn arrays_are_made_and_flattened(rt: HostRuntime) -> Result<(), Fail> {
    check(rt.alloc(), ARRAYS)
}
