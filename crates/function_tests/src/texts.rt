// Functions that look for parts of texts, and cut them.

use crate::table::check;
use std::test::Fail;

const LETTERS: &str = r#"toLower ["One Two Ä"] -> "one two Ä"
toLower [1] -> none
toUpper ["One Two ä"] -> "ONE TWO ä"
toUpper [null] -> none
trim ["\t one  two \r\n"] -> "one  two"
trim [" "] -> ""
trim [""] -> ""
trim ["\u00a0a"] | length -> 2
trim [1] -> none
trim [[]] -> none"#;

#[test]
fn letters_are_those_of_ascii(rt: HostRuntime) -> Result<(), Fail> {
    check(rt.alloc(), LETTERS)
}

const ENDS: &str = r#"startsWith ["abcdef","AB"] -> true
startsWith ["abcdef","e"] -> false
startsWith ["a",""] -> true
startsWith ["a","ab"] -> false
startsWith ["Ä","ä"] -> false
startsWith [1,"a"] -> none
startsWith ["abc",1] -> none
endsWith ["abcdef","EF"] -> true
endsWith ["abcdef","e"] -> false
endsWith ["f","ef"] -> false
endsWith ["a",""] -> true
endsWith ["a",1] -> none
endsWith [["a"],"a"] -> none"#;

#[test]
fn ends_compare_folded(rt: HostRuntime) -> Result<(), Fail> {
    check(rt.alloc(), ENDS)
}

const PLACES: &str = r#"indexOf ["test","t"] -> 0
indexOf ["abcdef","CD"] -> 2
indexOf ["abcdef","z"] -> -1
indexOf ["abc",""] -> 0
indexOf ["",""] -> 0
indexOf [[1,"a",1],1] -> 0
indexOf [["a"],"A"] -> -1
indexOf [{},"a"] -> none
indexOf ["a",1] -> none
indexOf ["test","T"] -> 0
indexOf [1,1] -> none
indexOf [["one",[2],"one"],"one"] -> 0
indexOf [["one",[2],"one"],null] -> -1
lastIndexOf ["test","T"] -> 3
lastIndexOf ["aaa","aa"] -> 1
lastIndexOf ["abc",""] -> 3
lastIndexOf ["abc","z"] -> -1
lastIndexOf [[1,2,1],1] -> 2
lastIndexOf [[],1] -> -1
lastIndexOf [1,1] -> none
lastIndexOf [["one",[2],"one"],"one"] -> 2
lastIndexOf [["one",[2],"one"],null] -> -1"#;

#[test]
fn places_are_counted_from_0(rt: HostRuntime) -> Result<(), Fail> {
    check(rt.alloc(), PLACES)
}

const CONTAINED: &str = r#"contains ["OneTwoThree","Two"] -> true
contains ["OneTwoThree","two"] -> false
contains ["a",""] -> true
contains [["one","two"],"two"] -> true
contains [["one"],"One"] -> false
contains [{"one":"a"},"ONE"] -> true
contains [{"one":"a"},"a"] -> false
contains [{"one":"a"},1] -> none
contains [null,"a"] -> none
contains ["abc",1] -> none
contains [{"Sku":null},"sKU"] -> true
contains [{"Sku":null},"sk"] -> false"#;

#[test]
fn texts_contain_parts_arrays_items_and_objects_names(rt: HostRuntime) -> Result<(), Fail> {
    check(rt.alloc(), CONTAINED)
}

const CUTS: &str = r#"substring ["one two three",4,3] -> "two"
substring ["éa😀b",1,2] -> "a😀"
substring ["abc",1] -> "bc"
substring ["abc",3] -> ""
substring ["abc",4] -> none
substring ["abc",3,0] -> ""
substring ["abc",2,2] -> none
substring ["abc",-1,2] -> none
substring ["abc",0,-1] -> none
substring ["abc",9223372036854775807,9223372036854775807] -> none
substring ["abc","1"] -> none"#;

#[test]
fn a_part_past_the_end_has_no_value(rt: HostRuntime) -> Result<(), Fail> {
    check(rt.alloc(), CUTS)
}

const REPLACED: &str = r#"replace ["123-123-1234","-",""] -> "1231231234"
replace ["aaa","aa","b"] -> "ba"
replace ["abab","ab","abab"] -> "abababab"
replace ["abc","B","x"] -> "abc"
replace ["abc","","x"] -> none
replace ["abc","b",1] -> none"#;

#[test]
fn parts_are_replaced_from_the_left(rt: HostRuntime) -> Result<(), Fail> {
    check(rt.alloc(), REPLACED)
}

const PIECES: &str = r#"split ["one,two,three",","] -> ["one","two","three"]
split [",a,",","] -> ["","a",""]
split ["one;two,three",[",",";"]] -> ["one","two","three"]
split ["a--b-c",["-","--"]] -> ["a","","b","c"]
split ["a--b-c",["--","-"]] -> ["a","b","c"]
split ["",","] -> [""]
split ["a",""] -> none
split ["a",[]] -> none
split ["a",[",",""]] -> none
split ["a",[1]] -> none
split [["a"],","] -> none"#;

#[test]
fn a_text_is_cut_at_the_earliest_delimiter(rt: HostRuntime) -> Result<(), Fail> {
    check(rt.alloc(), PIECES)
}
