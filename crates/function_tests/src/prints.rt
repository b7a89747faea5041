// Functions that print values, and the one that reads JSON.

use crate::table::check;
use std::test::Fail;

const PRINTED: &str = r#"string ["a\"b"] -> "a\"b"
string [-12] -> "-12"
string [-9223372036854775808] -> "-9223372036854775808"
string [true] -> "True"
string [false] -> "False"
string [null] -> ""
string [[1, "a"]] -> "[1,\"a\"]"
string [{"b": {}, "a": "é"}] -> "{\"a\":\"é\",\"b\":{}}""#;

#[test]
fn values_are_printed(rt: HostRuntime) -> Result<(), Fail> {
    check(rt.alloc(), PRINTED)
}

const JOINED: &str = r#"concat [[1],[],[2,[3]]] -> [1,2,[3]]
concat [[1],2] -> none
concat ["prefix","-",7,true] -> "prefix-7True"
concat [["1-1"],["2-1",[2]]] -> ["1-1","2-1",[2]]
concat [""] -> ""
concat [[]] -> []
concat ["a",[1]] -> none
concat [[1],"a"] -> none
concat ["a",null] -> none
concat [{}] -> none
join [["one",2,null,[3]],", "] -> "one, 2, , [3]"
join [[],","] -> ""
join [["a"],","] -> "a"
join [["a","b"],""] -> "ab"
join [["a"],1] -> none
join ["a",","] -> none
join ["a","-"] -> none"#;

#[test]
fn arrays_or_scalars_are_joined(rt: HostRuntime) -> Result<(), Fail> {
    check(rt.alloc(), JOINED)
}

const FILLED: &str = r#"padLeft ["123",10,"0"] -> "0000000123"
padLeft [-5,4] -> "  -5"
padLeft ["éa",3,"😀"] -> "😀éa"
padLeft ["abc",2] -> "abc"
padLeft ["abc",-1] -> none
padLeft ["",10000] | length -> 10000
padLeft ["abc",10001] -> none
padLeft ["abc",5,"ab"] -> none
padLeft ["abc",5,""] -> none
padLeft [true,5] -> none
padLeft [42,5,"0"] -> "00042""#;

#[test]
fn texts_are_filled_on_the_left(rt: HostRuntime) -> Result<(), Fail> {
    check(rt.alloc(), FILLED)
}

const FORMATS: &str =
    r#"format ["Hello, {0}. Number: {1}","User",8175] -> "Hello, User. Number: 8175"
format [""] -> ""
format ["{1}{0}{1}","a","b"] -> "bab"
format ["{00}-{001}",1,2] -> "1-2"
format ["{10}",0,1,2,3,4,5,6,7,8,9,"ten"] -> "ten"
format ["{{}}{{0}}",1] -> "{}{0}"
format ["{{{0}}}",1] -> "{1}"
format ["{0}","{0}"] -> "{0}"
format ["é{0}€","😀"] -> "é😀€"
format ["{0}{1}{2}",true,null,-5] -> "True-5"
format ["{0}{1}",[1,"a"],{"b":[]}] -> "[1,\"a\"]{\"b\":[]}""#;

#[test]
fn format_texts_are_filled(rt: HostRuntime) -> Result<(), Fail> {
    check(rt.alloc(), FORMATS)
}

const BRACES: &str = r#"format ["{",1] -> none
format ["}",1] -> none
format ["{}",1] -> none
format ["{x}",1] -> none
format ["{-1}",1] -> none
format ["{0",1] -> none
format ["{0:N0}",1] -> none
format ["{ 0}",1] -> none
format ["{0{",1] -> none
format ["{{{",1] -> none
format ["{1}",1] -> none
format ["{18446744073709551616}",1] -> none
format ["{0}"] -> none
format [7,1] -> none"#;

#[test]
fn other_braces_are_refused(rt: HostRuntime) -> Result<(), Fail> {
    check(rt.alloc(), BRACES)
}

const JSON: &str = r#"json ["{\"b\":1,\"a\":[null,true]}"] -> {"a":[null,true],"b":1}
json ["{\"a\":1,\"a\":2}"] -> {"a":2}
json [" [ 1 , \"é\" ] "] -> [1,"é"]
json ["-12"] -> -12
json ["-9223372036854775808"] -> -9223372036854775808
json ["-9223372036854775809"] -> none
json ["9223372036854775807"] -> 9223372036854775807
json ["\"text\""] -> "text"
string [[1,"é",null,{"a":-9223372036854775808}]] | json -> [1,"é",null,{"a":-9223372036854775808}]
string [{}] | json -> {}
json ["null"] -> null
json ["9223372036854775808"] -> none
json ["1.5"] -> none
json ["1e2"] -> none
json ["[0,{\"a\":-0}]"] -> none
json ["not json"] -> none
json [""] -> none
json ["[1,]"] -> none
json [1] -> none"#;

#[test]
fn json_texts_state_values(rt: HostRuntime) -> Result<(), Fail> {
    check(rt.alloc(), JSON)
}
