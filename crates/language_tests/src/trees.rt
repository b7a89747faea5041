// Trees of JSON with expressions and loops in them.

use crate::answers::Question;
use crate::table::check;
use std::test::Fail;

const TEXTS: &str = r#"[1,true,null,"a"] -> [1,true,null,"a"]
"[add(1, 2)]" -> 3
"[[add(1, 2)]" -> "[add(1, 2)]"
"[x" -> "[x"
"[[x" -> "[[x"
"[" -> "["
"x]" -> "x]"
"[]" -> none
"[add(1,]" -> none
" [add(1, 2)]" -> " [add(1, 2)]"
{"b":"[variables('v')]","a":["[copyIndex()]"]} -> {"a":[5],"b":"var"}
{"b":"[variables('gone')]","a":1} -> none
["[variables('gone')]","[variables('soon')]"] -> late"#;

#[test]
fn texts_in_brackets_are_expressions(rt: HostRuntime) -> Result<(), Fail> {
    check(rt.alloc(), Question::Tree, TEXTS)
}

const LOOPS: &str = r#"{"copy":[{"name":"n","count":3,"input":"[copyIndex('n')]"}]} -> {"n":[0,1,2]}
{"copy":[{"name":"n","count":0,"input":"[nope()]"}]} -> {"n":[]}
{"Copy":[1]} -> {"Copy":[1]}
{"copy":[1]} -> none
{"copy":{}} -> none
{"copy":[]} -> {}
{"copy":[{"name":"n","count":1}]} -> none
{"copy":[{"name":"n","count":801,"input":1}]} -> none
{"copy":[{"name":"n","count":-1,"input":1}]} -> none
{"copy":[{"name":1,"count":1,"input":1}]} -> none
{"n":1,"copy":[{"name":"n","count":1,"input":1}]} -> none
{"copy":[{"name":"copy","count":1,"input":1}]} -> none
{"copy":[{"name":"n","count":1,"input":1},{"name":"n","count":1,"input":1}]} -> none
{"copy":[{"name":"n","count":"[parameters('soon')]","input":1}]} -> late
{"copy":[{"name":"n","count":1,"input":1,"mode":1}]} -> none
{"N":1,"copy":[{"name":"n","count":1,"input":"[[x]"}]} -> {"N":1,"n":["[x]"]}
{"a":"[variables('gone')]","copy":[{"name":"n","count":1,"input":"[variables('soon')]"}]} -> late"#;

// A line is cut where it is longer than a line of this file.
const LONG_LOOPS: &str = concat!(
    r#"{"a":1,"copy":[{"Name":"n","COUNT":"[add(1, 1)]","input":"[add(copyIndex('N', 5), copyIndex())]"}]} -> "#,
    r#"{"a":1,"n":[10,11]}"#,
    "\n",
    r#"{"copy":[{"name":"o","count":2,"input":{"copy":[{"name":"i","count":2,"#,
    r#""input":"[concat(copyIndex('o'), copyIndex('i'))]"}]}}]} -> "#,
    r#"{"o":[{"i":["00","01"]},{"i":["10","11"]}]}"#,
);

#[test]
fn members_named_copy_are_loops(rt: HostRuntime) -> Result<(), Fail> {
    check(rt.alloc(), Question::Tree, LOOPS)?;
    check(rt.alloc(), Question::Tree, LONG_LOOPS)
}
