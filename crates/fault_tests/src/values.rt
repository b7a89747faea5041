// Values with expressions and loops.

use crate::rows::compare_all;
use std::test::Fail;

const VALUES: &str = r#"{¶,"variables":{"v":{"[x]":1}}} -> WrongForm /variables/v/[x]
{¶,"variables":{"v":{"a/b":["[x"," [x]","[[x]","[concat('a')]",
    "[concat()]"]}}} -> BadExpression /variables/v/a~1b/4
{¶,"variables":{"v":{"copy":1}}} -> WrongForm /variables/v/copy
{¶,"variables":{"v":{"Copy":1}}} -> none
{¶,"variables":{"v":{"copy":[]}}} -> none
{¶,"variables":{"v":{"copy":[{"name":"a","count":1,"input":"[copyIndex('a')]"}]}}} -> none
{¶,"variables":{"v":{"copy":[{"name":"a","count":1}]}}} -> Missing /variables/v/copy/0/input
{¶,"variables":{"v":{"copy":[{"name":"a","count":1,"input":1,"x":1}]}}} -> WrongForm /variables/v/copy/0/x
{¶,"variables":{"v":{"copy":[{"name":"[a]","count":1,"input":1}]}}} -> WrongForm /variables/v/copy/0/name
{¶,"variables":{"v":{"copy":[{"name":"a","count":1,"input":1},{"name":"a","count":1,
    "input":1}]}}} -> WrongForm /variables/v/copy/1/name
{¶,"variables":{"v":{"copy":[{"name":"copy","count":1,"input":1}]}}} -> WrongForm /variables/v/copy/0/name
{¶,"variables":{"v":{"A":1,"copy":[{"name":"a","count":1,"input":1}]}}} -> none
{¶,"variables":{"v":{"copy":[{"name":"a","Name":"a","count":1,"input":1}]}}} -> WrongForm /variables/v/copy/0/name
{¶,"variables":{"v":{"copy":[{"count":"[x]","input":{"copy":1}}]}}} -> BadExpression /variables/v/copy/0/count
{¶,"variables":{"v":"[nothing()]"}} -> BadExpression /variables/v
{¶,"variables":{"v":"[if(true(), 1)]"}} -> BadExpression /variables/v"#;

#[test]
fn values_are_looked_at(rt: HostRuntime) -> Result<(), Fail> {
    compare_all(rt.alloc(), VALUES)
}
