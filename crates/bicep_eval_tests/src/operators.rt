// Operators (Microsoft Learn, "Bicep operators").

use crate::rows::check;
use std::rt::HostRuntime;
use std::test::Fail;

const NUMBERS: &str = r#"2 + 3 -> 5
2 - 3 -> -1
4 * 5 -> 20
10 / 4 -> 2
-7 / 2 -> -3
10 % 3 -> 1
-7 % 3 -> -1
1 / 0 -> none
1 % 0 -> none
9223372036854775807 + 1 -> none
-10 -> -10
-t -> none
2 + 3 * 4 -> 14
(2 + 3) * 4 -> 20
'a' + 'b' -> none"#;

#[test]
fn numbers(rt: HostRuntime) -> Result<(), Fail> {
    check(rt.alloc(), NUMBERS)
}

const COMPARISONS: &str = r#"10 >= 10 -> true
10 > 10 -> false
5 < 10 -> true
5 <= 4 -> false
'a' < 'b' -> true
'Z' < 'a' -> true
1 < 'a' -> none
10 == 10 -> true
10 == '10' -> false
'a' == 'A' -> false
'a' != 'A' -> true
o == { a: 1, b: { c: [ 10, 20 ] }, n: null } -> true
a != [ 1, 2 ] -> true
'Hello' =~ 'hELLO' -> true
'Hello' =~ 'Hi' -> false
'hello' !~ 'HELLO' -> false
'hello' !~ 'hi' -> true
1 =~ 1 -> none
1 !~ '1' -> none"#;

#[test]
fn comparisons(rt: HostRuntime) -> Result<(), Fail> {
    check(rt.alloc(), COMPARISONS)
}

const TRUTHS: &str = r#"true && true -> true
true && false -> false
false && never -> false
false && late -> false
late && false -> waits for 5
never && late -> none
true && 1 -> none
1 && true -> none
true || never -> true
true || late -> true
false || true -> true
false || false -> false
false || t -> none
!true -> false
!(1 == 2) -> true
!1 -> none
yes ? 'a' : never -> "a"
no ? late : 2 -> 2
yes ? late : 2 -> waits for 5
t ? 1 : 2 -> none
null ?? 3 -> 3
o.n ?? 'other' -> "other"
1 ?? never -> 1
1 ?? late -> 1
null ?? null -> null
never ?? 1 -> none
late ?? 1 -> waits for 5"#;

#[test]
fn truths(rt: HostRuntime) -> Result<(), Fail> {
    check(rt.alloc(), TRUTHS)
}
