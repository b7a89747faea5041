// Truth values, equality and order.

use crate::table::check;
use std::test::Fail;

const TRUTHS: &str = r#"not [true] -> false
not [false] -> true
not [1] -> none
true [] -> true
false [] -> false
null [] -> null
bool [true] -> true
bool [0] -> false
bool [-2] -> true
bool ["TRUE"] -> true
bool ["fAlse"] -> false
bool ["yes"] -> none
bool [null] -> none"#;

#[test]
fn truth_values_and_null_are_as_named(rt: HostRuntime) -> Result<(), Fail> {
    check(rt.alloc(), TRUTHS)
}

const EQUALS: &str = r#"equals [1,1] -> true
equals ["a","A"] -> false
equals [1,"1"] -> false
equals [{"a":[1,2],"b":null},{"b":null,"a":[1,2]}] -> true
equals [[1,2],[2,1]] -> false"#;

#[test]
fn values_are_equal_as_trees(rt: HostRuntime) -> Result<(), Fail> {
    check(rt.alloc(), EQUALS)
}

const ORDERS: &str = r#"less [1,2] -> true
less [2,2] -> false
less ["Z","a"] -> true
less ["a","ab"] -> true
less [1,"2"] -> none
less [true,false] -> none
lessOrEquals [2,2] -> true
lessOrEquals [3,2] -> false
lessOrEquals ["a","a"] -> true
lessOrEquals [null,2] -> none
greater [2,1] -> true
greater [2,2] -> false
greater ["a","Z"] -> true
greater [[1],[0]] -> none
greaterOrEquals [2,2] -> true
greaterOrEquals [1,2] -> false
greaterOrEquals ["Z","a"] -> false
greaterOrEquals ["b","a"] -> true
greaterOrEquals [true,false] -> none"#;

#[test]
fn numbers_and_texts_are_in_order(rt: HostRuntime) -> Result<(), Fail> {
    check(rt.alloc(), ORDERS)
}
