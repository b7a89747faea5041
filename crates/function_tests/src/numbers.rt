// Functions on whole numbers.

use crate::table::check;
use std::test::Fail;

const SUMS: &str = r#"add [5,3] -> 8
add [9223372036854775807,1] -> none
add [-9223372036854775808,9223372036854775807] -> -1
add [1,"2"] -> none
sub [7,3] -> 4
sub [-9223372036854775808,1] -> none
sub [null,1] -> none
SUB [2,3] -> -1
sub [2,"3"] -> none
mul [5,-3] -> -15
mul [4294967296,2147483648] -> none
mul [true,1] -> none
mul [true,3] -> none"#;

#[test]
fn sums_differences_and_products_are_exact_or_have_no_value(rt: HostRuntime) -> Result<(), Fail> {
    check(rt.alloc(), SUMS)
}

const QUOTIENTS: &str = r#"div [8,3] -> 2
div [-7,2] -> -3
div [7,-2] -> -3
div [1,0] -> none
div [-9223372036854775808,-1] -> none
mod [7,3] -> 1
mod [-7,2] -> -1
mod [7,-2] -> 1
mod [1,0] -> none
mod [-9223372036854775808,-1] -> 0"#;

#[test]
fn quotients_are_cut_toward_zero(rt: HostRuntime) -> Result<(), Fail> {
    check(rt.alloc(), QUOTIENTS)
}

const EXTREMES: &str = r#"min [[0,3,2,5,4]] -> 0
min [0,3,2,5,4] -> 0
min [7] -> 7
min [[]] -> none
min [1,[2]] -> none
min [[1,"2"]] -> none
max [[0,3,2,5,4]] -> 5
max [0,3,2,5,4] -> 5
max [[-2,-1]] -> -1
max [3,"4"] -> none"#;

#[test]
fn extremes_are_those_of_arguments_or_of_an_array(rt: HostRuntime) -> Result<(), Fail> {
    check(rt.alloc(), EXTREMES)
}

const INTS: &str = r#"int [4] -> 4
int ["4"] -> 4
int ["-0012"] -> -12
int ["-0"] -> 0
int ["-9223372036854775808"] -> -9223372036854775808
int ["9223372036854775808"] -> none
int ["99999999999999999999999"] -> none
int ["12a"] -> none
int ["+1"] -> none
int ["--1"] -> none
int ["-"] -> none
int [""] -> none
int [true] -> none"#;

#[test]
fn an_int_is_a_number_or_its_spelling(rt: HostRuntime) -> Result<(), Fail> {
    check(rt.alloc(), INTS)
}

const RANGES: &str = r#"range [5,3] -> [5,6,7]
range [-1,2] -> [-1,0]
range [7,0] -> []
range [7,-1] -> none
range [0,10000] | length -> 10000
range [0,10001] -> none
range [2147483646,1] -> [2147483646]
range [2147483646,2] -> none
range ["0",2] -> none"#;

#[test]
fn a_range_has_at_most_10000_numbers(rt: HostRuntime) -> Result<(), Fail> {
    check(rt.alloc(), RANGES)
}
