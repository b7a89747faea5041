// What boards do, step by step.

use sample_boards::following::{follow_all, fresh};
use sample_boards::plans::plan;
use std::alloc::Global;
use std::test::Fail;

// Follows the lines on a fresh board of these tasks.
fn play(alloc: Global, size: u32, tasks: &str, lines: &str) -> Result<(), Fail> {
    let board = fresh(alloc, plan(alloc, size, tasks)?)?;
    follow_all(alloc, board, lines)
}

const CHAIN: &str = "enter 0\nput 0\nput 1\nleave 0";

const FAN: &str = "enter 0\nput 0\nput 1\nput 2\nleave 0";

const SCOPES: &str = "leave 0\nleave 1\nleave 2\nenter 2\nenter 1\nenter 0";

#[test]
fn instances_in_batches_of_one_are_put_one_after_another(rt: HostRuntime) -> Result<(), Fail> {
    play(
        rt.alloc(),
        0,
        CHAIN,
        "next -> begin 1\nnext -> wait\nstore 1\nnext -> begin 2\nstore 2\nnext -> end\n\
         history -> enter 0, begin 1 7, stored 1, begin 2 7, stored 2, leave 3",
    )
}

#[test]
fn instances_of_one_batch_are_put_side_by_side(rt: HostRuntime) -> Result<(), Fail> {
    play(
        rt.alloc(),
        9,
        FAN,
        "next -> begin 1\nnext -> begin 2\nnext -> begin 3\nnext -> wait\nstore 3\nnext -> wait\nstore 1\nstore 2\n\
         next -> end\nhistory -> enter 0, begin 1 7, begin 2 7, begin 3 7, stored 3, stored 1, stored 2, leave 4",
    )
}

#[test]
fn a_batch_begins_after_all_answers_of_the_one_before(rt: HostRuntime) -> Result<(), Fail> {
    play(
        rt.alloc(),
        1,
        "enter 0\nput 0\nput 1\nput 2\nput 3\nput 4\nleave 0",
        "next -> begin 1\nnext -> begin 2\nnext -> wait\nstore 2\nnext -> wait\nstore 1\nnext -> begin 3\n\
         next -> begin 4\nnext -> wait\nstore 3\nnext -> wait\nstore 4\nnext -> begin 5\nstore 5\nnext -> end",
    )
}

#[test]
fn scopes_are_entered_from_outside_and_left_from_inside(rt: HostRuntime) -> Result<(), Fail> {
    play(
        rt.alloc(),
        0,
        SCOPES,
        "next -> end\nhistory -> enter 5, enter 4, enter 3, leave 2, leave 1, leave 0",
    )
}

#[test]
fn nothing_begins_after_a_refusal(rt: HostRuntime) -> Result<(), Fail> {
    play(
        rt.alloc(),
        1,
        "enter 0\nput 0\nput 1\nput 2\nleave 0",
        "next -> begin 1\nnext -> begin 2\nrefuse 2\nnext -> wait\nstore 1\nnext -> end\n\
         history -> enter 0, begin 1 7, begin 2 7, refused 2 Quota, stored 1",
    )
}

#[test]
fn a_job_that_is_given_back_is_begun_again(rt: HostRuntime) -> Result<(), Fail> {
    play(
        rt.alloc(),
        0,
        CHAIN,
        "next -> begin 1\nback 1\nnext -> begin 1\nstore 1\n\
         history -> enter 0, begin 1 7, back 1, begin 1 7, stored 1",
    )
}
