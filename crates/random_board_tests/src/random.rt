// Boards beside a plain program: random plans, and random orders of jobs and answers.
ghost use Rattle.given_plans.specs.Given.{IsGiven};

use crate::plain::{Plain, Said};
use deploy_core::Board;
use given_plans::GivenPlan;
use sample_boards::following::{ask, fresh, give_back, matches, refuse, store};
use sample_boards::parts::letting_go;
use sample_boards::plans::plan;
use std::alloc::{AllocError, Global};
use std::test::Fail;

// The next of a row of numbers below 2,147,483,648.
fn following(number: u64) -> u64 {
    (number % 2147483648 * 1103515245 + 12345) % 2147483648
}

// A number below the limit, by a number of the row.
fn below(number: u64, limit: u64) -> u64 {
    if limit == 0 {
        0
    } else {
        number / 65536 % limit
    }
}

fn add_lines(text: &mut String, word: &str, count: u64) -> Result<(), AllocError> {
    for number in 0..count {
        write!(text, "{word} {number}\n")?;
    }
    Ok(())
}

fn add_tasks(text: &mut String, number: u64) -> Result<(), AllocError> {
    let depth = below(number, 3).saturating_add(1);
    let (first, last) = if number % 2 == 1 {
        ("leave", "enter")
    } else {
        ("enter", "leave")
    };
    add_lines(text, first, depth)?;
    add_lines(text, "put", below(following(number), 8))?;
    add_lines(text, last, depth)
}

// The lines of a random plan: up to three scopes, and up to seven instances. Where the number is odd, the leaves come
// first.
fn lines(alloc: Global, number: u64) -> Result<String, AllocError> {
    let mut text = String::new(alloc);
    add_tasks(&mut text, number)?;
    Ok(text)
}

// The first open Begin from a place on, and before another.
fn begun_within(plain: &Plain, from: usize, until: usize) -> Option<u32> {
    for place in from..until {
        if plain.is_begun(place) {
            return u32::try_from(place).ok();
        }
    }
    None
}

// The open Begin at or after a place, in a circle.
fn open_from(plain: &Plain, start: usize, count: usize) -> Option<u32> {
    match begun_within(plain, start, count) {
        Some(task) => Some(task),
        None => begun_within(plain, 0, start),
    }
}

// An open Begin, or none where the number says that a job is asked for.
fn chosen(plain: &Plain, count: usize, number: u64) -> Option<u32> {
    if below(number, 2) == 0 {
        return None;
    }
    let start = usize::try_from(below(number, 16)).unwrap_or(0);
    open_from(plain, start, count)
}

// Ends an open Begin in one of three ways, on the board and beside it.
fn end(
    alloc: Global,
    board: &mut Board<GivenPlan>,
    plain: &mut Plain,
    task: u32,
    way: u64,
) -> Result<(), Fail> {
    match way {
        0 => {
            plain.refuse(task as usize)?;
            refuse(alloc, board, task)
        }
        1 => {
            plain.give_back(task as usize)?;
            give_back(board, task)
        }
        _ => {
            plain.store(task as usize)?;
            store(alloc, board, task)
        }
    }
}

// Asks both for a job.
fn ask_both(
    alloc: Global,
    board: &mut Board<GivenPlan>,
    plain: &mut Plain,
    plan: &GivenPlan,
) -> Result<(), Fail> {
    match plain.next(plan)? {
        Said::Begin(place) => {
            let wanted = format!(in alloc; "begin {place}")?;
            ask(alloc, board, wanted.as_str())
        }
        Said::Wait => ask(alloc, board, "wait"),
        Said::End => ask(alloc, board, "end"),
    }
}

// One step: the board is asked for a job, or an open Begin ends.
fn step(
    alloc: Global,
    board: &mut Board<GivenPlan>,
    plain: &mut Plain,
    plan: &GivenPlan,
    number: u64,
) -> Result<(), Fail> {
    match chosen(plain, plan.tasks.len(), number) {
        Some(task) => end(alloc, board, plain, task, below(following(number), 8)),
        None => ask_both(alloc, board, plain, plan),
    }
}

// Sixty steps on a board and beside it, and the history after them.
fn play_both(
    alloc: Global,
    board: &mut Board<GivenPlan>,
    plain: &mut Plain,
    plan: &GivenPlan,
    start: u64,
) -> Result<(), Fail> {
    let mut number = start;
    for _step in 0..60 {
        number = following(number);
        step(alloc, board, plain, plan, number)?;
    }
    matches(alloc, board, plain.events.as_str())
}

// The same of a board of this plan.
fn play_board(alloc: Global, board: GivenPlan, plan: &GivenPlan, start: u64) -> Result<(), Fail>
    requires { IsGiven board }
{
    let mut board = fresh(alloc, board)?;
    let played = match Plain::new(alloc, plan.tasks.len()) {
        Ok(mut plain) => letting_go(play_both(alloc, &mut board, &mut plain, plan, start), plain),
        Err(_) => Err(Fail::from("out of memory")),
    };
    letting_go(played, board)
}

// The same of a random plan.
fn play(alloc: Global, start: u64) -> Result<(), Fail> {
    let lines = lines(alloc, start)?;
    let size = u32::try_from(below(following(start), 3)).unwrap_or(0);
    let beside = plan(alloc, size, lines.as_str())?;
    let played = match plan(alloc, size, lines.as_str()) {
        Ok(board) => play_board(alloc, board, &beside, start),
        Err(fail) => Err(fail),
    };
    letting_go(played, (beside, lines))
}

#[test]
fn boards_do_what_a_plain_program_does(rt: HostRuntime) -> Result<(), Fail> {
    let mut number = 7;
    for _plan in 0..300 {
        number = following(number);
        play(rt.alloc(), number)?;
    }
    Ok(())
}
