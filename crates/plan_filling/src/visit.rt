// Fills a sheet. A visit keeps a stack of cells: the one on top is told, or what it waits for goes on top of it.
ghost use Rattle.std.specs.Prelude.{◌≡◌, ◌<◌, ◌++◌, ◌∷◌, [], length, IfOk, IfErr, MatchOption};
ghost use Rattle.plan_filling.specs.Rows.{row_at, Open, IsUnfinished};
ghost use Rattle.plan_filling.specs.Sound.{Sound, Tells};
ghost use Rattle.plan_filling.specs.Limits.{IsHalted};
ghost use Rattle.plan_filling.specs.Steps.{WaitsFor, Turned, NoneOpen, OneOpen, Visited, IsCircle, Filled};

use crate::sheet::{Answer, Halt, Sheet, Stage};
use arm_value::OutOfMemory;
use std::alloc::Global;

/// What a turn at a cell comes to.
#[derive(Clone, Copy)]
pub enum Turn {
    /// The cell is finished.
    Done,
    /// The cell waits for the one at this place, which was not begun and comes first.
    First(usize),
    /// The cell waits for the one at this place, which is begun and not finished.
    Circle(usize),
}

/// Cells that wait for one another, by their places: each for the next, and the last for one of them.
#[derive(Drop)]
pub struct Circle {
    /// All but the last.
    pub places: Vec<usize>,
    /// The last.
    pub last: usize,
    /// The one that the last waits for.
    pub back: usize,
}

// A turn at a cell that waits for another.
fn advance_to<S: Sheet>(
    alloc: Global,
    sheet: &mut S,
    top: usize,
    other: usize,
) -> Result<Turn, Halt>
    requires listed { top < length (S.rows sheet.old) }
    requires other_listed { other < length (S.rows sheet.old) }
    requires sound { Sound (S.whole sheet.old) (S.rows sheet.old) }
    requires unfinished { IsUnfinished (row_at (S.rows sheet.old) top).status }
    requires laid { S.laid sheet.old }
    requires waits { WaitsFor (S.whole sheet.old) (S.rows sheet.old) top other }
    ensures same { S.whole sheet.new ≡ S.whole sheet.old }
    ensures laid { IfOk result (λ _. S.laid sheet.new) }
    ensures turned { IfOk result (Turned (S.whole sheet.old) (S.rows sheet.old) (S.rows sheet.new) top) }
    ensures halted { IfErr result (IsHalted (S.whole sheet.old)) }
{
    match sheet.stage(other) {
        Stage::Late => match sheet.wait_as(alloc, top, other) {
            Ok(()) => Ok(Turn::Done),
            Err(_) => Err(Halt::OutOfMemory),
        },
        Stage::New => {
            sheet.begin(other);
            Ok(Turn::First(other))
        }
        Stage::Open => Ok(Turn::Circle(other)),
        Stage::Finished => Ok(Turn::Circle(other)),
    }
}

// A turn at a cell, by what it is.
fn advance_by<S: Sheet>(
    alloc: Global,
    sheet: &mut S,
    top: usize,
    answer: Answer,
) -> Result<Turn, Halt>
    requires listed { top < length (S.rows sheet.old) }
    requires sound { Sound (S.whole sheet.old) (S.rows sheet.old) }
    requires unfinished { IsUnfinished (row_at (S.rows sheet.old) top).status }
    requires laid { S.laid sheet.old }
    requires tells { Tells (S.whole sheet.old) (S.rows sheet.old) (row_at (S.rows sheet.old) top).cell answer }
    ensures same { S.whole sheet.new ≡ S.whole sheet.old }
    ensures laid { IfOk result (λ _. S.laid sheet.new) }
    ensures turned { IfOk result (Turned (S.whole sheet.old) (S.rows sheet.old) (S.rows sheet.new) top) }
    ensures halted { IfErr result (IsHalted (S.whole sheet.old)) }
{
    match answer {
        Answer::Value(value) => match sheet.fill(alloc, top, value) {
            Ok(()) => Ok(Turn::Done),
            Err(halt) => Err(halt),
        },
        Answer::Empty => {
            sheet.leave_empty(top);
            Ok(Turn::Done)
        }
        Answer::State(key) => {
            sheet.wait_for(top, key);
            Ok(Turn::Done)
        }
        Answer::Waits(other) => advance_to(alloc, sheet, top, other),
    }
}

// A turn at a cell: it is told, or what it waits for is to come first.
fn advance<S: Sheet>(alloc: Global, sheet: &mut S, top: usize) -> Result<Turn, Halt>
    requires listed { top < length (S.rows sheet.old) }
    requires sound { Sound (S.whole sheet.old) (S.rows sheet.old) }
    requires unfinished { IsUnfinished (row_at (S.rows sheet.old) top).status }
    requires laid { S.laid sheet.old }
    ensures same { S.whole sheet.new ≡ S.whole sheet.old }
    ensures laid { IfOk result (λ _. S.laid sheet.new) }
    ensures turned { IfOk result (Turned (S.whole sheet.old) (S.rows sheet.old) (S.rows sheet.new) top) }
    ensures halted { IfErr result (IsHalted (S.whole sheet.old)) }
{
    match sheet.tell(alloc, top) {
        Ok(answer) => advance_by(alloc, sheet, top, answer),
        Err(_) => Err(Halt::OutOfMemory),
    }
}

// The stack with these two on top.
fn with_two(mut stack: Vec<usize>, top: usize, next: usize) -> Result<Vec<usize>, OutOfMemory>
    ensures { IfOk result (λ s. s.items ≡ (stack.items ++ top ∷ []) ++ next ∷ []) }
{
    stack.push(top)?;
    stack.push(next)?;
    Ok(stack)
}

// Finishes a cell that is begun, and all that it waits for.
fn follow<S: Sheet>(alloc: Global, sheet: &mut S, start: usize) -> Result<Option<Circle>, Halt>
    requires listed { start < length (S.rows sheet.old) }
    requires sound { Sound (S.whole sheet.old) (S.rows sheet.old) }
    requires laid { S.laid sheet.old }
    requires begun { OneOpen (S.rows sheet.old) start }
    ensures same { S.whole sheet.new ≡ S.whole sheet.old }
    ensures laid { IfOk result (λ _. S.laid sheet.new) }
    ensures visited { IfOk result (λ c. MatchOption c
        (Visited (S.whole sheet.old) (S.rows sheet.old) (S.rows sheet.new) start)
        (λ c. IsCircle (S.whole sheet.old) (S.rows sheet.new) c.places.items c.last c.back)) }
    ensures sound { IfOk result (λ _. Sound (S.whole sheet.old) (S.rows sheet.new)) }
    ensures halted { IfErr result (IsHalted (S.whole sheet.old)) }
{
    let mut stack = Vec::new(alloc);
    stack.push(start)?;
    'turns: while let Some(top) = stack.pop() {
        match advance(alloc, sheet, top)? {
            Turn::Done => {}
            Turn::First(next) => stack = with_two(stack, top, next)?,
            Turn::Circle(back) => {
                return Ok(Some(Circle {
                    places: stack,
                    last: top,
                    back,
                }));
            }
        }
    }
    Ok(None)
}

// Finishes a cell, and all that it waits for.
fn visit<S: Sheet>(alloc: Global, sheet: &mut S, start: usize) -> Result<Option<Circle>, Halt>
    requires listed { start < length (S.rows sheet.old) }
    requires sound { Sound (S.whole sheet.old) (S.rows sheet.old) }
    requires laid { S.laid sheet.old }
    requires none_open { NoneOpen (S.rows sheet.old) }
    ensures same { S.whole sheet.new ≡ S.whole sheet.old }
    ensures laid { IfOk result (λ _. S.laid sheet.new) }
    ensures visited { IfOk result (λ c. MatchOption c
        (Visited (S.whole sheet.old) (S.rows sheet.old) (S.rows sheet.new) start)
        (λ c. IsCircle (S.whole sheet.old) (S.rows sheet.new) c.places.items c.last c.back)) }
    ensures sound { IfOk result (λ _. Sound (S.whole sheet.old) (S.rows sheet.new)) }
    ensures halted { IfErr result (IsHalted (S.whole sheet.old)) }
{
    match sheet.stage(start) {
        Stage::New => {
            sheet.begin(start);
            follow(alloc, sheet, start)
        }
        Stage::Open => Ok(None),
        Stage::Finished => Ok(None),
        Stage::Late => Ok(None),
    }
}

/// Fills a sheet as far as it goes, or finds cells that wait for one another. The sheet stays sound in both cases.
pub fn fill_all<S: Sheet>(alloc: Global, sheet: &mut S) -> Result<Option<Circle>, Halt>
    requires sound { Sound (S.whole sheet.old) (S.rows sheet.old) }
    requires laid { S.laid sheet.old }
    requires none_open { NoneOpen (S.rows sheet.old) }
    ensures same { S.whole sheet.new ≡ S.whole sheet.old }
    ensures laid { IfOk result (λ _. S.laid sheet.new) }
    ensures filled { IfOk result (λ c. MatchOption c (Filled (S.whole sheet.old) (S.rows sheet.new))
        (λ c. IsCircle (S.whole sheet.old) (S.rows sheet.new) c.places.items c.last c.back)) }
    ensures sound { IfOk result (λ _. Sound (S.whole sheet.old) (S.rows sheet.new)) }
    ensures halted { IfErr result (IsHalted (S.whole sheet.old)) }
{
    let mut at = 0;
    'cells: while at < sheet.len() {
        match visit(alloc, sheet, at)? {
            Some(circle) => return Ok(Some(circle)),
            None => at += 1,
        }
    }
    Ok(None)
}
