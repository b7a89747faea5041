//! Answers that are made of others.
ghost use Rattle.std.specs.Prelude.{◌≡◌, Err, IfOk};
ghost use Rattle.bicep_found.specs.Joins.{Joins, Joins3, Boxes, Pairs, Pushes, PushesSome};

use crate::stop::Stop;
use std::alloc::{AllocError, Global};

/// The value in a box.
pub fn boxed<A: Drop>(alloc: Global, value: Result<A, Stop>) -> Result<Box<A>, Stop>
    ensures { Boxes value result }
{
    match value {
        Ok(value) => match Box::new(alloc, value) {
            Ok(value) => Ok(value),
            Err(_) => Err(Stop::OutOfMemory),
        },
        Err(stop) => Err(stop),
    }
}

/// The values of both in boxes, or why there is none, of the first before the second.
pub fn both<A: Drop, B: Drop>(
    alloc: Global,
    first: Result<A, Stop>,
    second: Result<B, Stop>,
) -> Result<(Box<A>, Box<B>), Stop>
    ensures { Joins first second result }
{
    let first = boxed(alloc, first)?;
    let second = boxed(alloc, second)?;
    Ok((first, second))
}

/// The values of three in boxes, or why there is none, of the first before the others.
pub fn three<A: Drop>(
    alloc: Global,
    first: Result<A, Stop>,
    second: Result<A, Stop>,
    third: Result<A, Stop>,
) -> Result<(Box<A>, Box<A>, Box<A>), Stop>
    ensures { Joins3 first second third result }
{
    let first = boxed(alloc, first)?;
    let second = boxed(alloc, second)?;
    let third = boxed(alloc, third)?;
    Ok((first, second, third))
}

/// Both values, or why there is none, of the first before the second.
pub fn pair<A: Drop, B: Drop>(
    first: Result<A, Stop>,
    second: Result<B, Stop>,
) -> Result<(A, B), Stop>
    ensures { Pairs first second result }
{
    let first = first?;
    let second = second?;
    Ok((first, second))
}

/// The value in a box, beside what belongs to it.
pub fn boxed_with<A: Drop, B: Drop>(
    alloc: Global,
    value: A,
    part: B,
) -> Result<(Box<A>, B), AllocError>
    ensures { IfOk result (λ p. (p.0.value ≡ value) × (p.1 ≡ part)) }
{
    match Box::new(alloc, value) {
        Ok(value) => Ok((value, part)),
        Err(_) => Err(AllocError),
    }
}

/// Both values in boxes.
pub fn boxed_pair<A: Drop, B: Drop>(
    alloc: Global,
    first: A,
    second: B,
) -> Result<(Box<A>, Box<B>), AllocError>
    ensures { IfOk result (λ p. (p.0.value ≡ first) × (p.1.value ≡ second)) }
{
    let (first, second) = boxed_with(alloc, first, second)?;
    let (second, first) = boxed_with(alloc, second, first)?;
    Ok((first, second))
}

/// Puts a value last.
pub fn push<A: Drop>(values: &mut Vec<A>, value: Result<A, Stop>) -> Result<(), Stop>
    ensures { Pushes values.old.items value values.new.items result }
{
    match value {
        Ok(value) => match values.push(value) {
            Ok(()) => Ok(()),
            Err(_) => Err(Stop::OutOfMemory),
        },
        Err(stop) => Err(stop),
    }
}

/// Puts a value last, where there is one.
pub fn push_some<A: Drop>(values: &mut Vec<A>, value: Result<Option<A>, Stop>) -> Result<(), Stop>
    ensures { PushesSome values.old.items value values.new.items result }
{
    match value {
        Ok(Some(value)) => match values.push(value) {
            Ok(()) => Ok(()),
            Err(_) => Err(Stop::OutOfMemory),
        },
        Ok(None) => Ok(()),
        Err(stop) => Err(stop),
    }
}

/// Drops a value, since something else is lacking.
pub fn lacks<A: Drop, B>(_value: A, stop: Stop) -> Result<B, Stop>
    ensures { result ≡ Err stop }
{
    Err(stop)
}

/// Drops a value.
pub fn let_go<A: Drop>(_value: A) {}
