// How what is found is compared with what is wanted.
use std::test::Fail;

/// Fails, with the two numbers of a case, unless something holds there.
pub fn check_case(holds: bool, first: u64, second: u64) -> Result<(), Fail> {
    if holds {
        return Ok(());
    }
    Err(Fail::new(format_args!("at {first}, {second}")))
}

/// Fails; the part is dropped.
pub fn failed<T: Drop, R>(_part: T, what: &'static str) -> Result<R, Fail> {
    Err(Fail::from(what))
}
