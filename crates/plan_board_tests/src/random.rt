// Random templates in random orders of jobs and answers, beside a plain program.

use crate::drawn::{following, template};
use crate::plain::plain_run;
use crate::running::{Order, told_of};
use std::alloc::Global;
use std::rt::HostRuntime;
use std::test::Fail;

// Fails unless the text begins with what is wanted.
fn compare_start(found: &str, wanted: &str, text: &str) -> Result<(), Fail> {
    if found.starts_with(wanted) {
        return Ok(());
    }
    Err(Fail::new(format_args!("{text}: {wanted} but {found}")))
}

fn check_seed(alloc: Global, seed: u64) -> Result<(), Fail> {
    let text = template(alloc, seed)?;
    let wanted = plain_run(alloc, seed, seed)?;
    let told = told_of(alloc, text.as_str(), "", Order::Any(seed))?;
    compare_start(told.as_str(), wanted.as_str(), text.as_str())
}

#[test]
fn random_templates_do_what_a_plain_program_does(rt: HostRuntime) -> Result<(), Fail> {
    let mut seed = 11;
    for _template in 0..300 {
        seed = following(seed);
        check_seed(rt.alloc(), seed)?;
    }
    Ok(())
}
