// The decorators of a program.
ghost use Rattle.std.specs.Prelude.{◌≡◌, map};
ghost use Rattle.bicep_program.specs.Program.{program_file};
ghost use Rattle.resolved_program.specs.Faults.{first_in};
ghost use Rattle.bicep_checks.specs.Faults.{decorator_in};
ghost use Rattle.bicep_checks.specs.Order.{HasNone, Passes};

use crate::fault::CheckFault;
use bicep_decorators::bad_decorator;
use bicep_program::SourceFile;

// The first bad decorator, and the number of its file.
fn first_decorator(files: &[SourceFile]) -> Option<(usize, usize)>
    ensures { result ≡ first_in decorator_in (map program_file files.now) }
{
    for (number, file) in files.iter().enumerate() {
        match bad_decorator(file.file.as_slice()) {
            Some(at) => return Some((number, at)),
            None => {}
        }
    }
    None
}

/// That no decorator is bad.
pub(crate) fn check_decorators(files: &[SourceFile]) -> Result<(), CheckFault>
    requires { HasNone 3 (map program_file files.now) }
    ensures { Passes 4 (map program_file files.now) result }
{
    match first_decorator(files) {
        Some((number, at)) => Err(CheckFault::BadDecorator(number, at)),
        None => Ok(()),
    }
}
