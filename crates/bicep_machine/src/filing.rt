// Where a statement goes after it was read.
#![tactic(auto, using(crate::proofs::StackLemmas::stacks))]

ghost use Rattle.std.specs.Prelude.{◌≡◌};
ghost use Rattle.bicep_machine.specs.Closing.{filed};
ghost use Rattle.foundation.specs.Stopping.{Gives};
ghost use Rattle.bicep_machine.specs.Views.{kept_statement, frames_of, next_of};

use crate::frame::{Frame, close, open};
use crate::kept::Kept;
use crate::parts::with_statement;
use crate::state::{Next, State, refuse};
use bicep_tree::Statement;
use foundation::Stop;

/// Appends a statement that ended to the statements of the file.
///
/// # Errors
///
/// - `Refused`: something other than the file is open.
/// - `OutOfMemory`: memory was refused; nothing is said of the stack.
pub fn file(statement: Kept<Statement>, stack: &mut Vec<Frame>) -> Result<Next, Stop>
    ensures { Gives (λ n. next_of n stack.new.items) result
        (filed (kept_statement statement) (frames_of stack.old.items)) }
{
    match close(stack) {
        Some(Frame::InFile(statements)) => {
            let statements = with_statement(statements, statement)?;
            open(stack, Frame::InFile(statements))?;
            Ok(Next {
                state: State::Between,
                inside: false,
            })
        }
        other => refuse((other, statement)),
    }
}
