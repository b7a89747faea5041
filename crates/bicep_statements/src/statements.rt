// Where a statement of a file begins, and where it ends.
#![tactic(auto, using(bicep_machine::proofs::StackLemmas::stacks))]

ghost use Rattle.std.specs.Prelude.{◌≡◌};
ghost use Rattle.bicep_machine.specs.Machine.{word_of, word_on, between_step, past_statement_step};
ghost use Rattle.foundation.specs.Stopping.{Gives};
ghost use Rattle.bicep_machine.specs.Views.{kept_decorators, kept_statement, frames_of, state_of, next_of, Frames};

use arm_value::Text;
use bicep_machine::{Frame, Kept, Next, State, file, no_decorators, refuse, word_of};
use bicep_tree::{Decorator, Statement, Terminal};
use foundation::Stop;
use std::alloc::Global;

/// A word of a file, after decorators or none.
pub fn declare(decorators: Kept<Vec<Decorator>>, at: usize, word: Text) -> Result<Next, Stop>
    ensures { (S : Frames) → Gives (λ n. (state_of n.state, n.inside, S)) result
        (word_on (kept_decorators decorators) at (word_of word) S) }
{
    match word_of(word) {
        None => refuse(decorators),
        Some(word) => Ok(Next {
            state: State::Declaring(decorators, at, word),
            inside: false,
        }),
    }
}

/// Newlines, or nothing yet, in a file.
pub fn between(alloc: Global, at: usize, terminal: Terminal) -> Result<Next, Stop>
    ensures { (S : Frames) → Gives (λ n. (state_of n.state, n.inside, S)) result
        (between_step S at terminal) }
{
    match terminal {
        Terminal::Newline => Ok(Next {
            state: State::Between,
            inside: false,
        }),
        Terminal::At => Ok(Next {
            state: State::AtSign(no_decorators(alloc), at),
            inside: false,
        }),
        Terminal::Name(word) => declare(no_decorators(alloc), at, word),
        other => refuse(other),
    }
}

/// A statement.
pub fn end_statement(
    statement: Kept<Statement>,
    stack: &mut Vec<Frame>,
    terminal: Terminal,
) -> Result<Next, Stop>
    ensures { Gives (λ n. next_of n stack.new.items) result
        (past_statement_step (kept_statement statement) (frames_of stack.old.items) terminal) }
{
    match terminal {
        Terminal::Newline => file(statement, stack),
        other => refuse((other, statement)),
    }
}
