// The names of a loop in the place of a body, up to `in`.
#![tactic(auto, using(bicep_machine::proofs::StackLemmas::stacks))]

ghost use Rattle.std.specs.Prelude.{◌≡◌, ◌∷◌, Some, true};
ghost use Rattle.bicep_machine.specs.Stack.{one_wanted, in_names};
ghost use Rattle.bicep_tree.specs.declared.terminal.Terminal.TheVariants as t;
ghost use Rattle.bicep_machine.specs.Machine.{for_wanted_step, names_wanted_step, one_wanted_step, one_named_step};
ghost use Rattle.bicep_machine.specs.Machine.{other_wanted_step, both_named_step};
ghost use Rattle.foundation.specs.Stopping.{Gives};
ghost use Rattle.bicep_machine.specs.Views.{frames_of, state_of, next_of, Frames};

use bicep_machine::{Frame, Next, State, close, enter, is_for, refuse};
use bicep_tree::{LoopNames, Name, Terminal};
use foundation::Stop;

/// `[` in the place of a body.
pub fn begin_loop(from: usize, terminal: Terminal) -> Result<Next, Stop>
    ensures { (S : Frames) → Gives (λ n. (state_of n.state, n.inside, S)) result
        (for_wanted_step from S terminal) }
{
    match terminal {
        Terminal::Name(word) => {
            if is_for(word) {
                Ok(Next {
                    state: State::NamesWanted(from),
                    inside: false,
                })
            } else {
                Err(Stop::Refused)
            }
        }
        other => refuse(other),
    }
}

// `(` before the names of a loop.
fn open_names(from: usize, stack: &mut Vec<Frame>) -> Result<Next, Stop>
    ensures { Gives (λ n. next_of n stack.new.items) result
        (Some (one_wanted, true, in_names from ∷ frames_of stack.old.items)) }
{
    enter(Frame::InNames(from), State::OneWanted, true, stack)
}

/// `[for` in the place of a body.
pub fn name_loop(
    from: usize,
    stack: &mut Vec<Frame>,
    at: usize,
    terminal: Terminal,
) -> Result<Next, Stop>
    ensures { Gives (λ n. next_of n stack.new.items) result
        (names_wanted_step from (frames_of stack.old.items) at terminal) }
{
    match terminal {
        Terminal::Name(text) => Ok(Next {
            state: State::Among(from, LoopNames::Item(Name { at, text })),
            inside: false,
        }),
        Terminal::OpenParen => open_names(from, stack),
        other => refuse(other),
    }
}

/// `[for (` in the place of a body.
pub fn name_item(at: usize, terminal: Terminal) -> Result<Next, Stop>
    ensures { (S : Frames) → Gives (λ n. (state_of n.state, n.inside, S)) result
        (one_wanted_step S at terminal) }
{
    match terminal {
        Terminal::Name(text) => Ok(Next {
            state: State::OneNamed(Name { at, text }),
            inside: true,
        }),
        other => refuse(other),
    }
}

/// `[for (x` in the place of a body.
pub fn past_item(item: Name, terminal: Terminal) -> Result<Next, Stop>
    ensures { (S : Frames) → Gives (λ n. (state_of n.state, n.inside, S)) result
        (one_named_step item S terminal) }
{
    match terminal {
        Terminal::Comma => Ok(Next {
            state: State::OtherWanted(item),
            inside: true,
        }),
        other => refuse((other, item)),
    }
}

/// `[for (x,` in the place of a body.
pub fn name_index(item: Name, at: usize, terminal: Terminal) -> Result<Next, Stop>
    ensures { (S : Frames) → Gives (λ n. (state_of n.state, n.inside, S)) result
        (other_wanted_step item S at terminal) }
{
    match terminal {
        Terminal::Name(text) => Ok(Next {
            state: State::BothNamed(item, Name { at, text }),
            inside: true,
        }),
        other => refuse((other, item)),
    }
}

// `)` after both names of a body's loop.
fn close_names(item: Name, index: Name, stack: &mut Vec<Frame>) -> Result<Next, Stop>
    ensures { Gives (λ n. next_of n stack.new.items) result
        (both_named_step item index (frames_of stack.old.items) t.CloseParen) }
{
    match close(stack) {
        Some(Frame::InNames(from)) => Ok(Next {
            state: State::Among(from, LoopNames::Both(item, index)),
            inside: false,
        }),
        Some(other) => refuse((other, item, index)),
        None => refuse((item, index)),
    }
}

/// `[for (x, i` in the place of a body.
pub fn past_names(
    item: Name,
    index: Name,
    stack: &mut Vec<Frame>,
    terminal: Terminal,
) -> Result<Next, Stop>
    ensures { Gives (λ n. next_of n stack.new.items) result
        (both_named_step item index (frames_of stack.old.items) terminal) }
{
    match terminal {
        Terminal::CloseParen => close_names(item, index, stack),
        other => refuse((other, item, index)),
    }
}
