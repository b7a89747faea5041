// Resources and modules up to their `=`: the type text or the path, and `existing`.
#![tactic(auto, using(bicep_machine::proofs::StackLemmas::stacks))]

ghost use Rattle.std.specs.Prelude.{◌≡◌};
ghost use Rattle.bicep_tree.specs.declared.terminal.Terminal.TheVariants as t;
ghost use Rattle.bicep_machine.specs.Folding.{heading_step, headed_by};
ghost use Rattle.bicep_machine.specs.Machine.{made_existing, existing_on, headed_step, existed_step};
ghost use Rattle.foundation.specs.Stopping.{Gives};
ghost use Rattle.bicep_machine.specs.Views.{kept_decorators, header_of, frames_of, state_of, next_of, Frames};

use bicep_machine::{
    Frame, Front, Header, Kept, Next, Owner, State, enter, header_of, is_existing, refuse,
};
use bicep_tree::{Decorator, Literal, Name, Quoted, Terminal};
use foundation::Stop;
use std::alloc::Global;

// The text of a literal, after the name of a resource or a module.
fn head_with(
    alloc: Global,
    decorators: Kept<Vec<Decorator>>,
    from: usize,
    owner: Owner,
    name: Name,
    path: Quoted,
) -> Result<Next, Stop>
    ensures { (S : Frames) → Gives (λ n. (state_of n.state, n.inside, S)) result
        (headed_by (kept_decorators decorators) from owner name path S) }
{
    let header = header_of(alloc, decorators, from, owner, name, path)?;
    Ok(Next {
        state: State::Headed(header),
        inside: false,
    })
}

/// The type text of a resource, or the path of a module.
pub fn head(
    alloc: Global,
    decorators: Kept<Vec<Decorator>>,
    from: usize,
    owner: Owner,
    name: Name,
    at: usize,
    terminal: Terminal,
) -> Result<Next, Stop>
    ensures { (S : Frames) → Gives (λ n. (state_of n.state, n.inside, S)) result
        (heading_step (kept_decorators decorators) from owner name S at terminal) }
{
    match terminal {
        Terminal::Literal(Literal::Text(text)) => {
            head_with(alloc, decorators, from, owner, name, Quoted { at, text })
        }
        other => refuse((other, decorators, name)),
    }
}

// `existing`, where a resource may have it.
fn exist(mut header: Box<Header>) -> Result<Next, Stop>
    ensures { (S : Frames) → Gives (λ n. (state_of n.state, n.inside, S)) result
        (existing_on (made_existing (header_of header.value)) S) }
{
    match header.owner {
        Owner::Resource(_) => header.owner = Owner::Resource(true),
        Owner::Child(_) => header.owner = Owner::Child(true),
        Owner::Module => return refuse(header),
    }
    Ok(Next {
        state: State::Existed(header),
        inside: false,
    })
}

// `=` after a header.
fn begin_body(header: Box<Header>, stack: &mut Vec<Frame>) -> Result<Next, Stop>
    ensures { Gives (λ n. next_of n stack.new.items) result
        (existed_step (header_of header.value) (frames_of stack.old.items) t.Assign) }
{
    enter(
        Frame::Bodied(header, Front::Nothing),
        State::Body,
        false,
        stack,
    )
}

/// A resource or module up to its type text or path.
pub fn go_on_header(
    header: Box<Header>,
    stack: &mut Vec<Frame>,
    terminal: Terminal,
) -> Result<Next, Stop>
    ensures { Gives (λ n. next_of n stack.new.items) result
        (headed_step (header_of header.value) (frames_of stack.old.items) terminal) }
{
    match terminal {
        Terminal::Assign => begin_body(header, stack),
        Terminal::Name(word) => {
            if is_existing(word) {
                exist(header)
            } else {
                refuse(header)
            }
        }
        other => refuse((other, header)),
    }
}

/// A resource up to `existing`.
pub fn go_on_existing(
    header: Box<Header>,
    stack: &mut Vec<Frame>,
    terminal: Terminal,
) -> Result<Next, Stop>
    ensures { Gives (λ n. next_of n stack.new.items) result
        (existed_step (header_of header.value) (frames_of stack.old.items) terminal) }
{
    match terminal {
        Terminal::Assign => begin_body(header, stack),
        other => refuse((other, header)),
    }
}
