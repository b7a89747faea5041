// Tokens in objects.
#![tactic(auto, using(bicep_machine::proofs::StackLemmas::stacks))]

ghost use Rattle.std.specs.Prelude.{◌≡◌};
ghost use Rattle.foundation.specs.Stopping.{Gives};
ghost use Rattle.bicep_tree.specs.declared.terminal.Terminal.TheVariants as t;
ghost use Rattle.bicep_machine.specs.Machine.{member_step, past_member_step, labelled_step};
ghost use Rattle.bicep_machine.specs.Views.{kept_member, frames_of, state_of, next_of, Frames};

use arm_value::Text;
use bicep_machine::{Frame, Kept, Next, State, Word, empty, enter, is_resource, refuse};
use bicep_places::{close_member, close_members, put_member};
use bicep_tree::{Label, Literal, Member, Name, Quoted, Terminal};
use foundation::Stop;
use std::alloc::Global;

// The text, where the value is one.
fn label(at: usize, value: Literal) -> Result<Next, Stop>
    ensures { (S : Frames) → Gives (λ n. (state_of n.state, n.inside, S)) result
        (member_step 64 S at (t.Literal value)) }
{
    match value {
        Literal::Text(text) => {
            let label = Label::Quoted(Quoted { at, text });
            Ok(Next {
                state: State::Labelled(label),
                inside: false,
            })
        }
        other => refuse(other),
    }
}

/// `{`, or separators after it or a member.
pub fn member(
    alloc: Global,
    stack: &mut Vec<Frame>,
    at: usize,
    terminal: Terminal,
) -> Result<Next, Stop>
    ensures { Gives (λ n. next_of n stack.new.items) result
        (member_step 64 (frames_of stack.old.items) at terminal) }
{
    match terminal {
        Terminal::Newline => Ok(Next {
            state: State::Member,
            inside: false,
        }),
        Terminal::Comma => Ok(Next {
            state: State::Member,
            inside: false,
        }),
        Terminal::CloseBrace => close_members(alloc, stack),
        Terminal::At => Ok(Next {
            state: State::AtSign(empty(alloc), at),
            inside: false,
        }),
        Terminal::Name(text) => {
            let label = Label::Name(Name { at, text });
            Ok(Next {
                state: State::Labelled(label),
                inside: false,
            })
        }
        Terminal::Literal(value) => label(at, value),
        other => refuse(other),
    }
}

/// A member.
pub fn past_member(
    alloc: Global,
    member: Kept<Member>,
    stack: &mut Vec<Frame>,
    terminal: Terminal,
) -> Result<Next, Stop>
    ensures { Gives (λ n. next_of n stack.new.items) result
        (past_member_step 64 (kept_member member) (frames_of stack.old.items) terminal) }
{
    match terminal {
        Terminal::Newline => put_member(member, stack),
        Terminal::Comma => put_member(member, stack),
        Terminal::CloseBrace => close_member(alloc, member, stack),
        other => refuse((other, member)),
    }
}

// The name of a nested resource, after the word `resource`.
fn nest(alloc: Global, label: Label, at: usize, text: Text) -> Result<Next, Stop>
    ensures { (S : Frames) → Gives (λ n. (state_of n.state, n.inside, S)) result
        (labelled_step label S at (t.Name text)) }
{
    match label {
        Label::Name(word) => {
            if is_resource(word.text) {
                let name = Name { at, text };
                let state = State::Declared(empty(alloc), word.at, Word::Child, name);
                Ok(Next {
                    state,
                    inside: false,
                })
            } else {
                refuse(text)
            }
        }
        other => refuse((other, text)),
    }
}

/// The name of a member.
pub fn go_on_label(
    alloc: Global,
    label: Label,
    stack: &mut Vec<Frame>,
    at: usize,
    terminal: Terminal,
) -> Result<Next, Stop>
    ensures { Gives (λ n. next_of n stack.new.items) result
        (labelled_step label (frames_of stack.old.items) at terminal) }
{
    match terminal {
        Terminal::Colon => { enter(Frame::Valued(label), State::Wanted(false), false, stack) }
        Terminal::Name(text) => nest(alloc, label, at, text),
        other => refuse((other, label)),
    }
}
