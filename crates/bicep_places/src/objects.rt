// Objects: their members, their ends, and where an object goes that ended.
#![tactic(auto, using(bicep_machine::proofs::StackLemmas::stacks))]

ghost use Rattle.std.specs.Prelude.{◌≡◌, Some};
ghost use Rattle.bicep_machine.specs.Kept.{of_object};
ghost use Rattle.bicep_machine.specs.Stack.{done};
ghost use Rattle.bicep_machine.specs.Closing.{member_put, fronted, object_on, members_closed, member_closed};
ghost use Rattle.foundation.specs.Stopping.{Gives};
ghost use Rattle.bicep_machine.specs.Views.{kept_object, kept_member, header_of, front_of, frames_of, next_of};

use crate::bodies::end_body;
use bicep_machine::{
    Frame, Front, Header, Kept, Next, State, body_each, body_each_if, body_if, body_plain, braced,
    close, enter, object_of, open, refuse, run_out, with_member,
};
use bicep_tree::{Member, Object};
use foundation::Stop;
use std::alloc::Global;

/// Puts a member that ended into its object.
pub fn put_member(member: Kept<Member>, stack: &mut Vec<Frame>) -> Result<Next, Stop>
    ensures { Gives (λ n. next_of n stack.new.items) result
        (member_put (kept_member member) (frames_of stack.old.items)) }
{
    match close(stack) {
        Some(Frame::InObject(at, was, members)) => {
            let members = with_member(members, member)?;
            enter(
                Frame::InObject(at, was, members),
                State::Member,
                false,
                stack,
            )
        }
        other => refuse((other, member)),
    }
}

// An object that ends a body.
fn end_object(
    alloc: Global,
    header: Box<Header>,
    front: Front,
    object: Kept<Object>,
    stack: &mut Vec<Frame>,
) -> Result<Next, Stop>
    ensures { Gives (λ n. next_of n stack.new.items) result
        (fronted 64 (header_of header.value) (front_of front) (kept_object object)
        (frames_of stack.old.items)) }
{
    match front {
        Front::Nothing => Ok(end_body(Box::into_inner(header), body_plain(object), stack)),
        Front::Condition(at, condition) => {
            let body = body_if(at, condition, object);
            Ok(end_body(Box::into_inner(header), body, stack))
        }
        Front::Loop(names) => {
            let body = body_each(alloc, names, object);
            Ok(Next {
                state: State::BodyEnd(header, body),
                inside: false,
            })
        }
        Front::LoopAndCondition(names, at, condition) => {
            let body = body_each_if(alloc, names, at, condition, object);
            Ok(Next {
                state: State::BodyEnd(header, body),
                inside: false,
            })
        }
    }
}

// An object is an expression.
fn end_braces(
    alloc: Global,
    was: bool,
    object: Kept<Object>,
    stack: &Vec<Frame>,
) -> Result<Next, Stop>
    ensures { Gives (λ n. next_of n stack.now.items) result
        (Some (done (of_object (kept_object object)), was, frames_of stack.now.items)) }
{
    Ok(Next {
        state: State::Done(braced(alloc, object)?),
        inside: was,
    })
}

// Puts an object that ended into its body, or makes it an expression.
fn put_object(
    alloc: Global,
    was: bool,
    object: Kept<Object>,
    stack: &mut Vec<Frame>,
) -> Result<Next, Stop>
    ensures { Gives (λ n. next_of n stack.new.items) result
        (object_on 64 was (kept_object object) (frames_of stack.old.items)) }
{
    match close(stack) {
        None => end_braces(alloc, was, object, stack),
        Some(Frame::Bodied(header, front)) => end_object(alloc, header, front, object, stack),
        Some(frame) => match open(stack, frame) {
            Ok(()) => end_braces(alloc, was, object, stack),
            Err(_) => run_out(object),
        },
    }
}

/// `}` after the members.
pub fn close_members(alloc: Global, stack: &mut Vec<Frame>) -> Result<Next, Stop>
    ensures { Gives (λ n. next_of n stack.new.items) result
        (members_closed 64 (frames_of stack.old.items)) }
{
    match close(stack) {
        Some(Frame::InObject(at, was, members)) => {
            put_object(alloc, was, object_of(alloc, at, members), stack)
        }
        other => refuse(other),
    }
}

/// `}` after a member.
pub fn close_member(
    alloc: Global,
    member: Kept<Member>,
    stack: &mut Vec<Frame>,
) -> Result<Next, Stop>
    ensures { Gives (λ n. next_of n stack.new.items) result
        (member_closed 64 (kept_member member) (frames_of stack.old.items)) }
{
    match close(stack) {
        Some(Frame::InObject(at, was, members)) => {
            let members = with_member(members, member)?;
            put_object(alloc, was, object_of(alloc, at, members), stack)
        }
        other => refuse((other, member)),
    }
}
