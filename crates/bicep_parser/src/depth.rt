// How deep what was read last nests, and what is open right around it.

ghost use Rattle.std.specs.Prelude.{◌≡◌};
ghost use Rattle.bicep_machine.specs.Views.{callee_of, header_of, front_of, frame_of, frames_of, state_of};
ghost use Rattle.bicep_parser.specs.Depth.{callee_depth, header_depth, front_depth, frame_depth, top_depth};
ghost use Rattle.bicep_parser.specs.Depth.{state_depth, noted};

use bicep_machine::{Callee, Frame, Front, Header, MAX_PART_NESTING, State, deeper};

fn callee_depth(callee: &Callee) -> usize
    ensures { result ≡ callee_depth (callee_of callee.now) }
{
    match callee {
        Callee::Function(_) => 0,
        Callee::Decorator(list, _, _) => list.depth,
    }
}

fn header_depth(header: &Header) -> usize
    ensures { result ≡ header_depth (header_of header.now) }
{
    header.decorators.depth
}

fn front_depth(front: &Front) -> usize
    ensures { result ≡ front_depth (front_of front.now) }
{
    match front {
        Front::Nothing => 0,
        Front::Condition(_, e) => e.depth,
        Front::Loop(names) => names.depth,
        Front::LoopAndCondition(names, _, e) => deeper(names.depth, e.depth),
    }
}

fn state_depth(state: &State) -> usize
    ensures { result ≡ state_depth (state_of state.now) }
{
    match state {
        State::Dotted(_, e) => e.depth,
        State::Done(e) => e.depth,
        State::Paused(e) => e.depth,
        State::PastMember(member) => member.depth,
        State::BodyEnd(header, body) => deeper(header_depth(header), body.depth),
        State::AtSign(list, _) => list.depth,
        State::DecoratorNamed(list, _, _) => list.depth,
        State::DecoratorSpaced(list, _, _) => list.depth,
        State::DecoratorReady(list, _, _) => list.depth,
        State::Decorated(list) => list.depth,
        State::PastDecorators(list) => list.depth,
        State::Declaring(list, _, _) => list.depth,
        State::Declared(list, _, _, _) => list.depth,
        State::Typed(list, _, _, _, _) => list.depth,
        State::Headed(header) => header_depth(header),
        State::Existed(header) => header_depth(header),
        State::PastStatement(statement) => statement.depth,
        _ => 0,
    }
}

fn frame_depth(frame: &Frame) -> usize
    ensures { result ≡ frame_depth (frame_of frame.now) }
{
    match frame {
        Frame::Calling(callee, _, arguments) => deeper(callee_depth(callee), arguments.depth),
        Frame::Indexing(e, _) => e.depth,
        Frame::InArray(_, _, items) => items.depth,
        Frame::InObject(_, _, members) => members.depth,
        Frame::InText(_, _, holes) => holes.depth,
        Frame::Left(_, e) => e.depth,
        Frame::Asked(e) => e.depth,
        Frame::Chosen(c, e) => deeper(c.depth, e.depth),
        Frame::Assigned(list, _) => list.depth,
        Frame::BodyOver(_, _, header) => header_depth(header),
        Frame::Looped(names) => names.depth,
        Frame::InCondition(_, header, front) => deeper(header_depth(header), front_depth(front)),
        Frame::Bodied(header, front) => deeper(header_depth(header), front_depth(front)),
        Frame::InFile(statements) => statements.depth,
        _ => 0,
    }
}

fn top_depth(stack: &[Frame]) -> usize
    ensures { result ≡ top_depth (frames_of stack.now) }
{
    match stack.last() {
        None => 0,
        Some(frame) => frame_depth(frame),
    }
}

/// The place of the token that was read last, where something at hand nests too deep and no place was
/// noted before.
pub fn noted(place: Option<usize>, state: &State, stack: &[Frame], at: usize) -> Option<usize>
    ensures { result ≡ noted place (state_of state.now) (frames_of stack.now) at }
{
    match place {
        Some(place) => Some(place),
        None => {
            if deeper(state_depth(state), top_depth(stack)) > MAX_PART_NESTING {
                Some(at)
            } else {
                None
            }
        }
    }
}
