// The bodies of resources and modules.
#![tactic(auto, using(bicep_tree::proofs::ViewLemmas::enums, bicep_tree::proofs::ViewLemmas::structs))]

ghost use Rattle.std.specs.Prelude.{◌≡◌, Some};
ghost use Rattle.bicep_tree.specs.Tree.{resource};
ghost use Rattle.bicep_tree.specs.View.{body_of, resource_of};
ghost use Rattle.bicep_machine.specs.Closing.{body_on, with_condition, guarded_by};
ghost use Rattle.foundation.specs.Stopping.{Gives};
ghost use Rattle.bicep_machine.specs.Views.{kept, kept_body, header_of, front_of, frames_of, next_of};

use bicep_machine::{
    Frame, Front, Header, Kept, Next, Owner, State, deeper, enter, refuse, statement_of,
};
use bicep_tree::{Body, Declaration, Expr, Member, Name, Quoted, Resource};
use foundation::Stop;

// The resource of this header and body.
fn resource_of(at: usize, name: Name, path: Quoted, existing: bool, body: Body) -> Resource
    ensures { resource_of result ≡ resource at name path existing (body_of body) }
{
    Resource {
        at,
        name,
        path,
        existing,
        body,
    }
}

/// A resource or a module ends.
pub fn end_body(header: Header, body: Kept<Body>, stack: &Vec<Frame>) -> Next
    ensures { body_on (header_of header) (kept_body body) (frames_of stack.now.items)
        ≡ Some (next_of result stack.now.items) }
{
    let Header {
        decorators,
        at,
        owner,
        name,
        path,
    } = header;
    let depth = body.depth;
    match owner {
        Owner::Resource(existing) => {
            let resource = resource_of(at, name, path, existing, body.part);
            let declaration = Kept {
                part: Declaration::Resource(resource),
                depth,
            };
            Next {
                state: State::PastStatement(statement_of(decorators, declaration)),
                inside: false,
            }
        }
        Owner::Child(existing) => {
            let resource = resource_of(at, name, path, existing, body.part);
            let depth = deeper(decorators.depth, depth);
            let part = Member::Child(decorators.part, resource);
            Next {
                state: State::PastMember(Kept { part, depth }),
                inside: false,
            }
        }
        Owner::Module => {
            let declaration = Kept {
                part: Declaration::Module(at, name, path, body.part),
                depth,
            };
            Next {
                state: State::PastStatement(statement_of(decorators, declaration)),
                inside: false,
            }
        }
    }
}

/// The condition of a body.
pub fn guard(
    header: Box<Header>,
    front: Front,
    at: usize,
    condition: Kept<Box<Expr>>,
    stack: &mut Vec<Frame>,
) -> Result<Next, Stop>
    ensures { Gives (λ n. next_of n stack.new.items) result
        (guarded_by (header_of header.value) (with_condition (front_of front) at (kept condition))
        (frames_of stack.old.items)) }
{
    match front {
        Front::Nothing => {
            let frame = Frame::Bodied(header, Front::Condition(at, condition));
            enter(frame, State::Guarded, false, stack)
        }
        Front::Loop(names) => {
            let frame = Frame::Bodied(header, Front::LoopAndCondition(names, at, condition));
            enter(frame, State::Guarded, false, stack)
        }
        other => refuse((other, header, condition)),
    }
}
