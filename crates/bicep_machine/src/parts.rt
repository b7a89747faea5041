// Objects, bodies and statements of parts that were kept.
#![tactic(auto, using(bicep_tree::proofs::ViewLemmas::enums, bicep_tree::proofs::ViewLemmas::structs, crate::proofs::StackLemmas::stacks), unfolding(crate::specs::Kept::made))]

ghost use Rattle.std.specs.Prelude.{◌≡◌, max, map, IfOk, option_map};
ghost use Rattle.bicep_tree.specs.View.{body_of, object_of};
ghost use Rattle.bicep_machine.specs.Kept.{put, empty, object_gap, body_gap, of_members, of_object, of_plain, of_each};
ghost use Rattle.bicep_machine.specs.Kept.{of_property, of_loop, of_decorator, of_body_plain, of_body_if};
ghost use Rattle.bicep_machine.specs.Kept.{of_body_each, of_body_each_if};
ghost use Rattle.bicep_machine.specs.Closing.{of_statement, with_expression, with_each};
ghost use Rattle.bicep_machine.specs.Views.{kept, kept_items, kept_members, kept_object, kept_member, kept_value};
ghost use Rattle.bicep_machine.specs.Views.{kept_loop, kept_body, kept_decorators, kept_decorator, kept_declaration};
ghost use Rattle.bicep_machine.specs.Views.{kept_statement, kept_statements, assigned_of};

use crate::frame::Assigned;
use crate::kept::{Kept, MAX_PART_NESTING, deeper, empty, nothing, put};
use arm_value::OutOfMemory;
use bicep_tree::{
    Body, Declaration, Decorator, Expr, Function, Label, Literal, Loop, LoopNames, Member, Object,
    Statement, Value,
};
use std::alloc::Global;

/// The members of an object with one more.
pub fn with_member(
    members: Kept<Vec<Member>>,
    member: Kept<Member>,
) -> Result<Kept<Vec<Member>>, OutOfMemory>
    ensures { IfOk result (λ k. kept_members k ≡ put (kept_members members) (kept_member member)) }
{
    put(members, member)
}

/// Decorators with one more.
pub fn with_decorator(
    decorators: Kept<Vec<Decorator>>,
    decorator: Kept<Decorator>,
) -> Result<Kept<Vec<Decorator>>, OutOfMemory>
    ensures { IfOk result
        (λ k. kept_decorators k ≡ put (kept_decorators decorators) (kept_decorator decorator)) }
{
    put(decorators, decorator)
}

/// The statements of a file with one more.
pub fn with_statement(
    statements: Kept<Vec<Statement>>,
    statement: Kept<Statement>,
) -> Result<Kept<Vec<Statement>>, OutOfMemory>
    ensures { IfOk result
        (λ k. kept_statements k ≡ put (kept_statements statements) (kept_statement statement)) }
{
    put(statements, statement)
}

/// The object whose `{` is at that offset.
pub fn object_of(alloc: Global, at: usize, members: Kept<Vec<Member>>) -> Kept<Object>
    ensures { kept_object result ≡ of_members 64 at (kept_members members) }
{
    if members.depth < MAX_PART_NESTING {
        Kept {
            part: Object {
                at,
                members: members.part,
            },
            depth: members.depth + 1,
        }
    } else {
        Kept {
            part: object_gap(alloc),
            depth: MAX_PART_NESTING + 1,
        }
    }
}

/// The object as an expression.
pub fn braced(alloc: Global, object: Kept<Object>) -> Result<Kept<Box<Expr>>, OutOfMemory>
    ensures { IfOk result (λ k. kept k ≡ of_object (kept_object object)) }
{
    Ok(Kept {
        part: Box::new(alloc, Expr::Object(object.part))?,
        depth: object.depth,
    })
}

/// The expression as the value of a member or a declaration.
pub fn plain_of(e: Kept<Box<Expr>>) -> Kept<Value>
    ensures { kept_value result ≡ of_plain (kept e) }
{
    Kept {
        part: Value::Plain(Box::into_inner(e.part)),
        depth: e.depth,
    }
}

/// A for-expression: the loop, and the value for each of its items.
pub fn each_of(names: Kept<Box<Loop>>, e: Kept<Box<Expr>>) -> Kept<Value>
    ensures { kept_value result ≡ of_each 64 (kept_loop names) (kept e) }
{
    let below = deeper(names.depth, e.depth);
    if below < MAX_PART_NESTING {
        let each = Value::Each(Box::into_inner(names.part), Box::into_inner(e.part));
        Kept {
            part: each,
            depth: below + 1,
        }
    } else {
        let gap = Value::Plain(Expr::Literal(0, Literal::Null));
        Kept {
            part: gap,
            depth: MAX_PART_NESTING + 1,
        }
    }
}

/// A member with its name and its value.
pub fn property_of(label: Label, value: Kept<Value>) -> Kept<Member>
    ensures { kept_member result ≡ of_property label (kept_value value) }
{
    Kept {
        part: Member::Property(label, value.part),
        depth: value.depth,
    }
}

/// `for` with its names, and the list that they go over.
pub fn loop_of(
    alloc: Global,
    at: usize,
    names: LoopNames,
    e: Kept<Box<Expr>>,
) -> Result<Kept<Box<Loop>>, OutOfMemory>
    ensures { IfOk result (λ k. kept_loop k ≡ of_loop at names (kept e)) }
{
    let part = Loop {
        at,
        names,
        over: Box::into_inner(e.part),
    };
    Ok(Kept {
        part: Box::new(alloc, part)?,
        depth: e.depth,
    })
}

/// No decorators yet.
pub fn no_decorators(alloc: Global) -> Kept<Vec<Decorator>>
    ensures { kept_decorators result ≡ empty }
{
    empty(alloc)
}

/// The decorator whose `@` is at that offset.
pub fn decorator_of(at: usize, function: Function, arguments: Kept<Vec<Expr>>) -> Kept<Decorator>
    ensures { kept_decorator result ≡ of_decorator at function (kept_items arguments) }
{
    Kept {
        part: Decorator {
            at,
            function,
            arguments: arguments.part,
        },
        depth: arguments.depth,
    }
}

/// A body that is an object.
pub fn body_plain(object: Kept<Object>) -> Kept<Body>
    ensures { kept_body result ≡ of_body_plain (kept_object object) }
{
    Kept {
        part: Body::Plain(object.part),
        depth: object.depth,
    }
}

/// A body after a condition, whose `if` is at that offset.
pub fn body_if(at: usize, condition: Kept<Box<Expr>>, object: Kept<Object>) -> Kept<Body>
    ensures { kept_body result ≡ of_body_if at (kept condition) (kept_object object) }
{
    let depth = deeper(condition.depth, object.depth);
    Kept {
        part: Body::If(at, Box::into_inner(condition.part), object.part),
        depth,
    }
}

// What replaces an object that nests too deep.
fn object_gap(alloc: Global) -> Object
    ensures { object_of result ≡ object_gap }
{
    Object {
        at: 0,
        members: Vec::new(alloc),
    }
}

// What replaces a body that nests too deep.
fn body_gap(alloc: Global) -> Kept<Body>
    ensures body { body_of result.part ≡ body_gap }
    ensures depth { result.depth ≡ 65 }
{
    Kept {
        part: Body::Plain(object_gap(alloc)),
        depth: MAX_PART_NESTING + 1,
    }
}

/// A body for each item of a loop.
pub fn body_each(alloc: Global, names: Kept<Box<Loop>>, object: Kept<Object>) -> Kept<Body>
    ensures { kept_body result ≡ of_body_each 64 (kept_loop names) (kept_object object) }
{
    let below = deeper(names.depth, object.depth);
    if below < MAX_PART_NESTING {
        let each = Body::Each(Box::into_inner(names.part), object.part);
        Kept {
            part: each,
            depth: below + 1,
        }
    } else {
        body_gap(alloc)
    }
}

/// A body after a condition, for each item of a loop.
pub fn body_each_if(
    alloc: Global,
    names: Kept<Box<Loop>>,
    at: usize,
    condition: Kept<Box<Expr>>,
    object: Kept<Object>,
) -> Kept<Body>
    ensures { kept_body result
        ≡ of_body_each_if 64 (kept_loop names) at (kept condition) (kept_object object) }
{
    let below = deeper(names.depth, deeper(condition.depth, object.depth));
    if below < MAX_PART_NESTING {
        let names = Box::into_inner(names.part);
        let condition = Box::into_inner(condition.part);
        Kept {
            part: Body::EachIf(names, at, condition, object.part),
            depth: below + 1,
        }
    } else {
        body_gap(alloc)
    }
}

/// The declaration after its decorators.
pub fn statement_of(
    decorators: Kept<Vec<Decorator>>,
    declaration: Kept<Declaration>,
) -> Kept<Statement>
    ensures { kept_statement result
        ≡ of_statement (kept_decorators decorators) (kept_declaration declaration) }
{
    let depth = deeper(decorators.depth, declaration.depth);
    let decorators = decorators.part;
    Kept {
        part: Statement {
            decorators,
            declaration: declaration.part,
        },
        depth,
    }
}

/// The declaration with its expression.
pub fn with_expression(assigned: Assigned, e: Kept<Box<Expr>>) -> Kept<Declaration>
    ensures { kept_declaration result ≡ with_expression (assigned_of assigned) (kept e) }
{
    let depth = e.depth;
    let e = Box::into_inner(e.part);
    let part = match assigned {
        Assigned::Metadata(at, name) => Declaration::Metadata(at, name, e),
        Assigned::Scope(at) => Declaration::TargetScope(at, e),
        Assigned::Param(at, name, kind) => Declaration::ParamWith(at, name, kind, e),
        Assigned::Var(at, name) => Declaration::Var(at, name, Value::Plain(e)),
        Assigned::Output(at, name, kind) => Declaration::Output(at, name, kind, Value::Plain(e)),
    };
    Kept { part, depth }
}

/// The declaration with its for-expression; `None` where it may have none.
pub fn with_each(assigned: Assigned, value: Kept<Value>) -> Option<Kept<Declaration>>
    ensures { option_map kept_declaration result
        ≡ with_each (assigned_of assigned) (kept_value value) }
{
    match assigned {
        Assigned::Var(at, name) => Some(Kept {
            part: Declaration::Var(at, name, value.part),
            depth: value.depth,
        }),
        Assigned::Output(at, name, kind) => Some(Kept {
            part: Declaration::Output(at, name, kind, value.part),
            depth: value.depth,
        }),
        other => nothing((other, value)),
    }
}
