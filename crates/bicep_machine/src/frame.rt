// What is open around what is read, on a stack: so the reader does not recurse, however deep a file nests.

ghost use Rattle.std.specs.Prelude.{◌≡◌, ◌+◌, [], ◌∷◌, vec_len, IfOk, OnOk, MatchOption};
ghost use Rattle.bicep_machine.specs.Stack.{header, in_file};
ghost use Rattle.bicep_machine.specs.Views.{kept_decorators, header_of, frame_of, frames_of};

use crate::kept::{Kept, empty};
use crate::word::Owner;
use arm_value::{OutOfMemory, Text};
use bicep_tree::{
    Decorator, Expr, Function, Hole, Indexing, Label, Loop, LoopNames, Member, Name, Operator,
    Prefix, Quoted, Statement, TypeName,
};
use std::alloc::Global;

/// What the `(` of a call follows.
#[derive(Drop)]
pub enum Callee {
    /// A function of an expression.
    Function(Function),
    /// A function of a decorator: the decorators before it, the offset of `@`, and the function.
    Decorator(Kept<Vec<Decorator>>, usize, Function),
}

/// What comes before the body of a resource or a module.
#[derive(Drop)]
pub struct Header {
    /// The decorators before it.
    pub decorators: Kept<Vec<Decorator>>,
    /// The offset of `resource` or `module`, in bytes.
    pub at: usize,
    /// What the body belongs to.
    pub owner: Owner,
    /// Its name in the file.
    pub name: Name,
    /// The type text of a resource, or the path of a module.
    pub path: Quoted,
}

/// What comes before the object of a body.
#[derive(Drop)]
pub enum Front {
    /// Nothing: the object comes first.
    Nothing,
    /// `if`, its offset, and the condition.
    Condition(usize, Kept<Box<Expr>>),
    /// `[for x in xs:`.
    Loop(Kept<Box<Loop>>),
    /// `[for x in xs:`, then `if`, its offset, and the condition.
    LoopAndCondition(Kept<Box<Loop>>, usize, Kept<Box<Expr>>),
}

/// What comes before the expression of a declaration: the offset of its word, its name and its type,
/// as far as it has them.
#[derive(Drop)]
pub enum Assigned {
    /// `metadata`
    Metadata(usize, Name),
    /// `targetScope`
    Scope(usize),
    /// `param`
    Param(usize, Name, TypeName),
    /// `var`
    Var(usize, Name),
    /// `output`
    Output(usize, Name, TypeName),
}

/// What is open. A truth value says whether newlines were skipped around it.
#[derive(Drop)]
pub enum Frame {
    /// `(`
    Grouping(usize, bool),
    /// A call and its arguments so far.
    Calling(Callee, bool, Kept<Vec<Expr>>),
    /// An index after a value.
    Indexing(Kept<Box<Expr>>, Indexing),
    /// `[` with nothing after it.
    Opened(usize, bool),
    /// An array, its items so far, and separators.
    InArray(usize, bool, Kept<Vec<Expr>>),
    /// An object, its members so far, and separators.
    InObject(usize, bool, Kept<Vec<Member>>),
    /// An interpolated text, its first characters, and its holes so far.
    InText(usize, Text, Kept<Vec<Hole>>),
    /// An operator before its operand.
    Prefixing(usize, Prefix),
    /// A left operand and its operator.
    Left(Operator, Kept<Box<Expr>>),
    /// The condition of a conditional, and `?`.
    Asked(Kept<Box<Expr>>),
    /// The condition, the first branch, and `:`.
    Chosen(Kept<Box<Expr>>, Kept<Box<Expr>>),
    /// The name of a member, and `:`.
    Valued(Label),
    /// A declaration up to its `=`.
    Assigned(Kept<Vec<Decorator>>, Assigned),
    /// `[for x in` of a value.
    Over(usize, LoopNames),
    /// `[for x in` of a body.
    BodyOver(usize, LoopNames, Box<Header>),
    /// `[for (` of a body.
    InNames(usize),
    /// `[for x in xs:` of a value.
    Looped(Kept<Box<Loop>>),
    /// `if (` of a body.
    InCondition(usize, Box<Header>, Front),
    /// A body up to its object.
    Bodied(Box<Header>, Front),
    /// The file, and its statements so far.
    InFile(Kept<Vec<Statement>>),
}

/// What comes before a body, in a box.
pub fn header_of(
    alloc: Global,
    decorators: Kept<Vec<Decorator>>,
    at: usize,
    owner: Owner,
    name: Name,
    path: Quoted,
) -> Result<Box<Header>, OutOfMemory>
    ensures { IfOk result
        (λ h. header_of h.value ≡ header (kept_decorators decorators) at owner name path) }
{
    let header = Header {
        decorators,
        at,
        owner,
        name,
        path,
    };
    Ok(Box::new(alloc, header)?)
}

/// A stack on which nothing but a file without statements is open.
pub fn empty_file(alloc: Global) -> Result<Vec<Frame>, OutOfMemory>
    ensures { IfOk result (λ s. frames_of s.items ≡ in_file ([], 0) ∷ []) }
{
    let mut stack = Vec::new(alloc);
    open(&mut stack, Frame::InFile(empty(alloc)))?;
    Ok(stack)
}

/// Puts the frame on top.
#[tactic(auto, using(crate::proofs::StackLemmas::stacks))]
pub fn open(stack: &mut Vec<Frame>, frame: Frame) -> Result<(), OutOfMemory>
    ensures { OnOk result
        (frames_of stack.new.items ≡ frame_of frame ∷ frames_of stack.old.items) }
{
    stack.push(frame)?;
    Ok(())
}

/// Takes the frame on top; `None` where nothing is open.
pub fn close(stack: &mut Vec<Frame>) -> Option<Frame>
    ensures frames { MatchOption result
        ((frames_of stack.old.items ≡ []) × (frames_of stack.new.items ≡ []))
        (λ f. frames_of stack.old.items ≡ frame_of f ∷ frames_of stack.new.items) }
    ensures shorter { MatchOption result (Unit {0})
        (λ _. vec_len stack.new + 1 ≡ vec_len stack.old) }
{
    stack.pop()
}
