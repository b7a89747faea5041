// What was read last.

ghost use Rattle.std.specs.Prelude.{◌≡◌, ◌∷◌, Some, Err};
ghost use Rattle.foundation.specs.Stopping.{Gives};
ghost use Rattle.bicep_machine.specs.Views.{frame_of, frames_of, state_of, next_of};
ghost use Rattle.foundation.specs.declared.stop.Stop.TheVariants.{Refused, OutOfMemory};

use crate::discard::Discard;
use crate::frame::{Frame, Header, open};
use crate::kept::Kept;
use crate::word::Word;
use bicep_tree::{
    Access, Body, Decorator, Expr, Function, Label, LoopNames, Member, Name, Namespace, Statement,
    TypeName,
};
use foundation::Stop;
use std::marker::Model;

/// What was read last.
#[derive(Drop)]
pub enum State {
    /// Something after which an expression comes, and whether newlines before the expression are skipped.
    Wanted(bool),
    /// `(` of a call.
    First,
    /// A name in the place of an expression.
    Named(Name),
    /// `sys.` or `az.`: the name space, and its word as a name.
    Qualifying(Namespace, Name),
    /// `sys.f` or `az.f`: the name space, its word as a name, and the name after the dot.
    Qualified(Namespace, Name, Name),
    /// A value, then `.`, `.?` or `::`.
    Dotted(Access, Kept<Box<Expr>>),
    /// An expression that binds most.
    Done(Kept<Box<Expr>>),
    /// An expression that binds most, then a newline that is not skipped.
    Paused(Kept<Box<Expr>>),
    /// `[`, or separators after it or an item.
    Item,
    /// `[` in the place of a body.
    ForWanted(usize),
    /// `[for` in the place of a body.
    NamesWanted(usize),
    /// `[for (` in the place of a body.
    OneWanted,
    /// `[for (x` in the place of a body.
    OneNamed(Name),
    /// `[for (x,` in the place of a body.
    OtherWanted(Name),
    /// `[for (x, i` in the place of a body.
    BothNamed(Name, Name),
    /// `{`, or separators after it or a member.
    Member,
    /// The name of a member.
    Labelled(Label),
    /// A member.
    PastMember(Kept<Member>),
    /// `[for` and the names: the offset of `[`, and the names.
    Among(usize, LoopNames),
    /// `=` before a body.
    Body,
    /// `:` before the body of a loop.
    LoopedBody,
    /// `if` of a body, at that offset.
    Condition(usize),
    /// `if (c)` of a body.
    Guarded,
    /// The object of a loop's body.
    BodyEnd(Box<Header>, Kept<Body>),
    /// Decorators, and the offset of the next `@`.
    AtSign(Kept<Vec<Decorator>>, usize),
    /// `@f`: the decorators before it, the offset of `@`, and the name.
    DecoratorNamed(Kept<Vec<Decorator>>, usize, Name),
    /// `@sys.`: the decorators before it, and the offsets of `@` and of `sys`.
    DecoratorSpaced(Kept<Vec<Decorator>>, usize, usize),
    /// `@sys.f`: the decorators before it, the offset of `@`, and the function.
    DecoratorReady(Kept<Vec<Decorator>>, usize, Function),
    /// Decorators, after which a newline comes.
    Decorated(Kept<Vec<Decorator>>),
    /// Decorators, and the newline after them.
    PastDecorators(Kept<Vec<Decorator>>),
    /// The word of a declaration: the decorators before it, its offset, and the word.
    Declaring(Kept<Vec<Decorator>>, usize, Word),
    /// The word of a declaration and its name.
    Declared(Kept<Vec<Decorator>>, usize, Word, Name),
    /// The word of a declaration, its name and its type.
    Typed(Kept<Vec<Decorator>>, usize, Word, Name, TypeName),
    /// A resource or module up to its type text or path; `existing` may come.
    Headed(Box<Header>),
    /// A resource up to `existing`.
    Existed(Box<Header>),
    /// Newlines, or nothing yet, in a file.
    Between,
    /// A statement.
    PastStatement(Kept<Statement>),
}

/// Where a token leads.
#[derive(Drop)]
pub struct Next {
    /// What was read last.
    pub state: State,
    /// Whether newlines are skipped, as inside parentheses.
    pub inside: bool,
}

// A function that hands a `Next` on then sees no state in it, and derives nothing of the trees there.
impl Model for Next {
    ghost use Rattle.bicep_machine.specs.Held.{Place};
    ghost use Rattle.bicep_machine.specs.declared.state.State.{State};
    ghost use Rattle.bicep_machine.specs.contracts.state.State as states;
    ghost use Rattle.std.specs.Coded.{codes};

    ghost Value = { Place State };

    ghost coded = { Prim.hlevel (codes, states.the_row.coded) };

    ghost view = { λ n. record { state = n.state; inside = n.inside } };
}

/// No file continues this way; drops the part.
pub fn refuse<T: Discard, R>(part: T) -> Result<R, Stop>
    ensures { result ≡ Err Refused }
{
    part.discard();
    Err(Stop::Refused)
}

/// Out of memory; drops the part.
pub fn run_out<T: Discard, R>(part: T) -> Result<R, Stop>
    ensures { result ≡ Err OutOfMemory }
{
    part.discard();
    Err(Stop::OutOfMemory)
}

/// Opens the frame; the state is the next one.
///
/// # Errors
///
/// `OutOfMemory`: memory was refused; nothing is said of the stack.
pub fn enter(frame: Frame, state: State, inside: bool, stack: &mut Vec<Frame>) -> Result<Next, Stop>
    ensures { Gives (λ n. next_of n stack.new.items) result
        (Some (state_of state, inside, frame_of frame ∷ frames_of stack.old.items)) }
{
    match open(stack, frame) {
        Ok(()) => Ok(Next { state, inside }),
        Err(_) => run_out(state),
    }
}
