// Declarations up to their `=`: the word, the name and the type.
#![tactic(auto, using(bicep_machine::proofs::StackLemmas::stacks))]

ghost use Rattle.std.specs.Prelude.{◌≡◌};
ghost use Rattle.bicep_machine.specs.declared.word.Word.TheVariants as w;
ghost use Rattle.bicep_tree.specs.Tree.{param};
ghost use Rattle.bicep_machine.specs.Kept.{flat};
ghost use Rattle.bicep_machine.specs.Closing.{of_statement};
ghost use Rattle.bicep_machine.specs.Folding.{typing_step, assigning_step, assigned_to};
ghost use Rattle.bicep_machine.specs.Machine.{declaring_step, declared_step, typed_step};
ghost use Rattle.foundation.specs.Stopping.{Gives};
ghost use Rattle.bicep_machine.specs.Views.{kept_decorators, kept_statement, assigned_of, frames_of, state_of};
ghost use Rattle.bicep_machine.specs.Views.{next_of, Frames};

use crate::headers::head;
use bicep_machine::{
    Assigned, Frame, Kept, Next, Owner, State, Word, enter, file, flat, refuse, statement_of,
    type_of,
};
use bicep_tree::{Declaration, Decorator, Name, Statement, Terminal, TypeName};
use foundation::Stop;
use std::alloc::Global;

// A declaration up to its `=`.
fn assign(
    decorators: Kept<Vec<Decorator>>,
    target: Assigned,
    stack: &mut Vec<Frame>,
) -> Result<Next, Stop>
    ensures { Gives (λ n. next_of n stack.new.items) result
        (assigned_to (kept_decorators decorators) (assigned_of target)
        (frames_of stack.old.items)) }
{
    let frame = Frame::Assigned(decorators, target);
    enter(frame, State::Wanted(false), false, stack)
}

// `=` after the name of a declaration, or after its type.
fn begin_value(
    decorators: Kept<Vec<Decorator>>,
    target: Assigned,
    stack: &mut Vec<Frame>,
    terminal: Terminal,
) -> Result<Next, Stop>
    ensures { Gives (λ n. next_of n stack.new.items) result
        (assigning_step (kept_decorators decorators) (assigned_of target)
        (frames_of stack.old.items) terminal) }
{
    match terminal {
        Terminal::Assign => assign(decorators, target, stack),
        other => refuse((other, decorators, target)),
    }
}

/// The word of a declaration.
#[tactic(auto, using(crate::proofs::StepLemmas::declaring))]
pub fn name_declaration(
    decorators: Kept<Vec<Decorator>>,
    from: usize,
    word: Word,
    stack: &mut Vec<Frame>,
    at: usize,
    terminal: Terminal,
) -> Result<Next, Stop>
    ensures { Gives (λ n. next_of n stack.new.items) result
        (declaring_step (kept_decorators decorators) from word (frames_of stack.old.items)
        at terminal) }
{
    match word {
        Word::TargetScope => begin_value(decorators, Assigned::Scope(from), stack, terminal),
        _ => match terminal {
            Terminal::Name(text) => Ok(Next {
                state: State::Declared(decorators, from, word, Name { at, text }),
                inside: false,
            }),
            other => refuse((other, decorators)),
        },
    }
}

// The type of a parameter or an output.
fn type_declaration(
    decorators: Kept<Vec<Decorator>>,
    from: usize,
    word: Word,
    name: Name,
    terminal: Terminal,
) -> Result<Next, Stop>
    ensures { (S : Frames) → Gives (λ n. (state_of n.state, n.inside, S)) result
        (typing_step (kept_decorators decorators) from word name S terminal) }
{
    match terminal {
        Terminal::Name(text) => match type_of(text) {
            None => refuse((decorators, name)),
            Some(kind) => Ok(Next {
                state: State::Typed(decorators, from, word, name, kind),
                inside: false,
            }),
        },
        other => refuse((other, decorators, name)),
    }
}

/// The word of a declaration and its name.
#[tactic(auto, using(crate::proofs::StepLemmas::declared))]
pub fn go_on_declaration(
    alloc: Global,
    decorators: Kept<Vec<Decorator>>,
    from: usize,
    word: Word,
    name: Name,
    stack: &mut Vec<Frame>,
    at: usize,
    terminal: Terminal,
) -> Result<Next, Stop>
    ensures { Gives (λ n. next_of n stack.new.items) result
        (declared_step (kept_decorators decorators) from word name (frames_of stack.old.items)
        at terminal) }
{
    match word {
        Word::Metadata => begin_value(decorators, Assigned::Metadata(from, name), stack, terminal),
        Word::Var => begin_value(decorators, Assigned::Var(from, name), stack, terminal),
        Word::TargetScope => refuse((terminal, decorators, name)),
        Word::Param => type_declaration(decorators, from, Word::Param, name, terminal),
        Word::Output => type_declaration(decorators, from, Word::Output, name, terminal),
        Word::Resource => {
            let owner = Owner::Resource(false);
            head(alloc, decorators, from, owner, name, at, terminal)
        }
        Word::Child => {
            let owner = Owner::Child(false);
            head(alloc, decorators, from, owner, name, at, terminal)
        }
        Word::Module => head(alloc, decorators, from, Owner::Module, name, at, terminal),
    }
}

/// A parameter without a default.
pub fn parameter(
    decorators: Kept<Vec<Decorator>>,
    at: usize,
    name: Name,
    kind: TypeName,
) -> Kept<Statement>
    ensures { kept_statement result
        ≡ of_statement (kept_decorators decorators) (flat (param at name kind)) }
{
    statement_of(decorators, flat(Declaration::Param(at, name, kind)))
}

// A parameter and its type.
fn go_on_parameter(
    decorators: Kept<Vec<Decorator>>,
    from: usize,
    name: Name,
    kind: TypeName,
    stack: &mut Vec<Frame>,
    terminal: Terminal,
) -> Result<Next, Stop>
    ensures { Gives (λ n. next_of n stack.new.items) result
        (typed_step (kept_decorators decorators) from w.Param name kind (frames_of stack.old.items)
        terminal) }
{
    match terminal {
        Terminal::Assign => assign(decorators, Assigned::Param(from, name, kind), stack),
        Terminal::Newline => file(parameter(decorators, from, name, kind), stack),
        other => refuse((other, decorators, name)),
    }
}

/// The word of a declaration, its name and its type.
#[tactic(auto, using(crate::proofs::StepLemmas::typed))]
pub fn go_on_typed(
    decorators: Kept<Vec<Decorator>>,
    from: usize,
    word: Word,
    name: Name,
    kind: TypeName,
    stack: &mut Vec<Frame>,
    terminal: Terminal,
) -> Result<Next, Stop>
    ensures { Gives (λ n. next_of n stack.new.items) result
        (typed_step (kept_decorators decorators) from word name kind (frames_of stack.old.items)
        terminal) }
{
    match word {
        Word::Param => go_on_parameter(decorators, from, name, kind, stack, terminal),
        Word::Output => {
            let target = Assigned::Output(from, name, kind);
            begin_value(decorators, target, stack, terminal)
        }
        _ => refuse((terminal, decorators, name)),
    }
}
