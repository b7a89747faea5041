// A table with what its expressions need besides.
ghost use Rattle.std.specs.Prelude.{◌≡◌, ◌<◌, true, length, map, IfOk, MatchOption};
ghost use Rattle.plan_table.specs.Opened.{opened_of, step_of};
ghost use Rattle.plan_table.specs.Found.{scope_at};
ghost use Rattle.plan_telling.specs.Symbols.{symbolic, symbols_at, IsComplete, AreKept};

use crate::symbols::{Symbolic, symbols_of};
use arm_value::OutOfMemory;
use plan_listing::words::TypeTexts;
use plan_table::frame::{Frame, Instance};
use plan_table::table::Table;
use std::alloc::Global;
use template_parts::run_out;

/// The resources with symbolic names of the scope at a position.
#[derive(Drop)]
pub struct Kept {
    /// The instances of nested deployments that lead to the scope, the innermost first.
    pub position: Vec<Instance>,
    /// The resources.
    pub symbols: Vec<Symbolic>,
}

/// The table of a deployment, with the symbolic names of its scopes.
#[derive(Drop)]
pub struct Register<'a> {
    /// The table.
    pub table: Table<'a>,
    /// The texts of types.
    pub types: TypeTexts,
    /// The resources with symbolic names of scopes, each by the number of its frame.
    pub kept: Vec<Kept>,
}

// Whether the positions are one.
fn are_one(first: &[Instance], second: &[Instance]) -> bool
    ensures { result ≡ true → map step_of first.now ≡ map step_of second.now }
{
    if first.len() != second.len() {
        return false;
    }
    for number in 0..first.len() {
        if first[number].resource != second[number].resource {
            return false;
        }
        if first[number].copy != second[number].copy {
            return false;
        }
    }
    true
}

// The position again.
fn position_again(alloc: Global, position: &[Instance]) -> Result<Vec<Instance>, OutOfMemory>
    ensures { IfOk result (λ p. p.items ≡ position.now) }
{
    let mut again = Vec::new(alloc);
    for instance in position {
        again.push(*instance)?;
    }
    Ok(again)
}

/// The resources with symbolic names of a scope.
pub fn kept_of(alloc: Global, frame: &Frame) -> Result<Kept, OutOfMemory>
    ensures { IfOk result (λ k. AreKept k (opened_of frame.now)) }
{
    let position = position_again(alloc, frame.position.as_slice())?;
    match symbols_of(alloc, frame.resources.as_slice()) {
        Ok(symbols) => Ok(Kept { position, symbols }),
        Err(_) => run_out(position),
    }
}

impl<'a> Register<'a> {
    /// The resources with symbolic names that are kept of the scope of a frame.
    pub fn kept_at(&self, frame: usize) -> Option<&[Symbolic]>
        requires complete { IsComplete self.now }
        requires there { frame < length self.now.table.frames.items }
        ensures { MatchOption result (Unit {0})
            (λ s. map symbolic s.now ≡ symbols_at (scope_at self.now.table frame)) }
    {
        match self.kept.get(frame) {
            Some(kept) => {
                let position = self.table.frames[frame].position.as_slice();
                if are_one(kept.position.as_slice(), position) {
                    Some(kept.symbols.as_slice())
                } else {
                    None
                }
            }
            None => None,
        }
    }
}
