//! Expressions with what is put into their holes. The functions recurse as deep as the expression nests.
ghost use Rattle.std.specs.Prelude.{◌∷◌, [], map, option_map};
ghost use Rattle.arm_expr.specs.Tree.{Tree, call as call_tree, trees};
ghost use Rattle.arm_expr.specs.View.{tree_of};
ghost use Rattle.emitted_parts.specs.Emitted.{Frame};
ghost use Rattle.measured_holes.specs.Holes.{fill, fill_all, in_hole, holes};
ghost use Rattle.emitted_expressions.specs.Sight.{framed, IsFrame, AreFrames};
ghost use Rattle.emitted_parts.specs.Built.{Is, Are};
ghost use Rattle.kept_expressions.specs.Limits.{IsPut};
ghost use Rattle.kept_expressions.specs.Kept.{IsKeptHoles};

use crate::keeping::KeptHoles;
use arm_expr::Expr;
use arm_value::{OutOfMemory, Text};
use emitted_expressions::Turn;
use emitted_parts::accesses::{plain_member, plain_part};
use emitted_parts::calls::{call_none, call_one, named};
use emitted_parts::copies::copied;
use emitted_parts::literals::text;
use emitted_parts::{lacks, with};
use std::alloc::{AllocError, Global};

// A copy of what is put into a hole; what is beyond the limits is not there.
fn put(alloc: Global, part: Option<&Expr>) -> Result<Expr, OutOfMemory>
    ensures { (t : Tree) → IsPut t (option_map (λ e. e.now) part.entry) → Is t result }
{
    match part {
        Some(part) => copied(alloc, part),
        None => Err(AllocError),
    }
}

// What is put into the hole with these arguments.
fn hole(
    alloc: Global,
    arguments: &[Expr],
    item: Option<&Expr>,
    index: Option<&Expr>,
) -> Result<Expr, OutOfMemory>
    ensures { (f : Frame) → IsPut f.item (option_map (λ e. e.now) item.entry)
        → IsPut f.index (option_map (λ e. e.now) index.entry)
        → Is (in_hole f (trees (map tree_of arguments.now))) result }
{
    if arguments.is_empty() {
        put(alloc, item)
    } else {
        put(alloc, index)
    }
}

/// The expression with an item and an index in its holes. One that is not given is beyond the limits.
///
/// # Errors
///
/// `OutOfMemory`, also where there is a hole for what is beyond the limits.
#[cycle(filling)]
#[tactic(auto, using(arm_expr::proofs::ViewLemmas::views))]
pub fn filled(
    alloc: Global,
    e: &Expr,
    item: Option<&Expr>,
    index: Option<&Expr>,
) -> Result<Expr, OutOfMemory>
    ensures { (f : Frame) → IsPut f.item (option_map (λ e. e.now) item.entry)
        → IsPut f.index (option_map (λ e. e.now) index.entry)
        → Is (fill f (tree_of e.now)) result }
{
    match e {
        Expr::Text(characters) => text(alloc, characters),
        Expr::Int(number) => Ok(Expr::Int(*number)),
        Expr::Call(name, arguments) => called(alloc, name, arguments.as_slice(), item, index),
        Expr::Member(inner, name) => plain_member(alloc, filled(alloc, inner, item, index), name),
        Expr::Index(base, part) => {
            let base = filled(alloc, base, item, index);
            plain_part(alloc, base, filled(alloc, part, item, index))
        }
    }
}

// The call of a name with these arguments; a hole is a call of the empty name.
#[cycle(filling)]
fn called(
    alloc: Global,
    name: &Text,
    arguments: &[Expr],
    item: Option<&Expr>,
    index: Option<&Expr>,
) -> Result<Expr, OutOfMemory>
    ensures { (f : Frame) → IsPut f.item (option_map (λ e. e.now) item.entry)
        → IsPut f.index (option_map (λ e. e.now) index.entry)
        → Is (fill f (call_tree name.now (trees (map tree_of arguments.now)))) result }
{
    if name.is_empty() {
        hole(alloc, arguments, item, index)
    } else {
        named(name.copy(alloc), all_filled(alloc, arguments, item, index))
    }
}

#[cycle(filling)]
fn all_filled(
    alloc: Global,
    parts: &[Expr],
    item: Option<&Expr>,
    index: Option<&Expr>,
) -> Result<Vec<Expr>, OutOfMemory>
    ensures { (f : Frame) → IsPut f.item (option_map (λ e. e.now) item.entry)
        → IsPut f.index (option_map (λ e. e.now) index.entry)
        → Are (fill_all f (trees (map tree_of parts.now))) result }
{
    let mut all = Vec::new(alloc);
    for part in parts {
        match with(Ok(all), filled(alloc, part, item, index)) {
            Ok(more) => all = more,
            Err(error) => return Err(error),
        }
    }
    Ok(all)
}

impl KeptHoles {
    /// The expression with an item and an index in its holes. One that is not given is beyond the limits.
    ///
    /// # Errors
    ///
    /// `OutOfMemory`, also where the expression is beyond the limits, or there is a hole for what is.
    pub fn filled(
        &self,
        alloc: Global,
        item: Option<&Expr>,
        index: Option<&Expr>,
    ) -> Result<Expr, OutOfMemory>
        ensures { (t : Tree) (f : Frame) → IsKeptHoles t self.now
            → IsPut f.item (option_map (λ e. e.now) item.entry)
            → IsPut f.index (option_map (λ e. e.now) index.entry) → Is (fill f t) result }
    {
        match &self.expression {
            Some(expression) => filled(alloc, expression, item, index),
            None => Err(AllocError),
        }
    }
}

fn turn_of(
    item: Result<Expr, OutOfMemory>,
    index: Result<Expr, OutOfMemory>,
) -> Result<Turn, OutOfMemory>
    ensures { (a i : Tree) → Is a item → Is i index → IsFrame (framed a i) result }
{
    match item {
        Ok(item) => match index {
            Ok(index) => Ok(Turn { item, index }),
            Err(_) => lacks(item),
        },
        Err(_) => lacks(index),
    }
}

/// A run of a loop whose item and index are holes.
pub fn hole_turns(alloc: Global) -> Result<Vec<Turn>, OutOfMemory>
    ensures { AreFrames (holes ∷ []) result }
{
    let index = call_one(alloc, "", Ok(Expr::Int(0)));
    with(Ok(Vec::new(alloc)), turn_of(call_none(alloc, ""), index))
}
