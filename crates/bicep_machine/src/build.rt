// Composites of parts that were kept; a leaf replaces a composite that nests too deep.
#![tactic(auto, using(bicep_tree::proofs::ViewLemmas::enums, bicep_tree::proofs::ViewLemmas::structs, crate::proofs::StackLemmas::stacks))]

ghost use Rattle.std.specs.Prelude.{◌≡◌, max, map, IfOk};
ghost use Rattle.bicep_tree.specs.Tree.{name, literal};
ghost use Rattle.bicep_tree.specs.View.{tree_of, hole_of};
ghost use Rattle.bicep_machine.specs.Kept.{made, gap, put, of_holes, of_items, of_parentheses, of_call, of_access};
ghost use Rattle.bicep_machine.specs.Kept.{of_index, of_not_null, of_prefix, of_binary, of_conditional, of_hole};
ghost use Rattle.bicep_machine.specs.Views.{kept, kept_items, kept_holes};

use crate::discard::Discard;
use crate::kept::{Kept, MAX_PART_NESTING, deeper, flat, put};
use arm_value::{OutOfMemory, Text};
use bicep_tree::{Access, Expr, Function, Hole, Indexing, Literal, Name, Operator, Prefix};
use std::alloc::Global;

// The expression, at its depth.
fn boxed(alloc: Global, e: Expr, depth: usize) -> Result<Kept<Box<Expr>>, OutOfMemory>
    ensures { IfOk result (λ k. kept k ≡ (tree_of e, depth)) }
{
    Ok(Kept {
        part: Box::new(alloc, e)?,
        depth,
    })
}

// A leaf that replaces a part that nests too deep; drops the part.
#[tactic(auto, using(bicep_tree::proofs::ViewLemmas::enums), unfolding(crate::specs::Kept::made))]
fn gap_for(alloc: Global, part: Expr) -> Result<Kept<Box<Expr>>, OutOfMemory>
    ensures { IfOk result (λ k. kept k ≡ (gap, 65)) }
{
    part.discard();
    boxed(alloc, Expr::Literal(0, Literal::Null), MAX_PART_NESTING + 1)
}

// The composite of parts that nest at most so deep.
#[tactic(auto, using(bicep_tree::proofs::ViewLemmas::enums), unfolding(crate::specs::Kept::made))]
fn made(alloc: Global, composite: Expr, below: usize) -> Result<Kept<Box<Expr>>, OutOfMemory>
    ensures { IfOk result (λ k. kept k ≡ made 64 gap (tree_of composite) below) }
{
    if below < MAX_PART_NESTING {
        boxed(alloc, composite, below + 1)
    } else {
        gap_for(alloc, composite)
    }
}

/// A name as an expression.
pub fn named(alloc: Global, word: Name) -> Result<Kept<Box<Expr>>, OutOfMemory>
    ensures { IfOk result (λ k. kept k ≡ (name word, 0)) }
{
    Ok(flat(Box::new(alloc, Expr::Name(word))?))
}

/// A literal as an expression.
pub fn literal_at(alloc: Global, at: usize, value: Literal) -> Result<Kept<Box<Expr>>, OutOfMemory>
    ensures { IfOk result (λ k. kept k ≡ (literal at value, 0)) }
{
    Ok(flat(Box::new(alloc, Expr::Literal(at, value))?))
}

/// The list of expressions with one more at its end.
pub fn with_item(items: Kept<Vec<Expr>>, e: Kept<Box<Expr>>) -> Result<Kept<Vec<Expr>>, OutOfMemory>
    ensures { IfOk result (λ k. kept_items k ≡ put (kept_items items) (kept e)) }
{
    put(
        items,
        Kept {
            part: Box::into_inner(e.part),
            depth: e.depth,
        },
    )
}

/// The holes of a text with one more, and the characters after it.
pub fn with_hole(
    holes: Kept<Vec<Hole>>,
    e: Kept<Box<Expr>>,
    after: Text,
) -> Result<Kept<Vec<Hole>>, OutOfMemory>
    ensures { IfOk result (λ k. kept_holes k ≡ put (kept_holes holes) (of_hole (kept e) after)) }
{
    let hole = Hole {
        value: Box::into_inner(e.part),
        after,
    };
    put(
        holes,
        Kept {
            part: hole,
            depth: e.depth,
        },
    )
}

/// An interpolated text: the characters before its first hole, and its holes.
pub fn text_of(
    alloc: Global,
    at: usize,
    before: Text,
    holes: Kept<Vec<Hole>>,
) -> Result<Kept<Box<Expr>>, OutOfMemory>
    ensures { IfOk result (λ k. kept k ≡ of_holes 64 at before (kept_holes holes)) }
{
    made(
        alloc,
        Expr::Interpolated(at, before, holes.part),
        holes.depth,
    )
}

/// An array of items.
pub fn array_of(
    alloc: Global,
    at: usize,
    items: Kept<Vec<Expr>>,
) -> Result<Kept<Box<Expr>>, OutOfMemory>
    ensures { IfOk result (λ k. kept k ≡ of_items 64 at (kept_items items)) }
{
    made(alloc, Expr::Array(at, items.part), items.depth)
}

/// An expression in parentheses.
pub fn parentheses_of(
    alloc: Global,
    at: usize,
    e: Kept<Box<Expr>>,
) -> Result<Kept<Box<Expr>>, OutOfMemory>
    ensures { IfOk result (λ k. kept k ≡ of_parentheses 64 at (kept e)) }
{
    made(alloc, Expr::Parentheses(at, e.part), e.depth)
}

/// A call with its arguments.
pub fn call_of(
    alloc: Global,
    function: Function,
    arguments: Kept<Vec<Expr>>,
) -> Result<Kept<Box<Expr>>, OutOfMemory>
    ensures { IfOk result (λ k. kept k ≡ of_call 64 function (kept_items arguments)) }
{
    made(alloc, Expr::Call(function, arguments.part), arguments.depth)
}

/// A value and the name after `.`, `.?` or `::`.
pub fn access_of(
    alloc: Global,
    e: Kept<Box<Expr>>,
    access: Access,
    name: Name,
) -> Result<Kept<Box<Expr>>, OutOfMemory>
    ensures { IfOk result (λ k. kept k ≡ of_access 64 (kept e) access name) }
{
    made(alloc, Expr::Access(e.part, access, name), e.depth)
}

/// A value and an index after it.
pub fn index_of(
    alloc: Global,
    e: Kept<Box<Expr>>,
    indexing: Indexing,
    index: Kept<Box<Expr>>,
) -> Result<Kept<Box<Expr>>, OutOfMemory>
    ensures { IfOk result (λ k. kept k ≡ of_index 64 (kept e) indexing (kept index)) }
{
    let below = deeper(e.depth, index.depth);
    made(alloc, Expr::Index(e.part, indexing, index.part), below)
}

/// A value and `!`.
pub fn not_null_of(alloc: Global, e: Kept<Box<Expr>>) -> Result<Kept<Box<Expr>>, OutOfMemory>
    ensures { IfOk result (λ k. kept k ≡ of_not_null 64 (kept e)) }
{
    made(alloc, Expr::NotNull(e.part), e.depth)
}

/// An operator and its one operand.
pub fn prefix_of(
    alloc: Global,
    at: usize,
    prefix: Prefix,
    e: Kept<Box<Expr>>,
) -> Result<Kept<Box<Expr>>, OutOfMemory>
    ensures { IfOk result (λ k. kept k ≡ of_prefix 64 at prefix (kept e)) }
{
    made(alloc, Expr::Prefix(at, prefix, e.part), e.depth)
}

/// An operator between two operands.
pub fn binary_of(
    alloc: Global,
    operator: Operator,
    left: Kept<Box<Expr>>,
    right: Kept<Box<Expr>>,
) -> Result<Kept<Box<Expr>>, OutOfMemory>
    ensures { IfOk result (λ k. kept k ≡ of_binary 64 operator (kept left) (kept right)) }
{
    let below = deeper(left.depth, right.depth);
    made(alloc, Expr::Binary(operator, left.part, right.part), below)
}

/// A conditional: its condition, and its two branches.
pub fn conditional_of(
    alloc: Global,
    condition: Kept<Box<Expr>>,
    first: Kept<Box<Expr>>,
    second: Kept<Box<Expr>>,
) -> Result<Kept<Box<Expr>>, OutOfMemory>
    ensures { IfOk result
        (λ k. kept k ≡ of_conditional 64 (kept condition) (kept first) (kept second)) }
{
    let below = deeper(condition.depth, deeper(first.depth, second.depth));
    made(
        alloc,
        Expr::Conditional(condition.part, first.part, second.part),
        below,
    )
}
