//! Expressions and their extents.
ghost use Rattle.std.specs.Prelude.{◌≡◌, true, false, option_map, IfOk};
ghost use Rattle.arm_expr.specs.Tree.{Tree};
ghost use Rattle.emitted_parts.specs.Built.{Is};
ghost use Rattle.emitted_sizes.specs.Extent.{IsOf};
ghost use Rattle.measured_holes.specs.Growth.{Grows};
ghost use Rattle.kept_expressions.specs.Limits.{is_within, least_extent, IsPut};
ghost use Rattle.kept_expressions.specs.Kept.{IsKept, IsKeptHoles};

use arm_expr::Expr;
use arm_value::OutOfMemory;
use emitted_parts::copies::copied;
use emitted_sizes::Extent;
use foundation::limits::{MAX_EXPRESSION_CHARACTERS, MAX_EXPRESSION_NESTING};
use measured_holes::Holed;
use std::alloc::{AllocError, Global};

/// How much of the limits an expression takes, and the expression, where it is within the limits.
#[derive(Drop)]
pub struct Kept {
    /// How much of the limits it takes.
    pub extent: Extent,
    /// The expression, where it is within the limits.
    pub expression: Option<Expr>,
}

/// How much of the limits an expression with holes takes, and the expression, where it is within the limits with the
/// least in its holes.
#[derive(Drop)]
pub struct KeptHoles {
    /// How much of the limits it takes, and how this grows with what is put into its holes.
    pub holed: Holed,
    /// The expression, where it is within the limits.
    pub expression: Option<Expr>,
}

// A copy of an expression; what is beyond the limits is not there.
fn copy_of(alloc: Global, expression: Option<&Expr>) -> Result<Expr, OutOfMemory>
    ensures { (t : Tree) → IsPut t (option_map (λ e. e.now) expression.entry) → Is t result }
{
    match expression {
        Some(expression) => copied(alloc, expression),
        None => Err(AllocError),
    }
}

impl Kept {
    /// A copy of the expression.
    ///
    /// # Errors
    ///
    /// `OutOfMemory`, also where it is beyond the limits.
    pub fn copied(&self, alloc: Global) -> Result<Expr, OutOfMemory>
        ensures { (t : Tree) → IsKept t self.now → Is t result }
    {
        copy_of(alloc, self.expression.as_ref())
    }
}

impl KeptHoles {
    /// A copy of the expression, with its holes.
    ///
    /// # Errors
    ///
    /// `OutOfMemory`, also where it is beyond the limits.
    pub fn copied(&self, alloc: Global) -> Result<Expr, OutOfMemory>
        ensures { (t : Tree) → IsKeptHoles t self.now → Is t result }
    {
        copy_of(alloc, self.expression.as_ref())
    }
}

/// Whether an expression of this extent is within the limits: with its brackets at most 24,576 characters, and at most
/// 64 deep.
pub fn is_within(extent: Extent) -> bool
    ensures { result ≡ is_within extent }
{
    extent.length <= MAX_EXPRESSION_CHARACTERS as u64 - 2
        && extent.depth <= MAX_EXPRESSION_NESTING as u64
}

/// The extent with the least in the holes: one character in each, and nothing that nests.
pub fn least_extent(holed: Holed) -> Extent
    ensures { result ≡ least_extent holed }
{
    Extent {
        length: holed.length,
        depth: holed.depth,
    }
}

/// The expression of this extent, which is within the limits.
pub fn keep(extent: Extent, expression: Result<Expr, OutOfMemory>) -> Result<Kept, OutOfMemory>
    ensures { (t : Tree) → IsOf t extent → is_within extent ≡ true → Is t expression → IfOk result (IsKept t) }
{
    match expression {
        Ok(expression) => Ok(Kept {
            extent,
            expression: Some(expression),
        }),
        Err(error) => Err(error),
    }
}

/// An expression of this extent, which is beyond the limits.
pub fn beyond(extent: Extent) -> Kept
    ensures { (t : Tree) → IsOf t extent → is_within extent ≡ false → IsKept t result }
{
    Kept {
        extent,
        expression: None,
    }
}

/// The expression that grows so, and is within the limits with the least in its holes.
pub fn keep_holes(
    holed: Holed,
    expression: Result<Expr, OutOfMemory>,
) -> Result<KeptHoles, OutOfMemory>
    ensures { (t : Tree) → Grows t holed → is_within (least_extent holed) ≡ true → Is t expression
        → IfOk result (IsKeptHoles t) }
{
    match expression {
        Ok(expression) => Ok(KeptHoles {
            holed,
            expression: Some(expression),
        }),
        Err(error) => Err(error),
    }
}

/// An expression that grows so, and is beyond the limits.
pub fn beyond_holes(holed: Holed) -> KeptHoles
    ensures { (t : Tree) → Grows t holed → is_within (least_extent holed) ≡ false → IsKeptHoles t result }
{
    KeptHoles {
        holed,
        expression: None,
    }
}
