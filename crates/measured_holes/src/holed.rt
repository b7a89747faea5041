//! Extents that grow with what is put into holes.
ghost use Rattle.std.specs.Prelude.{◌≡◌, ◌+◌, ◌-◌, ◌*◌, max};
ghost use Rattle.arm_expr.specs.Tree.{Tree};
ghost use Rattle.measured_expressions.specs.Emitted.{Frame};
ghost use Rattle.emission_laws.specs.Holes.{fill};
ghost use Rattle.emitted_sizes.specs.Extent.{IsOf, bounded};
ghost use Rattle.measured_expressions.specs.Spans.{IsSpan};
ghost use Rattle.measured_holes.specs.Growth.{Grows, under};

use emitted_sizes::Extent;
use measured_expressions::Span;

/// The extent of an expression, and how it grows with what is put into its holes.
#[derive(Clone, Copy)]
pub struct Holed {
    /// The characters of its text where each hole has one. At most 2^64 - 1.
    pub length: u64,
    /// How many characters it has more for each further one of an item.
    pub items: u64,
    /// How many characters it has more for each further one of an index.
    pub indices: u64,
    /// How deep it nests where what is in its holes does not nest.
    pub depth: u64,
    /// How deep the deepest hole for an item is, where there is one.
    pub item_depth: Option<u64>,
    /// How deep the deepest hole for an index is, where there is one.
    pub index_depth: Option<u64>,
}

// The characters with so many holes of so many characters in place of one.
fn grown(length: u64, holes: u64, characters: u64) -> u64
    ensures { result ≡ bounded (length + bounded (holes * (characters - 1))) }
{
    let more = characters.saturating_sub(1);
    length.saturating_add(holes.saturating_mul(more))
}

// How deep what nests so deep is in the deepest hole.
fn below(hole: Option<u64>, depth: u64) -> u64
    ensures { result ≡ bounded (under hole depth) }
{
    match hole {
        Some(above) => above.saturating_add(depth),
        None => 0,
    }
}

fn deeper(one: u64, other: u64) -> u64
    ensures { result ≡ max one other }
{
    if one < other { other } else { one }
}

impl Holed {
    /// The extent with a run of a loop in the holes.
    pub fn filled(self, span: Span) -> Extent
        ensures { (t : Tree) (f : Frame) → Grows t self → IsSpan f span → IsOf (fill f t) result }
    {
        let with_items = grown(self.length, self.items, span.item.length);
        let length = grown(with_items, self.indices, span.index.length);
        let deepest = deeper(self.depth, below(self.item_depth, span.item.depth));
        let depth = deeper(deepest, below(self.index_depth, span.index.depth));
        Extent { length, depth }
    }
}
