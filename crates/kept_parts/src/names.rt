//! Names of modules without a field `name`.
ghost use Rattle.std.specs.Prelude.{◌≡◌, ◌∷◌, ◌++◌, [], ℕ, List, Option, option_map, is_some, codes, IfOk, OnOk};
ghost use Rattle.arm_expr.specs.Tree.{text as text_tree, call as call_tree};
ghost use Rattle.bicep_resolved.specs.Source.{LoopTree};
ghost use Rattle.arm_expr.specs.View.{text_of};
ghost use Rattle.bicep_tree.specs.declared.leaf.Literal.TheVariants as l;
ghost use Rattle.bicep_resolved.specs.Source as s;
ghost use Rattle.bicep_resolved.specs.View.{source_of, piece_of};
ghost use Rattle.emitted_parts.specs.Emitted.{two};
ghost use Rattle.emitted_parts.specs.Texts.{format_text};
ghost use Rattle.emission_laws.specs.Holes.{holes, index_hole};
ghost use Rattle.emitted_declarations.specs.Declared.{named_by_symbol, one_hole};
ghost use Rattle.emitted_parts.specs.Built.{IsText};
ghost use Rattle.emitted_sizes.specs.Extent.{IsOf};
ghost use Rattle.kept_expressions.specs.Growth.{Grows};
ghost use Rattle.kept_expressions.specs.Kept.{IsKeptHoles};

use crate::frames::kept_nothing;
use crate::numbered::kept_text;
use arm_expr::Expr;
use arm_value::{OutOfMemory, Text};
use bicep_resolved::{Piece, Source};
use bicep_tree::Literal;
use emitted_parts::calls::{call_one, call_two};
use emitted_parts::letting_go;
use emitted_parts::literals::text;
use emitted_parts::texts::format_text;
use emitted_sizes::{Extent, calls as call_sizes, literals as literal_sizes};
use kept_expressions::probes::{
    Probed, deep_index, deep_item, holed, least, wide_index, wide_item,
};
use kept_expressions::{Holed, KeptHoles, beyond_holes, is_within, keep_holes, least_extent};
use std::alloc::Global;

fn put(out: &mut String, c: char) -> Result<(), OutOfMemory>
    ensures { OnOk result (text_of out.new ≡ text_of out.old ++ c ∷ []) }
{
    out.push(c)?;
    Ok(())
}

// A name and `-`.
fn with_dash(alloc: Global, name: &Text) -> Result<Text, OutOfMemory>
    ensures { IsText (name.now ++ 45 ∷ []) result }
{
    let mut text = String::from_str(alloc, name.as_str())?;
    put(&mut text, '-')?;
    Ok(Text::from_string(text))
}

fn empty_text(alloc: Global) -> Text
    ensures { result ≡ [] }
{
    Text::from_string(String::new(alloc))
}

#[tactic(auto, using(bicep_resolved::proofs::ViewLemmas::enums))]
fn null() -> Source
    ensures { source_of result ≡ s.literal 0 l.Null }
{
    Source::Literal(0, Literal::Null)
}

// A hole at the end of a text, whatever its value is.
#[tactic(auto, using(bicep_resolved::proofs::ViewLemmas::structs))]
fn last_hole(alloc: Global) -> Piece
    ensures { piece_of result ≡ (s.literal 0 l.Null, []) }
{
    let value = null();
    let after = empty_text(alloc);
    Piece { value, after }
}

// The text of `format` for a name in a loop.
fn name_format(alloc: Global, name: &Text) -> Result<Text, OutOfMemory>
    ensures { IsText (format_text 0 (name.now ++ 45 ∷ []) one_hole) result }
{
    let first = with_dash(alloc, name)?;
    let hole = [last_hole(alloc)];
    let text = format_text(alloc, &first, &hole);
    letting_go(text, hole)
}

// How the name grows with the index.
fn format_holed(text: Extent) -> Result<Holed, OutOfMemory>
    ensures { (t : List ℕ) → IsOf (text_tree t) text
        → IfOk result (Grows (call_tree (codes "format") (two (text_tree t) index_hole))) }
{
    let smallest = call_sizes::call_two(6, text, least().index);
    let depth = smallest.depth.saturating_add(1);
    holed(Probed {
        least: smallest,
        wide_item: call_sizes::call_two(6, text, wide_item().index),
        wide_index: call_sizes::call_two(6, text, wide_index().index),
        deep_item: call_sizes::call_two(6, text, deep_item(depth).index),
        deep_index: call_sizes::call_two(6, text, deep_index(depth).index),
    })
}

// `format` of this text and the index.
fn indexed(alloc: Global, format: &Text) -> Result<KeptHoles, OutOfMemory>
    ensures { IfOk result (IsKeptHoles (call_tree (codes "format") (two (text_tree format.now) index_hole))) }
{
    let holed = format_holed(literal_sizes::text(format))?;
    if !is_within(least_extent(holed)) {
        return Ok(beyond_holes(holed));
    }
    let index = call_one(alloc, "", Ok(Expr::Int(0)));
    keep_holes(holed, call_two(alloc, "format", text(alloc, format), index))
}

// A name in a loop: with `-` and the index after it.
fn name_in_loop(alloc: Global, name: &Text) -> Result<KeptHoles, OutOfMemory>
    ensures { IfOk result (IsKeptHoles (call_tree (codes "format")
        (two (text_tree (format_text 0 (name.now ++ 45 ∷ []) one_hole)) index_hole))) }
{
    let format = name_format(alloc, name)?;
    indexed(alloc, &format)
}

/// The name of a module by its symbol, in a loop with `-` and the index after it.
pub fn symbol_name(
    alloc: Global,
    name: Option<&Text>,
    in_loop: bool,
) -> Result<KeptHoles, OutOfMemory>
    ensures { (l : Option LoopTree) → is_some l ≡ in_loop
        → IfOk result (IsKeptHoles (named_by_symbol (option_map (λ t. t.now) name.entry) l (holes ∷ []))) }
{
    match name {
        Some(name) => if in_loop {
            name_in_loop(alloc, name)
        } else {
            kept_text(alloc, name)
        },
        None => kept_nothing(alloc),
    }
}
