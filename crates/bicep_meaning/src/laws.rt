// What holds of the meaning of every expression. A law has no body: its contract is the law.
ghost use Rattle.std.specs.Prelude.{◌≡◌, ◌≤◌, List, Option, Some};
ghost use Rattle.function_prints.specs.Json.{Json, nesting};
ghost use Rattle.reading.specs.World.{value_in, reads_in, Agree};
ghost use Rattle.reading.specs.Knowledge.{Known, told, Grows, IsToldStill};
ghost use Rattle.deploy_cells.specs.Cells.{Cell, World};
ghost use Rattle.bicep_resolved.specs.Source.{SourceTree};
ghost use Rattle.bicep_meaning.specs.Around.{Here, Frame, Around};
ghost use Rattle.bicep_meaning.specs.Meaning.{value};

use foundation::limits::MAX_VALUE_NESTING;

/// Where worlds have the same for all cells that an expression reads, it has one value in them, and reads the same.
pub fn worlds_that_agree()
    ensures { (here : Here) (a : Around) (e : SourceTree) (fs : List Frame) (w v : World)
        → Agree w v (reads_in w (value here a e fs))
        → (value_in v (value here a e fs) ≡ value_in w (value here a e fs))
        × (reads_in v (value here a e fs) ≡ reads_in w (value here a e fs)) }
{}

/// The value of an expression, or that there is none, stays as more becomes known, and what reads first a cell that is
/// not known yet has no value while that is so.
pub fn values_stay()
    ensures { (here : Here) (a : Around) (e : SourceTree) (fs : List Frame) (p q : Cell → Known Json) → Grows p q
        → IsToldStill q (value here a e fs) (told p (value here a e fs)) }
{}

/// A value nests at most 100 deep.
pub fn values_nest_at_most_100()
    ensures { (here : Here) (a : Around) (e : SourceTree) (fs : List Frame) (w : World) (j : Json)
        → value_in w (value here a e fs) ≡ Some j → nesting j ≤ MAX_VALUE_NESTING }
{}
