//! The texts of the expressions in a value.
ghost use Rattle.std.specs.Prelude.{◌∷◌, option_map};
ghost use Rattle.arm_expr.specs.Print.{printed};
ghost use Rattle.emitted_expressions.specs.Emitted.{element};
ghost use Rattle.bicep_resolved.specs.View.{source_of};
ghost use Rattle.emitted_expressions.specs.Sight.{Sight, frames_of, AreFrames};
ghost use Rattle.emitted_expressions.specs.Built.{IsText};
ghost use Rattle.emitted_trees.specs.EmittedTrees.{copy_index};
ghost use Rattle.tree_building.specs.Each.{IsSmall};
ghost use Rattle.tree_building.specs.Sight as spec;

use arm_value::{OutOfMemory, Text};
use bicep_resolved::Source;
use emitted_expressions::Turn;
use std::alloc::Global;

/// The texts of the expressions of a file. The loops around an expression are given as runs of them, the nearest first.
/// Each text is asked for only where it is within the limits of templates.
pub trait Texts {
    /// The file, and what its declarations become.
    ghost sight: { Self → Sight };

    /// The text of what an expression becomes, in brackets.
    fn text(&self, alloc: Global, e: &Source, turns: &[Turn]) -> Result<Text, OutOfMemory>
        requires { IsSmall (spec.expression (sight self.now) (source_of e.now) (frames_of turns.now)) }
        ensures { IsText (printed (spec.expression (sight self.now) (source_of e.now) (frames_of turns.now))) result };

    /// The text of how often a loop over a value runs, in brackets.
    fn count(&self, alloc: Global, over: &Source, turns: &[Turn]) -> Result<Text, OutOfMemory>
        requires { IsSmall (spec.count (sight self.now) (source_of over.now) (frames_of turns.now)) }
        ensures { IsText (printed (spec.count (sight self.now) (source_of over.now) (frames_of turns.now))) result };

    /// The runs around the body of a loop over a value: its own, and those around it. The loop of an output has no
    /// name.
    fn inside(
        &self,
        alloc: Global,
        name: Option<&Text>,
        over: &Source,
        turns: &[Turn],
    ) -> Result<Vec<Turn>, OutOfMemory>
        requires { IsSmall (spec.count (sight self.now) (source_of over.now) (frames_of turns.now)) }
        ensures { AreFrames (element (spec.expression (sight self.now) (source_of over.now) (frames_of turns.now))
            (copy_index (option_map (λ t. t.now) name.entry)) ∷ frames_of turns.now) result };
}
