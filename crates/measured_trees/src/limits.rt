//! Which limit of templates a value is beyond.
ghost use Rattle.std.specs.Prelude.{ℕ};
ghost use Rattle.measured_trees.specs.Extremes.{Extremes};
ghost use Rattle.measured_trees.specs.Measures.{IsOf};
ghost use Rattle.measured_trees.specs.Limits.{IsBeyond};

use crate::measure::Measure;
use foundation::limits::{MAX_EXPRESSION_CHARACTERS, MAX_EXPRESSION_NESTING, MAX_JSON_NESTING};

/// A limit of templates that a value is beyond. A number of 2^64 - 1 means so many or more.
#[derive(Clone, Copy, PartialEq, Eq, Debug)]
pub enum Beyond {
    /// The text of an expression has so many characters with its brackets: more than 24,576.
    Characters(u64),
    /// The template nests so deep: above 120.
    Depth(u64),
    /// An expression nests above 64.
    TooDeep,
}

impl Measure {
    /// The limit that values are beyond, with so many arrays and objects around them. How deep expressions nest is
    /// looked at last.
    pub fn beyond(self, around: u64) -> Option<Beyond>
        ensures { (x : Extremes) → IsOf x self → IsBeyond around x result }
    {
        let depth = self.depth.saturating_add(around);
        if self.longest > MAX_EXPRESSION_CHARACTERS as u64 {
            Some(Beyond::Characters(self.longest))
        } else if depth > MAX_JSON_NESTING as u64 {
            Some(Beyond::Depth(depth))
        } else if self.deepest > MAX_EXPRESSION_NESTING as u64 {
            Some(Beyond::TooDeep)
        } else {
            None
        }
    }
}
