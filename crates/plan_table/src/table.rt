// The table.
ghost use Rattle.std.specs.Prelude.{◌≡◌, ◌<◌, map, length, MatchOption, Some, ℕ};
ghost use Rattle.plan_filling.specs.Rows.{row_at, stage_of};
ghost use Rattle.plan_table.specs.Opened.{opened_of};
ghost use Rattle.plan_table.specs.Lines.{rows_of, line_at};
ghost use Rattle.plan_table.specs.Keys.{key_of};
ghost use Rattle.plan_table.specs.Whole.{scopes_of, rows_in, IsLaid};

use crate::frame::Frame;
use crate::line::{Line, State};
use crate::listing::Index;
use arm_ids::Place;
use plan_filling::sheet::Stage;
use template_parts::Bound;
use template_tree::Template;

/// The cells of a deployment that are there, and how far each is.
#[derive(Drop)]
pub struct Table<'a> {
    /// The template that is deployed.
    pub template: &'a Template,
    /// What its parameters are bound to.
    pub bound: &'a Bound,
    /// Where it is deployed.
    pub place: &'a Place,
    /// The scopes that are there, the root first.
    pub frames: Vec<Frame<'a>>,
    /// The cells, each after the one that opened it.
    pub lines: Vec<Line>,
    /// The number of the line of each key.
    pub index: Index,
    /// How many instances each scope has so far.
    pub counts: Vec<usize>,
    /// How many instances all scopes have so far.
    pub instances: usize,
}

impl<'a> Table<'a> {
    /// The number of the line of a key, where there is one.
    pub fn find(&self, key: &Vec<usize>) -> Option<usize>
        requires laid { IsLaid self.now }
        ensures found { MatchOption result (Unit {0}) (λ j. (j < length self.now.lines.items)
            × (key_of (scopes_of self.now) (line_at self.now.lines.items j).spot ≡ key.now.items)) }
        ensures missing { MatchOption result ((j : ℕ) → j < length self.now.lines.items
            → key.now.items ≡ key_of (scopes_of self.now) (line_at self.now.lines.items j).spot → ⊥) (λ _. Unit {0}) }
    {
        self.index.get(key).copied()
    }

    /// The number of lines.
    pub fn len(&self) -> usize
        ensures { result ≡ length (rows_in self.now) }
    {
        self.lines.len()
    }

    /// How far the cell of a line is.
    pub fn stage(&self, at: usize) -> Stage
        requires { at < length (rows_in self.now) }
        ensures { result ≡ stage_of (row_at (rows_in self.now) at).status }
    {
        match &self.lines[at].state {
            State::New => Stage::New,
            State::Open => Stage::Open,
            State::Value(_) => Stage::Finished,
            State::Empty => Stage::Finished,
            State::Late(_) => Stage::Late,
        }
    }
}
