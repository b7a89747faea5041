// How the calls of an object in memory go.
ghost use Rattle.std.specs.Prelude.{◌≡◌, ◌<◌, ◌≤◌, IsErr, IfOk, IsTrue, if◌then◌else◌};
ghost use Rattle.std.specs.Prelude.{◌↔◌};
ghost use Rattle.arm_edges.specs.Faults.{HasCause, Rose};
ghost use Rattle.arm_edges.specs.Calls.{after_call, is_listed, limit_at, one_more};

use crate::Failed;

/// How the calls of an object in memory go, by the lists that it was made with.
#[derive(Debug, Drop)]
pub struct Calls {
    /// The most bytes that each call moves, in order, and at least one; the last holds for every later call. An empty
    /// list: any number.
    pub cuts: Vec<usize>,
    /// The numbers of the calls that fail, from 0.
    pub fails: Vec<u64>,
    /// How many calls were made, up to 2^64 - 1.
    pub made: u64,
    /// How many of them failed, up to 2^64 - 1.
    pub faults: u64,
}

impl Calls {
    /// No call was made yet.
    pub fn new(cuts: Vec<usize>, fails: Vec<u64>) -> Calls
        ensures cuts { result.cuts.items ≡ cuts.items }
        ensures fails { result.fails.items ≡ fails.items }
        ensures made { result.made ≡ 0 }
        ensures faults { result.faults ≡ 0 }
    {
        Calls {
            cuts,
            fails,
            made: 0,
            faults: 0,
        }
    }

    /// Makes the next call, and returns how many bytes it moves at most, one at least. It fails, and counts that,
    /// exactly where it is listed.
    pub fn begin(&mut self) -> Result<usize, Failed>
        ensures listed { IsErr result ↔ IsTrue (is_listed self.old.fails.items self.old.made) }
        ensures limit { IfOk result (λ n. n ≡ limit_at self.old.cuts.items self.old.made) }
        ensures some { IfOk result (λ n. 0 < n) }
        ensures cause { HasCause self.old.faults self.new.faults result }
        ensures after { self.new ≡ after_call self.old }
    {
        let fails = self.fails.contains(&self.made);
        let limit = self.limit();
        self.made = self.made.saturating_add(1);
        if fails {
            return Err(self.fault());
        }
        Ok(limit)
    }

    /// Counts a call that failed.
    pub fn fault(&mut self) -> Failed
        ensures after { self.new ≡ record self.old { faults = one_more self.old.faults } }
        ensures later { self.old.faults ≤ self.new.faults }
        ensures rose { Rose self.old.faults self.new.faults }
    {
        self.faults = self.faults.saturating_add(1);
        Failed
    }

    // How many bytes the next call moves at most.
    fn limit(&self) -> usize
        ensures limit { result ≡ limit_at self.now.cuts.items self.now.made }
        ensures some { 0 < result }
    {
        if self.cuts.is_empty() {
            return usize::MAX;
        }
        let last = self.cuts.len() - 1;
        let place = if self.made < last as u64 {
            self.made as usize
        } else {
            last
        };
        self.cuts[place].max(1)
    }
}
