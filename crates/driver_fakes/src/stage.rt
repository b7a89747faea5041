// Where a task is.

/// Where a task is.
#[derive(Clone, Copy, Debug, PartialEq, Eq)]
pub enum Stage {
    /// It has no answer, and no Begin of it is open.
    Waiting,
    /// A Begin of it is open.
    Open,
    /// It has its answer.
    Done,
}

impl Stage {
    ghost use Rattle.std.specs.Prelude.{◌≡◌};
    ghost use Rattle.driver_fakes.specs.Stages.{is_waiting, is_done};

    /// Whether the task has no answer, and no Begin of it is open.
    pub fn is_waiting(self) -> bool
        ensures { result ≡ is_waiting self }
    {
        match self {
            Stage::Waiting => true,
            Stage::Open => false,
            Stage::Done => false,
        }
    }

    /// Whether the task has its answer.
    pub fn is_done(self) -> bool
        ensures { result ≡ is_done self }
    {
        match self {
            Stage::Waiting => false,
            Stage::Open => false,
            Stage::Done => true,
        }
    }
}
