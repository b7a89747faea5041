// Why a look at the table returns nothing.

use arm_ids::Key;
use std::alloc::AllocError;

/// Why nothing is returned.
#[derive(Drop)]
pub enum Lack {
    /// What is looked up is not there.
    NotThere,
    /// What is looked up has no value, and what looks it up has none.
    NoValue,
    /// The cell of this line is not known yet.
    Line(usize),
    /// The state at this key is not known yet.
    State(Key),
    /// Out of memory.
    OutOfMemory,
}

impl From<AllocError> for Lack {
    ghost use Rattle.std.specs.Prelude.{◌≡◌};
    ghost use Rattle.plan_sight.specs.declared.lack.Lack.TheVariants.{OutOfMemory};

    ghost from_gives = { λ _ e. e ≡ OutOfMemory };

    fn from(_refused: AllocError) -> Lack {
        Lack::OutOfMemory
    }
}
