// Changes of a disk in memory, as its log keeps them.
ghost use Rattle.std.specs.Prelude.{◌≡◌};

use arm_edges::Part;

/// What a call did that may change what a crash leaves. Of a write this is the number of its bytes; the log keeps the
/// bytes apart.
#[derive(Clone, Copy, Debug, PartialEq, Eq)]
pub enum Change {
    /// A write at that place.
    Wrote { at: u64, count: usize },
    /// A write at that place that failed.
    Tore { at: u64, count: usize },
    /// A cut to that length.
    Resized { length: u64 },
    /// A cut to that length that failed.
    ToreOff { length: u64 },
    /// A sync.
    Synced,
}

impl Change {
    ghost use Rattle.mem_disk.specs.Log.{size_of};

    /// How many bytes it writes.
    pub fn size(self) -> usize
        ensures { result ≡ size_of self }
    {
        match self {
            Change::Wrote { at: _, count } | Change::Tore { at: _, count } => count,
            _ => 0,
        }
    }
}

/// A change of a part.
#[derive(Clone, Copy, Debug, PartialEq, Eq)]
pub struct Entry {
    pub part: Part,
    pub change: Change,
}
