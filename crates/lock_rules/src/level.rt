// How much a lock forbids.

ghost use Rattle.std.specs.Prelude.{◌≡◌, ◌↔◌, IsTrue};
ghost use Rattle.lock_rules.specs.Levels.{level_of, word_of, forbids_put};

use arm_value::Text;

/// How much a lock forbids (Microsoft Learn: lock your resources to protect your infrastructure).
#[derive(Clone, Copy, Debug, PartialEq, Eq)]
pub enum Level {
    /// What it covers may not be deleted.
    CanNotDelete,
    /// What it covers may be neither put nor deleted. This is the more restrictive level.
    ReadOnly,
}

impl Level {
    /// The level of this word, in letters of any case; none where the text is no such word.
    pub fn of(word: &Text) -> Option<Level>
        ensures { result ≡ level_of word.now }
    {
        if word.equals_ignore_case("CanNotDelete") {
            return Some(Level::CanNotDelete);
        }
        if word.equals_ignore_case("ReadOnly") {
            return Some(Level::ReadOnly);
        }
        None
    }

    /// The word of the level.
    pub fn as_str(self) -> &'static str
        ensures { result.now ≡ word_of self }
    {
        match self {
            Level::CanNotDelete => "CanNotDelete",
            Level::ReadOnly => "ReadOnly",
        }
    }

    /// Whether a lock of this level forbids puts. Each level forbids deletions.
    pub fn forbids_put(self) -> bool
        ensures { result ≡ forbids_put self }
    {
        match self {
            Level::CanNotDelete => false,
            Level::ReadOnly => true,
        }
    }

    // Whether both are one level.
    pub(crate) fn same(self, other: Level) -> bool
        ensures { IsTrue result ↔ (self ≡ other) }
    {
        match self {
            Level::CanNotDelete => !other.forbids_put(),
            Level::ReadOnly => other.forbids_put(),
        }
    }
}
