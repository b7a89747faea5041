//! Extents of expressions, and of arguments one after another.
ghost use Rattle.std.specs.Prelude.{◌≡◌, max};
ghost use Rattle.arm_expr.specs.Tree.{Tree, Trees, none, more};
ghost use Rattle.emitted_sizes.specs.Extent.{IsOf, AreOf, Begins};

/// How much of the limits an expression takes. Both numbers stop at 2^64 - 1.
#[derive(Clone, Copy)]
pub struct Extent {
    /// The characters of its text, without the brackets around it.
    pub length: u64,
    /// How deep it nests.
    pub depth: u64,
}

/// How much of the limits the first arguments of a call take.
#[derive(Clone, Copy)]
pub struct Row {
    /// The characters of their texts, and of what is between them.
    pub length: u64,
    /// How deep the deepest nests.
    pub depth: u64,
    /// The characters before the next argument.
    pub before: u64,
}

/// The greater of two numbers.
pub fn deeper(one: u64, other: u64) -> u64
    ensures { result ≡ max one other }
{
    if one < other { other } else { one }
}

impl Row {
    /// No arguments.
    pub fn new() -> Row
        ensures { (ts : Trees) → Begins result ts ts }
    {
        Row {
            length: 0,
            depth: 0,
            before: 0,
        }
    }

    /// The same with one more argument.
    pub fn with(self, argument: Extent) -> Row
        ensures { (t : Tree) (ts all : Trees) → IsOf t argument → Begins self (more t ts) all
            → Begins result ts all }
    {
        let before = self.length.saturating_add(self.before);
        let length = before.saturating_add(argument.length);
        let depth = deeper(self.depth, argument.depth);
        Row {
            length,
            depth,
            before: 2,
        }
    }

    /// The extent of the arguments, with the `)` after them.
    pub fn end(self) -> Extent
        ensures { (all : Trees) → Begins self none all → AreOf all result }
    {
        let length = self.length.saturating_add(1);
        Extent {
            length,
            depth: self.depth,
        }
    }
}
