//! How many arguments a function takes.
ghost use Rattle.std.specs.Prelude.{◌≡◌};
ghost use Rattle.arm_functions.specs.Values.{admits};

/// How many arguments a function takes.
#[derive(Clone, Copy, Debug, PartialEq, Eq)]
pub struct Arity {
    /// The least number.
    pub least: u32,
    /// The greatest number; none where there is none.
    pub most: Option<u32>,
}

impl Arity {
    /// Whether this number of arguments is neither too small nor too great.
    pub fn admits(self, count: usize) -> bool
        ensures { result ≡ admits self.least self.most count }
    {
        let is_enough = self.least as usize <= count;
        match self.most {
            Some(most) => is_enough && count <= most as usize,
            None => is_enough,
        }
    }
}
