// Where an expression is.

use arm_env::env::Looping;

/// What a text of `reference` that is no id means.
#[derive(Clone, Copy)]
pub enum Texts {
    /// Nothing.
    IdsAlone,
    /// A resource, by its type and name or by its full name.
    Names,
    /// A resource, by its symbolic name.
    Symbols,
}

/// Where an expression is.
#[derive(Clone, Copy, Drop)]
pub struct Site<'s> {
    /// The number of the frame of its scope.
    pub frame: usize,
    /// The loops around, the nearest first.
    pub loops: &'s [Looping],
    /// What texts mean.
    pub texts: Texts,
}
