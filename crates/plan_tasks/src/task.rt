// A task of the scopes of a table.

/// A task of the scopes of a table, by the numbers of their frames.
#[derive(Clone, Copy)]
pub enum ScopeTask {
    /// The scope is entered.
    Enter(usize),
    /// An instance of the scope is put: the number of its resource, and its index.
    Put(usize, usize, usize),
    /// The scope is left.
    Leave(usize),
}
