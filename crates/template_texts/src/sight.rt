// What an expression of a template sees, and where it is.

use name_set::NameSet;

/// The names of the parameters and of the variables that expressions see.
#[derive(Drop)]
pub struct Sight {
    /// The parameters.
    pub parameters: NameSet,
    /// The variables.
    pub variables: NameSet,
}

/// Where a text of a template is.
#[derive(Clone, Copy, Debug, PartialEq, Eq)]
pub enum Place {
    /// In a variable or in the default of a parameter, which read no state of a resource.
    Variable,
    /// In the parameters or the variables of a nested template whose expressions see those around it: no text there is
    /// ever read.
    Unread,
    /// Anywhere else.
    Elsewhere,
}
