// The numbers of tasks.

use tag_places::Places;

/// The numbers of the tasks of a plan.
#[derive(Drop)]
pub struct Numbers {
    /// By the key of a put.
    pub(crate) puts: Places,
    /// By the number of the scope that is entered.
    pub(crate) enters: Places,
    /// By the number of the scope that is left.
    pub(crate) leaves: Places,
}
