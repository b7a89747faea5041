// The steps of a script.

use arm_value::Text;

/// What a script does at one call.
#[derive(Drop)]
pub enum Step {
    /// Does what it is asked: a put is stored in its plain state, a deletion is done.
    Store,
    /// Refuses with this code.
    Refuse(Text),
    /// Fails; the count of faults rises.
    Fail,
}
