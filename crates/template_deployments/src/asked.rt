// What is asked of a deployment.

use arm_ids::{Held, Place};
use template_parts::{Given, Mode};

/// What is asked of a deployment, beside its template.
#[derive(Clone, Copy)]
pub struct Asked<'a> {
    /// The values that are given for parameters.
    pub given: &'a Given,
    /// Where it is made. Its name is that of the place.
    pub place: &'a Place,
    /// The mode.
    pub mode: Mode,
    /// What is held before it.
    pub held: &'a Held,
}
