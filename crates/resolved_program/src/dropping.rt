// Programs that are dropped.

use crate::resolved::ResolvedProgram;

/// Drops a program. A crate that calls it need not prove again how each part of a program is dropped.
pub fn drop_program(_program: ResolvedProgram) {}
