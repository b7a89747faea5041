// What a file of a tree gives.

ghost use Rattle.std.specs.Prelude.{◌≡◌};
ghost use Rattle.parameter_files.specs.Files.{IsFileAnswer, IsFileRead, Counts, CountsFile};

use crate::fault::ParameterFault;
use crate::parameters::parameters_in;
use arm_edges::{Tree, TreeFault};
use arm_value::Bytes;
use std::alloc::Global;
use template_parts::Given;

/// The values that the file of this name gives.
///
/// # Errors
///
/// `Missing` and `TooLarge` exactly as the tree answers; `Fault` only where its count of faults rose; else as
/// `parameters_in` says of the bytes.
pub fn read_parameters<T: Tree>(
    alloc: Global,
    tree: &mut T,
    name: &str,
) -> Result<Given, ParameterFault>
    ensures answer { IsFileAnswer T.tells_files (T.file tree.old name.now) result }
    ensures stays { T.file tree.new ≡ T.file tree.old }
    ensures counts { Counts (T.faults tree.old) (T.faults tree.new) result }
{
    match bytes_of(alloc, tree, name) {
        Ok(bytes) => parameters_in(alloc, bytes.as_slice()),
        Err(fault) => Err(fault),
    }
}

// The bytes of the file of this name.
fn bytes_of<T: Tree>(alloc: Global, tree: &mut T, name: &str) -> Result<Bytes, ParameterFault>
    ensures read { IsFileRead T.tells_files (T.file tree.old name.now) result }
    ensures stays { T.file tree.new ≡ T.file tree.old }
    ensures counts { CountsFile (T.faults tree.old) (T.faults tree.new) result }
{
    match tree.read_file(alloc, name) {
        Ok(Some(bytes)) => Ok(bytes),
        Ok(None) => Err(ParameterFault::Missing),
        Err(TreeFault::TooLarge) => Err(ParameterFault::TooLarge),
        Err(TreeFault::Fault) => Err(ParameterFault::Fault),
        Err(TreeFault::OutOfMemory) => Err(ParameterFault::OutOfMemory),
    }
}
