//! What is beyond no limit can be built. A law has at most other laws in its body: its contract is the law.
ghost use Rattle.file_limits.specs.Laws.{FilesWithinLimitsFit, ModulesAreWithinLimits};

use printable_files::laws::{emissions_are_printable, values_are_printable};

/// The template of a file that is beyond no limit can be built and read back, where the names and the numbers in the
/// file are those of template expressions.
pub fn files_within_the_limits_fit()
    ensures { FilesWithinLimitsFit }
{
    emissions_are_printable();
    values_are_printable();
}

/// The template of a module in such a file is beyond no limit either.
pub fn modules_are_within_the_limits()
    ensures { ModulesAreWithinLimits }
{}
