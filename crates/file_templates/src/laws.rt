//! What holds of the parts of templates. A law has at most other laws in its body: its contract is the law.
ghost use Rattle.file_templates.specs.Laws.{PartsWithinTheLimitsCanBeFilled};

use source_templates::files_within_the_limits_fit;

/// Of the parts of a file that are beyond no limit of templates a template can be made.
pub fn parts_within_the_limits_can_be_filled()
    ensures { PartsWithinTheLimitsCanBeFilled }
{
    files_within_the_limits_fit();
}
