// What holds of built programs.

ghost use Rattle.source_builds.specs.Clauses as spec;

use source_deployments::laws::read_back;

/// What is planned of a value that was read back of the bytes of a built program is a plan of the program.
pub fn built_programs_are_planned()
    ensures { spec.BuiltProgramsArePlanned }
{
    read_back();
}
