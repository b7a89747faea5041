// What holds of deployments of programs. A law has other laws in its body: its contract is the law.

ghost use Rattle.source_deployments.specs.Laws.{ReadBack, DesiredStatesAreOfSources};

use emitted_programs::laws::desired_states_are_the_same;
use read_backs::laws::read_once;
use sound_programs::laws::read_and_checked_programs_are_sound;
use source_files::laws::source_files_are_of_texts;
use template_meaning::described_once;

/// What is planned of a value that was read back is a plan of the template of which the bytes are.
pub fn read_back()
    ensures { ReadBack }
{
    read_once();
    described_once();
}

/// Each desired state of what is planned is that of a world which satisfies the program.
pub fn desired_states_are_of_sources()
    ensures { DesiredStatesAreOfSources }
{
    desired_states_are_the_same();
    read_and_checked_programs_are_sound();
    source_files_are_of_texts();
}
