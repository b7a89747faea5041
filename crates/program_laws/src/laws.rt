//! What holds of emitted templates. A law has at most other laws in its body: its contract is the law.
ghost use Rattle.program_laws.specs.Laws as spec;

use emitted_programs::laws::desired_states_are_the_same;
use sound_programs::laws::{
    read_and_checked_programs_are_sound, symbols_of_checked_programs_differ,
};
use source_files::laws::source_files_are_of_texts;

/// The template that `emit` returns for a program is deployed as the program, where its parameters are bound to what is
/// given for those of the program.
pub fn emitted_programs_are_deployed()
    ensures { spec.EmittedProgramsAreDeployed }
{
    source_files_are_of_texts();
    read_and_checked_programs_are_sound();
}

/// The symbols of such a program have names that differ, so that its tasks need each other as those of the template.
pub fn emitted_programs_have_symbols()
    ensures { spec.EmittedProgramsHaveSymbols }
{
    source_files_are_of_texts();
    symbols_of_checked_programs_differ();
}

/// The desired states of the template are exactly the renamed worlds that satisfy the program.
pub fn desired_states_are_of_programs()
    ensures { spec.DesiredStatesAreOfPrograms }
{
    desired_states_are_the_same();
}
