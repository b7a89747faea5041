// What holds of the program. A law has other laws in its body: its contract is the law.

ghost use Rattle.deployment_theorem.specs.Laws as spec;

use read_backs::laws::read_once;
use request_places::laws::places_are_plain;
use source_builds::laws::built_programs_are_planned;
use source_deployments::laws::desired_states_are_of_sources;

/// What is planned of the bytes that are built of a program is what the program means.
pub fn plans_are_of_sources()
    ensures { spec.PlansAreOfSources }
{
    read_once();
    places_are_plain();
    built_programs_are_planned();
    desired_states_are_of_sources();
}
