// The bytes of a template are deployed, as the words of a request ask.

ghost use Rattle.request_deployments.specs.Clauses as spec;

use arm_edges::Tree;
use arm_ids::{Held, Place};
use arm_value::{JsonFault, OutOfMemory, Value};
use command_refusals::{name_report, parameter_report};
use command_words::Deploy;
use parameter_files::read_parameters;
use provider_trait::Provider;
use read_backs::know_characters;
use request_names::bad_name;
use request_places::laws::places_are_plain;
use request_places::place_of;
use run_reports::{Outcome, letting_go};
use std::alloc::{AllocError, Global};
use std::sync::Wait;
use std::thread::Threads;
use template_deployments::{Asked, deploy_value, refused};
use template_parts::Given;
use worker_crew::Seat;

// That memory is out: the bytes are a JSON text, so that there is no other fault.
fn no_memory(fault: JsonFault) -> Result<Value, OutOfMemory>
    requires { spec.IsMemoryFault fault }
    ensures { spec.IsOut result }
{
    match fault {
        JsonFault::OutOfMemory => Err(AllocError),
        JsonFault::NotJson => unreachable!(),
        JsonFault::TooDeep => unreachable!(),
        JsonFault::NotWhole(_) => unreachable!(),
    }
}

// The value of the bytes, unless memory is out.
fn read_back(alloc: Global, bytes: &[u8]) -> Result<Value, OutOfMemory>
    requires { spec.IsJsonText bytes.now }
    ensures { spec.ReadsBack bytes.now result }
{
    match Value::from_json(alloc, bytes) {
        Ok(value) => {
            know_characters(&value);
            // Its clauses say that the value keeps the rules of values.
            let _nesting = value.nesting();
            Ok(value)
        }
        Err(fault) => no_memory(fault),
    }
}

// The same with these values, in this place.
fn deploy_placed<R: Threads + Wait + Sync, P: Provider>(
    rt: &R,
    alloc: Global,
    bytes: &[u8],
    deploy: &Deploy,
    given: &Given,
    place: &Place,
    seats: &mut Vec<Seat<P>>,
) -> Outcome
    requires allowed { spec.MayDeployPlaced bytes.now place.now seats.old }
    ensures { spec.HasDeployedPlaced P.may P.tells P.faults P.calls seats.old seats.new result bytes.now deploy.now
        given.now place.now }
{
    match read_back(alloc, bytes) {
        Ok(value) => {
            let held = Held::new(alloc);
            let asked = Asked {
                given,
                place,
                mode: deploy.mode,
                held: &held,
            };
            let outcome = deploy_value(rt, alloc, &value, asked, seats);
            letting_go(outcome, (value, held))
        }
        Err(_) => refused(alloc, Err(AllocError)),
    }
}

// The same with these values.
fn deploy_given<R: Threads + Wait + Sync, P: Provider>(
    rt: &R,
    alloc: Global,
    bytes: &[u8],
    deploy: &Deploy,
    given: Given,
    seats: &mut Vec<Seat<P>>,
) -> Outcome
    requires { spec.MayDeployBytes bytes.now seats.old }
    ensures { spec.HasDeployedGiven P.may P.tells P.faults P.calls seats.old seats.new result bytes.now deploy.now
        given }
{
    places_are_plain();
    match bad_name(deploy.group, deploy.name, deploy.subscription) {
        Some(name) => letting_go(refused(alloc, name_report(alloc, name)), given),
        None => match place_of(alloc, deploy.subscription, deploy.group, deploy.name) {
            Ok(place) => {
                let outcome = deploy_placed(rt, alloc, bytes, deploy, &given, &place, seats);
                letting_go(outcome, (place, given))
            }
            Err(_) => letting_go(refused(alloc, Err(AllocError)), given),
        },
    }
}

/// Deploys what the bytes of a template state, as the words ask, over an empty store, and reports how the deployment
/// has ended, with its history, or why it was refused. It may wait.
///
/// There are 1 to 4,294,967,295 seats, none with a job. The same seats come back in their order, none with a job. The
/// parameter file is looked at first, then the names, then the template with its values.
pub fn deploy_bytes<R: Threads + Wait + Sync, T: Tree, P: Provider>(
    rt: &R,
    alloc: Global,
    bytes: &[u8],
    deploy: &Deploy,
    tree: &mut T,
    seats: &mut Vec<Seat<P>>,
) -> Outcome
    requires { spec.MayDeployBytes bytes.now seats.old }
    ensures came { spec.HasDeployedBytes P.may P.tells P.faults P.calls seats.old seats.new result T.tells_files
        (T.file tree.old) bytes.now deploy.now }
    ensures tree { spec.TellsTree (T.faults tree.old) (T.faults tree.new) result }
    ensures stays { spec.Stay (T.file tree.old) (T.file tree.new) }
{
    match deploy.parameters {
        Some(file) => match read_parameters(alloc, tree, file) {
            Ok(given) => deploy_given(rt, alloc, bytes, deploy, given, seats),
            Err(fault) => refused(alloc, parameter_report(alloc, file, fault)),
        },
        None => deploy_given(rt, alloc, bytes, deploy, Given::new(alloc), seats),
    }
}
