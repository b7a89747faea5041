// Deployments over two seats, which work side by side.

ghost use Rattle.deploy_cli.specs.Clauses as spec;

use crate::checks::{compare, letting_go};
use crate::first_path::{
    FIRST, THREE, add_refusal, apart, catalog_crew, compare_said, ran_of, said, sink_of, tree_of,
};
use arm_edges::{MemSink, MemTree};
use deploy_cli::Ran;
use driver_fakes::Pairing;
use provider_trait::{Event, Provider, Script};
use std::alloc::Global;
use std::sync::Wait;
use std::test::Fail;
use std::thread::Threads;
use worker_crew::Seat;

// What is returned for the words `FIRST` over that tree and those seats.
fn ran_over<R: Threads + Wait + Sync, P: Provider>(
    rt: &R,
    alloc: Global,
    tree: &mut MemTree,
    crew: &mut Vec<Seat<P>>,
    out: &mut MemSink,
) -> Result<Ran, Fail>
    requires { spec.AreFree crew.old }
{
    let words = apart(alloc, FIRST)?;
    let ran = ran_of(rt, alloc, &words, tree, crew, out);
    letting_go(ran, words)
}

// ---- batches

const FIVE: &str = concat!(
    "@batchSize(2)\n",
    "resource a 'Demo.Lab/things@1' = [for i in range(0, 5): {\n  name: 'a${i}'\n}]\n",
);

// How many answers come before the Begin of this task, of tasks that are numbered from 1 in batches of two.
fn answers_before(task: u32) -> u32 {
    task.saturating_sub(1) / 2 * 2
}

// How many answers there are, or the task that began before all of an earlier batch were answered.
fn batched(history: &[Event]) -> Result<u32, u32> {
    let mut answers: u32 = 0;
    for event in history {
        match event {
            Event::Begin(task, _, _) if answers < answers_before(*task) => return Err(*task),
            Event::Answer(_, _) => answers = answers.saturating_add(1),
            _ => {}
        }
    }
    Ok(answers)
}

fn check_batched(ran: Result<Ran, Fail>) -> Result<(), Fail> {
    let ran = ran?;
    let found = batched(ran.history.as_slice());
    letting_go(
        match found {
            Ok(5) => Ok(()),
            _ => Err(Fail::from("a batch began early, or a resource was not put")),
        },
        ran,
    )
}

// Deploys five resources in batches of two over the catalogue.
fn check_batches<R: Threads + Wait + Sync>(
    rt: &R,
    alloc: Global,
    tree: &mut MemTree,
    out: &mut MemSink,
) -> Result<(), Fail> {
    let mut crew = catalog_crew(alloc)?;
    let checked = check_batched(ran_over(rt, alloc, tree, &mut crew, out));
    letting_go(checked, crew)
}

#[test]
fn a_batch_begins_after_the_one_before_it(rt: HostRuntime) -> Result<(), Fail> {
    let mut tree = tree_of(rt.alloc(), FIVE, &[])?;
    let mut out = sink_of(rt.alloc(), 1000)?;
    let checked = check_batches(&rt, rt.alloc(), &mut tree, &mut out);
    letting_go(checked, (tree, out))
}

// ---- what is printed, and how many resources were begun

fn begins(history: &[Event]) -> u32 {
    let mut count: u32 = 0;
    for event in history {
        if let Event::Begin(_, _, _) = event {
            count = count.saturating_add(1);
        }
    }
    count
}

fn add_begins(text: Result<String, Fail>, count: u32) -> Result<String, Fail> {
    let mut text = text?;
    write!(text, "{count}")?;
    Ok(text)
}

fn said_of(alloc: Global, ran: Result<Ran, Fail>, printed: &[u8]) -> Result<String, Fail> {
    let ran = ran?;
    let text = add_begins(
        said(alloc, Ok(ran.status), printed),
        begins(ran.history.as_slice()),
    );
    letting_go(text, ran)
}

// The status of this file over those seats, what was printed, and how many resources were begun.
fn begun<R: Threads + Wait + Sync, P: Provider>(
    rt: &R,
    alloc: Global,
    main: &str,
    crew: &mut Vec<Seat<P>>,
) -> Result<String, Fail>
    requires { spec.AreFree crew.old }
{
    let mut tree = tree_of(alloc, main, &[])?;
    let mut out = sink_of(alloc, 1000)?;
    let ran = ran_over(rt, alloc, &mut tree, crew, &mut out);
    letting_go(said_of(alloc, ran, out.as_slice()), (tree, out))
}

// ---- providers that see whether their calls overlap

// Two seats over a pair.
#[tactic(auto, using(worker_crew::proofs::SeatLemmas::fresh))]
fn pair_crew(alloc: Global) -> Result<Vec<Seat<Pairing>>, Fail>
    ensures { spec.IfOk result spec.AreFree }
{
    let (one, other) = Pairing::pair(alloc)?;
    let mut crew = Vec::new(alloc);
    crew.push(Seat::new(one))?;
    crew.push(Seat::new(other))?;
    Ok(crew)
}

// Compares what comes of two resources over a pair.
fn check_pair<R: Threads + Wait + Sync>(
    rt: &R,
    alloc: Global,
    main: &str,
    wanted: &str,
) -> Result<(), Fail> {
    let mut crew = pair_crew(alloc)?;
    let found = begun(rt, alloc, main, &mut crew);
    letting_go(compare_said(found, wanted), crew)
}

const TWO: &str = concat!(
    "resource a 'Demo.Lab/things@1' = { name: 'a' }\n",
    "resource b 'Demo.Lab/things@1' = { name: 'b' }\n",
);

#[test]
fn two_resources_are_put_side_by_side(rt: HostRuntime) -> Result<(), Fail> {
    check_pair(&rt, rt.alloc(), TWO, "0 Succeeded first\n2")
}

const SECOND_AFTER: &str = concat!(
    "resource a 'Demo.Lab/things@1' = { name: 'a' }\n",
    "resource b 'Demo.Lab/things@1' = {\n  name: 'b'\n  dependsOn: [ a ]\n}\n",
);

const FIRST_AFTER: &str = concat!(
    "resource a 'Demo.Lab/things@1' = {\n  name: 'a'\n  dependsOn: [ b ]\n}\n",
    "resource b 'Demo.Lab/things@1' = { name: 'b' }\n",
);

const ALONE: &str = concat!(
    "3 Failed first: Alone: /subscriptions/00000000-0000-0000-0000-000000000000",
    "/resourceGroups/g/providers/Demo.Lab/things/",
);

// Compares what comes of two resources of which this one is needed.
fn check_alone<R: Threads + Wait + Sync>(
    rt: &R,
    alloc: Global,
    main: &str,
    name: &str,
) -> Result<(), Fail> {
    let wanted = format!(in alloc; "{ALONE}{name}\n1")?;
    check_pair(rt, alloc, main, wanted.as_str())
}

#[test]
fn a_resource_that_is_needed_is_put_alone(rt: HostRuntime) -> Result<(), Fail> {
    check_alone(&rt, rt.alloc(), SECOND_AFTER, "a")?;
    check_alone(&rt, rt.alloc(), FIRST_AFTER, "b")
}

// ---- a refusal of one of two seats

// Two seats: the first stores all, the second refuses its first job.
#[tactic(auto, using(worker_crew::proofs::SeatLemmas::fresh))]
fn refusing_crew(alloc: Global) -> Result<Vec<Seat<Script>>, Fail>
    ensures { spec.IfOk result spec.AreFree }
{
    let mut steps = Vec::new(alloc);
    add_refusal(alloc, &mut steps)?;
    let mut crew = Vec::new(alloc);
    crew.push(Seat::new(Script::new(alloc, Vec::new(alloc))))?;
    crew.push(Seat::new(Script::new(alloc, steps)))?;
    Ok(crew)
}

// The id of the first job of the second seat.
fn refused_id(crew: &[Seat<Script>]) -> &str {
    match crew.get(1) {
        Some(seat) => match seat.provider.calls().first() {
            Some(call) => call.job.id().as_str(),
            None => "no call",
        },
        None => "no second seat",
    }
}

// Compares what is said of a deployment that failed at the resource of this id.
fn compare_refused(alloc: Global, found: Result<String, Fail>, id: &str) -> Result<(), Fail> {
    let found = found?;
    let wanted = format!(in alloc; "3 Failed first: Quota: {id}\n")?;
    compare("the run", found.as_str(), wanted.as_str())
}

fn said_by(alloc: Global, ran: Result<Ran, Fail>, printed: &[u8]) -> Result<String, Fail> {
    let ran = ran?;
    letting_go(said(alloc, Ok(ran.status), printed), ran)
}

// Deploys three resources over the seats of which the second refuses.
fn check_refused<R: Threads + Wait + Sync>(
    rt: &R,
    alloc: Global,
    tree: &mut MemTree,
    out: &mut MemSink,
) -> Result<(), Fail> {
    let mut crew = refusing_crew(alloc)?;
    let ran = ran_over(rt, alloc, tree, &mut crew, out);
    let found = said_by(alloc, ran, out.as_slice());
    let compared = compare_refused(alloc, found, refused_id(crew.as_slice()));
    letting_go(compared, crew)
}

#[test]
fn the_resource_that_a_seat_refused_is_named(rt: HostRuntime) -> Result<(), Fail> {
    let mut tree = tree_of(rt.alloc(), THREE, &[])?;
    let mut out = sink_of(rt.alloc(), 1000)?;
    let checked = check_refused(&rt, rt.alloc(), &mut tree, &mut out);
    letting_go(checked, (tree, out))
}
