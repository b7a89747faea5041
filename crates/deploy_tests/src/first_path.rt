// Deployments, from the words to what is printed and the calls that were made.

ghost use Rattle.deploy_cli.specs.Clauses as spec;

use crate::calls::{Listing, Shown, say_calls, text_of};
use crate::checks::{compare, letting_go};
use crate::rows::file_of;
use arm_edges::{MemFile, MemLink, MemSink, MemTree};
use arm_value::{Bytes, Text};
use command_words::USAGE;
use deploy_cli::{Ran, run};
use mem_disk::{Contents, MemDisk, Room};
use provider_trait::{Catalog, Provider, Script, Step};
use std::alloc::{AllocError, Global};
use std::sync::Wait;
use std::test::Fail;
use std::thread::Threads;
use worker_crew::Seat;

const THING: &str = "resource a 'Demo.Lab/things@2024-01-01' = {\n  name: 'a'\n  size: 2\n}\n";

pub const FIRST: &str = "deploy main.bicep --group g --name first";

/// The words of a text, which spaces separate.
pub fn apart(alloc: Global, text: &str) -> Result<Vec<String>, Fail> {
    let mut words = Vec::new(alloc);
    for word in text.split(' ') {
        words.push(String::from_str(alloc, word)?)?;
    }
    Ok(words)
}

/// A tree whose file `main.bicep` has this text; the calls of those numbers fail.
pub fn tree_of(alloc: Global, main: &str, fails: &[u64]) -> Result<MemTree, Fail> {
    let mut files = Vec::new(alloc);
    files.push(file_of(alloc, "main.bicep", main.as_bytes())?)?;
    Ok(MemTree::new(alloc, files, fails.to_vec(alloc)?))
}

/// A disk without room, on which no call is made.
pub fn no_disk(alloc: Global) -> Result<MemDisk, Fail> {
    let contents = Contents {
        a: Vec::new(alloc),
        b: Vec::new(alloc),
    };
    let room = Room { bytes: 0, calls: 0 };
    Ok(MemDisk::new(alloc, &contents, Vec::new(alloc), Vec::new(alloc), room)?)
}

/// What is returned for these words over that tree and those seats, with an output that takes what is printed.
pub fn ran_of<R: Threads + Wait + Sync, P: Provider>(
    rt: &R,
    alloc: Global,
    words: &[String],
    tree: &mut MemTree,
    crew: &mut Vec<Seat<P>>,
    out: &mut MemSink,
) -> Result<Ran, Fail>
    requires { spec.AreFree crew.old }
{
    if crew.is_empty() || crew.len() > 1000 {
        return Err(Fail::from("too few or too many seats"));
    }
    let mut disk = no_disk(alloc)?;
    let mut link = MemLink::new(alloc, Vec::new(alloc), Vec::new(alloc));
    let ran = run(rt, alloc, words, tree, &mut disk, crew, &mut link, out);
    letting_go(Ok(ran), (disk, link))
}

fn status_in(ran: Result<Ran, Fail>) -> Result<u8, Fail> {
    let ran = ran?;
    letting_go(Ok(ran.status), ran)
}

pub fn said(alloc: Global, status: Result<u8, Fail>, printed: &[u8]) -> Result<String, Fail> {
    let (status, printed) = (status?, text_of(printed));
    Ok(format!(in alloc; "{status} {printed}")?)
}

// The status of these words over that tree and those seats, and what was printed into that output.
fn printed<R: Threads + Wait + Sync, P: Provider>(
    rt: &R,
    alloc: Global,
    words: &str,
    tree: &mut MemTree,
    crew: &mut Vec<Seat<P>>,
    out: &mut MemSink,
) -> Result<String, Fail>
    requires { spec.AreFree crew.old }
{
    let words = apart(alloc, words)?;
    let status = status_in(ran_of(rt, alloc, &words, tree, crew, out));
    letting_go(said(alloc, status, out.as_slice()), words)
}

/// An output with room for `room` bytes.
pub fn sink_of(alloc: Global, room: usize) -> Result<MemSink, AllocError> {
    MemSink::new(alloc, [7].to_vec(alloc)?, Vec::new(alloc), room)
}

// The same with an output with room for `room` bytes.
fn outcome<R: Threads + Wait + Sync, P: Provider>(
    rt: &R,
    alloc: Global,
    words: &str,
    tree: &mut MemTree,
    crew: &mut Vec<Seat<P>>,
    room: usize,
) -> Result<String, Fail>
    requires { spec.AreFree crew.old }
{
    let mut out = sink_of(alloc, room)?;
    letting_go(printed(rt, alloc, words, tree, crew, &mut out), out)
}

/// Two seats over the catalogue.
#[tactic(auto, using(worker_crew::proofs::SeatLemmas::fresh))]
pub fn catalog_crew(alloc: Global) -> Result<Vec<Seat<Catalog>>, Fail>
    ensures { spec.IfOk result spec.AreFree }
{
    let mut crew = Vec::new(alloc);
    crew.push(Seat::new(Catalog::new(alloc)))?;
    crew.push(Seat::new(Catalog::new(alloc)))?;
    Ok(crew)
}

// One seat over a script of these steps.
#[tactic(auto, using(worker_crew::proofs::SeatLemmas::fresh))]
fn script_crew(alloc: Global, steps: Vec<Step>) -> Result<Vec<Seat<Script>>, Fail>
    ensures { spec.IfOk result spec.AreFree }
{
    let mut crew = Vec::new(alloc);
    crew.push(Seat::new(Script::new(alloc, steps)))?;
    Ok(crew)
}

// Adds what is shown of the calls of each seat.
fn say_all<P: Listing>(
    said: &mut String,
    alloc: Global,
    crew: &[Seat<P>],
    shown: Shown,
) -> Result<(), AllocError> {
    for seat in crew {
        say_calls(said, alloc, seat.provider.list(), shown)?;
    }
    Ok(())
}

// The status of the words `FIRST` over that tree and those seats, what was printed, and after it what is shown of the
// calls of each seat.
fn outcome_and_calls<R: Threads + Wait + Sync, P: Listing>(
    rt: &R,
    alloc: Global,
    tree: &mut MemTree,
    crew: &mut Vec<Seat<P>>,
    room: usize,
    shown: Shown,
) -> Result<String, Fail>
    requires { spec.AreFree crew.old }
{
    let mut said = outcome(rt, alloc, FIRST, tree, crew, room)?;
    say_all(&mut said, alloc, crew.as_slice(), shown)?;
    Ok(said)
}

// Compares that of this file, of which the calls of those numbers fail, over those seats.
fn check_run<R: Threads + Wait + Sync, P: Listing>(
    rt: &R,
    alloc: Global,
    files: (&str, &[u64], usize),
    crew: Vec<Seat<P>>,
    wanted: (Shown, &str),
) -> Result<(), Fail>
    requires { spec.AreFree crew }
{
    let (main, fails, room) = files;
    let (shown, wanted) = wanted;
    match tree_of(alloc, main, fails) {
        Ok(tree) => {
            let (mut tree, mut crew) = (tree, crew);
            let said = outcome_and_calls(rt, alloc, &mut tree, &mut crew, room, shown);
            compare_said(letting_go(said, (tree, crew)), wanted)
        }
        Err(fail) => letting_go(Err(fail), crew),
    }
}

pub fn compare_said(said: Result<String, Fail>, wanted: &str) -> Result<(), Fail> {
    compare("the run", said?.as_str(), wanted)
}

// The status of these words and this file over the catalogue, and what was printed.
fn deployed<R: Threads + Wait + Sync>(
    rt: &R,
    alloc: Global,
    main: &str,
    words: &str,
) -> Result<String, Fail> {
    let tree = tree_of(alloc, main, &[])?;
    match catalog_crew(alloc) {
        Ok(crew) => {
            let (mut tree, mut crew) = (tree, crew);
            let said = outcome(rt, alloc, words, &mut tree, &mut crew, 1000);
            letting_go(said, (tree, crew))
        }
        Err(fail) => letting_go(Err(fail), tree),
    }
}

const ONE_CALL: &str = concat!(
    "0 Succeeded first\n",
    "[{\"size\":2}\n",
    "{\"api\":\"2024-01-01\",\"body\":{\"size\":2},",
    "\"id\":\"/subscriptions/00000000-0000-0000-0000-000000000000",
    "/resourceGroups/g/providers/Demo.Lab/things/a\",",
    "\"task\":1,\"worker\":0}\n",
    "{\"apiVersion\":\"2024-01-01\",",
    "\"id\":\"/subscriptions/00000000-0000-0000-0000-000000000000",
    "/resourceGroups/g/providers/Demo.Lab/things/a\",\"name\":\"a\",",
    "\"properties\":{\"provisioningState\":\"Succeeded\"},",
    "\"size\":2,\"type\":\"Demo.Lab/things\"}][]",
);

#[test]
fn one_resource_is_put_and_stored(rt: HostRuntime) -> Result<(), Fail> {
    let crew = catalog_crew(rt.alloc())?;
    check_run(
        &rt,
        rt.alloc(),
        (THING, &[], 1000),
        crew,
        (Shown::Whole, ONE_CALL),
    )
}

// A file, the words, and what is said.
static SAID: [(&str, &str, &str); 11] = [
    (
        "",
        "deploy main.bicep --group g --name e",
        "0 Succeeded e\n",
    ),
    (
        "param x int\n",
        FIRST,
        "1 error InvalidParameter: MissingParameter x\n",
    ),
    ("var a = 'x", FIRST, "1 error OpenText: main.bicep:8\n"),
    ("var a = 5 5", FIRST, "1 error NotAFile: main.bicep:10\n"),
    (
        concat!(
            "var a = ",
            "(((((((((((((((((((((((((((((((((((((((((((((((((((((((((((((((((",
            "1",
            ")))))))))))))))))))))))))))))))))))))))))))))))))))))))))))))))))",
            "\n",
        ),
        FIRST,
        "1 error TooDeep: main.bicep:138\n",
    ),
    (
        "resource a 'T/t@1' = {\n  name: 'a'\n  n: 'open\n}\n",
        FIRST,
        "1 error OpenText: main.bicep:40\n",
    ),
    (
        THING,
        "deploy other.bicep --group g --name first",
        "1 error ModuleMissing: other.bicep\n",
    ),
    (
        THING,
        "deploy main.bicep --group g/h --name first",
        "1 error InvalidParameter: BadName g/h\n",
    ),
    (
        THING,
        "deploy main.bicep --group g --name a%",
        "1 error InvalidParameter: BadName a%\n",
    ),
    (
        THING,
        "deploy main.bicep --group g/h --name a%",
        "1 error InvalidParameter: BadName g/h\n",
    ),
    (
        "param x int\n",
        "deploy main.bicep --group g/h --name a%",
        "1 error InvalidParameter: BadName g/h\n",
    ),
];

// Compares what is said of a file and words over the catalogue.
pub fn check_said<R: Threads + Wait + Sync>(
    rt: &R,
    alloc: Global,
    (main, words, wanted): (&str, &str, &str),
) -> Result<(), Fail> {
    let said = deployed(rt, alloc, main, words)?;
    compare(words, said.as_str(), wanted)
}

#[test]
fn files_and_words_come_to_their_lines(rt: HostRuntime) -> Result<(), Fail> {
    for row in &SAID {
        check_said(&rt, rt.alloc(), *row)?;
    }
    Ok(())
}

static OTHER_WORDS: [&str; 8] = [
    "",
    "deploy",
    "build main.bicep --group g --name first",
    "deploy main.bicep --name first --name first --group g",
    "deploy main.bicep --group g --name first more",
    "deploy main.bicep --group -g --name first",
    "deploy -f --group g --name first",
    "deploy  --group g --name first",
];

#[test]
fn other_words_are_answered_by_the_usage(rt: HostRuntime) -> Result<(), Fail> {
    let usage = format!(in rt.alloc(); "2 {USAGE}")?;
    for words in &OTHER_WORDS {
        check_said(&rt, rt.alloc(), (THING, words, usage.as_str()))?;
    }
    Ok(())
}

pub const THREE: &str = concat!(
    "resource a 'Demo.Lab/things@1' = { name: 'a' }\n",
    "resource b 'Demo.Lab/things@1' = { name: 'b' }\n",
    "resource c 'Demo.Lab/things@1' = { name: 'c' }\n",
);

const QUOTA: &str = concat!(
    "3 Failed first: Quota: /subscriptions/00000000-0000-0000-0000-000000000000",
    "/resourceGroups/g/providers/Demo.Lab/things/b\n[ab]",
);

const BESIDE: &str = concat!(
    "resource a 'Demo.Lab/things@1' = [for x in []: { name: 'a${x}' }]\n",
    "resource b 'Demo.Lab/things@1' = {\n  name: 'b'\n  dependsOn: [ a ]\n}\n",
);

#[test]
fn a_loop_over_nothing_puts_nothing(rt: HostRuntime) -> Result<(), Fail> {
    let crew = catalog_crew(rt.alloc())?;
    check_run(
        &rt,
        rt.alloc(),
        (BESIDE, &[], 1000),
        crew,
        (Shown::Names, "0 Succeeded first\n[b][]"),
    )
}

const EITHER: &str = concat!(
    "param p bool = true\n",
    "resource a 'Demo.Lab/things@1' = if (!p) { name: 'a' }\n",
    "resource b 'Demo.Lab/things@1' = if (p) { name: 'a' }\n",
);

#[test]
fn one_of_two_resources_of_a_name_is_put(rt: HostRuntime) -> Result<(), Fail> {
    let crew = catalog_crew(rt.alloc())?;
    check_run(
        &rt,
        rt.alloc(),
        (EITHER, &[], 1000),
        crew,
        (Shown::Names, "0 Succeeded first\n[a][]"),
    )
}

/// A step that refuses.
pub fn add_refusal(alloc: Global, steps: &mut Vec<Step>) -> Result<(), Fail> {
    Ok(steps.push(Step::Refuse(Text::of(alloc, "Quota")?))?)
}

// A step that stores, and one that refuses.
fn add_steps(alloc: Global, steps: &mut Vec<Step>) -> Result<(), Fail> {
    steps.push(Step::Store)?;
    add_refusal(alloc, steps)
}

#[test]
fn a_refused_put_is_the_last(rt: HostRuntime) -> Result<(), Fail> {
    let mut steps = Vec::new(rt.alloc());
    add_steps(rt.alloc(), &mut steps)?;
    let crew = script_crew(rt.alloc(), steps)?;
    check_run(
        &rt,
        rt.alloc(),
        (THREE, &[], 1000),
        crew,
        (Shown::Names, QUOTA),
    )
}

const REFUSED: &str = concat!(
    "3 Failed first: Quota: /subscriptions/00000000-0000-0000-0000-000000000000",
    "/resourceGroups/g/providers/Demo.Lab/things/a\n[a]",
);

#[test]
fn a_refused_put_ends_a_deployment(rt: HostRuntime) -> Result<(), Fail> {
    let mut steps = Vec::new(rt.alloc());
    add_refusal(rt.alloc(), &mut steps)?;
    let crew = script_crew(rt.alloc(), steps)?;
    check_run(
        &rt,
        rt.alloc(),
        (THING, &[], 1000),
        crew,
        (Shown::Names, REFUSED),
    )
}

#[test]
fn a_failing_provider_is_named(rt: HostRuntime) -> Result<(), Fail> {
    let mut steps = Vec::new(rt.alloc());
    steps.push(Step::Fail)?;
    let crew = script_crew(rt.alloc(), steps)?;
    let wanted = "7 fault provider 0\n[a]";
    check_run(
        &rt,
        rt.alloc(),
        (THING, &[], 1000),
        crew,
        (Shown::Names, wanted),
    )
}

#[test]
fn a_failing_tree_is_named(rt: HostRuntime) -> Result<(), Fail> {
    let crew = catalog_crew(rt.alloc())?;
    check_run(
        &rt,
        rt.alloc(),
        (THING, &[0], 1000),
        crew,
        (Shown::Names, "4 fault tree\n[][]"),
    )
}

#[test]
fn an_output_that_fails_turns_success_into_its_fault(rt: HostRuntime) -> Result<(), Fail> {
    let crew = catalog_crew(rt.alloc())?;
    check_run(
        &rt,
        rt.alloc(),
        (THING, &[], 15),
        crew,
        (Shown::Names, "5 Succeeded firs[a][]"),
    )
}

const KINDS: &str = concat!(
    "resource a 'Demo.Lab/things@1' = {\n  z: ['[a]', '[[b]', '[', 'c\\n']\n  name: '[x]'\n",
    "  o: { t: true, f: false, n: null, d: 7 }\n}\n",
);

const BODY: &str = concat!(
    "0 Succeeded first\n[[x]",
    "{\"o\":{\"d\":7,\"f\":false,\"n\":null,\"t\":true},\"z\":[\"[a]\",\"[[b]\",\"[\",\"c\\n\"]}][]",
);

#[test]
fn every_kind_of_value_comes_through(rt: HostRuntime) -> Result<(), Fail> {
    let crew = catalog_crew(rt.alloc())?;
    check_run(
        &rt,
        rt.alloc(),
        (KINDS, &[], 1000),
        crew,
        (Shown::Bodies, BODY),
    )
}
