// The call that the program makes.

ghost use Rattle.deploy_cli.specs.Clauses as spec;

use crate::commands::{build, deploy};
use arm_edges::{Disk, Link, Sink, Tree};
use arm_value::{Bytes, OutOfMemory};
use command_reports::{Report, print, print_out_of_memory};
use command_words::{Command, USAGE, command_of};
use deployment_theorem::refused;
use provider_trait::{Event, Provider};
use run_reports::{Outcome, letting_go};
use std::alloc::{AllocError, Global};
use std::sync::Wait;
use std::thread::Threads;
use worker_crew::Seat;

/// The result of a call of `run`.
#[derive(Drop)]
pub struct Ran {
    /// The status with which the program ends.
    pub status: u8,
    /// What has happened in the deployment, oldest first. It is empty where none was run.
    pub history: Vec<Event>,
}

// Prints the report, or that memory is out. Returns the status with which the program ends.
fn say<O: Sink>(out: &mut O, report: &Result<Report, OutOfMemory>) -> u8
    ensures { spec.Says (spec.output O.tells_written (O.written out.old) (O.faults out.old))
        (spec.output O.tells_written (O.written out.new) (O.faults out.new)) report.now result }
{
    match report {
        Ok(report) => print(out, report),
        Err(_) => print_out_of_memory(out),
    }
}

// The report of words that are no command: the usage.
fn usage(alloc: Global) -> Result<Report, OutOfMemory>
    ensures { spec.IsUsageText result }
{
    match String::from_str(alloc, USAGE) {
        Ok(text) => Ok(Report {
            text: Bytes::from_vec(text.into_bytes()),
            status: 2,
        }),
        Err(_) => Err(AllocError),
    }
}

// Prints what came of a command.
fn ended<O: Sink>(out: &mut O, outcome: Outcome) -> Ran
    ensures says { spec.Says (spec.output O.tells_written (O.written out.old) (O.faults out.old))
        (spec.output O.tells_written (O.written out.new) (O.faults out.new)) outcome.report result.status }
    ensures handed { spec.IsSame result.history outcome.history }
{
    let Outcome { report, history } = outcome;
    let status = say(out, &report);
    letting_go(Ran { status, history }, report)
}

// What comes of words by the command that they are.
fn carried_out<R: Threads + Wait + Sync, T: Tree, P: Provider>(
    rt: &R,
    alloc: Global,
    command: &Option<Command>,
    tree: &mut T,
    seats: &mut Vec<Seat<P>>,
) -> Outcome
    requires { spec.MayDeploy seats.old }
    ensures does { spec.HasDone P.may P.tells P.faults P.calls seats.old seats.new result T.tells_files
        (T.file tree.old) command.now }
    ensures seats { spec.MayDeploy seats.new }
    ensures tree { spec.CountsTree (T.faults tree.old) (T.faults tree.new) result.report }
{
    match command {
        Some(Command::Build(command)) => build(alloc, command, tree),
        Some(Command::Deploy(command)) => deploy(rt, alloc, command, tree, seats),
        None => refused(alloc, usage(alloc)),
    }
}

/// Does what the words say, and prints what came of it. It may wait.
///
/// `build FILE` prints the template of a Bicep file; `deploy FILE --group GROUP --name NAME` deploys it by the
/// providers of the seats, over an empty store, and prints how that has ended. `command_words` has all forms and
/// options.
///
/// | Status | When | Prints |
/// |---|---|---|
/// | 0 | the template was built, or the deployment succeeded | the template; `Succeeded NAME`, and the outputs |
/// | 1 | the files, the parameters or the names are refused | `error CODE: DETAIL` |
/// | 2 | the words are no command | the usage |
/// | 3 | the deployment failed | `Failed NAME: CODE: MESSAGE` |
/// | 4 | the tree failed to read a file | `fault tree` |
/// | 5 | the output failed, where the status would be 0 to 3 | a beginning of the text |
/// | 7 | the provider of the seat K failed | `fault provider K` |
/// | 9 | out of memory | `fault memory` |
///
/// There are 1 to 4,294,967,295 seats, numbered from 0, none with a job. The disk and the link are unchanged.
pub fn run<R: Threads + Wait + Sync, T: Tree, D: Disk, P: Provider, L: Link, O: Sink>(
    rt: &R,
    alloc: Global,
    words: &[String],
    tree: &mut T,
    disk: &mut D,
    seats: &mut Vec<Seat<P>>,
    link: &mut L,
    out: &mut O,
) -> Ran
    requires few { spec.AreFew seats.old }
    requires free { spec.AreFree seats.old }
    ensures theorem { spec.HasRun
        (spec.outside (T.file tree.old) T.tells_files P.may P.tells O.tells_written)
        (spec.moment (T.faults tree.old) (spec.seats_in P.faults P.calls seats.old)
        (O.faults out.old) (O.written out.old))
        (spec.moment (T.faults tree.new) (spec.seats_in P.faults P.calls seats.new)
        (O.faults out.new) (O.written out.new))
        (spec.bytes_of words.now) result }
    ensures seats { spec.MayDeploy seats.new }
    ensures disk { spec.IsSame disk.new disk.old }
    ensures link { spec.IsSame link.new link.old }
{
    let command = command_of(words);
    let outcome = carried_out(rt, alloc, &command, tree, seats);
    ended(out, outcome)
}
