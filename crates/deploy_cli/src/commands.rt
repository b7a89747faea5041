// What comes of the commands.

ghost use Rattle.deploy_cli.specs.Clauses as spec;

use arm_edges::Tree;
use arm_value::{Bytes, OutOfMemory};
use command_reports::Report;
use command_words::{Build, Deploy};
use deployment_theorem::laws::plans_are_of_sources;
use deployment_theorem::{NotBuilt, build_source, deploy_bytes, refused};
use provider_trait::Provider;
use run_reports::{Outcome, letting_go};
use std::alloc::{AllocError, Global};
use std::sync::Wait;
use std::thread::Threads;
use worker_crew::Seat;

// The report of a template: its bytes, and a newline.
fn template(bytes: Bytes) -> Result<Report, OutOfMemory>
    ensures { spec.IsLineOf bytes result }
{
    let mut text = bytes;
    match text.extend(b"\n") {
        Ok(()) => Ok(Report { text, status: 0 }),
        Err(_) => letting_go(Err(AllocError), text),
    }
}

// Why nothing is built, unless memory was out for its report.
fn reason(not: NotBuilt) -> Result<Report, OutOfMemory>
    ensures { spec.IsReasonOf not result }
{
    match not {
        NotBuilt::Refused(report) => Ok(report),
        NotBuilt::OutOfMemory => Err(AllocError),
    }
}

/// Builds the template of the file.
pub(crate) fn build<T: Tree>(alloc: Global, build: &Build, tree: &mut T) -> Outcome
    ensures built { spec.HasBuilt T.tells_files (T.file tree.old) build.now result }
    ensures tree { spec.CountsTree (T.faults tree.old) (T.faults tree.new) result.report }
{
    match build_source(alloc, tree, build.file, build.form) {
        Ok(bytes) => refused(alloc, template(bytes)),
        Err(not) => refused(alloc, reason(not)),
    }
}

/// Deploys the template of the file by the providers of the seats. It may wait.
pub(crate) fn deploy<R: Threads + Wait + Sync, T: Tree, P: Provider>(
    rt: &R,
    alloc: Global,
    deploy: &Deploy,
    tree: &mut T,
    seats: &mut Vec<Seat<P>>,
) -> Outcome
    requires { spec.MayDeploy seats.old }
    ensures came { spec.HasDeployed P.may P.tells P.faults P.calls seats.old seats.new result T.tells_files
        (T.file tree.old) deploy.now }
    ensures seats { spec.MayDeploy seats.new }
    ensures tree { spec.CountsTree (T.faults tree.old) (T.faults tree.new) result.report }
{
    plans_are_of_sources();
    match build_source(alloc, tree, deploy.file, deploy.form) {
        Ok(bytes) => {
            let outcome = deploy_bytes(rt, alloc, bytes.as_slice(), deploy, tree, seats);
            letting_go(outcome, bytes)
        }
        Err(not) => refused(alloc, reason(not)),
    }
}
