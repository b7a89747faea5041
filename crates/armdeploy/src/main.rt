//! The program `armdeploy`: it makes the real objects, calls `run`, and ends with its status.
//!
//! Nothing is decided here. Where the words are not all text, `run` is called with none.
#![tactic(auto)]

ghost use Rattle.deploy_cli.specs.Clauses as spec;

use arm_edges::{RealDisk, RealLink, RealOut, RealTree, Sink};
use deploy_cli::run;
use provider_trait::Catalog;
use std::alloc::{AllocError, Global};
use std::env;
use std::process::ExitCode;
use std::rt::Env;
use worker_crew::Seat;

const SEATS: u32 = 4;

// The parts that take memory.
#[derive(Drop)]
struct Parts {
    words: Vec<String>,
    crew: Vec<Seat<Catalog>>,
    folder: String,
    journal_a: String,
    journal_b: String,
}

// The words, four seats over the catalogue, and the names of the folder and of the journal's two files.
fn made<R: Env + Alloc<A = Global>>(rt: &R) -> Result<Parts, AllocError>
    ensures { spec.IfOk result (λ parts. spec.HasSeats 4 parts.crew) }
{
    let alloc = rt.alloc();
    Ok(Parts {
        words: words(rt)?,
        crew: crew(alloc, SEATS)?,
        folder: String::from_str(alloc, ".")?,
        journal_a: String::from_str(alloc, "armdeploy.journal")?,
        journal_b: String::from_str(alloc, "armdeploy.journal.b")?,
    })
}

// The words after the program's own name.
fn words<R: Env + Alloc<A = Global>>(rt: &R) -> Result<Vec<String>, AllocError> {
    match env::args(rt) {
        Ok(args) => args.skip(1).collect(rt.alloc()),
        Err(_) => Ok(Vec::new(rt.alloc())),
    }
}

// So many seats over the catalogue.
#[tactic(auto, using(worker_crew::proofs::SeatLemmas::fresh))]
fn crew(alloc: Global, count: u32) -> Result<Vec<Seat<Catalog>>, AllocError>
    ensures { spec.IfOk result (spec.HasSeats count) }
{
    let mut seats = Vec::with_capacity(alloc, count as usize)?;
    for number in 0..count {
        seats.push(Seat::new(Catalog::new(alloc)))?;
    }
    Ok(seats)
}

fn main(rt: HostRuntime) -> ExitCode {
    let mut out = RealOut::new(rt);
    let Ok(parts) = made(&rt) else {
        let _printed = out.write(b"fault memory\n");
        return ExitCode::from(9);
    };
    let mut crew = parts.crew;
    let mut tree = RealTree::new(rt, parts.folder);
    let mut disk = RealDisk::new(rt, parts.journal_a, parts.journal_b);
    let mut link = RealLink::new(rt);
    let ran = run(
        &rt,
        rt.alloc(),
        &parts.words,
        &mut tree,
        &mut disk,
        &mut crew,
        &mut link,
        &mut out,
    );
    ExitCode::from(ran.status)
}
