// Calls of the tree and of the output that fail.

use crate::examples::STORAGE;
use crate::rows::{Failing, check_run};
use std::alloc::Global;
use std::sync::Wait;
use std::test::Fail;
use std::thread::Threads;

const WORDS: &str = "deploy main.bicep --group g --name first";

// The files and the words of a deployment with a module and a parameter file: three calls of the tree.
const THREE: &str = r#"module m 'm.bicep' = {
}
--- m.bicep
output o int = 1
--- p.json
{"parameters":{}}"#;

const WITH_FILE: &str = "deploy main.bicep --group g --name first --parameters p.json";

// Compares what is printed where the call of this number of the tree fails.
fn check_tree<R: Threads + Wait + Sync>(
    rt: &R,
    alloc: Global,
    (words, files): (&str, &str),
    call: u64,
    wanted: &str,
) -> Result<(), Fail> {
    let failing = Failing {
        tree: &[call],
        out: &[],
    };
    check_run(rt, alloc, (words, files, wanted), failing)
}

#[test]
fn each_call_of_the_tree_is_told(rt: HostRuntime) -> Result<(), Fail> {
    for call in 0..3 {
        check_tree(&rt, rt.alloc(), (WITH_FILE, THREE), call, "4 fault tree")?;
    }
    check_tree(&rt, rt.alloc(), (WITH_FILE, THREE), 3, "0 Succeeded first")
}

// The status, and what is printed of the storage account.
const WHOLE: &str = "0 Succeeded first\nblob=\"https://stve2cs42otwiw2.blob.core.windows.net/\"";

#[test]
fn a_file_that_is_read_once_is_one_call(rt: HostRuntime) -> Result<(), Fail> {
    check_tree(&rt, rt.alloc(), (WORDS, STORAGE), 0, "4 fault tree")?;
    check_tree(&rt, rt.alloc(), (WORDS, STORAGE), 1, WHOLE)
}

// Compares what is printed of a deployment where the call of this number of the output fails.
fn check_out<R: Threads + Wait + Sync>(
    rt: &R,
    alloc: Global,
    call: u64,
    wanted: &str,
) -> Result<(), Fail> {
    let failing = Failing {
        tree: &[],
        out: &[call],
    };
    check_run(rt, alloc, (WORDS, STORAGE, wanted), failing)
}

// What is printed of the storage account: 70 bytes, in ten calls of seven.
const PRINTED: &str = "Succeeded first\nblob=\"https://stve2cs42otwiw2.blob.core.windows.net/\"\n";

// Compares what is printed where the call of this number of the output fails: what the calls before it took.
fn check_cut<R: Threads + Wait + Sync>(rt: &R, alloc: Global, call: u64) -> Result<(), Fail> {
    let taken = call.saturating_mul(7) as usize;
    let begun = PRINTED.get(..taken).unwrap_or("none");
    let wanted = format!(in alloc; "5 {begun}")?;
    check_out(rt, alloc, call, wanted.as_str())
}

#[test]
fn each_call_of_the_output_is_told(rt: HostRuntime) -> Result<(), Fail> {
    for call in 0..10 {
        check_cut(&rt, rt.alloc(), call)?;
    }
    check_out(&rt, rt.alloc(), 10, WHOLE)
}
