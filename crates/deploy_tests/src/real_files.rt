// A file as it is deployed, with a mistake, through the whole program.

use crate::first_path::{FIRST, check_said};
use bicep_files::hosts::SITE;
use std::alloc::Global;
use std::sync::Wait;
use std::test::Fail;
use std::thread::Threads;

// Compares the refusal of a file in which a comma is missing between the two parts.
fn check_missing<R: Threads + Wait + Sync>(
    rt: &R,
    alloc: Global,
    (front, back): (&str, &str),
) -> Result<(), Fail> {
    let source = format!(in alloc; "{front} capacity:{back}")?;
    let offset = front.len() + 1;
    let wanted = format!(in alloc; "1 error NotAFile: main.bicep:{offset}\n")?;
    check_said(rt, alloc, (source.as_str(), FIRST, wanted.as_str()))
}

#[test]
fn a_missing_comma_is_refused_with_its_offset(rt: HostRuntime) -> Result<(), Fail> {
    match SITE.split_once(", capacity:") {
        Some(parts) => check_missing(&rt, rt.alloc(), parts),
        None => Err(Fail::from("no such text")),
    }
}
