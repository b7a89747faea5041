// Journals that are written and read.
ghost use Rattle.std.specs.Prelude.{◌≤◌, ◌+◌};

use crate::checks::{check_case, failed};
use crate::real::real_disk;
use arm_edges::{Disk, Failed, Part, RealDisk};
use deploy_journal::{AppendFault, FormatFault, Journal, NotOpened, OpenFault, Record};
use mem_disk::{Contents, MemDisk, Room};
use std::alloc::Global;
use std::fs;
use std::test::Fail;

const ROOM: Room = Room {
    bytes: 1000,
    calls: 1000,
};

// A disk whose part A holds these bytes.
pub(crate) fn disk_of(
    alloc: Global,
    bytes: &[u8],
    cuts: &[usize],
    fails: &[u64],
) -> Result<MemDisk, Fail> {
    let contents = Contents {
        a: bytes.to_vec(alloc)?,
        b: Vec::new(alloc),
    };
    let (cuts, fails) = (cuts.to_vec(alloc)?, fails.to_vec(alloc)?);
    Ok(MemDisk::new(alloc, &contents, cuts, fails, ROOM)?)
}

// The bytes of the worked example of docs/JOURNAL.md.
pub(crate) static EXAMPLE: [u8; 56] = [
    0x61, 0x72, 0x6d, 0x64, 0x65, 0x70, 0x6c, 0x6f, 0x79, 0x2d, 0x6a, 0x72, 0x6e, 0x6c, 0x2d, 0x31,
    0x01, 0x04, 0x00, 0x00, 0x00, 0x00, 0x00, 0x00, 0x00, 0x02, 0x00, 0x00, 0x00, 0x00, 0x00, 0x00,
    0x00, 0x00, 0x7b, 0x7d, 0x01, 0x09, 0x00, 0x00, 0x00, 0x00, 0x00, 0x00, 0x00, 0x00, 0x00, 0x00,
    0x00, 0x00, 0x00, 0x00, 0x00, 0x01, 0x58, 0x00,
];

// Why no journal was opened.
pub(crate) fn fault_of<D: Drop>(refused: NotOpened<D>) -> OpenFault {
    refused.fault
}

// How many records a journal has that was opened.
pub(crate) fn count_of<D: Disk + Drop>(opened: (Journal<D>, Vec<Record>)) -> usize {
    opened.1.len()
}

// The journal on that disk and its records, if there is one.
fn opened<D: Disk + Drop>(
    alloc: Global,
    disk: D,
    limit: u64,
) -> Result<(Journal<D>, Vec<Record>), Fail>
    requires { limit + 4096 ≤ D.reach disk }
{
    match Journal::open(alloc, disk, limit) {
        Ok(opened) => Ok(opened),
        Err(refused) => failed(refused, "not opened"),
    }
}

/// The journal that was opened; its records are dropped.
pub(crate) fn journal_of<D: Disk + Drop>(opened: (Journal<D>, Vec<Record>)) -> Journal<D> {
    opened.0
}

// Adds the two records of the example, and returns the disk.
fn add_two<D: Disk + Drop>(mut journal: Journal<D>) -> Result<D, Fail> {
    let first = journal.append(4, b"{}", b"", false).is_ok();
    let second = journal.append(9, b"", b"X", false).is_ok();
    let disk = journal.into_disk();
    if first && second {
        Ok(disk)
    } else {
        failed(disk, "not added")
    }
}

// Formats a disk and adds the two records of the example.
fn write_example<D: Disk + Drop>(alloc: Global, disk: D) -> Result<D, Fail>
    requires { 4153 ≤ D.reach disk }
{
    let mut disk = disk;
    if Journal::format(&mut disk).is_err() {
        return failed(disk, "not formatted");
    }
    add_two(journal_of(opened(alloc, disk, 56)?))
}

// How many bytes part A of a disk has, whether they are those of the example, and what formatting answers.
fn read_all<D: Disk + Drop>(disk: D) -> (Result<usize, Failed>, bool, Result<(), FormatFault>)
    requires { 17 ≤ D.reach disk }
{
    let mut disk = disk;
    let mut bytes = [7u8; 100];
    let read = disk.read_at(Part::A, 0, &mut bytes);
    let are_same = bytes.get(..56) == Some(EXAMPLE.as_slice());
    (read, are_same, Journal::format(&mut disk))
}

#[test]
fn the_worked_example_is_written(rt: HostRuntime) -> Result<(), Fail> {
    let disk = disk_of(rt.alloc(), b"", &[], &[])?;
    let found = read_all(write_example(rt.alloc(), disk)?);
    assert!(rt; found == (Ok(56), true, Err(FormatFault::NotEmpty(56))));
    Ok(())
}

fn is_record(record: &Record, kind: u8, first: &[u8], second: &[u8]) -> bool {
    record.kind == kind && record.first.as_slice() == first && record.second.as_slice() == second
}

// Whether the records are those of the example.
fn are_of_example(records: &[Record]) -> bool {
    match records {
        [first, second] => is_record(first, 4, b"{}", b"") && is_record(second, 9, b"", b"X"),
        _ => false,
    }
}

// Whether the journal ends after the example, and has its records.
fn is_example<D: Disk + Drop>(opened: (Journal<D>, Vec<Record>)) -> bool {
    opened.0.length == 56 && are_of_example(opened.1.as_slice())
}

#[test]
fn the_worked_example_is_read(rt: HostRuntime) -> Result<(), Fail> {
    for cut in [1, 3, 100] {
        let disk = disk_of(rt.alloc(), &EXAMPLE, &[cut], &[])?;
        let found = is_example(opened(rt.alloc(), disk, 0)?);
        check_case(found, cut as u64, 0)?;
    }
    Ok(())
}

// A record of 74 bytes.
const FIRST: &[u8] = br#"{"group":"g","location":"westeurope","subscription":"s"}"#;

// What the adding of the record answers, how long the journal then is, and how long its file.
type Added = (Result<(), AppendFault>, u64, Result<u64, Failed>);

// Adds the record to a journal.
fn add_first<D: Disk + Drop>(mut journal: Journal<D>, reserve: bool) -> Added {
    let answer = journal.append(1, FIRST, b"", reserve);
    (answer, journal.length, journal.disk.length(Part::A))
}

// Adds the record to an empty journal with this limit.
fn added(alloc: Global, limit: u64, reserve: bool) -> Result<Added, Fail>
    requires { limit ≤ 1000 }
{
    let disk = disk_of(alloc, b"armdeploy-jrnl-1\0", &[], &[])?;
    let journal = journal_of(opened(alloc, disk, limit)?);
    Ok(add_first(journal, reserve))
}

#[test]
fn a_record_fits_exactly_up_to_the_limit(rt: HostRuntime) -> Result<(), Fail> {
    let (length, needed) = (17, 91);
    let full = Err(AppendFault::Full { length, needed });
    let (fits, over) = ((Ok(()), 91, Ok(91)), (full, 17, Ok(17)));
    let two = (added(rt.alloc(), 91, false)?, added(rt.alloc(), 90, false)?);
    let more = (added(rt.alloc(), 90, true)?, added(rt.alloc(), 0, false)?);
    assert!(rt; (two, more) == ((fits, over), (fits, over)));
    Ok(())
}

// How many records a journal has, to which one more is added.
fn add_one<D: Disk + Drop>(opened: (Journal<D>, Vec<Record>)) -> Option<usize> {
    let (mut journal, records) = opened;
    match journal.append(4, b"{}", b"", false) {
        Ok(()) => Some(records.len()),
        Err(_) => None,
    }
}

// Formats a disk, and opens and extends its journal three times.
fn extend(
    alloc: Global,
    mut disk: RealDisk<HostRuntime>,
) -> Result<(Option<usize>, Option<usize>, Option<usize>), Fail> {
    if Journal::format(&mut disk).is_err() {
        return failed(disk, "not formatted");
    }
    let first = add_one(opened(alloc, &mut disk, 100)?);
    let second = add_one(opened(alloc, &mut disk, 100)?);
    Ok((first, second, add_one(opened(alloc, disk, 100)?)))
}

#[test]
fn a_journal_is_kept_in_real_files(rt: HostRuntime) -> Result<(), Fail> {
    let (a, b) = ("edge_tests-journal", "edge_tests-journal.b");
    let disk = real_disk(rt, rt.alloc(), (a, b))?;
    let counts = extend(rt.alloc(), disk)?;
    assert!(rt; counts == (Some(0), Some(1), Some(2)));
    fs::remove_file(&rt, a)?;
    Ok(())
}
