// Sources and sinks in memory, and the standard output.
use arm_edges::{Failed, MemSink, MemSource, RealOut, Sink, Source};
use std::alloc::{AllocError, Global};
use std::test::Fail;

// Six letters, which come two and then three at most; the second read fails.
fn letters(alloc: Global) -> Result<MemSource, AllocError> {
    let cuts = [2, 3].to_vec(alloc)?;
    let fails = [1].to_vec(alloc)?;
    Ok(MemSource::new(b"abcdef".to_vec(alloc)?, cuts, fails))
}

// What five reads answer, and what the third of them gives.
fn reads<S: Source + Drop>(source: S) -> ([Result<usize, Failed>; 5], [u8; 4]) {
    let mut source = source;
    let (mut buf, mut other) = ([0u8; 4], [0u8; 4]);
    let (first, second) = (source.read(&mut other), source.read(&mut other));
    let third = source.read(&mut buf);
    let (fourth, last) = (source.read(&mut other), source.read(&mut other));
    ([first, second, third, fourth, last], buf)
}

#[test]
fn a_source_gives_its_bytes_by_the_cuts(rt: HostRuntime) -> Result<(), Fail> {
    let counts = [Ok(2), Err(Failed), Ok(3), Ok(1), Ok(0)];
    assert!(rt; reads(letters(rt.alloc())?) == (counts, *b"cde\0"));
    Ok(())
}

#[test]
fn a_sink_takes_bytes_by_the_cuts_up_to_its_room(rt: HostRuntime) -> Result<(), Fail> {
    let alloc = rt.alloc();
    let mut sink = MemSink::new(alloc, [4, 1].to_vec(alloc)?, Vec::new(alloc), 5)?;
    let two = (sink.write(b"abcdef"), sink.write(b"ef"));
    let counts = (two, sink.write(b"f"), sink.write(b""));
    assert!(rt;
        counts == ((Ok(4), Ok(1)), Err(Failed), Ok(0)) && sink.as_slice() == b"abcde".as_slice()
    );
    Ok(())
}

#[test]
fn standard_output_takes_bytes(rt: HostRuntime) {
    let mut out = RealOut::new(rt);
    assert!(rt; (out.write(b"standard output\n"), out.faults()) == (Ok(16), 0));
}
