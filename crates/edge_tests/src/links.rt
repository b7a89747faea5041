// Links in memory and over TCP, and their connections.
ghost use Rattle.std.specs.Prelude.{◌≡◌, ◌≤◌, true, ◌++◌, length, take, IfOk};

use crate::checks::failed;
use arm_edges::{Calls, Connection, Failed, Link, MemConnection, MemEnd, MemLink, RealLink};
use std::alloc::Global;
use std::io;
use std::io::{Read, Write};
use std::net::{Ipv4Addr, Net, TcpStream};
use std::test::Fail;

// Reads one piece from a connection, and writes it back. Returns how many bytes it read, and how many it wrote.
fn echo<E: Connection>(end: &mut E, buf: &mut [u8]) -> Result<(usize, usize), Failed>
    ensures received { IfOk result (λ counts. E.tells_rest ≡ true
        → E.received end.new ≡ E.received end.old ++ take counts.0 buf.new) }
    ensures written { IfOk result (λ counts. E.tells_written ≡ true
        → E.written end.new ≡ E.written end.old ++ take counts.1 (take counts.0 buf.new)) }
    ensures fits { IfOk result (λ counts. counts.0 ≤ length buf.old) }
{
    let received = end.read(buf)?;
    let written = end.write(&buf[..received])?;
    Ok((received, written))
}

// No calls fail, and each moves any number of bytes.
fn steady(alloc: Global) -> Calls {
    Calls::new(Vec::new(alloc), Vec::new(alloc))
}

// A connection on which these bytes come in, with room for as many.
fn sending(alloc: Global, bytes: &[u8]) -> Result<MemConnection, Fail> {
    let (reads, writes) = (steady(alloc), steady(alloc));
    let sent = bytes.to_vec(alloc)?;
    Ok(MemConnection::new(alloc, sent, reads, writes, bytes.len())?)
}

// A link on which two connections come in; its second call fails.
fn two_connections(alloc: Global) -> Result<MemLink, Fail> {
    let mut connections = Vec::new(alloc);
    connections.push(sending(alloc, b"one")?)?;
    connections.push(sending(alloc, b"second")?)?;
    Ok(MemLink::new(alloc, connections, [1].to_vec(alloc)?))
}

// Accepts a connection, echoes one piece of at most four bytes, and finishes it.
fn serve<L: Link>(link: &mut L) -> Result<(usize, usize), Failed> {
    let mut end = link.accept()?;
    let mut buf = [0u8; 4];
    let counts = echo(&mut end, &mut buf)?;
    link.finish(end);
    Ok(counts)
}

#[test]
fn a_link_gives_its_connections_in_order(rt: HostRuntime) -> Result<(), Fail> {
    let mut link = two_connections(rt.alloc())?;
    let first = (link.listen(80), serve(&mut link));
    let two = (serve(&mut link), serve(&mut link));
    let last = (serve(&mut link), link.calls.made, link.calls.faults);
    assert!(rt; (first, two) == ((Ok(()), Err(Failed)), (Ok((3, 3)), Ok((4, 4)))));
    assert!(rt; last == (Err(Failed), 5, 2));
    Ok(())
}

// Whether the connection that was finished last received these bytes and was sent as many.
fn is_last(link: &mut MemLink, bytes: &[u8]) -> bool {
    match link.take_last() {
        Some(exchange) => exchange.received.as_slice() == bytes
            && exchange.written.as_slice() == bytes,
        None => false,
    }
}

#[test]
fn a_link_lists_what_was_read_and_written(rt: HostRuntime) -> Result<(), Fail> {
    let mut link = two_connections(rt.alloc())?;
    let served = (serve(&mut link), serve(&mut link), serve(&mut link));
    let last = (is_last(&mut link, b"seco"), is_last(&mut link, b"one"));
    let found = (served, last, link.take_last().is_none());
    assert!(rt; found == ((Ok((3, 3)), Err(Failed), Ok((4, 4))), (true, true), true));
    Ok(())
}

// A connection on which three bytes come in two at a time, with room for two; the second read fails.
fn two_bytes_of_room(alloc: Global) -> Result<MemEnd, Fail> {
    let reads = Calls::new([2].to_vec(alloc)?, [1].to_vec(alloc)?);
    Ok(MemEnd::new(alloc, b"abc".to_vec(alloc)?, reads, steady(alloc), 2)?)
}

#[test]
fn a_connection_counts_its_reads_and_writes_apart(rt: HostRuntime) -> Result<(), Fail> {
    let mut end = two_bytes_of_room(rt.alloc())?;
    let mut buf = [0u8; 4];
    let first = echo(&mut end, &mut buf);
    let more = (echo(&mut end, &mut buf), echo(&mut end, &mut buf));
    let faults = (end.source.calls.faults, end.sink.calls.faults);
    assert!(rt; (first, more) == (Ok((2, 2)), (Err(Failed), Err(Failed))));
    assert!(rt; faults == (1, 1) && end.sink.as_slice() == b"ab".as_slice());
    Ok(())
}

// A client of a link that listens, which has sent four bytes.
fn ping<R: Net<Stream = TcpStream>>(rt: &R, port: Option<u16>) -> Result<TcpStream, Fail> {
    let port = port.ok_or("no port")?;
    let mut client = TcpStream::connect(rt, (Ipv4Addr::LOCALHOST, port))?;
    match client.write_all(b"ping") {
        Ok(()) => Ok(client),
        Err(error) => failed((client, error), "not sent"),
    }
}

// How many bytes the client reads, and how many after these, and the first of them.
fn answered<S: Read + Drop>(client: S) -> io::Result<(usize, usize, [u8; 4])> {
    let mut client = client;
    let (mut buf, mut more) = ([0u8; 4], [0u8; 4]);
    let count = client.read(&mut buf)?;
    Ok((count, client.read(&mut more)?, buf))
}

#[test]
fn a_real_link_serves_a_client(rt: HostRuntime) -> Result<(), Fail> {
    let mut link = RealLink::new(rt);
    let early = (serve(&mut link), link.listen(0));
    let client = ping(&rt, link.port())?;
    let served = (serve(&mut link), link.faults());
    assert!(rt; (early, served) == ((Err(Failed), Ok(())), (Ok((4, 4)), 1)));
    let answer = answered(client)?;
    assert!(rt; answer == (4, 0, *b"ping"));
    Ok(())
}
