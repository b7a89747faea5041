// A request over a socket, and its reply.
use crate::writing::{bytes_of, compare, letting_go, text_of};
use arm_edges::{Connection, Link, RealLink, Sink};
use arm_value::{Bytes, Text};
use deploy_http::{Ask, Code, HttpFault, Reply, Request, read_request, write_reply};
use std::alloc::Global;
use std::io::{Read, Write};
use std::net::{Ipv4Addr, Net, TcpStream};
use std::test::Fail;

const REQUEST: &str =
    "GET /subscriptions/s/resourceGroups/x?api-version=2021-04-01 HTTP/1.1|host: a||";

const REPLY: &str = "\
HTTP/1.1 404 Not Found\r\ncontent-type: application/json\r\ncontent-length: 56\r\n\r\n\
{\"error\":{\"code\":\"ResourceGroupNotFound\",\"message\":\"x\"}}";

// The group that the request asks for.
fn group_of(alloc: Global, request: &Request) -> Result<Text, Fail> {
    match &request.ask {
        Ask::GetGroup(at) => Ok(at.group.copy(alloc)?),
        _ => Err(Fail::from("another request")),
    }
}

// Replies that the group of the request is not there.
fn reply_to<E: Sink>(alloc: Global, end: &mut E, request: &Request) -> Result<(), Fail> {
    let group = group_of(alloc, request)?;
    let reply = Reply::refused(alloc, Code::ResourceGroupNotFound(group))?;
    match letting_go(write_reply(alloc, end, &reply, request.close), reply) {
        Ok(()) => Ok(()),
        Err(_) => Err(Fail::from("no reply")),
    }
}

// Reads a request for a group, and replies that it is not there.
fn serve<E: Connection>(alloc: Global, end: &mut E) -> Result<(), Fail> {
    let mut rest = Bytes::from_vec(Vec::new(alloc));
    let answer = read_request(alloc, end, &mut rest);
    reply_after(alloc, end, answer)
}

// Replies to what was read.
fn reply_after<E: Sink>(
    alloc: Global,
    end: &mut E,
    answer: Result<Option<Request>, HttpFault>,
) -> Result<(), Fail> {
    match answer {
        Ok(Some(request)) => letting_go(reply_to(alloc, end, &request), request),
        Ok(None) => Err(Fail::from("no request")),
        Err(_) => Err(Fail::from("a fault")),
    }
}

// Sends the request.
fn send<W: Write>(alloc: Global, client: &mut W) -> Result<(), Fail> {
    let request = bytes_of(alloc, REQUEST)?;
    Ok(client.write_all(request.as_slice())?)
}

// A client that has sent the request to this port.
fn client_of<R: Net<Stream = TcpStream>>(
    rt: &R,
    alloc: Global,
    port: Option<u16>,
) -> Result<TcpStream, Fail> {
    let port = port.ok_or("no port")?;
    sent_by(alloc, TcpStream::connect(rt, (Ipv4Addr::LOCALHOST, port))?)
}

// The client, which has sent the request.
fn sent_by(alloc: Global, client: TcpStream) -> Result<TcpStream, Fail> {
    let mut client = client;
    match send(alloc, &mut client) {
        Ok(()) => Ok(client),
        Err(fail) => letting_go(Err(fail), client),
    }
}

// Compares all that the client receives with the reply.
fn check_received<S: Read + Drop>(alloc: Global, client: S) -> Result<(), Fail> {
    let mut client = client;
    let mut reply = Vec::new(alloc);
    client.read_to_end(&mut reply)?;
    compare("the reply", text_of(reply.as_slice()), REPLY)
}

// Accepts a connection, and serves it.
fn serve_next<L: Link>(alloc: Global, link: &mut L) -> Result<(), Fail>
where
    L::End: Connection,
{
    let mut end = link.accept()?;
    let served = serve(alloc, &mut end);
    link.finish(end);
    served
}

// Sends the request over the link, serves it, and compares the reply.
fn check_served(rt: &HostRuntime, link: &mut RealLink<HostRuntime>) -> Result<(), Fail> {
    link.listen(0)?;
    let client = client_of(rt, rt.alloc(), link.port())?;
    match serve_next(rt.alloc(), link) {
        Ok(()) => check_received(rt.alloc(), client),
        Err(fail) => letting_go(Err(fail), client),
    }
}

#[test]
fn a_request_comes_over_a_socket(rt: HostRuntime) -> Result<(), Fail> {
    let mut link = RealLink::new(rt);
    letting_go(check_served(&rt, &mut link), link)
}
