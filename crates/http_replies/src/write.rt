// A reply as it goes over a connection.

ghost use Rattle.std.specs.Prelude.{◌≡◌, ◌++◌, codes, length, decimal, string_bytes, IfOk};
ghost use Rattle.arm_value.specs.View.{json};
ghost use Rattle.http_replies.specs.ReplyBytes.{connection_field, head_of, reply_bytes};
ghost use Rattle.http_replies.specs.Sent.{WriteCause, Wrote};

use crate::phrase::phrase;
use crate::reply::Reply;
use crate::sending::send_all;
use arm_edges::Sink;
use arm_value::OutOfMemory;
use std::alloc::{AllocError, Global};
use thiserror::Error;

/// Why a reply was not written whole.
#[derive(Clone, Copy, Debug, Error, PartialEq, Eq)]
pub enum WriteFault {
    /// The sink failed, after a beginning of the reply.
    #[error("a write failed")]
    Fault,
    /// Out of memory. Nothing was written.
    #[error("out of memory")]
    OutOfMemory,
}

impl From<AllocError> for WriteFault {
    ghost use Rattle.std.specs.Prelude.{◌≡◌};
    ghost use Rattle.http_replies.specs.declared.write.WriteFault.TheVariants.{OutOfMemory};

    ghost from_gives = { λ _ e. e ≡ OutOfMemory };

    fn from(_refused: AllocError) -> WriteFault {
        WriteFault::OutOfMemory
    }
}

/// Writes the reply: the status line, the headers, and the body as compact JSON. `close` says that the connection is
/// closed after it.
pub fn write_reply<S: Sink>(
    alloc: Global,
    sink: &mut S,
    reply: &Reply,
    close: bool,
) -> Result<(), WriteFault>
    ensures wrote { Wrote S.tells_written (S.written sink.old) (S.written sink.new)
        (reply_bytes reply.now.status (json reply.now.body) close) result }
    ensures apart { S.incoming sink.new ≡ S.incoming sink.old }
    ensures cause { WriteCause (S.faults sink.old) (S.faults sink.new) result }
{
    let bytes = bytes_of(alloc, reply, close)?;
    match send_all(sink, bytes.as_slice()) {
        Ok(()) => Ok(()),
        Err(_) => Err(WriteFault::Fault),
    }
}

// The bytes of the reply.
fn bytes_of(alloc: Global, reply: &Reply, close: bool) -> Result<Vec<u8>, OutOfMemory>
    ensures { IfOk result (λ bytes. bytes.items
        ≡ reply_bytes reply.now.status (json reply.now.body) close) }
{
    let body = reply.body.to_json(alloc)?;
    let head = head(alloc, reply.status, body.as_slice().len(), close)?;
    let mut bytes = head.into_bytes();
    bytes.extend_from_slice(body.as_slice())?;
    Ok(bytes)
}

// The status line and the headers, for a body of so many bytes.
fn head(alloc: Global, status: u16, length: usize, close: bool) -> Result<String, OutOfMemory>
    ensures { IfOk result (λ text. string_bytes text ≡ head_of status length close) }
{
    let phrase = phrase(status);
    let connection = connection_field(close);
    format!(in alloc;
        "HTTP/1.1 {status} {phrase}\r\ncontent-type: application/json\r\ncontent-length: {length}\r\n{connection}\r\n"
    )
}

// The header that says that the connection is closed, where it is.
fn connection_field(close: bool) -> &'static str
    ensures { result.now ≡ connection_field close }
{
    if close { "connection: close\r\n" } else { "" }
}
