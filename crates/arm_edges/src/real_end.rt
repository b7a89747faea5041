// A connection over TCP.
ghost use Rattle.std.specs.Prelude.{◌≡◌, false, [], refl};
ghost use Rattle.arm_edges.specs.Ends.{comes_in, goes_out};

use crate::faults::{counted, written};
use crate::{Connection, Failed, Sink, Source};
use std::io::Read;
use std::net::TcpStream;

/// A connection over TCP. It does not report what is read and written.
#[derive(Drop)]
pub struct RealEnd {
    stream: TcpStream,
    read_faults: u64,
    write_faults: u64,
}

impl RealEnd {
    pub(crate) fn new(stream: TcpStream) -> RealEnd
        ensures reads { result.read_faults ≡ 0 }
        ensures writes { result.write_faults ≡ 0 }
    {
        RealEnd {
            stream,
            read_faults: 0,
            write_faults: 0,
        }
    }
}

impl Source for RealEnd {
    ghost tells_rest = { false };

    ghost rest = { λ _. [] };

    ghost received = { λ _. [] };

    ghost outgoing = { λ end. goes_out [] end.write_faults };

    ghost faults = { λ end. end.read_faults };

    fn read(&mut self, buf: &mut [u8]) -> Result<usize, Failed> {
        let answer = self.stream.read(buf);
        counted(&mut self.read_faults, answer)
    }
}

impl Sink for RealEnd {
    ghost tells_written = { false };

    ghost written = { λ _. [] };

    ghost incoming = { λ end. comes_in [] [] end.read_faults };

    ghost faults = { λ end. end.write_faults };

    fn write(&mut self, bytes: &[u8]) -> Result<usize, Failed> {
        written(&mut self.stream, bytes, &mut self.write_faults)
    }
}

impl Connection for RealEnd {
    ghost sends = { λ end. refl };

    ghost receives = { λ end. refl };
}
