// A link over TCP.
ghost use Rattle.std.specs.Prelude.{◌≡◌, false, [], None};

use crate::faults::counted;
use crate::{Failed, Link, RealEnd};
use std::io;
use std::io::ErrorKind;
use std::net::{Ipv4Addr, Net, TcpListener, TcpStream};

/// TCP on the loopback address 127.0.0.1. It does not report what its connections came to.
#[derive(Drop)]
pub struct RealLink<R: Net<Listener = TcpListener, Stream = TcpStream> + Drop> {
    rt: R,
    listener: Option<TcpListener>,
    faults: u64,
}

impl<R: Net<Listener = TcpListener, Stream = TcpStream> + Drop> RealLink<R> {
    /// How often a call has failed, up to 2^64 - 1.
    pub fn faults(&self) -> u64
        ensures { result ≡ self.now.faults }
    {
        self.faults
    }

    /// A link over that runtime, which takes no connections yet.
    pub fn new(rt: R) -> RealLink<R>
        ensures { result.faults ≡ 0 }
    {
        RealLink {
            rt,
            listener: None,
            faults: 0,
        }
    }

    /// The port on which it takes connections, where it takes any: that of the last `listen`, or the port that the
    /// system gave it for port 0.
    pub fn port(&self) -> Option<u16>
        ensures { self.now.listener ≡ None → result ≡ None }
    {
        match self.listener.as_ref()?.local_addr() {
            Ok(address) => Some(address.port()),
            Err(_) => None,
        }
    }

    fn accepted(&self) -> io::Result<TcpStream> {
        match &self.listener {
            Some(listener) => Ok(listener.accept()?.0),
            None => Err(io::Error::from(ErrorKind::NotConnected)),
        }
    }
}

impl<R: Net<Listener = TcpListener, Stream = TcpStream> + Drop> Link for RealLink<R> {
    type End = RealEnd;

    ghost tells_finished = { false };

    ghost finished = { λ _. [] };

    ghost faults = { λ l. l.faults };

    ghost ends_tell = { λ reported. Prim.cc };

    fn listen(&mut self, port: u16) -> Result<(), Failed> {
        let bound = TcpListener::bind(&self.rt, (Ipv4Addr::LOCALHOST, port));
        self.listener = Some(counted(&mut self.faults, bound)?);
        Ok(())
    }

    fn accept(&mut self) -> Result<RealEnd, Failed> {
        let answer = self.accepted();
        let stream = counted(&mut self.faults, answer)?;
        Ok(RealEnd::new(stream))
    }

    fn finish(&mut self, _end: RealEnd) {}
}
