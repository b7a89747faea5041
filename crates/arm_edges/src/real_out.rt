// Standard output.
ghost use Rattle.std.specs.Prelude.{◌≡◌, false, []};
ghost use Rattle.arm_edges.specs.Ends.{nothing_in};

use crate::faults::written;
use crate::{Failed, Sink};
use std::io;

/// Standard output. It does not report what was written.
#[derive(Drop)]
pub struct RealOut<R: Print + Drop> {
    rt: R,
    faults: u64,
}

impl<R: Print + Drop> RealOut<R> {
    /// How often a call has failed, up to 2^64 - 1.
    pub fn faults(&self) -> u64
        ensures { result ≡ self.now.faults }
    {
        self.faults
    }

    /// The standard output of that runtime.
    pub fn new(rt: R) -> RealOut<R>
        ensures { result.faults ≡ 0 }
    {
        RealOut { rt, faults: 0 }
    }
}

impl<R: Print + Drop> Sink for RealOut<R> {
    ghost tells_written = { false };

    ghost written = { λ _. [] };

    ghost incoming = { λ _. nothing_in };

    ghost faults = { λ o. o.faults };

    fn write(&mut self, bytes: &[u8]) -> Result<usize, Failed> {
        written(&mut io::writer(&self.rt), bytes, &mut self.faults)
    }
}
