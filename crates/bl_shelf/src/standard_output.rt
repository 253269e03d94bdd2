// Standard output as a sink.
ghost use Rattle.std.specs.Prelude.{◌≡◌, None};

use crate::{Sink, SinkFault};
use std::io::Print;

/// Standard output. It takes the bytes as they are, without a buffer.
#[derive(Drop)]
pub struct StdoutSink<R: Print + Drop> {
    host: R,
    faults: u64,
}

impl<R: Print + Drop> StdoutSink<R> {
    /// The standard output of the host; no put has failed.
    pub fn new(host: R) -> Self
        ensures { ⟦<StdoutSink<R> as Sink>⟧.faults result ≡ 0 }
    {
        StdoutSink { host, faults: 0 }
    }
}

impl<R: Print + Drop> Sink for StdoutSink<R> {
    ghost written = { λ s. None };

    ghost faults = { λ s. s.faults };

    fn put(&mut self, bytes: &[u8]) -> Result<(), SinkFault> {
        match self.host.write_all(bytes) {
            Ok(()) => Ok(()),
            Err(_) => {
                self.faults = self.faults.saturating_add(1);
                Err(SinkFault::Failed)
            }
        }
    }
}
