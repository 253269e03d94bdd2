// A sink in memory, some of whose calls fail.
ghost use Rattle.std.specs.Prelude.{Some};

use crate::meter::Meter;
use crate::{Sink, SinkFault};
use std::alloc::Global;

/// A sink in memory. Its calls fail where it is told, and for want of memory.
#[derive(Drop)]
pub struct MemorySink {
    bytes: Vec<u8>,
    meter: Meter,
}

impl MemorySink {
    ghost use Rattle.std.specs.Prelude.{◌≡◌, []};
    ghost use Rattle.bl_shelf.specs.MemorySink.{bytes_put, sink_fails, sink_calls, sink_faults};

    /// The calls of `put` whose numbers are in the list fail. They are counted from 0.
    pub fn new(alloc: Global, fails: Vec<u64>) -> Self
        ensures bytes { bytes_put result ≡ [] }
        ensures fails { sink_fails result ≡ fails.items }
        ensures calls { sink_calls result ≡ 0 }
        ensures faults { sink_faults result ≡ 0 }
    {
        MemorySink {
            bytes: Vec::new(alloc),
            meter: Meter::new(fails),
        }
    }

    /// The bytes that were put.
    pub fn bytes(&self) -> &[u8]
        ensures { result.now ≡ bytes_put self.now }
    {
        &self.bytes
    }
}

impl Sink for MemorySink {
    ghost use Rattle.std.specs.Prelude.{◌≡◌, ◌↔◌, ◌++◌, IsErrOf, OnOk, OnErr};
    ghost use Rattle.bl_shelf.specs.Causes.{HasSinkCause};
    ghost use Rattle.bl_shelf.specs.MemorySink.{bytes_put, sink_faults, IsSinkDue, CountsPut};

    ghost written = { λ s. Some (bytes_put s) };

    ghost faults = { λ s. sink_faults s };

    fn put(&mut self, bytes: &[u8]) -> Result<(), SinkFault>
        ensures ok { OnOk result (bytes_put self.new ≡ bytes_put self.old ++ bytes.now) }
        ensures err { OnErr result (bytes_put self.new ≡ bytes_put self.old) }
        ensures failed { IsErrOf result SinkFault.Failed ↔ IsSinkDue self.old }
        ensures counts { CountsPut self.old self.new result }
        ensures cause { HasSinkCause (sink_faults self.old) (sink_faults self.new) result }
    {
        if self.meter.is_due() {
            self.meter.fail();
            return Err(SinkFault::Failed);
        }
        self.bytes.extend_from_slice(bytes)?;
        Ok(())
    }
}
