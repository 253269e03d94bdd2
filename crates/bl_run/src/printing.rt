// Puts a long text into a sink, without holding it whole.
ghost use Rattle.bl_run.specs.Printing.{Puts, PutsLater};

use bl_commands::Ending;
use bl_shelf::{Sink, SinkFault};

// How many bytes are gathered before they are put.
const MOST_PENDING: usize = 1 << 16;

/// Puts bytes.
pub fn put<O: Sink>(bytes: &[u8], out: &mut O) -> Result<(), Ending>
    ensures puts { Puts O.Sink out.old out.new bytes.now result }
{
    match out.put(bytes) {
        Ok(()) => Ok(()),
        Err(SinkFault::Failed) => Err(Ending::Sink),
        Err(SinkFault::NoMemory) => Err(Ending::NoMemory),
    }
}

/// Adds a line to a text that is being put. It is held back until enough has been gathered.
pub fn add_line<O: Sink>(line: &[u8], pending: &mut Vec<u8>, out: &mut O) -> Result<(), Ending>
    ensures puts { PutsLater O.Sink out.old out.new pending.old.items pending.new.items line.now result }
{
    pending.extend_from_slice(line)?;
    if pending.len() < MOST_PENDING {
        return Ok(());
    }
    put(pending, out)?;
    pending.clear();
    Ok(())
}
