// Bytes of an output that are held back until there are enough for a push.
ghost use Rattle.std.specs.Prelude.{◌≡◌, ◌≤◌, ◌+◌, [], length, take, Some, option_map, IfOk, OnOk, OnErr};
ghost use Rattle.bl_shelf.specs.Calls.{Counts};
ghost use Rattle.bl_shelf.specs.Told.{push_in};
ghost use Rattle.bl_writer.specs.Calls.{Pushes};
ghost use Rattle.bl_writer.specs.Rendering.{Adds, CanAdd, HasAdded, Takes, pending};

use bl_shelf::{Shelf, ShelfFault};
use std::alloc::Global;

/// The bytes of an output that aren't pushed yet.
#[derive(Drop)]
pub struct OutBuffer {
    pub bytes: Vec<u8>,
    /// How many of the bytes are held back, from the first one on.
    pub filled: usize,
}

/// A buffer of so many bytes, in which nothing is held back.
pub fn new_buffer(alloc: Global, len: usize) -> Result<OutBuffer, ShelfFault>
    ensures empty { IfOk result (λ buffer. buffer.filled ≡ 0) }
    ensures long { IfOk result (λ buffer. length buffer.bytes.items ≡ len) }
    ensures fault { OnErr result (result ≡ Err ShelfFault.NoMemory) }
{
    let bytes = vec![in alloc; 0; len]?;
    Ok(OutBuffer { bytes, filled: 0 })
}

/// Pushes the bytes that are held back unless `len` more fit behind them. Says how many are held
/// back then.
pub fn make_room<S: Shelf>(
    buffer: &OutBuffer,
    shelf: &mut S,
    len: usize,
) -> Result<usize, ShelfFault>
    requires can { CanAdd S.Shelf shelf.old buffer.now len 0 }
    ensures fits { IfOk result (λ at. at + len ≤ length buffer.now.bytes.items) }
    ensures adds { IfOk result (λ at. Adds (S.told shelf.old) (pending buffer.now) []
        (S.told shelf.new) (take at buffer.now.bytes.items)) }
    ensures room { IfOk result (λ at.
        Takes (S.room shelf.old) buffer.now.filled 0 (S.room shelf.new) at) }
    ensures pushes { Pushes S.Shelf shelf.old shelf.new }
    ensures cause { Counts S.Shelf shelf.old shelf.new result }
    ensures fault { OnErr result (result ≡ Err ShelfFault.Failed) }
{
    if len <= buffer.bytes.len() - buffer.filled {
        return Ok(buffer.filled);
    }
    shelf.push(&buffer.bytes[..buffer.filled])?;
    Ok(0)
}

/// Adds bytes that fit the buffer.
pub fn add_bytes<S: Shelf>(
    bytes: &[u8],
    shelf: &mut S,
    buffer: &mut OutBuffer,
) -> Result<(), ShelfFault>
    requires can { CanAdd S.Shelf shelf.old buffer.old (length bytes.now) (length bytes.now) }
    ensures adds { OnOk result (Adds (S.told shelf.old) (pending buffer.old) bytes.now
        (S.told shelf.new) (pending buffer.new)) }
    ensures added { OnOk result
        (HasAdded S.Shelf shelf.old shelf.new buffer.old buffer.new (length bytes.now)) }
    ensures pushes { Pushes S.Shelf shelf.old shelf.new }
    ensures cause { Counts S.Shelf shelf.old shelf.new result }
    ensures fault { OnErr result (result ≡ Err ShelfFault.Failed) }
{
    let at = make_room(buffer, shelf, bytes.len())?;
    let (_, rest) = buffer.bytes.as_mut_slice().split_at_mut(at);
    let (own, _) = rest.split_at_mut(bytes.len());
    own.copy_from_slice(bytes);
    buffer.filled = at + bytes.len();
    Ok(())
}

/// Pushes all that is held back, for which there is just room.
pub fn push_last<S: Shelf>(buffer: &OutBuffer, shelf: &mut S) -> Result<(), ShelfFault>
    requires filled { buffer.now.filled ≤ length buffer.now.bytes.items }
    requires room { S.room shelf.old ≡ Some buffer.now.filled }
    ensures pushed { OnOk result
        (S.told shelf.new ≡ option_map (push_in (pending buffer.now)) (S.told shelf.old)) }
    ensures room { OnOk result (S.room shelf.new ≡ Some 0) }
    ensures pushes { Pushes S.Shelf shelf.old shelf.new }
    ensures cause { Counts S.Shelf shelf.old shelf.new result }
    ensures fault { OnErr result (result ≡ Err ShelfFault.Failed) }
{
    let held_back = &buffer.bytes[..buffer.filled];
    shelf.push(held_back)
}
