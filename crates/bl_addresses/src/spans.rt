ghost use Rattle.std.specs.Prelude.{◌<◌, ◌^◌, length};

use crate::marks::Row;
use bl_num::NoMemory;
use std::alloc::Global;

// How many bits of an address choose among buckets, at most.
const MOST_BITS: u32 = 22;

/// Where rows up to a place are guessed to end in an order: from one row to before another.
/// Whoever uses a guess tests it.
#[derive(Clone, Copy)]
pub struct Span {
    pub from: usize,
    pub to: usize,
}

/// Where sorted rows are guessed to stand by their addresses. The range of these is cut into
/// buckets of one size, of which there are at most as many as rows.
#[derive(Drop)]
pub struct Buckets {
    // The address at which the first bucket begins.
    lowest: u64,
    // The bits of an address that don't choose a bucket.
    shift: u32,
    // The first row of each bucket or, where a bucket has none, of those behind.
    starts: Vec<u32>,
}

impl Buckets {
    /// The buckets of rows that are sorted by address.
    pub fn new(alloc: Global, rows: &[Row]) -> Result<Buckets, NoMemory> {
        let mut buckets = Buckets {
            lowest: address_of(rows.first()),
            shift: shift_of(rows),
            starts: Vec::with_capacity(alloc, rows.len())?,
        };
        for (n, row) in rows.iter().enumerate() {
            let end = buckets.bucket_of(row.address).saturating_add(1);
            buckets
                .starts
                .resize(end, u32::try_from(n).unwrap_or(u32::MAX))?;
        }
        Ok(buckets)
    }

    /// Where an address is guessed to stand among so many rows.
    pub fn span_of(&self, address: u64, len: usize) -> Span {
        if address < self.lowest {
            return Span { from: 0, to: 0 };
        }
        span_of(&self.starts, self.bucket_of(address), len)
    }

    // The bucket of an address that isn't before the first one.
    fn bucket_of(&self, address: u64) -> usize {
        address.saturating_sub(self.lowest).wrapping_shr(self.shift) as usize
    }
}

// The bits that are left out of the addresses of sorted rows, so that at most as many buckets are
// left as rows.
fn shift_of(rows: &[Row]) -> u32 {
    let range = address_of(rows.last()).saturating_sub(address_of(rows.first()));
    let bits = 64 - range.leading_zeros();
    bits.saturating_sub(rows.len().checked_ilog2().unwrap_or(0).min(MOST_BITS))
}

// The address of a row, or 0.
fn address_of(row: Option<&Row>) -> u64 {
    row.map_or(0, |row| row.address)
}

/// Where each group is guessed to begin in the nodes by group, where groups don't fall from node to
/// node.
pub fn starts_of(alloc: Global, groups: &[u32]) -> Result<Vec<u32>, NoMemory>
    requires { length groups.now < 2 ^ 32 }
{
    let mut starts = Vec::with_capacity(alloc, 1)?;
    starts.push(0)?;
    for (n, group) in groups.iter().enumerate() {
        if *group as usize == starts.len() {
            starts.push(n as u32)?;
        }
    }
    Ok(starts)
}

/// Where one of several parts is guessed to stand among so many rows, by where each begins.
pub fn span_of(starts: &[u32], part: usize, len: usize) -> Span {
    Span {
        from: start_of(starts, part, len),
        to: start_of(starts, part.saturating_add(1), len),
    }
}

// Where a part is guessed to begin.
fn start_of(starts: &[u32], part: usize, len: usize) -> usize {
    match starts.get(part) {
        Some(start) => *start as usize,
        None => len,
    }
}
