ghost use Rattle.std.specs.Prelude.{◌≡◌, ◌≤◌, ◌<◌, ◌^◌, All, true, IfOk, length, nat_le, slice_index};
ghost use Rattle.std.specs.List.{list_all};
ghost use Rattle.bl_layout.specs.Graph.{AreRanks, StaysInside, links_of};

use crate::components::component_numbers;
use std::alloc::{AllocError, Global};

/// Ranks that don't rise along links. Where numbers reach one another they have the same rank, and
/// no others do, so that only a ring has links within a rank. Without rings the ranks are 1 to n, each
/// once, on which `guessed_nestings` relies. Only that they don't rise is proved.
pub fn ranks_of(alloc: Global, links: &[Vec<u32>]) -> Result<Vec<u32>, AllocError>
    requires few { length links.now < 2 ^ 32 }
    requires inside { StaysInside (links_of links.now) }
    ensures { IfOk result (λ ranks. AreRanks (links_of links.now) ranks.items) }
{
    let ranks = component_numbers(alloc, links)?;
    if ranks.len() == links.len() && falls(links, &ranks) {
        return Ok(ranks);
    }
    vec![in alloc; 0; links.len()]
}

// Whether no rank rises along a link.
fn falls(links: &[Vec<u32>], ranks: &[u32]) -> bool
    requires inside { StaysInside (links_of links.now) }
    requires len { length ranks.now ≡ length links.now }
    ensures { result ≡ true → AreRanks (links_of links.now) ranks.now }
{
    for (x, row) in links.iter().enumerate() {
        if !is_at_most(row, ranks, ranks[x]) {
            return false;
        }
    }
    true
}

fn is_at_most(row: &[u32], ranks: &[u32], rank: u32) -> bool
    requires { All (λ t. t < length ranks.now) row.now }
    ensures { result ≡ list_all (λ t. nat_le (slice_index ranks.now t) rank) row.now }
{
    row.iter().all(|t| ranks[*t as usize] <= rank)
}
