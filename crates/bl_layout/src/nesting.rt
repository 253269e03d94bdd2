ghost use Rattle.std.specs.Prelude.{◌≡◌, ◌≤◌, ◌<◌, ◌+◌, ◌^◌, All, true, min, map, IfOk, length};
ghost use Rattle.bl_format.specs.Words.{find_map};
ghost use Rattle.bl_format.specs.Layout.{depth_fault};
ghost use Rattle.bl_layout.specs.Graph.{AreInnerStructs, StaysInside, links_of};
ghost use Rattle.bl_layout.specs.Nesting.{deeper_by_one, fault_of_nesting, next_nestings, nestings_in};

use bl_format::{Catalogue, LayoutFault};
use std::alloc::{AllocError, Global};

/// How deep structs may stand in one another by value.
pub const MAX_NESTING: u64 = 32;

/// How deep the numbers that each row links to stand, and one more.
pub fn next_nestings(
    alloc: Global,
    links: &[Vec<u32>],
    nestings: &[u64],
) -> Result<Vec<u64>, AllocError>
    requires inside { StaysInside (links_of links.now) }
    requires len { length nestings.now ≡ length links.now }
    requires small { All (λ n. n ≤ 2 ^ 32) nestings.now }
    ensures { IfOk result (λ next. next.items ≡ next_nestings (links_of links.now) nestings.now) }
{
    let mut next = Vec::with_capacity(alloc, links.len())?;
    for row in links {
        next.push(deeper_by_one(row, nestings))?;
    }
    Ok(next)
}

fn deeper_by_one(row: &[u32], nestings: &[u64]) -> u64
    requires inside { All (λ t. t < length nestings.now) row.now }
    requires small { All (λ n. n ≤ 2 ^ 32) nestings.now }
    ensures { result ≡ deeper_by_one nestings.now row.now }
{
    let mut deepest = 0;
    for t in row {
        deepest = nestings[*t as usize].max(deepest);
    }
    deepest + 1
}

/// How deep structs stand in each struct. `guess` may be anything: where a round changes nothing in
/// it, it is what is asked for, and no more rounds are needed.
pub fn nestings_of(
    alloc: Global,
    catalogue: &Catalogue,
    inner: &[Vec<u32>],
    guess: &[u64],
) -> Result<Vec<u64>, AllocError>
    requires few { length catalogue.now.structs < 2 ^ 32 }
    requires inner { AreInnerStructs catalogue.now inner.now }
    ensures { IfOk result (λ nestings. nestings.items ≡ nestings_in catalogue.now) }
{
    if guess.len() == inner.len() && are_small(guess) {
        let next = next_nestings(alloc, inner, guess)?;
        if next.as_slice() == guess {
            return capped(alloc, guess, inner.len() as u64);
        }
    }
    nestings_by_rounds(alloc, catalogue, inner)
}

fn are_small(nestings: &[u64]) -> bool
    ensures { result ≡ true → All (λ n. n ≤ 2 ^ 32) nestings.now }
{
    nestings.iter().all(|n| *n <= 1 << 32)
}

fn capped(alloc: Global, nestings: &[u64], most: u64) -> Result<Vec<u64>, AllocError>
    ensures { IfOk result (λ capped. capped.items ≡ map (λ n. min n most) nestings.now) }
{
    nestings.iter().map(|n| (*n).min(most)).collect(alloc)
}

// The nestings by as many rounds as there are structs.
fn nestings_by_rounds(
    alloc: Global,
    catalogue: &Catalogue,
    inner: &[Vec<u32>],
) -> Result<Vec<u64>, AllocError>
    requires few { length catalogue.now.structs < 2 ^ 32 }
    requires inner { AreInnerStructs catalogue.now inner.now }
    ensures { IfOk result (λ nestings. nestings.items ≡ nestings_in catalogue.now) }
{
    let mut nestings = vec![in alloc; 0; inner.len()]?;
    for _ in 0..inner.len() {
        nestings = next_nestings(alloc, inner, &nestings)?;
    }
    Ok(nestings)
}

/// The nesting of the first struct that passes the limit.
pub fn depth_fault(catalogue: &Catalogue, nestings: &[u64]) -> Option<LayoutFault>
    requires { nestings.now ≡ nestings_in catalogue.now }
    ensures { result ≡ depth_fault catalogue.now }
{
    first_deep(nestings)
}

fn first_deep(nestings: &[u64]) -> Option<LayoutFault>
    ensures { result ≡ find_map fault_of_nesting nestings.now }
{
    for nesting in nestings {
        if *nesting > MAX_NESTING {
            return Some(LayoutFault::TooDeep(*nesting));
        }
    }
    None
}

/// A guess at the nestings, from the ranks: a struct stands behind those that stand in it.
pub fn guessed_nestings(
    alloc: Global,
    inner: &[Vec<u32>],
    ranks: &[u32],
) -> Result<Vec<u64>, AllocError>
    requires { length ranks.now < 2 ^ 32 }
{
    let mut order = vec![in alloc; 0u32; inner.len()]?;
    for (s, rank) in ranks.iter().enumerate() {
        if let Some(place) = order.get_mut(rank.saturating_sub(1) as usize) {
            *place = s as u32;
        }
    }
    let mut nestings = vec![in alloc; 0u64; inner.len()]?;
    for s in &order {
        let deepest = match inner.get(*s as usize) {
            Some(row) => deepest_among(row, &nestings),
            None => 0,
        };
        if let Some(nesting) = nestings.get_mut(*s as usize) {
            *nesting = deepest.saturating_add(1);
        }
    }
    Ok(nestings)
}

fn deepest_among(row: &[u32], nestings: &[u64]) -> u64 {
    let mut deepest = 0;
    for t in row {
        deepest = nestings.get(*t as usize).copied().unwrap_or(0).max(deepest);
    }
    deepest
}
