ghost use Rattle.std.specs.Prelude.{◌≡◌, ◌<◌, IfOk, length};
ghost use Rattle.std.specs.Bool.{OnFalse};
ghost use Rattle.bl_layout.specs.Graph.{links_of, reaches, StaysInside, KeepsApart};

use std::alloc::{AllocError, Global};

/// Whether a chain of links goes from `t` to `s`. Marks what is reached from `t`, where that isn't
/// `s`, so that a later search for `s` passes it over.
pub fn leads_to(
    alloc: Global,
    links: &[Vec<u32>],
    t: u32,
    s: u32,
    marks: &mut [bool],
) -> Result<bool, AllocError>
    requires inside { StaysInside (links_of links.now) }
    requires from { t < length links.now }
    requires to { s < length links.now }
    requires marks { length marks.old ≡ length links.now }
    requires apart { KeepsApart (links_of links.now) marks.old s }
    ensures answer { IfOk result (λ found. found ≡ reaches (links_of links.now) t s) }
    ensures apart { IfOk result (λ found. OnFalse found (KeepsApart (links_of links.now) marks.new s)) }
{
    let mut stack = vec![in alloc; t]?;
    while let Some(x) = stack.pop() {
        if x == s {
            return Ok(true);
        }
        if !marks[x as usize] {
            marks[x as usize] = true;
            stack.extend_from_slice(&links[x as usize])?;
        }
    }
    Ok(false)
}
