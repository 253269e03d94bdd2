ghost use Rattle.std.specs.Prelude.{◌≡◌, ◌<◌, All, IfOk, None, length, map, replicate, unwrap_or};
ghost use Rattle.bl_format.specs.declared.raw.RawKind.TheVariants.{Bytes};
ghost use Rattle.bl_format.specs.Words.{numbers_below};
ghost use Rattle.bl_format.specs.Nodes.{view_of, view_of_basic, viewed_kind, kind_eq};
ghost use Rattle.bl_ptrarrays.specs.Joined.{joined, joined_views, joined_kind};

use bl_format::{RawKind, View};
use bl_num::NoMemory;
use std::alloc::{AllocError, Global};

/// What a pointer says of the raw node that it names, by its stars and the bytes of the basic type
/// behind them.
#[tactic(auto, unfolding(bl_format::specs::Nodes::view_of))]
pub fn view_of(depth: u32, basic: Option<u8>) -> Option<RawKind>
    ensures { result ≡ view_of depth basic }
{
    match depth {
        1 => view_of_basic(basic),
        2 => Some(RawKind::Pointers),
        _ => Some(RawKind::Bytes),
    }
}

// What a pointer of one star says, by the bytes of the basic type behind it.
fn view_of_basic(basic: Option<u8>) -> Option<RawKind>
    ensures { result ≡ view_of_basic basic }
{
    match basic {
        None => Some(RawKind::Bytes),
        Some(0) => None,
        Some(1) => Some(RawKind::Bytes),
        Some(n) => Some(RawKind::Numbers(n)),
    }
}

/// For each node the one kind that all views of it agree on, and else bytes.
pub fn views(alloc: Global, nodes: u32, seen: &[View]) -> Result<Vec<RawKind>, NoMemory>
    requires { All (λ v. v.node < nodes) seen.now }
    ensures { IfOk result (λ kinds. kinds.items ≡ map (viewed_kind seen.now) (numbers_below nodes)) }
{
    let mut kinds = no_kinds(alloc, nodes)?;
    join_views(seen, kinds.as_mut_slice());
    Ok(kinds_or_bytes(alloc, &kinds)?)
}

// No kind for each node.
fn no_kinds(alloc: Global, nodes: u32) -> Result<Vec<Option<RawKind>>, AllocError>
    ensures { IfOk result (λ kinds. kinds.items ≡ replicate nodes None) }
{
    vec![in alloc; None; nodes as usize]
}

// The kind of each node, and bytes where there is none.
fn kinds_or_bytes(alloc: Global, kinds: &[Option<RawKind>]) -> Result<Vec<RawKind>, AllocError>
    ensures { IfOk result (λ known. known.items ≡ map (λ kind. unwrap_or kind Bytes) kinds.now) }
{
    kinds
        .iter()
        .map(|kind| kind.unwrap_or(RawKind::Bytes))
        .collect(alloc)
}

// Joins each view with what the views before it say of its node.
fn join_views(seen: &[View], kinds: &mut [Option<RawKind>])
    requires { All (λ v. v.node < length kinds.old) seen.now }
    ensures { kinds.new ≡ joined_views seen.now kinds.old }
{
    for view in seen {
        let node = view.node as usize;
        kinds[node] = Some(joined(kinds[node], view.kind));
    }
}

// The kind that a view and those before it agree on, and else bytes.
fn joined(before: Option<RawKind>, kind: RawKind) -> RawKind
    ensures { result ≡ joined before kind }
{
    match before {
        None => kind,
        Some(first) => joined_kind(first, kind),
    }
}

// The kind that two agree on, and else bytes.
fn joined_kind(first: RawKind, second: RawKind) -> RawKind
    ensures { result ≡ joined_kind first second }
{
    if kind_eq(first, second) {
        first
    } else {
        RawKind::Bytes
    }
}

// Two kinds are the same.
fn kind_eq(first: RawKind, second: RawKind) -> bool
    ensures { result ≡ kind_eq first second }
{
    match first {
        RawKind::Bytes => matches!(second, RawKind::Bytes),
        RawKind::Numbers(m) => matches!(second, RawKind::Numbers(n) if m == n),
        RawKind::Pointers => matches!(second, RawKind::Pointers),
        RawKind::Pair => matches!(second, RawKind::Pair),
    }
}
