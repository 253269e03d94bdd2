ghost use Rattle.std.specs.Prelude.{◌≡◌, ◌≤◌, ◌<◌, ◌^◌, true, IfOk, List, length, IsPermutation};
ghost use Rattle.std.specs.Ordering.{is_lt};
ghost use Rattle.bl_format.specs.Nodes.{Mark};
ghost use Rattle.bl_addresses.specs.Marks.{marks_by};
ghost use Rattle.bl_addresses.specs.Order.{AreMembers, AreSorted, IsOrder, key, key_cmp};

use crate::marks::{Row, Scope, is_member, mark_at, row_of};
use bl_num::NoMemory;
use std::alloc::Global;

/// The rows of a scope's nodes in the order of their places, and at one place in the order of the
/// file. Nodes are given by their groups, their addresses and whether they are IDs.
pub fn order_of(
    alloc: Global,
    scope: Scope,
    groups: &[u32],
    addresses: &[u64],
    ids: &[bool],
) -> Result<Vec<Row>, NoMemory>
    requires addresses { length addresses.now ≡ length groups.now }
    requires ids { length ids.now ≡ length groups.now }
    requires few { length groups.now < 2 ^ 32 }
    ensures { IfOk result (λ rows.
        IsOrder scope (marks_by groups.now addresses.now ids.now) rows.items) }
{
    let mut rows = members(alloc, scope, groups, addresses, ids)?;
    sort(rows.as_mut_slice());
    Ok(rows)
}

// The rows of a scope's nodes.
fn members(
    alloc: Global,
    scope: Scope,
    groups: &[u32],
    addresses: &[u64],
    ids: &[bool],
) -> Result<Vec<Row>, NoMemory>
    requires addresses { length addresses.now ≡ length groups.now }
    requires ids { length ids.now ≡ length groups.now }
    requires few { length groups.now < 2 ^ 32 }
    ensures { IfOk result (λ rows.
        AreMembers scope (marks_by groups.now addresses.now ids.now) rows.items) }
{
    let mut rows = Vec::with_capacity(alloc, count(scope, ids))?;
    for n in 0..groups.len() {
        let mark = mark_at(groups, addresses, ids, n);
        if is_member(scope, mark) {
            rows.push(row_of(scope, mark, n as u32))?;
        }
    }
    Ok(rows)
}

// How many rows a scope has, by which nodes are IDs.
fn count(scope: Scope, ids: &[bool]) -> usize {
    match scope {
        Scope::Group => ids.len(),
        Scope::File => ids.iter().filter(|id| **id).count(),
    }
}

// Sorts the rows of a scope, without memory. Rows of one part most often stand side by side already.
fn sort(rows: &mut [Row])
    ensures len { length rows.new ≡ length rows.old }
    ensures order { (scope : Scope) (marks : List Mark) → AreMembers scope marks rows.old →
        IsOrder scope marks rows.new }
{
    sort_parts(rows);
    if !are_sorted(rows) {
        sort_all(rows);
    }
}

// Sorts the rows of each part that stand side by side.
fn sort_parts(rows: &mut [Row])
    ensures len { length rows.new ≡ length rows.old }
    ensures moved { IsPermutation rows.old rows.new }
{
    let mut from = 0;
    while from < rows.len() {
        let (_, rest) = rows.split_at_mut(from);
        let (own, _) = rest.split_at_mut(part_length(rest));
        own.sort_unstable_by_key(|row| (row.address, row.node));
        from += own.len();
    }
}

// How many rows from the first one on have its part.
fn part_length(rows: &[Row]) -> usize
    requires { 0 < length rows.now }
    ensures some { 0 < result }
    ensures inside { result ≤ length rows.now }
{
    let part = rows[0].part;
    1 + rows[1..].iter().take_while(|row| row.part == part).count()
}

// Whether no row comes before the one that stands before it.
fn are_sorted(rows: &[Row]) -> bool
    ensures { result ≡ true → AreSorted rows.now }
{
    rows.is_sorted_by(|first, second| !comes_before(*second, *first))
}

// Whether a row comes before another.
fn comes_before(row: Row, other: Row) -> bool
    ensures { result ≡ is_lt (key_cmp (key row) (key other)) }
{
    key(row).cmp(&key(other)).is_lt()
}

// Sorts rows of any parts in any order.
fn sort_all(rows: &mut [Row])
    ensures len { length rows.new ≡ length rows.old }
    ensures moved { IsPermutation rows.old rows.new }
    ensures sorted { AreSorted rows.new }
{
    rows.sort_unstable_by_key(|row| key(*row));
}

// By what rows are sorted.
fn key(row: Row) -> (u32, u64, u32)
    ensures { result ≡ key row }
{
    (row.part, row.address, row.node)
}
