ghost use Rattle.std.specs.Prelude.{◌≡◌, ◌<◌, ◌+◌, ◌^◌, None, IfOk, All, length, slice_index};
ghost use Rattle.bl_format.specs.Schema.{IsCatalogue, MemberFits};
ghost use Rattle.bl_format.specs.Layout.{first_fault, depth_fault, leaves_fault, nesting};
ghost use Rattle.bl_layout.specs.Tables.{AreTables};
ghost use Rattle.bl_layout.specs.ShapeTables.{IsLayoutTables};
ghost use Rattle.bl_layout.specs.Counts.{AreCounts, leaf_count, leaf_counts_in, count_of_member, count_of_members};

use crate::graph::inner_struct;
use crate::members::{member_size, name_of};
use crate::nesting::MAX_NESTING;
use crate::shape_tables::LayoutTables;
use crate::tables::Tables;
use bl_format::{Catalogue, LayoutFault, MemberEntry};
use bl_num::Width;
use std::alloc::{AllocError, Global};

/// The most leaves that all structs may have together.
pub const MAX_LEAVES: u64 = 1_048_576;

/// How many leaves each struct has.
pub fn leaf_counts(
    alloc: Global,
    catalogue: &Catalogue,
    width: Width,
    layout_tables: &LayoutTables,
) -> Result<Vec<u64>, AllocError>
    requires catalogue { IsCatalogue catalogue.now }
    requires layout_tables { IsLayoutTables catalogue.now width layout_tables.now }
    requires members { first_fault catalogue.now width ≡ None }
    requires depth { depth_fault catalogue.now ≡ None }
    ensures { IfOk result (λ counts. counts.items ≡ leaf_counts_in catalogue.now width) }
{
    let mut counts = vec![in alloc; 0; catalogue.structs.as_slice().len()]?;
    for depth in 1..MAX_NESTING + 1 {
        count_nested(
            catalogue,
            width,
            layout_tables,
            depth,
            counts.as_mut_slice(),
        );
    }
    Ok(counts)
}

// Counts the leaves of the structs that are nested just so deep.
fn count_nested(
    catalogue: &Catalogue,
    width: Width,
    layout_tables: &LayoutTables,
    depth: u64,
    counts: &mut [u64],
)
    requires catalogue { IsCatalogue catalogue.now }
    requires layout_tables { IsLayoutTables catalogue.now width layout_tables.now }
    requires members { first_fault catalogue.now width ≡ None }
    requires depth { depth_fault catalogue.now ≡ None }
    requires before { AreCounts catalogue.now width depth 0 counts.old }
    ensures { AreCounts catalogue.now width (depth + 1) 0 counts.new }
{
    for s in 0..counts.len() as u32 {
        if layout_tables.nestings[s as usize] == depth {
            let count = struct_leaves(
                catalogue,
                width,
                &layout_tables.shape_tables.tables,
                depth,
                s,
                counts,
            );
            counts[s as usize] = count;
        }
    }
}

// How many leaves a struct has, by those of the structs in it, which are nested less deep.
fn struct_leaves(
    catalogue: &Catalogue,
    width: Width,
    tables: &Tables,
    depth: u64,
    s: u32,
    counts: &[u64],
) -> u64
    requires catalogue { IsCatalogue catalogue.now }
    requires tables { AreTables catalogue.now tables.now }
    requires members { first_fault catalogue.now width ≡ None }
    requires depth { depth_fault catalogue.now ≡ None }
    requires counts { AreCounts catalogue.now width depth s counts.now }
    requires place { s < length catalogue.now.structs }
    requires nested { nesting catalogue.now s ≡ depth }
    ensures { result ≡ leaf_count catalogue.now width s }
{
    let members = catalogue.structs.as_slice()[s as usize].members.as_slice();
    members_leaves(catalogue, tables, width, members, counts)
}

fn members_leaves(
    catalogue: &Catalogue,
    tables: &Tables,
    width: Width,
    members: &[MemberEntry],
    counts: &[u64],
) -> u64
    requires fit { All (MemberFits catalogue.now) members.now }
    requires few { length members.now < 2 ^ 16 }
    requires tables { AreTables catalogue.now tables.now }
    requires counts { length counts.now ≡ length catalogue.now.structs }
    requires small { All (λ n. n < 2 ^ 16) counts.now }
    ensures { result ≡ count_of_members (slice_index counts.now) catalogue.now width members.now }
{
    let mut leaves = 0;
    for member in members {
        leaves += member_leaves(catalogue, tables, width, *member, counts);
    }
    leaves
}

fn member_leaves(
    catalogue: &Catalogue,
    tables: &Tables,
    width: Width,
    member: MemberEntry,
    counts: &[u64],
) -> u64
    requires fits { MemberFits catalogue.now member }
    requires tables { AreTables catalogue.now tables.now }
    requires counts { length counts.now ≡ length catalogue.now.structs }
    requires small { All (λ n. n < 2 ^ 16) counts.now }
    ensures count { result ≡ count_of_member (slice_index counts.now) catalogue.now width member }
    ensures small { result < 2 ^ 48 }
{
    if member_size(catalogue, tables, width, member) == 0 {
        return 0;
    }
    match inner_struct(catalogue, tables, member) {
        Some(t) => {
            let count = name_of(catalogue, tables, member).shape.count;
            u64::from(count) * counts[t as usize]
        }
        None => 1,
    }
}

/// The leaves up to and with the first struct at which they pass the limit.
pub fn leaves_fault(catalogue: &Catalogue, width: Width, counts: &[u64]) -> Option<LayoutFault>
    requires catalogue { IsCatalogue catalogue.now }
    requires members { first_fault catalogue.now width ≡ None }
    requires counts { counts.now ≡ leaf_counts_in catalogue.now width }
    ensures { result ≡ leaves_fault catalogue.now width }
{
    let mut leaves = 0;
    for count in counts {
        leaves += *count;
        if leaves > MAX_LEAVES {
            return Some(LayoutFault::TooManyLeaves(leaves));
        }
    }
    None
}
