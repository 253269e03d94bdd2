ghost use Rattle.std.specs.Prelude.{◌≡◌, ◌<◌, ◌+◌, ◌^◌, ◌++◌, All, None, IfOk, OnOk, length, map};
ghost use Rattle.bl_format.specs.Schema.{IsCatalogue};
ghost use Rattle.bl_format.specs.Layout.{depth_fault, first_fault, leaves_of, member_count, struct_numbers};
ghost use Rattle.bl_layout.specs.ShapeTables.{IsShapeTables, IsLayoutTables};
ghost use Rattle.bl_layout.specs.Leaves.{InnerStand, StandBelow, lists_of, member_leaf_list};

use crate::graph::inner_struct;
use crate::leaves::{own_leaf, push_elements};
use crate::member_parts::{entry_of, is_empty, kind_at, member_count, part_of};
use crate::nesting::MAX_NESTING;
use crate::shape_tables::{LayoutTables, ShapeTables};
use bl_format::{Catalogue, Leaf};
use bl_num::Width;
use std::alloc::{AllocError, Global};

/// The leaves of each struct, in order. Each leaf is built once for each struct that it is in.
pub fn leaf_table(
    alloc: Global,
    catalogue: &Catalogue,
    width: Width,
    layout_tables: &LayoutTables,
) -> Result<Vec<Vec<Leaf>>, AllocError>
    requires catalogue { IsCatalogue catalogue.now }
    requires layout_tables { IsLayoutTables catalogue.now width layout_tables.now }
    requires members { first_fault catalogue.now width ≡ None }
    requires depth { depth_fault catalogue.now ≡ None }
    requires names { All (λ n. length n < 2 ^ 32) catalogue.now.names }
    ensures { IfOk result (λ table. map (λ v. v.items) table.items
        ≡ map (leaves_of catalogue.now width) (struct_numbers catalogue.now)) }
{
    let mut table = empty_lists(alloc, layout_tables.nestings.len())?;
    for nesting in 1..MAX_NESTING + 1 {
        build_level(
            alloc,
            catalogue,
            width,
            layout_tables,
            nesting,
            table.as_mut_slice(),
        )?;
    }
    Ok(table)
}

// As many empty lists.
fn empty_lists(alloc: Global, count: usize) -> Result<Vec<Vec<Leaf>>, AllocError>
    ensures { IfOk result (λ table. length table.items ≡ count) }
{
    let mut table = Vec::with_capacity(alloc, count)?;
    for _ in 0..count {
        table.push(Vec::new(alloc))?;
    }
    Ok(table)
}

// Builds the leaves of the structs of one nesting, where those of all lower ones stand.
fn build_level(
    alloc: Global,
    catalogue: &Catalogue,
    width: Width,
    layout_tables: &LayoutTables,
    nesting: u64,
    table: &mut [Vec<Leaf>],
) -> Result<(), AllocError>
    requires catalogue { IsCatalogue catalogue.now }
    requires layout_tables { IsLayoutTables catalogue.now width layout_tables.now }
    requires members { first_fault catalogue.now width ≡ None }
    requires depth { depth_fault catalogue.now ≡ None }
    requires names { All (λ n. length n < 2 ^ 32) catalogue.now.names }
    requires below { StandBelow catalogue.now width nesting (lists_of table.old) }
    ensures { OnOk result (StandBelow catalogue.now width (nesting + 1) (lists_of table.new)) }
{
    for (s, own) in layout_tables.nestings.iter().enumerate() {
        if *own == nesting {
            table[s] = struct_leaves(
                alloc,
                catalogue,
                width,
                &layout_tables.shape_tables,
                table,
                s as u32,
            )?;
        }
    }
    Ok(())
}

// The leaves of a struct. `table` has those of the structs in it.
fn struct_leaves(
    alloc: Global,
    catalogue: &Catalogue,
    width: Width,
    shape_tables: &ShapeTables,
    table: &[Vec<Leaf>],
    s: u32,
) -> Result<Vec<Leaf>, AllocError>
    requires catalogue { IsCatalogue catalogue.now }
    requires shape_tables { IsShapeTables catalogue.now width shape_tables.now }
    requires members { first_fault catalogue.now width ≡ None }
    requires depth { depth_fault catalogue.now ≡ None }
    requires names { All (λ n. length n < 2 ^ 32) catalogue.now.names }
    requires place { s < length catalogue.now.structs }
    requires len { length table.now ≡ length catalogue.now.structs }
    requires inner { InnerStand catalogue.now width s (lists_of table.now) }
    ensures { IfOk result (λ leaves. leaves.items ≡ leaves_of catalogue.now width s) }
{
    let mut leaves = Vec::new(alloc);
    for k in 0..member_count(catalogue, s) {
        push_member(
            alloc,
            catalogue,
            width,
            shape_tables,
            table,
            s,
            k,
            &mut leaves,
        )?;
    }
    Ok(leaves)
}

// Puts the leaves of member `k` of struct `s` at the end. `table` has those of the struct in it.
fn push_member(
    alloc: Global,
    catalogue: &Catalogue,
    width: Width,
    shape_tables: &ShapeTables,
    table: &[Vec<Leaf>],
    s: u32,
    k: u32,
    leaves: &mut Vec<Leaf>,
) -> Result<(), AllocError>
    requires catalogue { IsCatalogue catalogue.now }
    requires shape_tables { IsShapeTables catalogue.now width shape_tables.now }
    requires members { first_fault catalogue.now width ≡ None }
    requires names { All (λ n. length n < 2 ^ 32) catalogue.now.names }
    requires place { s < length catalogue.now.structs }
    requires member { k < member_count catalogue.now s }
    requires len { length table.now ≡ length catalogue.now.structs }
    requires inner { InnerStand catalogue.now width s (lists_of table.now) }
    ensures { OnOk result (leaves.new.items ≡ leaves.old.items
        ++ member_leaf_list (leaves_of catalogue.now width) catalogue.now width s k) }
{
    let entry = entry_of(catalogue, s, k);
    let part = part_of(catalogue, width, shape_tables, s, k, entry);
    if is_empty(part) {
        return Ok(());
    }
    match inner_struct(catalogue, &shape_tables.tables, entry) {
        Some(t) => push_elements(alloc, part, &table[t as usize], leaves),
        None => {
            let kind = kind_at(catalogue, &shape_tables.tables, entry);
            leaves.push(own_leaf(alloc, part, kind)?)?;
            Ok(())
        }
    }
}
