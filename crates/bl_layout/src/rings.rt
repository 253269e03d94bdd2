ghost use Rattle.std.specs.Prelude.{◌≡◌, ◌≤◌, ◌<◌, IfOk, length, vec_len};
ghost use Rattle.std.specs.Bool.{OnFalse};
ghost use Rattle.bl_layout.specs.Sizes.{inner_of};
ghost use Rattle.bl_format.specs.Schema.{IsCatalogue, MemberFits};
ghost use Rattle.bl_format.specs.Layout.{member_count, leads_back};
ghost use Rattle.bl_layout.specs.CheckTables.{IsCheckTables};
ghost use Rattle.bl_layout.specs.Graph.{KeepsApart, links_of};
ghost use Rattle.bl_layout.specs.Check.{IsFirstBack};

use crate::check_tables::CheckTables;
use crate::graph::inner_struct;
use crate::struct_search::leads_to;
use bl_format::{Catalogue, MemberEntry};
use std::alloc::{AllocError, Global};

/// The first member of a struct that leads back to it by value, or how many members there are.
pub fn first_back(
    alloc: Global,
    catalogue: &Catalogue,
    check_tables: &CheckTables,
    s: u32,
) -> Result<usize, AllocError>
    requires catalogue { IsCatalogue catalogue.now }
    requires check_tables { IsCheckTables catalogue.now check_tables.now }
    requires place { s < length catalogue.now.structs }
    ensures { IfOk result (IsFirstBack catalogue.now s) }
{
    let mut marks = vec![in alloc; false; check_tables.inner.len()]?;
    first_back_among(alloc, catalogue, check_tables, s, marks.as_mut_slice())
}

fn first_back_among(
    alloc: Global,
    catalogue: &Catalogue,
    check_tables: &CheckTables,
    s: u32,
    marks: &mut [bool],
) -> Result<usize, AllocError>
    requires catalogue { IsCatalogue catalogue.now }
    requires check_tables { IsCheckTables catalogue.now check_tables.now }
    requires place { s < length catalogue.now.structs }
    requires marks { length marks.old ≡ vec_len check_tables.now.inner }
    requires apart { KeepsApart (links_of check_tables.now.inner.items) marks.old s }
    ensures { IfOk result (IsFirstBack catalogue.now s) }
{
    let members = catalogue.structs.as_slice()[s as usize].members.as_slice();
    for (k, member) in members.iter().enumerate() {
        if member_leads_back(alloc, catalogue, check_tables, s, *member, marks)? {
            return Ok(k);
        }
    }
    Ok(members.len())
}

// Whether a member leads back to the struct `s`. Marks as a search does.
fn member_leads_back(
    alloc: Global,
    catalogue: &Catalogue,
    check_tables: &CheckTables,
    s: u32,
    member: MemberEntry,
    marks: &mut [bool],
) -> Result<bool, AllocError>
    requires check_tables { IsCheckTables catalogue.now check_tables.now }
    requires place { s < length catalogue.now.structs }
    requires fits { MemberFits catalogue.now member }
    requires marks { length marks.old ≡ vec_len check_tables.now.inner }
    requires apart { KeepsApart (links_of check_tables.now.inner.items) marks.old s }
    ensures answer { IfOk result (λ back. back ≡ leads_back catalogue.now s (inner_of catalogue.now member)) }
    ensures apart { IfOk result (λ back. OnFalse back (KeepsApart (links_of check_tables.now.inner.items) marks.new s)) }
{
    match inner_struct(catalogue, &check_tables.tables, member) {
        Some(t) => leads_to(alloc, &check_tables.inner, t, s, marks),
        None => Ok(false),
    }
}
