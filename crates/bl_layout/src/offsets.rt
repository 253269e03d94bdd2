ghost use Rattle.std.specs.Prelude.{◌≡◌, ◌≤◌, ◌<◌, ◌+◌, ◌⊎◌, All, slice_index, nat_lt, None, Some, IfOk, IfErr, OnOk, length};
ghost use Rattle.std.specs.List.{list_all};
ghost use Rattle.bl_format.specs.Schema.{IsCatalogue};
ghost use Rattle.bl_format.specs.Layout.{first_fault};
ghost use Rattle.bl_layout.specs.CheckTables.{IsCheckTables};
ghost use Rattle.bl_layout.specs.Tables.{numbered};
ghost use Rattle.bl_layout.specs.Check.{AreOffsets, IsFirstBack};

use crate::check::{Suspects, first_repeat, struct_offsets};
use crate::check_tables::CheckTables;
use crate::rings::first_back;
use bl_format::{Catalogue, LayoutFault};
use bl_num::Width;
use std::alloc::{AllocError, Global};

/// Where the members of all structs stand, or the first fault of one.
pub fn all_offsets(
    alloc: Global,
    catalogue: &Catalogue,
    width: Width,
    check_tables: &CheckTables,
    marks: &mut [u32],
) -> Result<Vec<Vec<u32>>, LayoutFault>
    requires catalogue { IsCatalogue catalogue.now }
    requires check_tables { IsCheckTables catalogue.now check_tables.now }
    requires marks { length marks.old ≡ length (numbered catalogue.now.names) }
    requires fresh { All (λ m. m < 1) marks.old }
    ensures offsets { IfOk result (λ offsets. AreOffsets catalogue.now width offsets.items) }
    ensures passes { OnOk result (first_fault catalogue.now width ≡ None) }
    ensures refuses { IfErr result (λ fault.
        (fault ≡ LayoutFault.NoMemory) ⊎ (first_fault catalogue.now width ≡ Some fault)) }
{
    let structs = catalogue.structs.as_slice().len();
    let mut offsets = Vec::with_capacity(alloc, structs)?;
    for s in 0..structs as u32 {
        let duplicate = first_repeat(catalogue, &check_tables.identifiers, s, marks);
        let back = back_of(alloc, catalogue, check_tables, s)?;
        let suspects = Suspects { duplicate, back };
        offsets.push(struct_offsets(alloc, catalogue, &check_tables.tables, width, s, suspects)?)?;
    }
    Ok(offsets)
}

// The first member of a struct that leads back to it, which only one whose rank is no lower can.
fn back_of(
    alloc: Global,
    catalogue: &Catalogue,
    check_tables: &CheckTables,
    s: u32,
) -> Result<usize, AllocError>
    requires catalogue { IsCatalogue catalogue.now }
    requires check_tables { IsCheckTables catalogue.now check_tables.now }
    requires place { s < length catalogue.now.structs }
    ensures { IfOk result (IsFirstBack catalogue.now s) }
{
    let inner = check_tables.inner.as_slice();
    let ranks = check_tables.ranks.as_slice();
    if is_above(&inner[s as usize], ranks, ranks[s as usize]) {
        return Ok(
            catalogue.structs.as_slice()[s as usize]
                .members
                .as_slice()
                .len(),
        );
    }
    first_back(alloc, catalogue, check_tables, s)
}

// Whether a rank is above those of some numbers.
fn is_above(numbers: &[u32], ranks: &[u32], rank: u32) -> bool
    requires { All (λ t. t < length ranks.now) numbers.now }
    ensures { result ≡ list_all (λ t. nat_lt (slice_index ranks.now t) rank) numbers.now }
{
    numbers.iter().all(|t| ranks[*t as usize] < rank)
}
