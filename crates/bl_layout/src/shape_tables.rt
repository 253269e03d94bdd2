ghost use Rattle.std.specs.Prelude.{◌≡◌, ◌⊎◌, None, Some, IfOk, IfErr, OnOk};
ghost use Rattle.std.specs.Option.{option_or};
ghost use Rattle.bl_format.specs.Schema.{IsCatalogue};
ghost use Rattle.bl_format.specs.Layout.{first_fault, depth_fault};
ghost use Rattle.bl_layout.specs.Check.{AreOffsets};
ghost use Rattle.bl_layout.specs.CheckTables.{IsCheckTables};
ghost use Rattle.bl_layout.specs.Nesting.{nestings_in};
ghost use Rattle.bl_layout.specs.ShapeTables.{IsLayoutTables};

use crate::check_tables::{CheckTables, check_tables_of};
use crate::nesting::{depth_fault, guessed_nestings, nestings_of};
use crate::offsets::all_offsets;
use crate::tables::Tables;
use bl_format::{Catalogue, LayoutFault};
use bl_num::Width;
use std::alloc::Global;

/// What the shapes of members are made from.
#[derive(Drop)]
pub struct ShapeTables {
    pub tables: Tables,
    /// Of each struct, where its members stand.
    pub offsets: Vec<Vec<u32>>,
}

/// What the leaves of a catalogue's structs are made from.
#[derive(Drop)]
pub struct LayoutTables {
    pub shape_tables: ShapeTables,
    /// How deep structs stand in each struct; those in it have less.
    pub nestings: Vec<u64>,
}

/// Makes all checks of a layout but the limit on leaves.
pub fn layout_tables_of(
    alloc: Global,
    catalogue: &Catalogue,
    width: Width,
) -> Result<LayoutTables, LayoutFault>
    requires { IsCatalogue catalogue.now }
    ensures stands { IfOk result (IsLayoutTables catalogue.now width) }
    ensures members { OnOk result (first_fault catalogue.now width ≡ None) }
    ensures depth { OnOk result (depth_fault catalogue.now ≡ None) }
    ensures refuses { IfErr result (λ fault. (fault ≡ LayoutFault.NoMemory)
        ⊎ (option_or (first_fault catalogue.now width) (depth_fault catalogue.now) ≡ Some fault)) }
{
    let check_tables = check_tables_of(alloc, catalogue)?;
    let offsets = checked_offsets(alloc, catalogue, width, &check_tables)?;
    let nestings = checked_nestings(alloc, catalogue, &check_tables)?;
    Ok(LayoutTables {
        shape_tables: ShapeTables {
            tables: check_tables.tables,
            offsets,
        },
        nestings,
    })
}

// Where the members of all structs stand, or the first fault of one.
fn checked_offsets(
    alloc: Global,
    catalogue: &Catalogue,
    width: Width,
    check_tables: &CheckTables,
) -> Result<Vec<Vec<u32>>, LayoutFault>
    requires catalogue { IsCatalogue catalogue.now }
    requires check_tables { IsCheckTables catalogue.now check_tables.now }
    ensures offsets { IfOk result (λ offsets. AreOffsets catalogue.now width offsets.items) }
    ensures passes { OnOk result (first_fault catalogue.now width ≡ None) }
    ensures refuses { IfErr result (λ fault.
        (fault ≡ LayoutFault.NoMemory) ⊎ (first_fault catalogue.now width ≡ Some fault)) }
{
    let mut marks = vec![in alloc; 0; check_tables.tables.names.len()]?;
    all_offsets(alloc, catalogue, width, check_tables, marks.as_mut_slice())
}

// How deep structs stand in each struct, or that one has too many.
fn checked_nestings(
    alloc: Global,
    catalogue: &Catalogue,
    check_tables: &CheckTables,
) -> Result<Vec<u64>, LayoutFault>
    requires catalogue { IsCatalogue catalogue.now }
    requires check_tables { IsCheckTables catalogue.now check_tables.now }
    ensures nestings { IfOk result (λ nestings. nestings.items ≡ nestings_in catalogue.now) }
    ensures passes { OnOk result (depth_fault catalogue.now ≡ None) }
    ensures refuses { IfErr result (λ fault.
        (fault ≡ LayoutFault.NoMemory) ⊎ (depth_fault catalogue.now ≡ Some fault)) }
{
    let guess = guessed_nestings(alloc, &check_tables.inner, &check_tables.ranks)?;
    let nestings = nestings_of(alloc, catalogue, &check_tables.inner, &guess)?;
    match depth_fault(catalogue, &nestings) {
        Some(fault) => Err(fault),
        None => Ok(nestings),
    }
}
