ghost use Rattle.std.specs.Prelude.{IfOk};
ghost use Rattle.bl_format.specs.Schema.{IsCatalogue};
ghost use Rattle.bl_layout.specs.CheckTables.{IsCheckTables};

use crate::graph::inner_structs;
use crate::identifiers::identifier_numbers;
use crate::ranks::ranks_of;
use crate::tables::{Tables, numbered, tables_of};
use bl_format::Catalogue;
use std::alloc::{AllocError, Global};

/// What the checks of members look at beside the catalogue.
#[derive(Drop)]
pub struct CheckTables {
    pub tables: Tables,
    /// Of each name, the number of its identifier.
    pub identifiers: Vec<u32>,
    /// Of each struct, the structs in it.
    pub inner: Vec<Vec<u32>>,
    /// Of each struct, a rank that is no lower than those of the structs in it.
    pub ranks: Vec<u32>,
}

pub fn check_tables_of(alloc: Global, catalogue: &Catalogue) -> Result<CheckTables, AllocError>
    requires { IsCatalogue catalogue.now }
    ensures { IfOk result (IsCheckTables catalogue.now) }
{
    let tables = tables_of(alloc, catalogue)?;
    let names = numbered(catalogue.names.as_slice());
    let identifiers = identifier_numbers(alloc, names, tables.names.as_slice())?;
    let inner = inner_structs(alloc, catalogue, &tables)?;
    let ranks = ranks_of(alloc, &inner)?;
    Ok(CheckTables {
        tables,
        identifiers,
        inner,
        ranks,
    })
}
