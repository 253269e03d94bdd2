ghost use Rattle.std.specs.Prelude.{◌≡◌, IfOk};
ghost use Rattle.bl_format.specs.Schema.{IsCatalogue};
ghost use Rattle.bl_layout.specs.Tables.{AreTables, numbered};

use crate::basic_types::Content;
use crate::member_names::{NameEntry, name_entries};
use crate::types::contents;
use bl_format::Catalogue;
use std::alloc::{AllocError, Global};

// How many names or types a number of 16 bits may mean.
const MOST_NUMBERED: usize = 65_536;

/// What is known of the names and types of a catalogue that a number may mean.
#[derive(Drop)]
pub struct Tables {
    pub names: Vec<NameEntry>,
    /// What each type holds.
    pub contents: Vec<Content>,
}

pub fn tables_of(alloc: Global, catalogue: &Catalogue) -> Result<Tables, AllocError>
    requires { IsCatalogue catalogue.now }
    ensures { IfOk result (AreTables catalogue.now) }
{
    let types = numbered(catalogue.types.as_slice());
    let names = numbered(catalogue.names.as_slice());
    let structs = catalogue.structs.as_slice();
    Ok(Tables {
        names: name_entries(alloc, names)?,
        contents: contents(alloc, types, structs)?,
    })
}

/// The first of some names or types. A catalogue may have many more, which nothing can mean.
pub fn numbered<T>(all: &[T]) -> &[T]
    ensures { result.now ≡ numbered all.now }
{
    &all[..all.len().min(MOST_NUMBERED)]
}
