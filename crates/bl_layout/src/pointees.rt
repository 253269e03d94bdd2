// What pointers to basic types point to.
ghost use Rattle.std.specs.Prelude.{◌≡◌, ◌∷◌, [], None, Some, if◌then◌else◌, option_map};
ghost use Rattle.bl_format.specs.Layout.{basic_named, type_entry};
ghost use Rattle.bl_format.specs.Nodes.{pointed_length};
ghost use Rattle.bl_format.specs.Words.{contains};
ghost use Rattle.bl_layout.specs.BasicTypes.{basic_meant, length_behind};
ghost use Rattle.bl_layout.specs.Tables.{AreTables};

use crate::basic_types::Basic;
use crate::members::{basic_in, content_of};
use crate::tables::Tables;
use bl_format::Catalogue;

/// The bytes of what a pointer to a type points to, if that is a basic type.
pub fn pointee_length(catalogue: &Catalogue, tables: &Tables, type_number: u16) -> Option<u8>
    requires { AreTables catalogue.now tables.now }
    ensures { result ≡ pointed_length catalogue.now type_number
        (basic_named (type_entry catalogue.now type_number).name) }
{
    let basic = basic_of(catalogue, tables, type_number)?;
    length_behind(basic, length_of(catalogue, type_number))
}

// The basic type that a type is, by its name.
fn basic_of(catalogue: &Catalogue, tables: &Tables, type_number: u16) -> Option<Basic>
    requires { AreTables catalogue.now tables.now }
    ensures { option_map basic_meant result
        ≡ basic_named (type_entry catalogue.now type_number).name }
{
    if type_number as usize >= catalogue.types.as_slice().len() {
        return None;
    }
    basic_in(content_of(catalogue, tables, type_number))
}

// The length of a type, and 0 where there is none of the number.
fn length_of(catalogue: &Catalogue, type_number: u16) -> u16
    ensures { result ≡ (type_entry catalogue.now type_number).length }
{
    match catalogue.types.as_slice().get(type_number as usize) {
        Some(entry) => entry.length,
        None => 0,
    }
}

// The bytes of what a pointer to a basic type points to, by the length of its type.
fn length_behind(basic: Basic, length: u16) -> Option<u8>
    ensures { result ≡ length_behind (basic_meant basic) length }
{
    match basic {
        Basic::Whole { bytes, .. } | Basic::Float(bytes) => Some(bytes),
        Basic::Long { .. } => long_length(length),
        Basic::Void => Some(0),
    }
}

fn long_length(length: u16) -> Option<u8>
    ensures { result ≡ (if contains (4 ∷ 8 ∷ []) length then Some length else None) }
{
    if length == 4 || length == 8 {
        Some(length as u8)
    } else {
        None
    }
}
