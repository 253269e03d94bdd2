ghost use Rattle.std.specs.Prelude.{◌≡◌, ◌<◌, length};
ghost use Rattle.std.specs.Str.{bytes_eq};
ghost use Rattle.bl_format.specs.Schema.{CanBeRead};
ghost use Rattle.bl_format.specs.Layout.{type_entry, struct_named, type_named};

use bl_format::{Catalogue, StructEntry};

// Whether a struct has a name, which is that of its type.
fn is_named(catalogue: &Catalogue, entry: &StructEntry, name: &[u8]) -> bool
    requires { entry.now.type_number < length catalogue.now.types }
    ensures { result ≡ bytes_eq (type_entry catalogue.now entry.now.type_number).name name.now }
{
    let types = catalogue.types.as_slice();
    types[usize::from(entry.type_number)].name.as_slice() == name
}

/// The number of the struct of a name.
#[tactic(auto, unfolding(bl_format::specs::Layout::struct_named))]
pub fn struct_named(catalogue: &Catalogue, name: &[u8]) -> Option<u32>
    requires { CanBeRead catalogue.now }
    ensures { result ≡ struct_named catalogue.now name.now }
{
    for (number, entry) in catalogue.structs.as_slice().iter().enumerate() {
        if is_named(catalogue, entry, name) {
            return Some(number as u32);
        }
    }
    None
}

/// The number of the type of a name.
#[tactic(auto, unfolding(bl_format::specs::Layout::type_named))]
pub fn type_named(catalogue: &Catalogue, name: &[u8]) -> Option<u32>
    requires { CanBeRead catalogue.now }
    ensures { result ≡ type_named catalogue.now name.now }
{
    for (number, entry) in catalogue.types.as_slice().iter().enumerate() {
        if entry.name.as_slice() == name {
            return Some(number as u32);
        }
    }
    None
}
