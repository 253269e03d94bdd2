ghost use Rattle.std.specs.Prelude.{◌≡◌, Ok, IfOk};
ghost use Rattle.bl_format.specs.Schema.{CanBeRead, catalogue_of, catalogue_written};

use crate::text::catalogue_text;
use bl_format::Catalogue;
use bl_num::{NoMemory, Order};
use std::alloc::Global;

/// Writes a catalogue as the payload of its block, with zeros as padding.
pub fn write_catalogue(
    alloc: Global,
    order: Order,
    catalogue: &Catalogue,
) -> Result<Vec<u8>, NoMemory>
    requires { CanBeRead catalogue.now }
    ensures written { IfOk result (λ bytes. bytes.items ≡ catalogue_written order catalogue.now) }
    ensures reads_back { IfOk result (λ bytes. catalogue_of order bytes.items ≡ Ok catalogue.now) }
{
    let bytes = catalogue_text(alloc, order, catalogue)?;
    Ok(bytes)
}
