ghost use Rattle.std.specs.Prelude.{◌≡◌, ◌<◌, IfOk, length};
ghost use Rattle.bl_format.specs.Schema.{CanBeRead};
ghost use Rattle.bl_plan.specs.Names.{HasMembers, HasStructs, Learns};

use bl_format::Catalogue;
use bl_layout::Layout;
use bl_num::NoMemory;
use bl_sdna::struct_name;
use std::alloc::Global;
use std::collections::BTreeMap;

/// The numbers of a catalogue's structs by their names. A file chooses its names, so they are kept
/// in order: in a hashed table it could choose ones that collide.
pub fn known_structs(alloc: Global, catalogue: &Catalogue) -> Result<BTreeMap<&[u8], u32>, NoMemory>
    requires { CanBeRead catalogue.now }
    ensures { IfOk result (HasStructs catalogue.now) }
{
    let mut known: BTreeMap<&[u8], u32> = BTreeMap::new(alloc);
    for number in 0..catalogue.structs.as_slice().len() as u32 {
        learn(&mut known, struct_name(catalogue, number), number)?;
    }
    Ok(known)
}

/// The numbers of a struct's members by their keys, by which they meet those of another catalogue.
pub fn known_members(
    alloc: Global,
    layout: &Layout,
    s: u32,
) -> Result<BTreeMap<&[u8], u32>, NoMemory>
    requires { s < length layout.now.catalogue.structs }
    ensures { IfOk result (HasMembers layout.now.catalogue s) }
{
    let mut known: BTreeMap<&[u8], u32> = BTreeMap::new(alloc);
    for member in 0..layout.member_count(s) {
        learn(&mut known, layout.member_key(s, member), member)?;
    }
    Ok(known)
}

/// Gives a name a number, unless it has one.
pub(crate) fn learn<'a>(
    known: &mut BTreeMap<&'a [u8], u32>,
    name: &'a [u8],
    number: u32,
) -> Result<(), NoMemory>
    ensures { IfOk result (λ _. Learns known.old known.new name.now number) }
{
    if known.contains_key(&name) {
        return Ok(());
    }
    known.insert(name, number)?;
    Ok(())
}
