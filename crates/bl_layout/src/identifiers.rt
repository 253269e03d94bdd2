ghost use Rattle.std.specs.Prelude.{◌≡◌, ◌<◌, ◌^◌, IfOk, length, map, unwrap_or};
ghost use Rattle.bl_layout.specs.MemberNames.{entry_of_name};
ghost use Rattle.bl_layout.specs.Identifiers.{AreIdentifierNumbers, Learns, known_number};

use crate::member_names::{NameEntry, identifier_in};
use bl_num::Text;
use std::alloc::{AllocError, Global};
use std::collections::BTreeMap;

/// Numbers for the identifiers of some names: two names have the same number where they have the
/// same identifier. Each is the number of a name.
pub fn identifier_numbers(
    alloc: Global,
    names: &[Text],
    entries: &[NameEntry],
) -> Result<Vec<u32>, AllocError>
    requires few { length names.now < 2 ^ 32 }
    requires entries { entries.now ≡ map entry_of_name names.now }
    ensures { IfOk result (λ numbers. AreIdentifierNumbers names.now numbers.items) }
{
    let mut known: BTreeMap<&[u8], u32> = BTreeMap::new(alloc);
    let mut numbers = Vec::with_capacity(alloc, names.len())?;
    for (i, name) in names.iter().enumerate() {
        let identifier = identifier_in(name.as_slice(), entries[i].shape);
        let number = number_for(&mut known, identifier, i as u32)?;
        numbers.push(number)?;
    }
    Ok(numbers)
}

// The number by which an identifier is known; a new one is known by `fresh` from then on.
fn number_for<'a>(
    known: &mut BTreeMap<&'a [u8], u32>,
    identifier: &'a [u8],
    fresh: u32,
) -> Result<u32, AllocError>
    ensures number { IfOk result (λ number.
        number ≡ unwrap_or (known_number known.old identifier.now) fresh) }
    ensures learns { IfOk result (Learns known.old known.new identifier.now) }
{
    if let Some(number) = known.get(&identifier).copied() {
        return Ok(number);
    }
    known.insert(identifier, fresh)?;
    Ok(fresh)
}
