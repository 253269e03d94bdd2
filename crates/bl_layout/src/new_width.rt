ghost use Rattle.std.specs.Prelude.{◌≡◌, ◌⊎◌, ◌<◌, ◌^◌, ℕ, All, None, Some, IfOk, IfErr, OnOk, length};
ghost use Rattle.bl_format.specs.Schema.{IsCatalogue};
ghost use Rattle.bl_format.specs.Layout.{HasLayout};
ghost use Rattle.bl_format.specs.Rewidth.{rewidth, rewidth_fault};
ghost use Rattle.bl_format.specs.Words.{find_map};
ghost use Rattle.bl_layout.specs.NewLengths.{fault_of_length, new_lengths, type_with};

use crate::copy::{copy_of_names, copy_of_structs};
use crate::layout::Layout;
use crate::new_lengths::new_lengths;
use crate::types::struct_numbers;
use bl_format::{Catalogue, LayoutFault, TypeEntry};
use bl_num::{Items, Text, Width};
use std::alloc::{AllocError, Global};

// The bytes of a type at most, which a catalogue writes in 16 bits.
const LONGEST_TYPE: u64 = 65_535;

/// A catalogue at another width of pointers: the same names, types and structs, with the lengths
/// that structs have then, which are those of their members and their old unnamed tails. Or the
/// length of the first struct that is too long for a type.
pub fn rewidth(
    alloc: Global,
    catalogue: &Catalogue,
    from: Width,
    to: Width,
) -> Result<Catalogue, LayoutFault>
    requires { HasLayout catalogue.now from }
    ensures made { IfOk result (λ new. new ≡ rewidth catalogue.now from to) }
    ensures passes { OnOk result (rewidth_fault catalogue.now from to ≡ None) }
    ensures has_layout { IfOk result (λ new. HasLayout new to) }
    ensures refuses { IfErr result (λ fault. (fault ≡ LayoutFault.NoMemory)
        ⊎ (rewidth_fault catalogue.now from to ≡ Some fault)) }
{
    let lengths = checked_lengths(alloc, catalogue, from, to)?;
    Ok(with_lengths(alloc, catalogue, &lengths)?)
}

// The new lengths of all structs, or the first that is too long.
fn checked_lengths(
    alloc: Global,
    catalogue: &Catalogue,
    from: Width,
    to: Width,
) -> Result<Vec<u64>, LayoutFault>
    requires { HasLayout catalogue.now from }
    ensures lengths { IfOk result (λ lengths. lengths.items ≡ new_lengths catalogue.now from to) }
    ensures passes { OnOk result (rewidth_fault catalogue.now from to ≡ None) }
    ensures refuses { IfErr result (λ fault. (fault ≡ LayoutFault.NoMemory)
        ⊎ (rewidth_fault catalogue.now from to ≡ Some fault)) }
{
    let layout = Layout::new(alloc, catalogue, from)?;
    let lengths = new_lengths(alloc, &layout, to)?;
    match length_fault(&lengths) {
        Some(fault) => Err(fault),
        None => Ok(lengths),
    }
}

// The first length that is too long for a type.
fn length_fault(lengths: &[u64]) -> Option<LayoutFault>
    ensures { result ≡ find_map fault_of_length lengths.now }
{
    for length in lengths {
        if *length > LONGEST_TYPE {
            return Some(LayoutFault::TooLong(*length));
        }
    }
    None
}

// The catalogue with these lengths of its structs.
fn with_lengths(
    alloc: Global,
    catalogue: &Catalogue,
    lengths: &[u64],
) -> Result<Catalogue, AllocError>
    requires catalogue { IsCatalogue catalogue.now }
    requires len { length lengths.now ≡ length catalogue.now.structs }
    requires short { All (λ n. n < 2 ^ 16) lengths.now }
    ensures { IfOk result (λ new. (from to : Width)
        → lengths.now ≡ new_lengths catalogue.now from to → new ≡ rewidth catalogue.now from to) }
{
    Ok(Catalogue {
        names: copy_of_names(alloc, catalogue.names.as_slice())?,
        types: types_with(alloc, catalogue, lengths)?,
        structs: copy_of_structs(alloc, catalogue.structs.as_slice())?,
    })
}

// The types with the lengths of their structs.
fn types_with(
    alloc: Global,
    catalogue: &Catalogue,
    lengths: &[u64],
) -> Result<Items<TypeEntry>, AllocError>
    requires catalogue { IsCatalogue catalogue.now }
    requires len { length lengths.now ≡ length catalogue.now.structs }
    requires short { All (λ n. n < 2 ^ 16) lengths.now }
    ensures { IfOk result (λ types. (from to : Width)
        → lengths.now ≡ new_lengths catalogue.now from to
        → types ≡ (rewidth catalogue.now from to).types) }
{
    let old = catalogue.types.as_slice();
    let numbers = struct_numbers(alloc, old.len(), catalogue.structs.as_slice())?;
    let mut types = Vec::with_capacity(alloc, old.len())?;
    for (t, entry) in old.iter().enumerate() {
        types.push(type_with(alloc, entry, numbers[t], lengths)?)?;
    }
    Ok(Items::from_vec(types))
}

fn type_with(
    alloc: Global,
    entry: &TypeEntry,
    number: Option<u32>,
    lengths: &[u64],
) -> Result<TypeEntry, AllocError>
    requires inside { (s : ℕ) → number ≡ Some s → s < length lengths.now }
    requires short { All (λ n. n < 2 ^ 16) lengths.now }
    ensures { IfOk result (λ new. new ≡ type_with lengths.now number entry.now) }
{
    let length = match number {
        Some(s) => lengths[s as usize] as u16,
        None => entry.length,
    };
    Ok(TypeEntry {
        name: Text::from_slice(alloc, entry.name.as_slice())?,
        length,
    })
}
