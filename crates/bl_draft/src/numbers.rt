// The numbers under one catalogue of the structs of another.
ghost use Rattle.std.specs.Prelude.{◌≡◌, IfOk};
ghost use Rattle.bl_format.specs.declared.catalogue.Catalogue.{Catalogue};
ghost use Rattle.bl_format.specs.Schema.{CanBeRead};
ghost use Rattle.bl_selection.specs.Selection.{index_under};
ghost use Rattle.bl_plan.specs.Names.{HasStructs};
ghost use Rattle.bl_draft.specs.Numbers.{number_at, numbers_under};

use bl_format::Catalogue;
use bl_num::NoMemory;
use bl_plan::known_structs;
use bl_sdna::struct_name;
use std::alloc::Global;
use std::collections::BTreeMap;

/// By the number of a struct of another catalogue, the number of its namesake here, and 0 where there
/// is none. Struct 0 of either counts as none.
pub fn numbers_under(
    alloc: Global,
    catalogue: &Catalogue,
    from: &Catalogue,
) -> Result<Vec<u32>, NoMemory>
    requires catalogue { CanBeRead catalogue.now }
    requires from { CanBeRead from.now }
    ensures { IfOk result (λ numbers. numbers.items ≡ numbers_under catalogue.now from.now) }
{
    let known = known_structs(alloc, catalogue)?;
    let count = from.structs.as_slice().len();
    let mut numbers = Vec::with_capacity(alloc, count)?;
    for s in 0..count as u32 {
        numbers.push(index_under(&known, from, s))?;
    }
    Ok(numbers)
}

// The number of a struct's namesake.
fn index_under<'a>(known: &BTreeMap<&'a [u8], u32>, from: &'a Catalogue, s: u32) -> u32
    ensures { (c : Catalogue) → HasStructs c known.now → result ≡ index_under c from.now s }
{
    if s == 0 {
        return 0;
    }
    known.get(&struct_name(from, s)).copied().unwrap_or(0)
}

/// The number of a struct by such a list.
pub fn number_at(numbers: &[u32], s: u32) -> u32
    ensures { result ≡ number_at numbers.now s }
{
    numbers.get(s as usize).copied().unwrap_or(0)
}
