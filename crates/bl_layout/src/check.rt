ghost use Rattle.std.specs.Prelude.{◌≡◌, ◌≤◌, ◌<◌, ◌+◌, ◌^◌, ◌⊎◌, None, Some, suc, All, IfOk, IfErr, OnOk, length, map};
ghost use Rattle.bl_format.specs.Schema.{IsCatalogue};
ghost use Rattle.bl_format.specs.Words.{find_map};
ghost use Rattle.bl_format.specs.Layout.{member_count, member_numbers, member_entry, member_fault, member_offset, struct_length, is_duplicate, leads_back, inner_struct};
ghost use Rattle.bl_layout.specs.Tables.{AreTables, numbered};
ghost use Rattle.bl_layout.specs.Identifiers.{AreIdentifierNumbers};
ghost use Rattle.bl_layout.specs.Check.{IsFirstBack, IsFirstRepeat, first_failed, struct_fault};

use crate::duplicates::first_duplicate;
use crate::members::{content_of, has_bad_length, member_size, name_of};
use crate::tables::Tables;
use bl_format::{Catalogue, LayoutFault, MemberEntry};
use bl_num::Width;
use std::alloc::Global;

/// A member and what is known of it beside its entry.
#[derive(Clone, Copy)]
pub struct Checked {
    pub s: u32,
    pub member: u32,
    pub entry: MemberEntry,
    /// Whether its identifier stood before.
    pub is_duplicate: bool,
    /// Whether it leads back to its struct.
    pub leads_back: bool,
    /// Where it ends in its struct.
    pub end: u64,
}

/// The first check that a member fails.
pub fn member_fault(
    catalogue: &Catalogue,
    tables: &Tables,
    width: Width,
    member: Checked,
) -> Option<LayoutFault>
    requires catalogue { IsCatalogue catalogue.now }
    requires tables { AreTables catalogue.now tables.now }
    requires place { member.s < length catalogue.now.structs }
    requires number { member.member < member_count catalogue.now member.s }
    requires entry { member.entry ≡ member_entry catalogue.now member.s member.member }
    requires duplicate { member.is_duplicate ≡ is_duplicate catalogue.now member.s member.member }
    requires back { member.leads_back
        ≡ leads_back catalogue.now member.s (inner_struct catalogue.now member.s member.member) }
    requires end { member.end ≡ member_offset catalogue.now width member.s (suc member.member) }
    ensures { result ≡ member_fault catalogue.now width member.s member.member }
{
    let Checked {
        s,
        member: number,
        entry,
        ..
    } = member;
    let own = catalogue.structs.as_slice()[s as usize].type_number;
    let types = catalogue.types.as_slice();
    let name = name_of(catalogue, tables, entry);
    let content = content_of(catalogue, tables, entry.type_number);
    let length = types[entry.type_number as usize].length;
    let own_content = content_of(catalogue, tables, own);
    let own_length = types[own as usize].length;
    let failed = Failed {
        name: !name.is_good,
        identifier: member.is_duplicate,
        length: has_bad_length(own_content, content, length, name.shape.pointer),
        leads_back: member.leads_back,
        overruns: member.end > u64::from(own_length),
    };
    first_failed(failed, s, number)
}

// The checks that a member fails.
#[derive(Clone, Copy)]
struct Failed {
    name: bool,
    identifier: bool,
    length: bool,
    leads_back: bool,
    overruns: bool,
}

fn first_failed(failed: Failed, s: u32, member: u32) -> Option<LayoutFault>
    ensures { result ≡ first_failed failed s member }
{
    if failed.name {
        Some(LayoutFault::BadName { s, member })
    } else if failed.identifier {
        Some(LayoutFault::DuplicateMember { s, member })
    } else if failed.length {
        Some(LayoutFault::BasicLength { s, member })
    } else if failed.leads_back {
        Some(LayoutFault::Cyclic { s, member })
    } else if failed.overruns {
        Some(LayoutFault::Overrun { s, member })
    } else {
        None
    }
}

/// The first members of a struct that fail the checks on more than one member; how many members
/// there are, where none does.
#[derive(Clone, Copy)]
pub struct Suspects {
    /// The first whose identifier stood before.
    pub duplicate: usize,
    /// The first that leads back to the struct.
    pub back: usize,
}

/// Where the members of a struct stand, or the first fault of one.
pub fn struct_offsets(
    alloc: Global,
    catalogue: &Catalogue,
    tables: &Tables,
    width: Width,
    s: u32,
    suspects: Suspects,
) -> Result<Vec<u32>, LayoutFault>
    requires catalogue { IsCatalogue catalogue.now }
    requires tables { AreTables catalogue.now tables.now }
    requires place { s < length catalogue.now.structs }
    requires duplicate { IsFirstRepeat catalogue.now s suspects.duplicate }
    requires back { IsFirstBack catalogue.now s suspects.back }
    ensures offsets { IfOk result (λ offsets.
        offsets.items ≡ map (member_offset catalogue.now width s) (member_numbers catalogue.now s)) }
    ensures passes { OnOk result (struct_fault catalogue.now width s ≡ None) }
    ensures refuses { IfErr result (λ fault.
        (fault ≡ LayoutFault.NoMemory) ⊎ (struct_fault catalogue.now width s ≡ Some fault)) }
{
    let members = catalogue.structs.as_slice()[s as usize].members.as_slice();
    let mut offsets = Vec::with_capacity(alloc, members.len())?;
    let mut offset = 0;
    for (k, entry) in members.iter().enumerate() {
        let end = offset + member_size(catalogue, tables, width, *entry);
        let member = Checked {
            s,
            member: k as u32,
            entry: *entry,
            is_duplicate: k == suspects.duplicate,
            leads_back: k == suspects.back,
            end,
        };
        if let Some(fault) = member_fault(catalogue, tables, width, member) {
            return Err(fault);
        }
        offsets.push(offset as u32)?;
        offset = end;
    }
    Ok(offsets)
}

/// The first member of a struct whose identifier stood before in it, or how many members there are.
pub fn first_repeat(catalogue: &Catalogue, identifiers: &[u32], s: u32, marks: &mut [u32]) -> usize
    requires catalogue { IsCatalogue catalogue.now }
    requires identifiers { AreIdentifierNumbers (numbered catalogue.now.names) identifiers.now }
    requires place { s < length catalogue.now.structs }
    requires marks { length marks.old ≡ length (numbered catalogue.now.names) }
    requires fresh { All (λ m. m < s + 1) marks.old }
    ensures first { IsFirstRepeat catalogue.now s result }
    ensures marked { All (λ m. m ≤ s + 1) marks.new }
{
    let members = catalogue.structs.as_slice()[s as usize].members.as_slice();
    first_duplicate(members, identifiers, marks, s + 1)
}
