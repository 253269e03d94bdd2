// The fault of a catalogue without a layout, with the names of the struct and the member.
ghost use Rattle.std.specs.Prelude.{◌≡◌, ◌≢◌, ◌⊎◌, IfOk};
ghost use Rattle.bl_file.specs.Opening.{member_at, named_fault, owner_at, place_of_fault};

use crate::fault::OpenFault;
use bl_format::{Catalogue, LayoutFault};
use bl_num::Text;
use bl_sdna::{member_name, struct_name};
use std::alloc::{AllocError, Global};

// The numbers of the struct and the member where a fault stands, if it stands at one.
fn place_of_fault(fault: LayoutFault) -> Option<(u32, u32)>
    ensures { result ≡ place_of_fault fault }
{
    match fault {
        LayoutFault::BadName { s, member }
        | LayoutFault::BasicLength { s, member }
        | LayoutFault::Overrun { s, member }
        | LayoutFault::Cyclic { s, member }
        | LayoutFault::DuplicateMember { s, member } => Some((s, member)),
        LayoutFault::TooDeep(_)
        | LayoutFault::TooManyLeaves(_)
        | LayoutFault::TooLong(_)
        | LayoutFault::NoMemory => None,
    }
}

// The name of the struct at a place.
fn owner_at(catalogue: &Catalogue, place: Option<(u32, u32)>) -> &[u8]
    ensures { result.now ≡ owner_at catalogue.now place }
{
    match place {
        Some((s, _)) => struct_name(catalogue, s),
        None => &[],
    }
}

// The whole name of the member at a place.
fn member_at(catalogue: &Catalogue, place: Option<(u32, u32)>) -> &[u8]
    ensures { result.now ≡ member_at catalogue.now place }
{
    match place {
        Some((s, member)) => member_name(catalogue, s, member),
        None => &[],
    }
}

// A layout's fault with the names of the struct and the member.
#[tactic(auto, unfolding(crate::specs::Opening::named_fault))]
fn named_fault(
    alloc: Global,
    catalogue: &Catalogue,
    fault: LayoutFault,
) -> Result<OpenFault, AllocError>
    ensures { IfOk result (λ named. named ≡ named_fault catalogue.now fault) }
{
    let place = place_of_fault(fault);
    let owner = Text::from_slice(alloc, owner_at(catalogue, place))?;
    let member = Text::from_slice(alloc, member_at(catalogue, place))?;
    Ok(OpenFault::Layout {
        fault,
        owner,
        member,
    })
}

/// Why a file whose catalogue has no layout isn't opened.
pub fn layout_fault(alloc: Global, catalogue: &Catalogue, fault: LayoutFault) -> OpenFault
    ensures { (result ≡ OpenFault.NoMemory)
        ⊎ ((fault ≢ LayoutFault.NoMemory) × (result ≡ named_fault catalogue.now fault)) }
{
    if fault == LayoutFault::NoMemory {
        return OpenFault::NoMemory;
    }
    match named_fault(alloc, catalogue, fault) {
        Ok(named) => named,
        Err(_) => OpenFault::NoMemory,
    }
}
