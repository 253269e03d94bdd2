// What is tested of a draft before anything is read, and what is made of its structs.
ghost use Rattle.std.specs.Prelude.{◌≡◌, ◌≤◌, IfOk, IfErr, OnOk, length};
ghost use Rattle.bl_format.specs.Limits.{most_output_nodes};
ghost use Rattle.bl_format.specs.Layout.{HasLayout};
ghost use Rattle.bl_file.specs.Outlines.{IsSound};
ghost use Rattle.bl_draft.specs.Own.{IsSourceDraft, entry_heads};
ghost use Rattle.bl_draft.specs.Structs.{AreStructsOf, HasNoClash};
ghost use Rattle.bl_writer.specs.declared.fault.WriteFault.TheVariants as faults;
ghost use Rattle.bl_writer.specs.Faults.{IsDraftFault, fault_of_plan};

use crate::fault::WriteFault;
use bl_draft::{Draft, TargetStructs, structs_of};
use bl_file::{Head, Outline};
use bl_layout::Layout;
use bl_plan::PlanFault;
use std::alloc::Global;

// How many nodes an output may have.
const MOST_OUTPUT_NODES: u64 = 8_388_608;

/// A draft's catalogue, laid out at the width of its header. It has a layout, so that only memory may
/// be wanted.
pub fn layout_of(alloc: Global, draft: &Draft) -> Result<Layout, WriteFault>
    requires { HasLayout draft.now.catalogue draft.now.header.width }
    ensures made { IfOk result (λ layout.
        layout ≡ record { catalogue = draft.now.catalogue; width = draft.now.header.width }) }
    ensures refuses { IfErr result (λ fault. fault ≡ faults.NoMemory) }
{
    match Layout::new(alloc, &draft.catalogue, draft.header.width) {
        Ok(layout) => Ok(layout),
        Err(_) => Err(WriteFault::NoMemory),
    }
}

/// The structs of a file under a draft's catalogue, unless a float would become another number, or
/// the draft has too many nodes.
pub fn checked_structs<'a>(
    alloc: Global,
    outline: &Outline,
    draft: &Draft,
    layout: &'a Layout,
    heads: &[Head],
) -> Result<TargetStructs<'a>, WriteFault>
    requires sound { IsSound outline.now }
    requires draft { IsSourceDraft outline.now draft.now }
    requires catalogue { layout.now.catalogue ≡ draft.now.catalogue }
    requires width { layout.now.width ≡ draft.now.header.width }
    requires heads { heads.now ≡ entry_heads outline.now.nodes draft.now.entries }
    ensures made { IfOk result (AreStructsOf outline.now draft.now) }
    ensures passes { OnOk result (HasNoClash outline.now draft.now) }
    ensures few { OnOk result (length draft.now.entries ≤ most_output_nodes) }
    ensures refuses { IfErr result (IsDraftFault outline.now draft.now) }
{
    let structs = match structs_of(alloc, outline, draft, layout, heads) {
        Ok(structs) => structs,
        Err(fault) => return Err(plan_fault(fault)),
    };
    let count = draft.entries.as_slice().len() as u64;
    if count > MOST_OUTPUT_NODES {
        return Err(WriteFault::TooManyBlocks(count));
    }
    Ok(structs)
}

// A fault of plans as that of a draft that isn't rendered.
fn plan_fault(fault: PlanFault) -> WriteFault
    ensures { result ≡ fault_of_plan fault }
{
    match fault {
        PlanFault::FloatCast { t, member } => WriteFault::FloatCast { t, member },
        PlanFault::NoMemory => WriteFault::NoMemory,
    }
}
