// The structs of a source under a draft's catalogue.
ghost use Rattle.std.specs.Prelude.{◌≡◌, ◌≢◌, ◌<◌, All, IfOk, IfErr, OnOk, None, length, true};
ghost use Rattle.bl_selection.specs.Fate.{first_clash};
ghost use Rattle.bl_plan.specs.Plans.{Carries, IsFaultOf};
ghost use Rattle.bl_file.specs.Outlines.{IsSound};
ghost use Rattle.bl_draft.specs.Own.{IsSourceDraft, entry_heads};
ghost use Rattle.bl_draft.specs.Numbers.{numbers_under};
ghost use Rattle.bl_draft.specs.Structs.{AreStructsOf, CarriesNode, HasNoClash, IsClashOf, number_under, source_form, target_form};

use crate::numbers::numbers_under;
use bl_file::{Head, Outline};
use bl_layout::Layout;
use bl_num::Items;
use bl_plan::{Plan, PlanFault};
use bl_selection::Draft;
use std::alloc::{AllocError, Global};

/// The structs of a source under a draft's catalogue.
#[derive(Drop)]
pub struct TargetStructs<'a> {
    /// The draft's catalogue, laid out at the width of its header.
    pub layout: &'a Layout,
    /// By the number of a struct of the source, its number in the draft's catalogue, or 0.
    pub numbers: Vec<u32>,
    /// By the number of a struct of the source, the plan by which its elements are carried over, where a
    /// node of the draft has it.
    pub plans: Vec<Plan>,
}

/// The structs of a draft's only source under the draft's catalogue, which is laid out. Or the first
/// float that a node would carry to another number: of the first node, and there of the first member.
pub fn structs_of<'a>(
    alloc: Global,
    outline: &Outline,
    draft: &Draft,
    layout: &'a Layout,
    heads: &[Head],
) -> Result<TargetStructs<'a>, PlanFault>
    requires sound { IsSound outline.now }
    requires draft { IsSourceDraft outline.now draft.now }
    requires catalogue { layout.now.catalogue ≡ draft.now.catalogue }
    requires width { layout.now.width ≡ draft.now.header.width }
    requires heads { heads.now ≡ entry_heads outline.now.nodes draft.now.entries }
    ensures made { IfOk result (AreStructsOf outline.now draft.now) }
    ensures passes { OnOk result (HasNoClash outline.now draft.now) }
    ensures refuses { IfErr result (IsClashOf outline.now draft.now) }
{
    let numbers = numbers_under(alloc, &draft.catalogue, outline.layout.catalogue())?;
    let plans = plans_of(alloc, outline, draft, layout, &numbers, heads)?;
    Ok(TargetStructs {
        layout,
        numbers,
        plans,
    })
}

// By the number of a struct of the source a plan, where a node of the draft has it.
fn plans_of(
    alloc: Global,
    outline: &Outline,
    draft: &Draft,
    layout: &Layout,
    numbers: &[u32],
    heads: &[Head],
) -> Result<Vec<Plan>, PlanFault>
    requires sound { IsSound outline.now }
    requires draft { IsSourceDraft outline.now draft.now }
    requires catalogue { layout.now.catalogue ≡ draft.now.catalogue }
    requires width { layout.now.width ≡ draft.now.header.width }
    requires numbers { numbers.now ≡ numbers_under draft.now.catalogue outline.now.layout.catalogue }
    requires heads { heads.now ≡ entry_heads outline.now.nodes draft.now.entries }
    ensures len { IfOk result (λ plans. length plans.items ≡ length outline.now.layout.catalogue.structs) }
    ensures carries { IfOk result (λ plans. All (CarriesNode outline.now draft.now plans.items) heads.now) }
    ensures passes { OnOk result (HasNoClash outline.now draft.now) }
    ensures refuses { IfErr result (IsClashOf outline.now draft.now) }
{
    let count = outline.layout.struct_count() as usize;
    let mut planned = vec![in alloc; false; count]?;
    let mut plans = empty_plans(alloc, count)?;
    for head in heads {
        let s = head.index as usize;
        if head.index != 0 && !planned[s] {
            plans[s] = plan_of(alloc, outline, draft, layout, head.index, numbers[s])?;
            planned[s] = true;
        }
    }
    Ok(plans)
}

// So many plans of nothing.
fn empty_plans(alloc: Global, count: usize) -> Result<Vec<Plan>, AllocError>
    ensures { IfOk result (λ plans. length plans.items ≡ count) }
{
    let mut plans = Vec::with_capacity(alloc, count)?;
    for _ in 0..count {
        plans.push(Plan {
            steps: Items::from_vec(Vec::new(alloc)),
        })?;
    }
    Ok(plans)
}

// The plan of a struct and its namesake. Where no number turns, more steps are joined.
fn plan_of(
    alloc: Global,
    outline: &Outline,
    draft: &Draft,
    layout: &Layout,
    s: u32,
    t: u32,
) -> Result<Plan, PlanFault>
    requires sound { IsSound outline.now }
    requires catalogue { layout.now.catalogue ≡ draft.now.catalogue }
    requires width { layout.now.width ≡ draft.now.header.width }
    requires s { s < length outline.now.layout.catalogue.structs }
    requires t { t ≡ number_under outline.now draft.now s }
    requires namesake { t ≢ 0 }
    ensures made { IfOk result (Carries (source_form outline.now s) (target_form outline.now draft.now s)) }
    ensures passes { OnOk result (first_clash (source_form outline.now s).leaves
        (target_form outline.now draft.now s).leaves ≡ None) }
    ensures refuses { IfErr result (IsFaultOf (source_form outline.now s).leaves
        (target_form outline.now draft.now s).leaves) }
{
    let plan = Plan::compile(alloc, &outline.layout, s, layout, t)?;
    if has_own_order(outline, draft) {
        Ok(plan.straight(alloc)?)
    } else {
        Ok(plan)
    }
}

// Whether a draft has its source's order of bytes, so that no number turns.
fn has_own_order(outline: &Outline, draft: &Draft) -> bool
    ensures { result ≡ true → outline.now.header.order ≡ draft.now.header.order }
{
    outline.header.order == draft.header.order
}
