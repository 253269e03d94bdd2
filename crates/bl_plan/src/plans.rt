ghost use Rattle.std.specs.Prelude.{◌≡◌, ◌<◌, None, Some, IfOk, IfErr, OnOk, length, map};
ghost use Rattle.bl_format.specs.Layout.{named_leaves, struct_name};
ghost use Rattle.bl_selection.specs.Fate.{direct_member, first_clash};
ghost use Rattle.bl_plan.specs.declared.plans.PlanFault.TheVariants as faults;
ghost use Rattle.bl_plan.specs.Meetings.{leaf_at, meeting_of};
ghost use Rattle.bl_plan.specs.Plans.{IsFaultOf, IsPlanOf};
ghost use Rattle.bl_plan.specs.SourcePlaces.{source_place};

use crate::joining::push_step;
use crate::meeting::{Meeting, meeting_at};
use crate::members::{direct_member, leaf_count};
use crate::met_leaves::source_places;
use crate::steps::{Plan, Step};
use bl_layout::Layout;
use bl_num::{Items, NoMemory};
use std::alloc::{AllocError, Global};
use thiserror::Error;

/// Why elements of a struct can't be carried over.
#[derive(Clone, Copy, Debug, PartialEq, Eq, Error)]
pub enum PlanFault {
    /// A float meets another number, or a float of another type, at a member of the target's.
    #[error("member {member} of struct {t} would turn a float into another number")]
    FloatCast { t: u32, member: u32 },
    #[error("out of memory")]
    NoMemory,
}

impl From<NoMemory> for PlanFault {
    ghost from_gives = { λ _ e. e ≡ faults.NoMemory };

    fn from(_: NoMemory) -> PlanFault {
        PlanFault::NoMemory
    }
}

impl From<AllocError> for PlanFault {
    ghost from_gives = { λ _ e. e ≡ faults.NoMemory };

    fn from(_: AllocError) -> PlanFault {
        PlanFault::NoMemory
    }
}

impl Plan {
    /// The plan by which elements of struct `s` become elements of struct `t`, which has its name
    /// under another catalogue. Or the first member of the target at which a float would have to
    /// become another number.
    pub fn compile(
        alloc: Global,
        from: &Layout,
        s: u32,
        to: &Layout,
        t: u32,
    ) -> Result<Plan, PlanFault>
        requires s { s < length from.now.catalogue.structs }
        requires t { t < length to.now.catalogue.structs }
        requires name { struct_name from.now.catalogue s ≡ struct_name to.now.catalogue t }
        ensures made { IfOk result (IsPlanOf from.now.catalogue from.now.width s to.now.catalogue to.now.width t) }
        ensures passes { OnOk result (first_clash
            (named_leaves from.now.catalogue from.now.width s)
            (named_leaves to.now.catalogue to.now.width t) ≡ None) }
        ensures refuses { IfErr result (IsFaultOf
            (named_leaves from.now.catalogue from.now.width s)
            (named_leaves to.now.catalogue to.now.width t)) }
    {
        let found = source_places(alloc, from, s, to, t)?;
        let steps = steps_of(alloc, from, s, to, t, found.as_slice())?;
        Ok(Plan {
            steps: Items::from_vec(steps),
        })
    }
}

// The steps of a plan, where it is known which leaves meet.
fn steps_of(
    alloc: Global,
    from: &Layout,
    s: u32,
    to: &Layout,
    t: u32,
    found: &[Option<u32>],
) -> Result<Vec<Step>, PlanFault>
    requires s { s < length from.now.catalogue.structs }
    requires t { t < length to.now.catalogue.structs }
    requires found { found.now
        ≡ map (source_place (named_leaves from.now.catalogue from.now.width s))
        (named_leaves to.now.catalogue to.now.width t) }
    ensures made { IfOk result (λ steps. IsPlanOf from.now.catalogue from.now.width s
        to.now.catalogue to.now.width t (record { steps = steps.items })) }
    ensures passes { OnOk result (first_clash
        (named_leaves from.now.catalogue from.now.width s)
        (named_leaves to.now.catalogue to.now.width t) ≡ None) }
    ensures refuses { IfErr result (IsFaultOf
        (named_leaves from.now.catalogue from.now.width s)
        (named_leaves to.now.catalogue to.now.width t)) }
{
    let (sources, targets) = (leaf_count(from, s), leaf_count(to, t));
    let mut steps = Vec::with_capacity(alloc, sources.min(targets) as usize)?;
    for leaf in 0..targets {
        match meeting_of(from, s, found[leaf as usize], to, t, leaf) {
            Meeting::Fresh => {}
            Meeting::Carried(step) => push_step(&mut steps, step)?,
            Meeting::Clash => return Err(clash_at(to, t, leaf)),
        }
    }
    Ok(steps)
}

// What becomes of a leaf of struct `t`, which meets a leaf of struct `s` or none.
fn meeting_of(from: &Layout, s: u32, found: Option<u32>, to: &Layout, t: u32, leaf: u32) -> Meeting
    requires s { s < length from.now.catalogue.structs }
    requires t { t < length to.now.catalogue.structs }
    requires leaf { leaf < length (named_leaves to.now.catalogue to.now.width t) }
    requires found { found ≡ source_place (named_leaves from.now.catalogue from.now.width s)
        (leaf_at to.now t leaf) }
    ensures { result ≡ meeting_of from.now.width to.now.width
        (named_leaves from.now.catalogue from.now.width s) found (leaf_at to.now t leaf) }
{
    match found {
        Some(source) => meeting_at(from, s, source, to, t, leaf),
        None => Meeting::Fresh,
    }
}

// The fault of a leaf that can't be carried over.
fn clash_at(to: &Layout, t: u32, leaf: u32) -> PlanFault
    requires t { t < length to.now.catalogue.structs }
    requires leaf { leaf < length (named_leaves to.now.catalogue to.now.width t) }
    ensures { result ≡ faults.FloatCast (direct_member (leaf_at to.now t leaf).way).0
        (direct_member (leaf_at to.now t leaf).way).1 }
{
    let direct = direct_member(to, t, leaf);
    PlanFault::FloatCast {
        t: direct.s,
        member: direct.member,
    }
}
