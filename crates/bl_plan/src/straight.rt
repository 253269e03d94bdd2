// Plans between forms of one order of bytes, in which no number turns.
ghost use Rattle.std.specs.Prelude.{◌≡◌, ◌<◌, true, IfOk};
ghost use Rattle.bl_selection.specs.Carried.{StructForm};
ghost use Rattle.bl_plan.specs.Plans.{Carries, CopiesWhole};
ghost use Rattle.bl_plan.specs.Straight.{bytewise, copies_whole, keep_first, keeps_first, straight};

use crate::joining::push_step;
use crate::steps::{Carry, Plan, Step};
use bl_num::{Items, NoMemory};
use std::alloc::Global;

impl Plan {
    /// A plan that does the same wherever both forms have one order of bytes. Then no number turns, and
    /// steps are joined that keep elements of different sizes side by side.
    pub fn straight(&self, alloc: Global) -> Result<Plan, NoMemory>
        ensures is { IfOk result (λ plan. plan.steps ≡ straight self.now.steps) }
        ensures carries { IfOk result (λ plan. (x y : StructForm) → x.order ≡ y.order
            → Carries x y self.now → Carries x y plan) }
    {
        let own = self.steps.as_slice();
        let mut steps = Vec::new(alloc);
        for step in own {
            push_step(&mut steps, bytewise(*step))?;
        }
        Ok(Plan {
            steps: Items::from_vec(steps),
        })
    }

    /// Whether elements of so many bytes stay as they are, byte by byte, wherever both forms have one
    /// order of bytes.
    pub fn copies_whole(&self, from: u32, to: u32) -> bool
        ensures is { result ≡ copies_whole from to self.now }
        ensures copies { result ≡ true → (x y : StructForm) → x.order ≡ y.order
            → x.size ≡ from → y.size ≡ to → CopiesWhole x y self.now }
    {
        from == to && keep_first(from, self.steps.as_slice())
    }
}

// A step that keeps elements keeps their bytes, where 32 bits can count these.
fn bytewise(step: Step) -> Step
    ensures { result ≡ bytewise step }
{
    let Carry::Kept(size) = step.carry else {
        return step;
    };
    let len = u64::from(step.count) * u64::from(size);
    if len < 0x1_0000_0000 {
        Step {
            count: len as u32,
            carry: Carry::Kept(1),
            ..step
        }
    } else {
        step
    }
}

// Whether steps keep the first bytes at their place, at once.
fn keep_first(size: u32, steps: &[Step]) -> bool
    ensures { result ≡ keep_first size steps.now }
{
    match steps.split_first() {
        Some((first, rest)) => rest.is_empty() && keeps_first(size, *first),
        None => size == 0,
    }
}

// Whether a step keeps the first bytes at their place.
fn keeps_first(size: u32, step: Step) -> bool
    ensures { result ≡ keeps_first size step }
{
    match step.carry {
        Carry::Kept(bytes) => {
            step.from == 0
                && step.to == 0
                && u64::from(step.count) * u64::from(bytes) == u64::from(size)
        }
        _ => false,
    }
}
