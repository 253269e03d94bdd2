// Steps one behind another, joined where one can do what two do.
ghost use Rattle.std.specs.Prelude.{◌≡◌, ◌<◌, ◌+◌, ◌^◌, ◌++◌, OnOk};
ghost use Rattle.bl_plan.specs.Meetings.{continues, joined, one_or_two, with_step};

use crate::steps::{Carry, Step};
use bl_num::NoMemory;

/// Puts a step behind others, as one with the last of them where that is possible.
pub fn push_step(steps: &mut Vec<Step>, step: Step) -> Result<(), NoMemory>
    ensures { OnOk result (steps.new.items ≡ with_step steps.old.items step) }
{
    match steps.pop() {
        Some(last) => push_both(steps, last, step),
        None => Ok(steps.push(step)?),
    }
}

// Puts two steps behind others, as one where that is possible.
fn push_both(steps: &mut Vec<Step>, first: Step, second: Step) -> Result<(), NoMemory>
    ensures { OnOk result (steps.new.items ≡ steps.old.items ++ one_or_two first second) }
{
    if continues(first, second) {
        steps.push(joined(first, second))?;
    } else {
        steps.push(first)?;
        steps.push(second)?;
    }
    Ok(())
}

// Whether a step reads and writes just behind another, both keep elements of one size, and 32 bits can
// count the elements of both.
fn continues(first: Step, second: Step) -> bool
    ensures { result ≡ continues first second }
{
    match (first.carry, second.carry) {
        (Carry::Kept(size), Carry::Kept(next)) => {
            let len = u64::from(first.count) * u64::from(size);
            size == next
                && u64::from(first.from) + len == u64::from(second.from)
                && u64::from(first.to) + len == u64::from(second.to)
                && u64::from(first.count) + u64::from(second.count) < 0x1_0000_0000
        }
        _ => false,
    }
}

// Both as one.
fn joined(first: Step, second: Step) -> Step
    requires { first.count + second.count < 2 ^ 32 }
    ensures { result ≡ joined first second }
{
    Step {
        count: first.count + second.count,
        ..first
    }
}
