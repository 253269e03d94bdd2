// One element of the source's struct as one of the target's.
ghost use Rattle.std.specs.Prelude.{◌≡◌, ◌≤◌, ◌+◌, ◌*◌, ◌++◌, length};
ghost use Rattle.bl_num.specs.Numbers.{pointer_bytes};
ghost use Rattle.bl_members.specs.Leaf.{replaced_at};
ghost use Rattle.bl_plan.specs.Steps.{PlanFits, StepFits, applied, source_size, step_end, step_written, target_size};
ghost use Rattle.bl_rebuild.specs.Runs.{cleared, run_written};

use crate::numbers::{cast_numbers, keep_numbers, write_pointers};
use bl_num::{Order, Width};
use bl_plan::{Carry, Plan, Step};
use bl_ptrarrays::Images;

/// Makes of one element of the source's struct one of the target's, by the plan of both: values are
/// carried over, pointers become the addresses that their targets have in the output, and all bytes
/// outside become zeros.
pub fn apply<I: Images>(plan: &Plan, src: &[u8], from: Order, to: Order, images: &I, dst: &mut [u8])
    requires fits { PlanFits (length src.now) (length dst.old) plan.now }
    ensures applied { dst.new ≡ applied plan.now (I.names images.now) from to src.now (length dst.old) }
    ensures length { length dst.new ≡ length dst.old }
{
    let mut done = 0;
    let steps = plan.steps.as_slice();
    for step in steps {
        clear(done, step.to as usize, dst);
        put_step(*step, src, from, to, images, dst);
        done = step_end(*step);
    }
    clear(done, dst.len(), dst);
}

// Puts zeros from one place to another.
fn clear(from: usize, to: usize, dst: &mut [u8])
    requires order { from ≤ to }
    requires inside { to ≤ length dst.old }
    ensures cleared { dst.new ≡ cleared from to dst.old }
    ensures length { length dst.new ≡ length dst.old }
{
    if from < to {
        let (_, rest) = dst.split_at_mut(from);
        let (own, _) = rest.split_at_mut(to - from);
        own.fill(0);
    }
}

// Puts what a step writes at its place.
fn put_step<I: Images>(step: Step, src: &[u8], from: Order, to: Order, images: &I, dst: &mut [u8])
    requires fits { StepFits (length src.now) step }
    requires room { step_end step ≤ length dst.old }
    ensures put { dst.new ≡ replaced_at step.to (step_written (I.names images.now) from to src.now step)
        dst.old }
    ensures length { length dst.new ≡ length dst.old }
{
    let own_src = &src[step.from as usize..][..step.count as usize * source_size(step.carry)];
    let (_, rest) = dst.split_at_mut(step.to as usize);
    let (own_dst, _) = rest.split_at_mut(step.count as usize * target_size(step.carry));
    write_run(step, own_src, from, to, images, own_dst);
}

// Writes the elements of a step, where the bytes of both sides are those of its elements alone.
fn write_run<I: Images>(step: Step, src: &[u8], from: Order, to: Order, images: &I, dst: &mut [u8])
    requires fits { StepFits (step.from + length src.now) step }
    requires src { length src.now ≡ step.count * source_size step.carry }
    requires dst { length dst.old ≡ step.count * target_size step.carry }
    ensures { dst.new ≡ run_written (I.names images.now) from to step.carry step.count src.now }
{
    let count = step.count as usize;
    match step.carry {
        Carry::Kept(size) => keep_numbers(size, from, to, src, dst),
        Carry::Cast { source, target } => cast_numbers(source, target, count, from, to, src, dst),
        Carry::Pointers { source, target } => {
            write_pointers(
                pointer_bytes(source),
                pointer_bytes(target),
                count,
                from,
                to,
                src,
                images,
                dst,
            )
        }
    }
}

// The bytes of one element in the source.
fn source_size(carry: Carry) -> usize
    ensures { result ≡ source_size carry }
{
    match carry {
        Carry::Kept(size) => usize::from(size),
        Carry::Cast { source, .. } => usize::from(source.bytes),
        Carry::Pointers { source, .. } => pointer_bytes(source),
    }
}

// The bytes of one element in the target.
fn target_size(carry: Carry) -> usize
    ensures { result ≡ target_size carry }
{
    match carry {
        Carry::Kept(size) => usize::from(size),
        Carry::Cast { target, .. } => usize::from(target.bytes),
        Carry::Pointers { target, .. } => pointer_bytes(target),
    }
}

// The place behind what a step writes.
fn step_end(step: Step) -> usize
    ensures { result ≡ step_end step }
{
    step.to as usize + step.count as usize * target_size(step.carry)
}

// The bytes of a pointer.
fn pointer_bytes(width: Width) -> usize
    ensures { result ≡ pointer_bytes width }
{
    match width {
        Width::Four => 4,
        Width::Eight => 8,
    }
}
