ghost use Rattle.std.specs.Prelude.{◌≡◌, ◌≤◌, ◌<◌, ◌+◌, ◌*◌, ◌^◌, ◌++◌, ◌∷◌, [], All, IfOk, OnOk, map};
ghost use Rattle.bl_layout.specs.Leaves.{leaf_behind_on, step_into, element_leaves, leaves_of_elements, leaf_of_part};

use bl_format::{Kind, Leaf, PathStep};
use bl_num::Items;
use std::alloc::{AllocError, Global};

/// A member and what its leaves are made from.
#[derive(Clone, Copy)]
pub struct Part {
    pub member: u32,
    pub name_number: u16,
    /// Where it stands in its struct.
    pub offset: u32,
    /// The bytes of one element.
    pub size: u32,
    /// How many elements it has.
    pub count: u32,
}

/// The one leaf of a member that isn't a struct by value.
pub fn own_leaf(alloc: Global, part: Part, kind: Kind) -> Result<Leaf, AllocError>
    ensures { IfOk result (λ leaf. leaf ≡ leaf_of_part part kind) }
{
    let step = PathStep {
        name_number: part.name_number,
        element: 0,
    };
    Ok(Leaf {
        member: part.member,
        steps: steps_behind(alloc, step, &[])?,
        kind,
        offset: part.offset,
        size: part.size,
        count: part.count,
    })
}

/// Puts the leaves of all elements at the end; `inside` has those of the struct that each one is.
pub fn push_elements(
    alloc: Global,
    part: Part,
    inside: &[Leaf],
    leaves: &mut Vec<Leaf>,
) -> Result<(), AllocError>
    requires near { part.offset + part.size * part.count < 2 ^ 31 }
    requires small { All (λ x. x.offset < 2 ^ 31) inside.now }
    ensures { OnOk result (leaves.new.items ≡ leaves.old.items
        ++ leaves_of_elements part inside.now part.count) }
{
    // Bytes without leaves may have many elements.
    if inside.is_empty() {
        return Ok(());
    }
    for element in 0..part.count {
        let by = place_of(part, element);
        push_element(alloc, part, element, by, inside, leaves)?;
    }
    Ok(())
}

// Where an element stands.
fn place_of(part: Part, element: u32) -> u32
    requires near { part.offset + part.size * part.count < 2 ^ 31 }
    requires inside { element < part.count }
    ensures place { result ≡ part.offset + element * part.size }
    ensures near { result < 2 ^ 31 }
{
    part.offset + element * part.size
}

// Puts the leaves of one element at the end; `inside` has those of the struct that it is.
fn push_element(
    alloc: Global,
    part: Part,
    element: u32,
    by: u32,
    inside: &[Leaf],
    leaves: &mut Vec<Leaf>,
) -> Result<(), AllocError>
    requires place { by ≡ part.offset + element * part.size }
    requires near { by < 2 ^ 31 }
    requires small { All (λ x. x.offset < 2 ^ 31) inside.now }
    ensures { OnOk result (leaves.new.items ≡ leaves.old.items
        ++ element_leaves part inside.now element) }
{
    let step = PathStep {
        name_number: part.name_number,
        element,
    };
    for leaf in inside {
        leaves.push(leaf_behind(alloc, part.member, step, by, leaf)?)?;
    }
    Ok(())
}

// A leaf of an inner struct as one of the outer struct, `by` bytes further on.
fn leaf_behind(
    alloc: Global,
    member: u32,
    step: PathStep,
    by: u32,
    leaf: &Leaf,
) -> Result<Leaf, AllocError>
    requires { by + leaf.now.offset < 2 ^ 32 }
    ensures { IfOk result (λ moved. moved ≡ leaf_behind_on member step by leaf.now) }
{
    Ok(Leaf {
        member,
        steps: steps_behind(alloc, step, leaf.steps.as_slice())?,
        kind: leaf.kind,
        offset: by + leaf.offset,
        size: leaf.size,
        count: leaf.count,
    })
}

// Some steps behind one more.
fn steps_behind(
    alloc: Global,
    step: PathStep,
    steps: &[PathStep],
) -> Result<Items<PathStep>, AllocError>
    ensures { IfOk result (λ longer. longer ≡ step ∷ steps.now) }
{
    let mut longer = Vec::with_capacity(alloc, steps.len() + 1)?;
    longer.push(step)?;
    longer.extend_from_slice(steps)?;
    Ok(Items::from_vec(longer))
}
