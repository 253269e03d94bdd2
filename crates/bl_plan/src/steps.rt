use bl_num::{Items, Whole, Width};

/// How an element of the source becomes one of the target.
#[derive(Clone, Copy, Debug)]
pub enum Carry {
    /// A number of so many bytes, 1, 2, 4 or 8, has the same bits; so has a byte.
    Kept(u8),
    /// A whole number is cast from one type to another.
    Cast { source: Whole, target: Whole },
    /// A pointer becomes the address that its target has in the output, at another width.
    Pointers { source: Width, target: Width },
}

/// Elements side by side that are carried over in one way.
#[derive(Clone, Copy, Debug)]
pub struct Step {
    /// Where the first one stands in an element of the source's struct.
    pub from: u32,
    /// Where it goes in one of the target's.
    pub to: u32,
    pub count: u32,
    pub carry: Carry,
}

/// How an element of a struct becomes one of its namesake under another catalogue: steps in the order
/// of their places in the target. What no step covers becomes zeros.
#[derive(Debug, Drop)]
pub struct Plan {
    pub steps: Items<Step>,
}
