//! What stands in the leaves of a struct's bytes, read and written, and the nodes that are made of
//! such values.
#![tactic(auto)]

mod leaf;

pub use bl_format::{Kind, Leaf, PathStep};
pub use bl_num::Order;
pub use bl_selection::{Made, MadeTo, MadeValue};
pub use leaf::{leaf_bytes, read_leaf, write_leaf};
