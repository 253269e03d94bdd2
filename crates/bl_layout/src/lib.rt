//! Where the members of a catalogue's structs stand, and what they hold.
#![tactic(auto)]

mod basic_types;
mod check;
mod check_tables;
mod components;
mod copy;
mod duplicates;
mod graph;
mod identifiers;
mod layout;
mod leaf_counts;
mod leaf_levels;
mod leaves;
mod member_names;
mod member_parts;
mod members;
mod nesting;
mod new_lengths;
mod new_width;
mod offsets;
mod pointees;
mod ranks;
mod rings;
mod shape_tables;
mod shapes;
mod struct_search;
mod tables;
mod types;

pub use basic_types::{Basic, Content};
pub use bl_format::{Kind, LayoutFault, Leaf, PathStep, Shape};
pub use copy::copy_of;
pub use layout::{Layout, RefusedCatalogue};
pub use member_names::member_identifier;
pub use new_width::rewidth;
