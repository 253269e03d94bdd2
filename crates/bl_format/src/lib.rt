//! The `.blend` file: its header, blocks and catalogue, and what they mean.
#![tactic(auto)]

mod catalogue;
mod file;
mod layout;
mod raw;

pub use catalogue::{Catalogue, MemberEntry, SdnaFault, StructEntry, TypeEntry};
pub use file::{BlockFault, Head, HeadFault, Header, Step};
pub use layout::{Kind, LayoutFault, Leaf, PathStep, Shape};
pub use raw::{RawKind, View};
