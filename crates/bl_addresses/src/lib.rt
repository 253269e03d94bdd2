//! Which nodes of a file addresses name.
#![tactic(auto)]

mod groups;
mod marks;
mod order;
mod search;
mod spans;
mod table;

pub use groups::groups_of;
pub use table::Table;
