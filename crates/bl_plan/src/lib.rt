//! What becomes of the members of a struct under another catalogue, and how its elements are carried
//! over: structs meet by name, and members by key.
#![tactic(auto)]

mod contents;
mod fates;
mod joining;
mod meeting;
mod members;
mod met_leaves;
mod names;
mod plans;
mod source_members;
mod steps;
mod straight;

pub use bl_selection::Fate;
pub use fates::member_fate;
pub use met_leaves::source_places;
pub use names::{known_members, known_structs};
pub use plans::PlanFault;
pub use steps::{Carry, Plan, Step};
