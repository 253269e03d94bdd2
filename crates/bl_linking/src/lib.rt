//! References among datablocks, and what append, link and resolve make of files.
#![tactic(auto)]

mod links;

pub use links::{Edge, References};
