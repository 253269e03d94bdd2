//! What each command prints, and what it refuses.
#![tactic(auto)]

/// The crate has definitions alone.
pub fn definitions() {}
