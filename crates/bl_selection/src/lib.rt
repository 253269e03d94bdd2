//! Selections of nodes under a catalogue, and the file in which a graph is written.
#![tactic(auto)]

mod draft;

pub use draft::{Draft, Entry, Fate, Made, MadeTo, MadeValue, Override};
