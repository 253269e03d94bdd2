//! Drafts, written: their nodes as blocks, and the whole output staged.
#![tactic(auto)]

mod blocks;
mod buffer;
mod checked;
mod elements;
mod fault;
mod measure;
mod node_images;
mod nodes;
mod output;
mod output_staged;
mod payloads;
mod rendering;
mod staging;

pub use fault::WriteFault;
pub use rendering::{Totals, render};
