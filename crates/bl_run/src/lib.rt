//! The commands, and a run of the program over any shelf and any sink.
#![tactic(auto)]

mod commands;
mod committing;
mod opening;
mod printing;
mod rendering;
mod running;

pub use running::run;
