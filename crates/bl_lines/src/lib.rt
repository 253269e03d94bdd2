//! The lines that a run prints: the summary of a command that writes, those of a catalogue and of the
//! fates under another one, and what ended a run.
#![tactic(auto)]

mod endings;
mod fates;
mod faults;
mod printed;
mod schema;
mod shown;

pub use bl_commands::{Ending, FileFault, Lack, Quantity};
pub use bl_selection::Fate;
pub use endings::{block_ending, head_ending, layout_ending, sdna_ending};
pub use fates::{common_struct_line, fate_line, new_struct_line};
pub use printed::{fault_line, status_of, summary_line};
pub use schema::{member_line, schema_line, struct_line};
