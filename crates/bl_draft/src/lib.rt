//! Selections of nodes under a catalogue, and the selection of a whole file.
#![tactic(auto)]

mod draft_kinds;
mod entries;
mod fault;
mod heads;
mod kept;
mod kinds;
mod numbers;
mod own;
mod prepared;
mod speakers;
mod structs;
mod targets;
mod whole;

pub use bl_selection::{Draft, Entry, Made, MadeTo, MadeValue, Override};
pub use draft_kinds::kinds_for;
pub use fault::DraftFault;
pub use heads::heads_of;
pub use kinds::{kinds_of_all, kinds_of_entries};
pub use own::has_own_structs;
pub use prepared::Prepared;
pub use structs::{TargetStructs, structs_of};
pub use targets::{EntryTargets, has_file_ids, targets_of};
pub use whole::{is_of_all, whole_draft};
