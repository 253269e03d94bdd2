//! Files that are read: their bytes, whole or a part at a time, and what these read as.
#![tactic(auto)]

mod basics;
mod fault;
mod fault_names;
mod id_parts;
mod kinds;
mod layout;
mod node_views;
mod nodes;
mod opened;
mod outline;
mod paged;
mod payload;
mod reading;
mod speakers;
mod targets;
mod views;
mod whole;

pub use basics::basic_lengths;
pub use bl_format::{BlockFault, Head, HeadFault, Header, LayoutFault, RawKind, SdnaFault};
pub use fault::OpenFault;
pub use kinds::{kinds_heard, kinds_in_groups};
pub use nodes::ids_of;
pub use opened::open;
pub use outline::{Opened, Outline};
pub use paged::PagedPayload;
pub use payload::Payload;
pub use speakers::{Speaker, said_by};
pub use targets::{FileTargets, Targets};
pub use views::Sight;
pub use whole::WholePayload;
