//! The words of the commands, and the texts that they print.
#![tactic(auto)]

mod command;
mod ending;
mod keeper;
mod path;
mod report;
mod word;

pub use command::{Command, ConvertOptions, HeadForm};
pub use ending::{Ending, FileFault, Lack, Quantity};
pub use keeper::Keeper;
pub use path::{Part, Path, PathFault, Place, QueryFault};
pub use report::{Row, Value};
pub use word::Word;
