//! The outside of the solver: files, the standard output, lines and numbers.
#![tactic(auto)]

mod desk;
mod line;
mod memory;
mod number;
mod text;
mod whole;

pub use desk::{Desk, DeskFailed, OpenFault};
pub use line::{LINE_ROOM, Line, LineReader, LineStop};
pub use memory::{MemoryDesk, NamedBytes, has_distinct_names};
pub use number::{is_whole, plain_number, whole_number};
pub use text::{TEXT_ROOM, TextRoom};
pub use whole::{ReadStop, print_all, read_whole, write_all};
