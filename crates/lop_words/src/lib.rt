//! The words of the command line.
#![tactic(auto)]

mod command;
mod name;
mod options;
mod read;

pub use command::{Command, Format, WordsFault};
pub use name::NameWord;
pub use read::read_words;
